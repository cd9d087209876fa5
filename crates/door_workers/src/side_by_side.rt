//! The workers beside the desk.

ghost use Rattle.std.specs.Prelude.{◌≡◌, ◌≤◌, All, false};
ghost use Rattle.std.specs.List.{AllZip};
ghost use Rattle.road_io.specs.DoorOpening.{IsNewDoor};
ghost use Rattle.door_workers.specs.Serving.{AnsweredAt};
ghost use Rattle.door_workers.specs.Leading.{TendGives};

use crate::control_loop::{ControlPost, control_at};
use crate::posts::{Post, answer_everywhere};
use crate::sessions::{Controlling, Querying};
use metric_publish::{Kindred, Publishing, Reading};
use road_io::{Closer, Door};
use std::sync::Wait;
use std::thread::{Threads, join_mut};

/// Serves the posts, each in a thread of its own where one can be made, beside the control door, which stays
/// on the calling thread. The two kinds of door have a parameter each: what two threads hold may not name one
/// parameter.
pub fn serve_doors<
    V: Kindred + Send + Sync,
    Q: Querying<V> + Sync,
    C: Controlling<V>,
    S: Reading<V> + Send,
    P: Publishing<V, R>,
    D: Door + Send,
    E: Door,
    K: Closer,
    R: Threads + Wait + Sync,
>(
    rt: &R,
    queries: &Q,
    controls: &C,
    posts: &mut Vec<Post<D, S>>,
    control: &mut ControlPost<E, K>,
    desk: &mut P,
)
where
    D::Conn: Send,
    requires new { All (λ p. IsNewDoor (D.view p.door)) posts.old.items }
    requires fits { All (λ p. (x : V) → S.kin p.seat x → Q.fits queries.now x) posts.old.items }
    requires control_new { IsNewDoor (E.view control.old.door) }
    requires makes { (x : V) → C.makes controls.now x → P.kin desk.old x }
    ensures posts { AllZip (λ p q. AnsweredAt (Q.rule queries.now) (D.view p.door) (D.view q.door) (S.seen p.seat) (S.seen q.seat) q.connections) posts.old.items posts.new.items }
    ensures control { TendGives (C.rule controls.now) (P.list desk.old) (P.list desk.new) (E.view control.old.door) (E.view control.new.door) control.old.closer control.new.closer control.new.connections control.new.end }
{
    let ((), ()) = join_mut(
        rt,
        &mut ||
            requires { All (λ p. IsNewDoor (D.view p.door)) posts.now.items × All (λ p. (x : V) → S.kin p.seat x → Q.fits queries.now x) posts.now.items }
            ensures { AllZip (λ p q. AnsweredAt (Q.rule queries.entry.now) (D.view p.door) (D.view q.door) (S.seen p.seat) (S.seen q.seat) q.connections) posts.entry.now.items posts.exit.now.items }
        { answer_everywhere(rt, queries, posts) },
        &mut ||
            requires { ((E.view control.now.door).ended ≡ false) × ((E.view control.now.door).finished ≤ (E.view control.now.door).given) × ((x : V) → C.makes controls.now x → P.kin desk.now x) }
            ensures { TendGives (C.rule controls.entry.now) (P.list desk.entry.now) (P.list desk.exit.now) (E.view control.entry.now.door) (E.view control.exit.now.door) control.entry.now.closer control.exit.now.closer control.exit.now.connections control.exit.now.end }
        { control_at(rt, controls, desk, control) },
    );
}
