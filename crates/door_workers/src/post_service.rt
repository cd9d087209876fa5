//! What the workers, the control loop and the last Enters come to together.

ghost use Rattle.std.specs.Prelude.{◌≡◌, ◌+◌, ◌-◌, ◌^◌, min, sum_by, All, false};
ghost use Rattle.std.specs.List.{AllZip};
ghost use Rattle.left_right.specs.Sides.{view};
ghost use mathlib.Core.List.{IsPrefix};
ghost use Rattle.metric_publish.specs.Calls.{Each};
ghost use Rattle.road_io.specs.DoorOpening.{IsNewDoor};
ghost use Rattle.door_workers.specs.Passing.{GoneToEnd};
ghost use Rattle.door_workers.specs.Leading.{TendGives};
ghost use Rattle.door_workers.specs.Serving.{AnsweredAt};
ghost use Rattle.door_workers.specs.Settling.{HasReadAll};
ghost use Rattle.metric_publish.specs.History.{IsKin, IsRun, last_number};
ghost use Rattle.metric_publish.specs.Published.{published};

use crate::control_loop::ControlPost;
use crate::posts::Post;
use crate::sessions::{Controlling, Querying};
use crate::settling::{connections, settle_all};
use crate::side_by_side::serve_doors;
use metric_publish::{DeskOf, Kindred, Naming, Seat};
use road_io::{Closer, Door};
use std::sync::Wait;
use std::thread::Threads;

/// What serving came to.
#[derive(Clone, Copy, Debug, PartialEq, Eq)]
pub struct Told {
    /// How many connections of all doors were finished.
    pub connections: u64,
    /// The number of the last publication.
    pub metric: u32,
    /// That a seat's last Enter found no memory.
    pub short: bool,
}

/// Serves the posts beside the control door, until the query doors have ended and the control door has ended
/// too or a control connection asked to stop; then settles the seats.
pub fn serve_posts<
    V: Kindred + Send + Sync,
    J: Naming + Send + Sync,
    Q: Querying<V> + Sync,
    C: Controlling<V>,
    D: Door + Send,
    K: Closer,
    R: Threads + Wait + Sync,
>(
    rt: &R,
    queries: &Q,
    controls: &C,
    posts: &mut Vec<Post<D, Seat<V, J>>>,
    control: &mut ControlPost<D, K>,
    desk: &mut DeskOf<V, J>,
) -> Told
where
    D::Conn: Send,
    requires new { All (λ p. IsNewDoor (D.view p.door)) posts.old.items }
    requires fits { All (λ p. (x : V) → IsKin V.akin p.seat.seen.token.log x → Q.fits queries.now x) posts.old.items }
    requires control_new { IsNewDoor (D.view control.old.door) }
    requires makes { (x : V) → C.makes controls.now x → IsKin V.akin (published desk.old) x }
    ensures control { TendGives (C.rule controls.now) (published desk.old) (published desk.new) (D.view control.old.door) (D.view control.new.door) control.old.closer control.new.closer control.new.connections control.new.end }
    ensures posts { AllZip (λ p q. AnsweredAt (Q.rule queries.now) (D.view p.door) (D.view q.door) p.seat.seen.token.log q.seat.seen.token.log q.connections) posts.old.items posts.new.items }
    ensures all { result.short ≡ false → AllZip (λ p q. GoneToEnd (D.view p.door) (D.view q.door) (Q.rule queries.now (published desk.new)) q.connections) posts.old.items posts.new.items }
    ensures learned { All (λ q. IsPrefix (published desk.new) q.seat.learned.token.log) posts.new.items }
    ensures read { result.short ≡ false → Each posts.new.items (λ q. HasReadAll (published desk.new) q.seat.seen.token.log (view q.seat.reader.place).reads) }
    ensures metric { result.metric ≡ last_number (published desk.new) }
    ensures runs { IsRun (published desk.new) }
    ensures connections { result.connections ≡ min (sum_by (λ p. (D.view p.door).finished) posts.new.items + (D.view control.new.door).finished) (2 ^ 64 - 1) }
{
    serve_doors(rt, queries, controls, posts, control, desk);
    let settled = settle_all(desk, posts);
    Told {
        connections: connections(posts, control.connections),
        metric: desk.number(),
        short: !settled,
    }
}
