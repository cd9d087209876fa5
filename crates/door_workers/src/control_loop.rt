//! The loop over the control door.

ghost use Rattle.std.specs.Prelude.{◌≡◌, ◌≤◌, false, List, Option, IsNone, ℕ};
ghost use Rattle.door_workers.specs.Leading.{TurnGives, TendGives};

use crate::sessions::{Controlling, Then};
use crate::turns::{End, Turn};
use metric_publish::{Kindred, Publishing};
use road_io::{Closer, Door};
use std::sync::Wait;
use std::thread::Threads;

/// Serves the next control connection.
pub fn control_next<
    V: Kindred,
    C: Controlling<V>,
    P: Publishing<V, R>,
    D: Door,
    R: Threads + Wait + Sync,
>(rt: &R, controls: &C, desk: &mut P, door: &mut D) -> Turn
    requires unended { (D.view door.old).ended ≡ false }
    requires finished { (D.view door.old).finished ≤ (D.view door.old).given }
    requires makes { (x : V) → C.makes controls.now x → P.kin desk.old x }
    ensures gives { TurnGives (C.rule controls.now) (P.list desk.old) (P.list desk.new) (D.view door.old) (D.view door.new) result }
    ensures kin_stays { (x : V) → P.kin desk.old x → P.kin desk.new x }
{
    match door.next() {
        Ok(Some(mut conn)) => {
            let then = controls.control(rt, desk, &mut conn);
            door.finish(conn);
            match then {
                Then::GoOn => Turn::Served,
                Then::Stop => Turn::Last(End::Stopped),
            }
        }
        Ok(None) => Turn::Last(End::UsedUp),
        Err(_) => Turn::Last(End::Broken),
    }
}

// Spends the closer.
fn close<K: Closer>(closer: &mut Option<K>)
    ensures { IsNone closer.new }
{
    if let Some(closer) = closer.take() {
        closer.close();
    }
}

/// Serves control connections until one asks to stop or the door ends, and returns how many. A stop, and a
/// door that failed, closes the query doors. May wait.
pub fn control_all<
    V: Kindred,
    C: Controlling<V>,
    P: Publishing<V, R>,
    D: Door,
    K: Closer,
    R: Threads + Wait + Sync,
>(rt: &R, controls: &C, desk: &mut P, door: &mut D, closer: &mut Option<K>) -> (u64, End)
    requires unended { (D.view door.old).ended ≡ false }
    requires finished { (D.view door.old).finished ≤ (D.view door.old).given }
    requires makes { (x : V) → C.makes controls.now x → P.kin desk.old x }
    ensures gives { TendGives (C.rule controls.now) (P.list desk.old) (P.list desk.new) (D.view door.old) (D.view door.new) closer.old closer.new result.0 result.1 }
    ensures kin_stays { (x : V) → P.kin desk.old x → P.kin desk.new x }
{
    let mut connections = 0u64;
    for _ in rt.forever() {
        match control_next(rt, controls, desk, door) {
            Turn::Served => connections = connections.saturating_add(1),
            Turn::Last(End::Stopped) => {
                close(closer);
                return (connections.saturating_add(1), End::Stopped);
            }
            Turn::Last(End::UsedUp) => return (connections, End::UsedUp),
            Turn::Last(End::Broken) => {
                close(closer);
                return (connections, End::Broken);
            }
        }
    }
    unreachable!()
}

/// The control door, what closes the query doors while it is not spent, how many connections were served,
/// and how the loop ended.
pub struct ControlPost<D, K> {
    pub door: D,
    pub closer: Option<K>,
    pub connections: u64,
    pub end: End,
}

/// Serves the control connections of a post.
pub fn control_at<
    V: Kindred,
    C: Controlling<V>,
    P: Publishing<V, R>,
    D: Door,
    K: Closer,
    R: Threads + Wait + Sync,
>(rt: &R, controls: &C, desk: &mut P, post: &mut ControlPost<D, K>)
    requires unended { (D.view post.old.door).ended ≡ false }
    requires finished { (D.view post.old.door).finished ≤ (D.view post.old.door).given }
    requires makes { (x : V) → C.makes controls.now x → P.kin desk.old x }
    ensures { TendGives (C.rule controls.now) (P.list desk.old) (P.list desk.new) (D.view post.old.door) (D.view post.new.door) post.old.closer post.new.closer post.new.connections post.new.end }
{
    let (connections, end) = control_all(rt, controls, desk, &mut post.door, &mut post.closer);
    post.connections = connections;
    post.end = end;
}
