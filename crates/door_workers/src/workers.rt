//! A worker serves one door.

ghost use Rattle.std.specs.Prelude.{◌≡◌, ◌≤◌, false, List};
ghost use mathlib.Core.List.{IsPrefix};
ghost use Rattle.door_workers.specs.Passing.{PassesOne, GoneToEnd};

use crate::sessions::Querying;
use metric_publish::Reading;
use road_io::Door;
use std::sync::Wait;
use std::thread::Threads;

/// Serves the next connection of a door. `false`: the door has ended.
pub fn answer_next<V: Drop, Q: Querying<V>, S: Reading<V>, D: Door, R: Threads + Sync>(
    rt: &R,
    queries: &Q,
    id: u32,
    seat: &mut S,
    door: &mut D,
) -> bool
    requires unended { (D.view door.old).ended ≡ false }
    requires finished { (D.view door.old).finished ≤ (D.view door.old).given }
    requires fits { (x : V) → S.kin seat.old x → Q.fits queries.now x }
    ensures passes { PassesOne (D.view door.old) (D.view door.new) (Q.rule queries.now (S.seen seat.new)) result }
    ensures seen { IsPrefix (S.seen seat.old) (S.seen seat.new) }
    ensures kin_stays { (x : V) → S.kin seat.new x → S.kin seat.old x }
{
    match door.next() {
        Ok(Some(mut conn)) => {
            queries.answer(rt, id, seat, &mut conn);
            door.finish(conn);
            true
        }
        Ok(None) => false,
        Err(_) => false,
    }
}

/// Serves the connections of a door to its end, and returns how many. May wait.
pub fn answer_all<V: Drop, Q: Querying<V>, S: Reading<V>, D: Door, R: Threads + Wait + Sync>(
    rt: &R,
    queries: &Q,
    id: u32,
    seat: &mut S,
    door: &mut D,
) -> u64
    requires unended { (D.view door.old).ended ≡ false }
    requires finished { (D.view door.old).finished ≤ (D.view door.old).given }
    requires fits { (x : V) → S.kin seat.old x → Q.fits queries.now x }
    ensures gone { GoneToEnd (D.view door.old) (D.view door.new) (Q.rule queries.now (S.seen seat.new)) result }
    ensures seen { IsPrefix (S.seen seat.old) (S.seen seat.new) }
    ensures kin_stays { (x : V) → S.kin seat.new x → S.kin seat.old x }
{
    let mut count = 0u64;
    for _ in rt.forever() {
        if !answer_next(rt, queries, id, seat, door) {
            return count;
        }
        count = count.saturating_add(1);
    }
    unreachable!()
}
