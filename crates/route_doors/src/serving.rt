//! Serving over opened doors.

ghost use Rattle.std.specs.Prelude.{◌≡◌, ◌⊎◌, ◌↔◌, ◌<◌, ◌≤◌, ◌^◌, ◌+◌, ◌-◌, min, length, map, sum_by, [], All, IsNone, IfSome, false};
ghost use Rattle.std.specs.Vec.{vec_len, vec_capacity};
ghost use Rattle.left_right.specs.Sides.{view};
ghost use mathlib.Core.List.{IsPrefix};
ghost use Rattle.control_port.specs.Controlling.{Board};
ghost use Rattle.door_workers.specs.Settling.{HasReadAll};
ghost use Rattle.metric_publish.specs.Calls.{Each};
ghost use Rattle.metric_publish.specs.History.{IsRun, last_number};
ghost use Rattle.metric_publish.specs.Published.{published};
ghost use Rattle.road_io.specs.DoorOpening.{IsNewDoor, door_set};
ghost use Rattle.road_io.specs.Faults.{Rose};
ghost use Rattle.route_doors.specs.RoadDoors.{BeginsOn, IsServed, IsServedApart};
ghost use Rattle.snap_index.specs.Ends.{all_ends};

use crate::sessions::{Controls, Queries};
use customized::{Metric, Roads};
use door_workers::{Post, Served};
use metric_publish::{DeskOf, Naming, Seat};
use road_io::{Closer, Door, Gate, Opened};
use snap_index::Grid;
use std::alloc::Global;
use std::sync::Wait;
use std::thread::Threads;

/// Serves all that comes through opened doors: query door i by a worker with seat i, each in a thread of its own
/// where one can be made, and the control door on the calling thread. The requests of query connections are answered
/// by `answer` of `reply_core` under the metrics that their seat enters, each behind the gate, which is passed under
/// the number of the door; those of control connections are carried out on the desk. Roads, grid, desk and seats are
/// of one road network.
///
/// It ends once all query doors have ended, and the control door has ended too or a control connection ended in a
/// stop. Then each seat learns what the desk tells and enters once more; `short` where one found no memory for that.
///
/// All transcripts are right under one list of publications, the desk's at the end: the control connections lead to
/// it from the list before, one behind the other, and unless `short` each query connection is answered under it. In
/// any case those of a query door are answered under one list, which begins with all that every seat had begun
/// with. What closes the query doors is spent exactly where a control connection ended in a stop, behind which the
/// control door has not ended, or where the control door's count of faults rose.
///
/// Memory that runs out is told in the replies. `room` is the room for a post per query door. May wait.
pub fn serve<
    J: Naming + Send + Sync,
    G: Gate + Sync,
    D: Door + Send,
    K: Closer,
    R: Threads + Wait + Sync,
>(
    rt: &R,
    alloc: Global,
    roads: &Roads,
    grid: &Grid,
    gate: &G,
    opened: Opened<D, K>,
    seats: &mut Vec<Seat<Metric, J>>,
    room: Vec<Post<D, Seat<Metric, J>>>,
    desk: &mut DeskOf<Metric, J>,
) -> Served<D, K>
where
    D::Conn: Send,
    requires as_many { vec_len seats.old ≡ vec_len opened.queries }
    requires few { vec_len opened.queries < 2 ^ 32 }
    requires empty { room.items ≡ [] }
    requires room { vec_len opened.queries ≤ vec_capacity room }
    requires new { All IsNewDoor (map D.view opened.queries.items) }
    requires control_new { IsNewDoor (D.view opened.control) }
    requires ends { grid.now ≡ all_ends roads.now.network.segments }
    requires seats_begin { All (λ s. BeginsOn roads.now s.seen.token.log) seats.old.items }
    requires desk_begins { BeginsOn roads.now (published desk.old) }
    ensures served { result.short ≡ false → IsServed roads.now (published desk.old) (published desk.new) (door_set (map D.view result.doors.queries.items) (D.view result.doors.control)) }
    ensures apart { (opening : Board) → All (λ s. IsPrefix opening s.seen.token.log) seats.old.items → IsServedApart roads.now opening (published desk.old) (published desk.new) (door_set (map D.view result.doors.queries.items) (D.view result.doors.control)) }
    ensures spent { IsNone result.closer ↔ (((D.view result.doors.control).ended ≡ false) ⊎ Rose 0 (D.view result.doors.control).faults) }
    ensures kept { IfSome result.closer (λ closer. closer ≡ opened.closer) }
    ensures doors { length result.doors.queries.items ≡ length opened.queries.items }
    ensures seats { vec_len seats.new ≡ vec_len seats.old }
    ensures learned { All (λ s. IsPrefix (published desk.new) s.learned.token.log) seats.new.items }
    ensures read { result.short ≡ false → Each seats.new.items (λ s. HasReadAll (published desk.new) s.seen.token.log (view s.reader.place).reads) }
    ensures metric { result.metric ≡ last_number (published desk.new) }
    ensures runs { IsRun (published desk.new) }
    ensures connections { result.connections ≡ min (sum_by (λ d. d.finished) (map D.view result.doors.queries.items) + (D.view result.doors.control).finished) (2 ^ 64 - 1) }
{
    let queries = Queries { alloc, gate, grid };
    let controls = Controls { alloc, roads };
    door_workers::serve(rt, &queries, &controls, opened, seats, room, desk)
}
