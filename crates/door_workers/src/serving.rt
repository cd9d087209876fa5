//! `serve` as its caller sees it: opened doors and seats in, doors with what they tell out.

ghost use Rattle.std.specs.Prelude.{◌≡◌, ◌<◌, ◌≤◌, ◌^◌, ◌+◌, ◌-◌, min, length, map, sum_by, [], All, List, Some, false};
ghost use Rattle.std.specs.List.{AllZip};
ghost use Rattle.std.specs.Vec.{vec_len, vec_capacity};
ghost use Rattle.left_right.specs.Sides.{view};
ghost use mathlib.Core.List.{IsPrefix};
ghost use Rattle.metric_publish.specs.Calls.{Each};
ghost use Rattle.road_io.specs.DoorOpening.{IsNewDoor};
ghost use Rattle.metric_publish.specs.declared.entry.Entry.{Entry};
ghost use Rattle.metric_publish.specs.History.{IsKin, IsRun, last_number};
ghost use Rattle.metric_publish.specs.Published.{published};
ghost use Rattle.door_workers.specs.Serving.{Answered, AnsweredUnder, Tended};
ghost use Rattle.door_workers.specs.Settling.{HasReadAll};

use crate::control_loop::ControlPost;
use crate::pairing::{pair, part};
use crate::post_service::{Told, serve_posts};
use crate::posts::Post;
use crate::sessions::{Controlling, Querying};
use crate::turns::End;
use metric_publish::{DeskOf, Kindred, Naming, Seat};
use road_io::{Closer, Door, DoorSet, Opened};
use std::sync::Wait;
use std::thread::Threads;

/// What serving left.
pub struct Served<D, K> {
    /// How many connections of all doors were finished; at 18446744073709551615 the count stands still.
    pub connections: u64,
    /// The number of the last publication.
    pub metric: u32,
    /// The doors, with what they tell.
    pub doors: DoorSet<D>,
    /// What closes the query doors, where that was not spent.
    pub closer: Option<K>,
    /// That a seat's last Enter found no memory.
    pub short: bool,
}

/// Serves all that comes through opened doors: query door i by a worker with seat i, each in a thread of its
/// own where one can be made, and the control door on the calling thread. It ends once all query doors have
/// ended, and the control door has ended too or a control connection asked to stop. Then each seat learns what
/// the desk tells and enters once more.
///
/// All transcripts are right under one list of publications, the desk's: the control connections lead to it
/// from the list before, one after another, and unless `short` each query connection meets its rule under it.
/// In any case each query door's connections meet their rule under some list, which begins with all that every
/// seat had begun with. The closer is spent exactly where a control connection asked to stop or the control
/// door's count of faults rose.
///
/// It takes no memory: `room` is the room for its posts. May wait.
pub fn serve<
    V: Kindred + Send + Sync,
    J: Naming + Send + Sync,
    Q: Querying<V> + Sync,
    C: Controlling<V>,
    D: Door + Send,
    K: Closer,
    R: Threads + Wait + Sync,
>(
    rt: &R,
    queries: &Q,
    controls: &C,
    opened: Opened<D, K>,
    seats: &mut Vec<Seat<V, J>>,
    room: Vec<Post<D, Seat<V, J>>>,
    desk: &mut DeskOf<V, J>,
) -> Served<D, K>
where
    D::Conn: Send,
    requires as_many { vec_len seats.old ≡ vec_len opened.queries }
    requires few { vec_len opened.queries < 2 ^ 32 }
    requires empty { room.items ≡ [] }
    requires room { vec_len opened.queries ≤ vec_capacity room }
    requires new { All IsNewDoor (map D.view opened.queries.items) }
    requires control_new { IsNewDoor (D.view opened.control) }
    requires fits { All (λ s. (x : V) → IsKin V.akin s.seen.token.log x → Q.fits queries.now x) seats.old.items }
    requires makes { (x : V) → C.makes controls.now x → IsKin V.akin (published desk.old) x }
    ensures control { Tended (C.rule controls.now) (published desk.old) (published desk.new) (D.view opened.control) (D.view result.doors.control) (Some opened.closer) result.closer }
    ensures all { result.short ≡ false → AllZip (λ d e. Answered d e (Q.rule queries.now (published desk.new))) (map D.view opened.queries.items) (map D.view result.doors.queries.items) }
    ensures each { (first : List (Entry V)) → All (λ s. IsPrefix first s.seen.token.log) seats.old.items → AllZip (λ d e. AnsweredUnder first d e (Q.rule queries.now)) (map D.view opened.queries.items) (map D.view result.doors.queries.items) }
    ensures doors { length result.doors.queries.items ≡ length opened.queries.items }
    ensures seats { vec_len seats.new ≡ vec_len seats.old }
    ensures learned { All (λ s. IsPrefix (published desk.new) s.learned.token.log) seats.new.items }
    ensures read { result.short ≡ false → Each seats.new.items (λ s. HasReadAll (published desk.new) s.seen.token.log (view s.reader.place).reads) }
    ensures metric { result.metric ≡ last_number (published desk.new) }
    ensures runs { IsRun (published desk.new) }
    ensures connections { result.connections ≡ min (sum_by (λ d. d.finished) (map D.view result.doors.queries.items) + (D.view result.doors.control).finished) (2 ^ 64 - 1) }
{
    let Opened {
        queries: query_doors,
        control: control_door,
        closer,
    } = opened;
    let mut doors = query_doors;
    let mut posts = room;
    pair(&mut doors, seats, &mut posts);
    let mut control = ControlPost {
        door: control_door,
        closer: Some(closer),
        connections: 0,
        end: End::UsedUp,
    };
    let told = serve_posts(rt, queries, controls, &mut posts, &mut control, desk);
    part(&mut posts, &mut doors, seats);
    posts.destroy_empty();
    let ControlPost {
        door,
        closer: left,
        connections: _,
        end: _,
    } = control;
    let Told {
        connections,
        metric,
        short,
    } = told;
    Served {
        connections,
        metric,
        doors: DoorSet {
            queries: doors,
            control: door,
        },
        closer: left,
        short,
    }
}
