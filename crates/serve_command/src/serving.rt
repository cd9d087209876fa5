//! All that the command does, over what is handed in.

ghost use Rattle.std.specs.Prelude.{◌≡◌, ◌⊎◌, ◌∷◌, [], ◌<◌, ◌≤◌, ◌+◌, ◌^◌, All, OnErr, OnOk, length, map};
ghost use Rattle.std.specs.Arc.{arc_value};
ghost use Rattle.std.specs.Vec.{vec_len, vec_capacity};
ghost use Rattle.command_words.specs.Commands.{serving_seen};
ghost use Rattle.metric_publish.specs.Calls.{Each};
ghost use Rattle.metric_publish.specs.History.{entry};
ghost use Rattle.metric_publish.specs.Published.{published};
ghost use Rattle.control_port.specs.Controlling.{IsOn};
ghost use Rattle.road_io.specs.DoorOpening.{IsNewDoor};
ghost use Rattle.road_io.specs.Faults.{FilesRose, OutputRose, Rose};
ghost use Rattle.road_io.specs.Outside.{outside};
ghost use Rattle.road_io.specs.Told.{AppendsFront};
ghost use Rattle.road_io.specs.Views.{InputView};
ghost use Rattle.serve_command.specs.InnerEnds.{EndsOpened, EndsOver, EndsStarted};
ghost use Rattle.serve_command.specs.ServeEnding.{EndsServe, IsReady, asked_in, ready_line};
ghost use Rattle.serve_command.specs.Start.{IsOpening, start_bytes};
ghost use Rattle.snap_index.specs.Ends.{all_ends};

use crate::ending::{end_served, hand_back, take_back};
use crate::preparing::{Start, StartFiles, prepare, read_start};
use command_words::ServeWords;
use customized::Metric;
use door_workers::Post;
use map_loading::LoadFault;
use metric_publish::{DeskOf, Naming, Opened as History, Seat, open};
use program_ends::{end_exhausted, end_refused, end_unread};
use road_base::Status;
use road_io::{Door, Doors, DoorsFault, Failed, Files, Gate, Opened, Sink, put_all};
use route_doors::serve as serve_doors;
use std::alloc::Global;
use std::marker::Brand;
use std::net::{Net, TcpListener, TcpStream};
use std::sync::{Arc, Wait};
use std::thread::Threads;

/// The line once the doors are open.
const READY: &[u8] = b"ready\n";

// Puts this line.
fn put_ready<O: Sink>(output: &mut O) -> Result<(), Failed>
    ensures ready { OnOk result (IsReady (O.view output.old) (O.view output.new)) }
    ensures rose { OnErr result (OutputRose (O.view output.old) (O.view output.new)) }
    ensures part { OnErr result (AppendsFront (O.view output.old).written (O.view output.new).written ready_line) }
{
    put_all(output, READY)
}

// Serves doors that were opened, and gives them back.
fn serve_opened<
    J: Naming + Send + Sync,
    N: Doors,
    G: Gate + Sync,
    O: Sink,
    R: Threads + Wait + Sync,
>(
    rt: &R,
    alloc: Global,
    start: &Start,
    gate: &G,
    opened: Opened<N::Door, N::Closer>,
    seats: &mut Vec<Seat<Metric, J>>,
    room: Vec<Post<N::Door, Seat<Metric, J>>>,
    desk: &mut DeskOf<Metric, J>,
    doors: &mut N,
    output: &mut O,
) -> Status
where
    N::Door: Send,
    <N::Door as Door>::Conn: Send,
    requires as_many { vec_len seats.old ≡ vec_len opened.queries }
    requires few { vec_len opened.queries < 2 ^ 32 }
    requires empty { room.items ≡ [] }
    requires room { vec_len opened.queries ≤ vec_capacity room }
    requires new { All IsNewDoor (map N.Door.view opened.queries.items) }
    requires control_new { IsNewDoor (N.Door.view opened.control) }
    requires ends { start.now.grid ≡ all_ends start.now.roads.network.segments }
    requires on { IsOn start.now.roads (arc_value start.now.metric) }
    requires seats_begin { Each seats.old.items (λ s. s.seen.token.log ≡ entry 0 (arc_value start.now.metric) ∷ []) }
    requires desk_begins { published desk.old ≡ entry 0 (arc_value start.now.metric) ∷ [] }
    requires out { length opened.queries.items + 1 ≤ (N.Doors.view doors.old).out }
    ensures { EndsOpened result (length opened.queries.items) start.now.roads (entry 0 (arc_value start.now.metric) ∷ []) (O.view output.old) (O.view output.new) (N.Doors.view doors.old) (N.Doors.view doors.new) }
{
    match put_ready(output) {
        Ok(()) => {
            let served = serve_doors(
                rt,
                alloc,
                &start.roads,
                &start.grid,
                gate,
                opened,
                seats,
                room,
                desk,
            );
            let told = take_back(doors, served);
            end_served(output, told)
        }
        Err(_) => {
            room.destroy_empty();
            hand_back(doors, opened);
            Status::Outside
        }
    }
}

// Opens doors, and serves them.
fn serve_in<
    J: Naming + Send + Sync,
    N: Doors,
    G: Gate + Sync,
    O: Sink,
    R: Threads + Wait + Net<Listener = TcpListener, Stream = TcpStream> + Sync,
>(
    rt: &R,
    alloc: Global,
    what: &ServeWords<'_>,
    start: &Start,
    gate: &G,
    seats: &mut Vec<Seat<Metric, J>>,
    room: Vec<Post<N::Door, Seat<Metric, J>>>,
    desk: &mut DeskOf<Metric, J>,
    doors: &mut N,
    output: &mut O,
) -> Status
where
    N::Door: Send,
    <N::Door as Door>::Conn: Send,
    requires as_many { vec_len seats.old ≡ what.now.workers }
    requires empty { room.items ≡ [] }
    requires room { what.now.workers ≤ vec_capacity room }
    requires ends { start.now.grid ≡ all_ends start.now.roads.network.segments }
    requires on { IsOn start.now.roads (arc_value start.now.metric) }
    requires seats_begin { Each seats.old.items (λ s. s.seen.token.log ≡ entry 0 (arc_value start.now.metric) ∷ []) }
    requires desk_begins { published desk.old ≡ entry 0 (arc_value start.now.metric) ∷ [] }
    ensures { EndsStarted result (asked_in (serving_seen what.now)) start.now.roads (entry 0 (arc_value start.now.metric) ∷ []) (O.view output.old) (O.view output.new) (N.Doors.view doors.old) (N.Doors.view doors.new) }
{
    match doors.open(rt, alloc, what.listen, what.control, what.workers) {
        Ok(opened) => serve_opened(
            rt, alloc, start, gate, opened, seats, room, desk, doors, output,
        ),
        Err(DoorsFault::Failed) => {
            room.destroy_empty();
            Status::Outside
        }
        Err(DoorsFault::Memory) => {
            room.destroy_empty();
            end_exhausted(output)
        }
    }
}

// Takes the room for the doors' posts, and serves.
fn serve_from<
    J: Naming + Send + Sync,
    N: Doors,
    G: Gate + Sync,
    O: Sink,
    R: Threads + Wait + Net<Listener = TcpListener, Stream = TcpStream> + Sync,
>(
    rt: &R,
    alloc: Global,
    what: &ServeWords<'_>,
    start: &Start,
    gate: &G,
    seats: &mut Vec<Seat<Metric, J>>,
    desk: &mut DeskOf<Metric, J>,
    doors: &mut N,
    output: &mut O,
) -> Status
where
    N::Door: Send,
    <N::Door as Door>::Conn: Send,
    requires as_many { vec_len seats.old ≡ what.now.workers }
    requires ends { start.now.grid ≡ all_ends start.now.roads.network.segments }
    requires on { IsOn start.now.roads (arc_value start.now.metric) }
    requires seats_begin { Each seats.old.items (λ s. s.seen.token.log ≡ entry 0 (arc_value start.now.metric) ∷ []) }
    requires desk_begins { published desk.old ≡ entry 0 (arc_value start.now.metric) ∷ [] }
    ensures { EndsStarted result (asked_in (serving_seen what.now)) start.now.roads (entry 0 (arc_value start.now.metric) ∷ []) (O.view output.old) (O.view output.new) (N.Doors.view doors.old) (N.Doors.view doors.new) }
{
    match Vec::with_capacity(alloc, what.workers as usize) {
        Ok(room) => serve_in(
            rt, alloc, what, start, gate, seats, room, desk, doors, output,
        ),
        Err(_) => end_exhausted(output),
    }
}

// Opens a board with a seat for each worker, and serves from its first metric on.
fn serve_board<
    J: Naming + Send + Sync,
    N: Doors,
    G: Gate + Sync,
    O: Sink,
    R: Threads + Wait + Net<Listener = TcpListener, Stream = TcpStream> + Sync,
>(
    rt: &R,
    alloc: Global,
    what: &ServeWords<'_>,
    start: &Start,
    gate: &G,
    first: Arc<Metric>,
    history: History<Metric>,
    doors: &mut N,
    output: &mut O,
) -> Status
where
    N::Door: Send,
    <N::Door as Door>::Conn: Send,
    requires book { history.seen.book ≡ J.book }
    requires workers { 0 < what.now.workers }
    requires ends { start.now.grid ≡ all_ends start.now.roads.network.segments }
    requires on { IsOn start.now.roads (arc_value start.now.metric) }
    requires first { arc_value first ≡ arc_value start.now.metric }
    ensures { EndsStarted result (asked_in (serving_seen what.now)) start.now.roads (entry 0 (arc_value start.now.metric) ∷ []) (O.view output.old) (O.view output.new) (N.Doors.view doors.old) (N.Doors.view doors.new) }
{
    match open::<Metric, J, R>(rt, alloc, history, first, 0, what.workers) {
        Ok((desk, seats)) => {
            let mut desk = desk;
            let mut seats = seats;
            let status = serve_from(
                rt, alloc, what, start, gate, &mut seats, &mut desk, doors, output,
            );
            desk.end(rt);
            status
        }
        Err(_) => end_exhausted(output),
    }
}

// Serves what was prepared.
fn serve_start<
    N: Doors,
    G: Gate + Sync,
    O: Sink,
    R: Threads + Wait + Net<Listener = TcpListener, Stream = TcpStream> + Sync,
>(
    rt: &R,
    alloc: Global,
    what: &ServeWords<'_>,
    start: &Start,
    gate: &G,
    doors: &mut N,
    output: &mut O,
) -> Status
where
    N::Door: Send,
    <N::Door as Door>::Conn: Send,
    requires workers { 0 < what.now.workers }
    requires ends { start.now.grid ≡ all_ends start.now.roads.network.segments }
    requires on { IsOn start.now.roads (arc_value start.now.metric) }
    ensures { EndsStarted result (asked_in (serving_seen what.now)) start.now.roads (entry 0 (arc_value start.now.metric) ∷ []) (O.view output.old) (O.view output.new) (N.Doors.view doors.old) (N.Doors.view doors.new) }
{
    match Arc::try_clone(&start.metric) {
        Ok(first) => serve_board::<Brand, N, G, O, R>(
            rt,
            alloc,
            what,
            start,
            gate,
            first,
            History::new(),
            doors,
            output,
        ),
        Err(_) => end_exhausted(output),
    }
}

// Serves over the files that were read, or refuses them.
fn serve_over<
    N: Doors,
    G: Gate + Sync,
    O: Sink,
    R: Threads + Wait + Net<Listener = TcpListener, Stream = TcpStream> + Sync,
>(
    rt: &R,
    alloc: Global,
    what: &ServeWords<'_>,
    read: StartFiles,
    gate: &G,
    doors: &mut N,
    output: &mut O,
) -> Status
where
    N::Door: Send,
    <N::Door as Door>::Conn: Send,
    requires workers { 0 < what.now.workers }
    ensures { EndsOver result (asked_in (serving_seen what.now)) (start_bytes read.map.items read.settings.items read.speeds.items read.turns.items) (O.view output.old) (O.view output.new) (N.Doors.view doors.old) (N.Doors.view doors.new) }
{
    let StartFiles {
        map,
        settings,
        speeds,
        turns,
    } = read;
    match prepare(rt, alloc, map, &settings, &speeds, &turns) {
        Ok(start) => serve_start(rt, alloc, what, &start, gate, doors, output),
        Err(LoadFault::Refused(line)) => end_refused(output, line),
        Err(LoadFault::Memory) => end_exhausted(output),
    }
}

/// Serves a road network over doors at two addresses: queries at the one, each worker its own door, control at the
/// other.
///
/// The files of the words are read first: map, settings, and the rows of speeds and turns where they are named, in this
/// order. They are judged in the same order, and a refusal is status 3 on its line. Then the metric of the rows is
/// published under number 0, the doors are opened, and `ready` is printed; where that fails nothing is served, and the
/// doors go back at once. It serves until all query doors have ended, and a control connection asked for that or the
/// control door failed. Then the doors go back, and `connections N` and `metric M` are printed: how many connections
/// were finished, and the number of the last metric.
///
/// Status 0: no count of faults rose. 1: a file could not be read, the doors could not be opened, the output failed, or
/// a door counted a fault. 4: want of memory, outside of a reply. May wait.
pub fn serve<
    F: Files,
    O: Sink,
    N: Doors,
    G: Gate + Sync,
    R: Threads + Wait + Net<Listener = TcpListener, Stream = TcpStream> + Sync,
>(
    rt: &R,
    alloc: Global,
    what: &ServeWords<'_>,
    files: &mut F,
    output: &mut O,
    doors: &mut N,
    gate: &G,
) -> Status
where
    N::Door: Send,
    <N::Door as Door>::Conn: Send,
    requires workers { 0 < what.now.workers }
    ensures ends { (input : InputView) → EndsServe result (serving_seen what.now) (outside (F.view files.old) input (O.view output.old))
        (outside (F.view files.new) input (O.view output.new)) (N.Doors.view doors.old) (N.Doors.view doors.new) }
    ensures outside { result ≡ Status.Outside → FilesRose (F.view files.old) (F.view files.new) ⊎ (OutputRose (O.view output.old) (O.view output.new) ⊎ Rose (N.Doors.view doors.old).faults (N.Doors.view doors.new).faults) }
{
    match read_start(alloc, what, files) {
        Ok(read) => serve_over(rt, alloc, what, read, gate, doors, output),
        Err(unread) => end_unread(output, unread.name, unread.fault),
    }
}
