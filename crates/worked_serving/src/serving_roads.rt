//! What serves a town through doors in memory: that workers run beside each other and beside the desk, that the gate is
//! passed, and what is answered when. Expected texts are this project's rules.

ghost use Rattle.std.specs.Prelude.{◌≡◌};
ghost use Rattle.snap_index.specs.Ends.{all_ends};

use crate::towns::{first_metric, grid, roads};
use customized::{Metric, Roads};
use flag_doors::{Flags, Told, gate_of, new_flags, push_conn, push_door, put_back};
use memory_doors::{FlagConn, FlagGate, MemDoors, QueueDoor};
use metric_publish::{Naming, Opened as History, open};
use road_io::{Door, Doors, Gate, MemConn};
use route_doors::serve;
use snap_index::Grid;
use std::alloc::{AllocError, Global};
use std::marker::Brand;
use std::net::{Net, TcpListener, TcpStream};
use std::process::Abort;
use std::sync::Wait;
use std::test::*;
use std::thread::Threads;

/// How much output a connection has room for.
const ROOM: usize = 1000;

/// A request for the nearest place, and the reply under the metric that was opened with.
const NEAREST: &[u8] = b"GET /nearest/v1/car/0,0 HTTP/1.1\r\nHost: a\r\n\r\n";

const NEAREST_REPLY: &[u8] =
    b"HTTP/1.1 200 OK\r\nContent-Type: application/json; charset=utf-8\r\nContent-Length: 118\r\nConnection: keep-alive\r\n\r\n{\"code\":\"Ok\",\"data_version\":\"0\",\"waypoints\":[{\"nodes\":[1,2],\"distance\":0.0,\"name\":\"\",\"location\":[0.000000,0.000000]}]}";

/// The same request, then one that asks for no older a metric than number 2, and the replies under that.
const NEAREST_SINCE: &[u8] =
    b"GET /nearest/v1/car/0,0 HTTP/1.1\r\nHost: a\r\n\r\nGET /nearest/v1/car/0,0?since=2 HTTP/1.1\r\nHost: a\r\n\r\n";

const SINCE_REPLIES: &[u8] =
    b"HTTP/1.1 200 OK\r\nContent-Type: application/json; charset=utf-8\r\nContent-Length: 118\r\n\
Connection: keep-alive\r\n\r\n{\"code\":\"Ok\",\"data_version\":\"2\",\"waypoints\":[{\"nodes\":[1,2],\
\"distance\":0.0,\"name\":\"\",\"location\":[0.000000,0.000000]}]}HTTP/1.1 200 OK\r\n\
Content-Type: application/json; charset=utf-8\r\nContent-Length: 118\r\nConnection: keep-alive\r\n\r\n\
{\"code\":\"Ok\",\"data_version\":\"2\",\"waypoints\":[{\"nodes\":[1,2],\"distance\":0.0,\"name\":\"\",\
\"location\":[0.000000,0.000000]}]}";

/// A request for a metric of one row.
const PUBLISH: &[u8] =
    b"POST /control/v1/metric?speeds=6 HTTP/1.1\r\nContent-Length: 6\r\n\r\n1,2,20";

/// The same, then a stop.
const PUBLISH_AND_STOP: &[u8] =
    b"POST /control/v1/metric?speeds=6 HTTP/1.1\r\nContent-Length: 6\r\n\r\n1,2,20POST /control/v1/stop HTTP/1.1\r\n\r\n";

// Two query doors, and a control door whose connections come once the first query has arrived at its gate: a metric,
// then a metric and a stop, then one that is never asked for. The second query comes once both are published.
fn doors_of(alloc: Global, flags: &Flags) -> Result<Box<MemDoors<FlagConn<MemConn>>>, AllocError> {
    let mut queries = Vec::new(alloc);
    push_door(
        alloc,
        &mut queries,
        NEAREST,
        ROOM,
        &flags.begun,
        &flags.other,
    )?;
    push_door(
        alloc,
        &mut queries,
        NEAREST_SINCE,
        ROOM,
        &flags.published,
        &flags.answered,
    )?;
    let mut control = Vec::new(alloc);
    push_conn(
        alloc,
        &mut control,
        PUBLISH,
        ROOM,
        &flags.arrived,
        &flags.other,
    )?;
    push_conn(
        alloc,
        &mut control,
        PUBLISH_AND_STOP,
        ROOM,
        &flags.begun,
        &flags.published,
    )?;
    push_conn(
        alloc,
        &mut control,
        PUBLISH,
        ROOM,
        &flags.begun,
        &flags.other,
    )?;
    let control = QueueDoor::of(alloc, control, Vec::new(alloc))?;
    let doors = MemDoors::of(alloc, queries, control, Vec::new(alloc));
    Ok(Box::new(alloc, doors)?)
}

// Serves these roads through doors that it opens and puts back.
fn serve_roads<
    N: Doors,
    G: Gate + Sync,
    J: Naming + Send + Sync,
    R: Threads + Wait + Net<Listener = TcpListener, Stream = TcpStream> + Sync,
>(
    rt: &R,
    alloc: Global,
    roads: &Roads,
    grid: &Grid,
    gate: &G,
    doors: &mut N,
    history: History<Metric>,
) -> Result<Told, Fail>
where
    N::Door: Send,
    <N::Door as Door>::Conn: Send,
    requires ends { grid.now ≡ all_ends roads.now.network.segments }
    requires book { history.seen.book ≡ J.book }
{
    let metric = first_metric(rt, alloc, roads)?;
    let (mut desk, mut seats) = open::<Metric, J, R>(rt, alloc, history, metric, 0, 2)?;
    let Ok(room) = Vec::with_capacity(alloc, 2) else {
        desk.end(rt);
        return Err(Fail::from("no room"));
    };
    let opened = match doors.open(rt, alloc, "a:1", "a:2", 2) {
        Ok(opened) => opened,
        Err(_) => {
            room.destroy_empty();
            desk.end(rt);
            return Err(Fail::from("no doors"));
        }
    };
    let served = serve(
        rt, alloc, roads, grid, gate, opened, &mut seats, room, &mut desk,
    );
    desk.end(rt);
    Ok(put_back(doors, served))
}

// Asserts that the connections that came through this door were all in time.
fn assert_in_time(rt: &impl Abort, door: &QueueDoor<FlagConn<MemConn>>) {
    for conn in door.finished() {
        assert!(rt; !conn.is_late());
    }
}

// Asserts the same, and the output of the first of them.
fn assert_reply(rt: &impl Abort, door: &QueueDoor<FlagConn<MemConn>>, reply: &[u8]) {
    assert_in_time(rt, door);
    let output = door.finished().first().map(|conn| conn.inner().output());
    assert_eq!(rt; output, Some(reply));
}

// Serves the town through these doors, and asserts what that leaves.
fn assert_told<
    J: Naming + Send + Sync,
    R: Threads + Wait + Abort + Net<Listener = TcpListener, Stream = TcpStream> + Sync,
>(
    rt: &R,
    alloc: Global,
    gate: &FlagGate,
    doors: &mut MemDoors<FlagConn<MemConn>>,
    history: History<Metric>,
) -> Result<(), Fail>
    requires { history.seen.book ≡ J.book }
{
    let roads = roads(alloc)?;
    let grid = grid(alloc, &roads)?;
    let told = serve_roads::<_, _, J, R>(rt, alloc, &roads, &grid, gate, doors, history)?;
    assert_eq!(rt;
        told,
        Told {
            connections: 4,
            metric: 2,
            short: false,
            spent: true
        }
    );
    Ok(())
}

// Asserts that all came in time through the doors that came back, and the replies of the query doors.
fn assert_replies(rt: &impl Abort, doors: &MemDoors<FlagConn<MemConn>>) -> Result<(), Fail> {
    let [set] = doors.returned() else {
        return Err(Fail::from("one set of doors"));
    };
    assert_in_time(rt, set.control());
    let [one, two] = set.queries() else {
        return Err(Fail::from("two query doors"));
    };
    assert_reply(rt, one, NEAREST_REPLY);
    assert_reply(rt, two, SINCE_REPLIES);
    Ok(())
}

// The first seat is held under number 0 until the second was answered under number 2.
#[test]
fn workers_answer_beside_each_other_and_beside_the_desk(rt: HostRuntime) -> Result<(), Fail> {
    let alloc = rt.alloc();
    let flags = new_flags(alloc)?;
    let mut doors = doors_of(alloc, &flags)?;
    let gate = gate_of(flags);
    assert_told::<Brand, HostRuntime>(&rt, alloc, &gate, &mut doors, History::new())?;
    assert!(rt; !gate.is_late());
    assert_replies(&rt, &doors)
}
