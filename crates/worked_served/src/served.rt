//! The command `serve` over doors in memory.

ghost use Rattle.std.specs.Prelude.{All, IfOk};
ghost use Rattle.road_io.specs.DoorOpening.{IsNewDoor};
ghost use Rattle.road_io.specs.MemoryStates.{conn_state};
ghost use Rattle.road_io.specs.Views.{IsFreshConn};

use flag_doors::flag;
use memory_doors::{Flag, FlagConn, FlagGate, MemDoors, QueueDoor};
use road_io::{Conn, Gate, MemConn, MemSink, MemSource, OpenGate};
use road_run::run;
use run_cases::{Case, Fault, files, input_of, output_of, words};
use std::alloc::{AllocError, Global};
use std::net::{Net, TcpListener, TcpStream};
use std::sync::{Arc, Wait};
use std::thread::Threads;

/// Two requests, and the replies to them.
pub(crate) const ASKED: &[u8] =
    b"GET /nearest/v1/car/0,0 HTTP/1.1\r\nHost: a\r\n\r\nGET /nearest/v1/car/0,0 HTTP/1.1\r\nHost: a\r\n\r\n";

pub(crate) const REPLIES: &[u8] =
    b"HTTP/1.1 200 OK\r\nContent-Type: application/json; charset=utf-8\r\nContent-Length: 118\r\n\
Connection: keep-alive\r\n\r\n{\"code\":\"Ok\",\"data_version\":\"0\",\"waypoints\":[{\"nodes\":[1,2],\
\"distance\":0.0,\"name\":\"\",\"location\":[0.000000,0.000000]}]}HTTP/1.1 200 OK\r\n\
Content-Type: application/json; charset=utf-8\r\nContent-Length: 118\r\nConnection: keep-alive\r\n\r\n\
{\"code\":\"Ok\",\"data_version\":\"0\",\"waypoints\":[{\"nodes\":[1,2],\"distance\":0.0,\"name\":\"\",\
\"location\":[0.000000,0.000000]}]}";

/// A request to stop, and the reply to it.
pub(crate) const STOP: &[u8] = b"POST /control/v1/stop HTTP/1.1\r\nHost: a\r\n\r\n";

const STOPPING: &[u8] =
    b"HTTP/1.1 200 OK\r\nContent-Type: application/json; charset=utf-8\r\nContent-Length: 29\r\nConnection: close\r\n\r\n{\"code\":\"Ok\",\"stopping\":true}";

// How many turns a wait for a flag takes at most.
const TURNS: u64 = 1_000_000;

pub(crate) const ONE_WORKER: &str =
    "serve town.opl settings.toml --listen a:1 --control a:2 --workers 1 --segment-speed-file speeds.csv";

const TWO_WORKERS: &str = "serve town.opl settings.toml --listen a:1 --control a:2 --workers 2";

// A run to serve the town by these words.
pub(crate) fn over_doors(words: &str) -> Case<'_> {
    Case {
        words,
        ..Case::over_town(b"")
    }
}

// A connection with this input. A `take` of it may fail, or a `reply`, by which it puts.
fn connection(alloc: Global, input: &[u8], fault: Fault<'_>) -> Result<MemConn, AllocError>
    ensures { IfOk result (λ c. IsFreshConn (conn_state c)) }
{
    let takes = fault.of(alloc, "take")?;
    let replies = fault.of(alloc, "reply")?;
    let source = MemSource::of(Vec::from_slice(alloc, input)?, Vec::new(alloc), takes);
    Ok(MemConn::of(source, MemSink::of(alloc, 4096, replies)?))
}

// A door that this connection comes through. The calls of these numbers fail.
fn door_of<C: Conn + Drop>(
    alloc: Global,
    conn: C,
    failing: Vec<u64>,
) -> Result<QueueDoor<C>, AllocError>
    requires { IsFreshConn (C.state conn) }
    ensures { IfOk result IsNewDoor }
{
    let mut connections = Vec::new(alloc);
    connections.push(conn)?;
    QueueDoor::of(alloc, connections, failing)
}

// A door that two requests come through. An `accept` of it may fail.
fn query_door(alloc: Global, fault: Fault<'_>) -> Result<QueueDoor<MemConn>, AllocError>
    ensures { IfOk result IsNewDoor }
{
    let accepts = fault.of(alloc, "accept")?;
    door_of(alloc, connection(alloc, ASKED, fault)?, accepts)
}

// These doors for queries, and one for control through which nothing comes, whose accept may fail as a `control`. An
// `open` of all of them may fail too.
fn doors_of(
    alloc: Global,
    queries: Vec<QueueDoor<MemConn>>,
    fault: Fault<'_>,
) -> Result<Box<MemDoors<MemConn>>, AllocError>
    requires { All IsNewDoor queries.items }
{
    let openings = fault.of(alloc, "open")?;
    let accepts = fault.of(alloc, "control")?;
    let control = QueueDoor::of(alloc, Vec::new(alloc), accepts)?;
    let doors = MemDoors::of(alloc, queries, control, openings);
    Ok(Box::new(alloc, doors)?)
}

// Doors with one for queries.
pub(crate) fn one_door(
    alloc: Global,
    fault: Fault<'_>,
) -> Result<Box<MemDoors<MemConn>>, AllocError> {
    let mut queries = Vec::new(alloc);
    queries.push(query_door(alloc, fault)?)?;
    doors_of(alloc, queries, fault)
}

// Serves doors by the words of a case, and tells how that ends and what is put.
pub(crate) fn served<
    C: Conn + Drop + Send,
    G: Gate + Sync,
    R: Threads + Wait + Net<Listener = TcpListener, Stream = TcpStream> + Sync,
>(
    rt: &R,
    alloc: Global,
    case: Case<'_>,
    doors: &mut MemDoors<C>,
    gate: &G,
) -> Result<String, AllocError> {
    let words = words(alloc, case.words)?;
    let mut files = files(alloc, case)?;
    let mut input = input_of(alloc, case)?;
    let mut output = output_of(alloc, case)?;
    let status = run(
        rt,
        alloc,
        words.as_slice(),
        &mut files,
        &mut input,
        &mut output,
        doors,
        gate,
    );
    let told = std::str::from_utf8(output.as_bytes()).unwrap_or("");
    format!(in alloc; "{status:?} {told}")
}

// Whether the doors are back, and one connection is finished at the one for queries.
fn one_is_finished(doors: &MemDoors<MemConn>) -> bool {
    matches!(doors.returned(), [set] if matches!(set.queries(), [one] if one.finished().len() == 1))
}

#[test]
fn a_connection_is_served_under_the_metric_of_the_start(rt: HostRuntime) -> Result<(), AllocError> {
    let mut doors = one_door(rt.alloc(), Fault::none())?;
    let told = served(
        &rt,
        rt.alloc(),
        over_doors(ONE_WORKER),
        &mut *doors,
        &OpenGate,
    )?;
    assert_eq!(rt; told.as_str(), "Ok ready\nconnections 1\nmetric 0\n");
    assert!(rt; one_is_finished(&doors));
    Ok(())
}

#[test]
fn a_faulty_row_of_the_start_opens_no_door(rt: HostRuntime) -> Result<(), AllocError> {
    let mut doors = one_door(rt.alloc(), Fault::none())?;
    let faulty = Case {
        rows: b"1,2,20\n2,3,20\n1,2,-5",
        ..over_doors(ONE_WORKER)
    };
    let told = served(&rt, rt.alloc(), faulty, &mut *doors, &OpenGate)?;
    assert_eq!(rt; told.as_str(), "Refused speeds row 3 BadNumber\n");
    assert!(rt; doors.returned().is_empty());
    Ok(())
}

// Doors with two for queries, of which the first fails at once.
fn two_doors(alloc: Global) -> Result<Box<MemDoors<MemConn>>, AllocError> {
    let first = Fault {
        kind: "accept",
        number: 1,
    };
    let mut queries = Vec::new(alloc);
    queries.push(query_door(alloc, first)?)?;
    queries.push(query_door(alloc, Fault::none())?)?;
    doors_of(alloc, queries, Fault::none())
}

#[test]
fn beside_a_door_that_fails_the_other_goes_on(rt: HostRuntime) -> Result<(), AllocError> {
    let mut doors = two_doors(rt.alloc())?;
    let told = served(
        &rt,
        rt.alloc(),
        over_doors(TWO_WORKERS),
        &mut *doors,
        &OpenGate,
    )?;
    assert_eq!(rt; told.as_str(), "Outside ready\nconnections 1\nmetric 0\n");
    Ok(())
}

// A connection that waits for one flag, and sets another behind so many bytes of output.
fn flag_conn(
    alloc: Global,
    input: &[u8],
    wait: &Arc<Flag>,
    set: &Arc<Flag>,
    after: u64,
) -> Result<FlagConn<MemConn>, AllocError>
    ensures { IfOk result (λ c. IsFreshConn (conn_state c.conn)) }
{
    let conn = connection(alloc, input, Fault::none())?;
    Ok(FlagConn::of(
        conn,
        Arc::try_clone(wait)?,
        TURNS,
        Arc::try_clone(set)?,
        after,
    ))
}

// A door that such a connection comes through.
fn flag_door(
    alloc: Global,
    input: &[u8],
    wait: &Arc<Flag>,
    set: &Arc<Flag>,
    after: u64,
) -> Result<QueueDoor<FlagConn<MemConn>>, AllocError>
    ensures { IfOk result IsNewDoor }
{
    door_of(
        alloc,
        flag_conn(alloc, input, wait, set, after)?,
        Vec::new(alloc),
    )
}

// Doors with one for queries, which come at once, and one for control, through which a stop comes once one flag is set;
// the whole reply to it sets the other.
fn stopping_doors(
    alloc: Global,
    arrived: &Arc<Flag>,
    stopped: &Arc<Flag>,
) -> Result<Box<MemDoors<FlagConn<MemConn>>>, AllocError> {
    let begun = flag(alloc)?;
    begun.set();
    let mut queries = Vec::new(alloc);
    queries.push(flag_door(alloc, ASKED, &begun, &begun, 1)?)?;
    let control = flag_door(alloc, STOP, arrived, stopped, STOPPING.len() as u64)?;
    let doors = MemDoors::of(alloc, queries, control, Vec::new(alloc));
    Ok(Box::new(alloc, doors)?)
}

// Whether one connection came through this door, in time, and has this output.
fn is_in_time(door: &QueueDoor<FlagConn<MemConn>>, output: &[u8]) -> bool {
    matches!(door.finished(), [conn] if !conn.is_late() && conn.inner().output() == output)
}

// Whether both connections of these doors were in time, and have their replies whole.
fn are_in_time(doors: &MemDoors<FlagConn<MemConn>>) -> bool {
    matches!(
        doors.returned(),
        [set] if is_in_time(set.control(), STOPPING)
            && matches!(set.queries(), [one] if is_in_time(one, REPLIES))
    )
}

// The first seat is held until the reply to a stop was put whole.
#[test]
fn a_stop_lets_a_held_connection_end_by_its_input(rt: HostRuntime) -> Result<(), AllocError> {
    let arrived = flag(rt.alloc())?;
    let stopped = flag(rt.alloc())?;
    let mut doors = stopping_doors(rt.alloc(), &arrived, &stopped)?;
    let gate = FlagGate::of(0, 0, arrived, stopped, TURNS);
    let told = served(&rt, rt.alloc(), over_doors(ONE_WORKER), &mut *doors, &gate)?;
    assert_eq!(rt; told.as_str(), "Ok ready\nconnections 2\nmetric 0\n");
    assert!(rt; !gate.is_late() && are_in_time(&doors));
    Ok(())
}
