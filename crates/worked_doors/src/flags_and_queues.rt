//! What no clause says: that the calls succeed with ample memory, in which order connections and doors come, and
//! what the flags hold and set.

ghost use Rattle.std.specs.Prelude.{◌≤◌, All, IfOk};
ghost use Rattle.road_io.specs.DoorOpening.{IsNewDoor};
ghost use Rattle.road_io.specs.MemoryStates.{conn_state};
ghost use Rattle.road_io.specs.Views.{IsFreshConn};
ghost use Rattle.memory_doors.specs.SteadyState.{steady_state};

use flag_doors::{connection, flag};
use memory_doors::{
    Flag, FlagConn, FlagGate, MemDoors, QueueDoor, SteadyConn, SteadyDoor, SteadyDoors,
};
use road_io::{Closer, Door, Doors, DoorsFault, Gate, MemConn, Opened, Sink, Source};
use std::alloc::{AllocError, Global};
use std::net::{Net, TcpListener, TcpStream};
use std::process::Abort;
use std::sync::Arc;

const TURNS: u64 = 1000;

/// How much output a connection has room for.
const ROOM: usize = 8;

// Takes one byte of the next connection, puts it, and finishes the connection.
fn echo_one<D: Door>(door: &mut D) -> Option<u8>
    requires { (D.view door.old).finished ≤ (D.view door.old).given }
    ensures { (D.view door.new).finished ≤ (D.view door.new).given }
{
    match door.next() {
        Ok(Some(mut conn)) => {
            let mut byte = [0_u8; 1];
            let taken = conn.take(&mut byte);
            let put = conn.put(&byte);
            door.finish(conn);
            if taken == Ok(1) && put == Ok(1) {
                Some(byte[0])
            } else {
                None
            }
        }
        _ => None,
    }
}

// Asserts that two connections come through a door in order, and that it ends by a fault.
fn assert_in_order(rt: &impl Abort, door: &mut QueueDoor<MemConn>)
    requires { door.old.finished ≤ door.old.given }
{
    assert_eq!(rt; echo_one(door), Some(b'a'));
    assert_eq!(rt; echo_one(door), Some(b'b'));
    assert!(rt; !door.has_fault());
    assert_eq!(rt; echo_one(door), None);
    assert!(rt; door.has_fault());
    assert_eq!(rt; echo_one(door), None);
}

#[test]
fn connections_come_in_order_until_the_door_ends(rt: HostRuntime) -> Result<(), AllocError> {
    let alloc = rt.alloc();
    let mut connections = Vec::new(alloc);
    connections.push(connection(alloc, b"a", ROOM)?)?;
    connections.push(connection(alloc, b"b", ROOM)?)?;
    let mut door = QueueDoor::of(alloc, connections, vec![in alloc; 3_u64]?)?;
    assert_in_order(&rt, &mut door);
    assert!(rt;
        matches!(door.finished(), [first, second] if first.output() == b"a".as_slice() && second.output() == b"b".as_slice())
    );
    Ok(())
}

// Asserts that the second byte that is put sets this flag.
fn assert_sets(rt: &impl Abort, conn: &mut FlagConn<MemConn>, set: &Flag) {
    assert_eq!(rt; conn.put(b"x"), Ok(1));
    assert!(rt; !set.is_set());
    assert_eq!(rt; conn.put(b"y"), Ok(1));
    assert!(rt; set.is_set());
}

// Asserts that a connection whose flag is set gives its input in time.
fn assert_gives(rt: &impl Abort, conn: &mut FlagConn<MemConn>) {
    let mut piece = [0_u8; 4];
    assert_eq!(rt; conn.take(&mut piece), Ok(3));
    assert!(rt; !conn.is_late());
}

// Asserts that a connection whose flag is never set comes late.
fn assert_late(rt: &impl Abort, alloc: Global, late: FlagConn<MemConn>) -> Result<(), AllocError>
    requires { IsFreshConn (conn_state late.conn) }
{
    let mut waiting = Vec::new(alloc);
    waiting.push(late)?;
    let mut door = QueueDoor::of(alloc, waiting, Vec::new(alloc))?;
    assert_eq!(rt; echo_one(&mut door), Some(b'a'));
    assert!(rt; matches!(door.finished(), [late] if late.is_late()));
    Ok(())
}

// A connection that waits for one flag, and sets another behind so many bytes of output.
fn flag_conn(
    alloc: Global,
    wait: &Arc<Flag>,
    set: &Arc<Flag>,
    after: u64,
) -> Result<FlagConn<MemConn>, AllocError>
    ensures { IfOk result (λ c. IsFreshConn (conn_state c.conn)) }
{
    let wait = Arc::try_clone(wait)?;
    let set = Arc::try_clone(set)?;
    let conn = connection(alloc, b"abc", ROOM)?;
    Ok(FlagConn::of(conn, wait, TURNS, set, after))
}

#[test]
fn a_put_sets_one_flag_and_a_take_waits_for_another(rt: HostRuntime) -> Result<(), AllocError> {
    let alloc = rt.alloc();
    let wait = flag(alloc)?;
    let set = flag(alloc)?;
    let mut conn = flag_conn(alloc, &wait, &set, 2)?;
    assert_sets(&rt, &mut conn, &set);
    wait.set();
    assert_gives(&rt, &mut conn);
    let never = flag(alloc)?;
    assert_late(&rt, alloc, flag_conn(alloc, &never, &set, 9)?)
}

// Asserts that a gate holds seat 1 under number 2 alone, and not for ever.
fn assert_held(rt: &impl Abort, gate: &FlagGate, arrived: &Flag) {
    gate.pass(0, 2);
    gate.pass(1, 1);
    assert!(rt; !gate.is_late() && !arrived.is_set());
    gate.pass(1, 2);
    assert!(rt; gate.is_late() && arrived.is_set());
}

#[test]
fn a_gate_holds_one_seat_under_one_number(rt: HostRuntime) -> Result<(), AllocError> {
    let alloc = rt.alloc();
    let arrived = flag(alloc)?;
    let open = flag(alloc)?;
    let gate = FlagGate::of(
        1,
        2,
        Arc::try_clone(&arrived)?,
        Arc::try_clone(&open)?,
        TURNS,
    );
    assert_held(&rt, &gate, &arrived);
    let gate = FlagGate::of(1, 2, arrived, Arc::try_clone(&open)?, TURNS);
    open.set();
    gate.pass(1, 2);
    assert!(rt; !gate.is_late());
    Ok(())
}

#[test]
fn a_steady_connection_goes_on(rt: HostRuntime) -> Result<(), AllocError> {
    let alloc = rt.alloc();
    let input = Vec::from_slice(alloc, b"ab")?;
    let mut waiting = Vec::new(alloc);
    waiting.push(SteadyConn::of(input, Vec::new(alloc)))?;
    let mut door = QueueDoor::of(alloc, waiting, Vec::new(alloc))?;
    assert_eq!(rt; echo_one(&mut door), Some(b'a'));
    assert!(rt; matches!(door.finished(), [conn] if conn.count() == 1));
    Ok(())
}

// A connection that never fails, with this input.
fn steady(alloc: Global, input: &[u8]) -> Result<Vec<SteadyConn>, AllocError>
    ensures { IfOk result (λ v. All (λ c. IsFreshConn (steady_state c)) v.items) }
{
    let mut connections = Vec::new(alloc);
    connections.push(SteadyConn::of(Vec::from_slice(alloc, input)?, Vec::new(alloc)))?;
    Ok(connections)
}

#[test]
fn a_steady_door_ends_without_a_fault(rt: HostRuntime) -> Result<(), AllocError> {
    let alloc = rt.alloc();
    let mut door = SteadyDoor::of(alloc, steady(alloc, b"ab")?)?;
    assert_eq!(rt; echo_one(&mut door), Some(b'a'));
    assert!(rt; matches!(&door.next(), Ok(None)));
    assert!(rt; matches!(door.finished(), [conn] if conn.count() == 1));
    Ok(())
}

fn door(alloc: Global, input: &[u8]) -> Result<QueueDoor<MemConn>, AllocError>
    ensures { IfOk result IsNewDoor }
{
    let mut connections = Vec::new(alloc);
    connections.push(connection(alloc, input, ROOM)?)?;
    QueueDoor::of(alloc, connections, Vec::new(alloc))
}

// Opens doors, serves one connection of the control door, and puts the doors back.
fn open_once<N: Doors, R: Net<Listener = TcpListener, Stream = TcpStream>>(
    rt: &R,
    alloc: Global,
    doors: &mut N,
    workers: u32,
) -> Result<(usize, Option<u8>), DoorsFault> {
    let Opened {
        queries,
        control,
        closer,
    } = doors.open(rt, alloc, "a:1", "a:2", workers)?;
    closer.close();
    let mut control = control;
    let byte = echo_one(&mut control);
    let count = queries.len();
    doors.back(queries, control);
    Ok((count, byte))
}

// Asserts that an opening fails, the next gives the doors, and one behind it doors that nothing comes through.
fn assert_opened<N: Doors, R: Abort + Net<Listener = TcpListener, Stream = TcpStream>>(
    rt: &R,
    alloc: Global,
    doors: &mut N,
) {
    assert_eq!(rt; open_once(rt, alloc, doors, 2), Err(DoorsFault::Failed));
    assert_eq!(rt; open_once(rt, alloc, doors, 2), Ok((2, Some(b'c'))));
    assert_eq!(rt; open_once(rt, alloc, doors, 1), Ok((1, None)));
}

#[test]
fn doors_are_opened_and_come_back(rt: HostRuntime) -> Result<(), AllocError> {
    let alloc = rt.alloc();
    let mut queries = Vec::new(alloc);
    queries.push(door(alloc, b"a")?)?;
    let mut doors = MemDoors::of(alloc, queries, door(alloc, b"c")?, vec![in alloc; 1_u64]?);
    assert_opened(&rt, alloc, &mut doors);
    assert!(rt;
        matches!(doors.returned(), [set, again] if set.control().finished().len() == 1 && again.queries().len() == 1)
    );
    Ok(())
}

// Asserts that an opening gives the connections, and one behind it doors that nothing comes through.
fn assert_opened_steadily<R: Abort + Net<Listener = TcpListener, Stream = TcpStream>>(
    rt: &R,
    alloc: Global,
    doors: &mut SteadyDoors<SteadyConn>,
) {
    assert_eq!(rt; open_once(rt, alloc, doors, 2), Ok((2, Some(b'c'))));
    assert_eq!(rt; open_once(rt, alloc, doors, 1), Ok((1, None)));
}

#[test]
fn steady_doors_are_opened_and_come_back(rt: HostRuntime) -> Result<(), AllocError> {
    let alloc = rt.alloc();
    let mut doors = SteadyDoors::of(steady(alloc, b"a")?, steady(alloc, b"c")?);
    assert_opened_steadily(&rt, alloc, &mut doors);
    assert_eq!(rt; doors.out(), 0);
    Ok(())
}
