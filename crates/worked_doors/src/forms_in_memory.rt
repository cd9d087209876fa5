//! What no clause says: that the calls succeed with ample memory, and how the forms in memory cut and
//! fail.

ghost use Rattle.std.specs.Prelude.{◌≤◌, All, IfOk};
ghost use Rattle.road_io.specs.MemoryDoor.{door_view};
ghost use Rattle.road_io.specs.MemoryStates.{IsUnused};

use road_base::Text;
use road_io::{
    Closer, Conn, Door, Doors, DoorsFault, Failed, FileFault, Files, Gate, MemCloser, MemConn,
    MemDoor, MemFiles, MemSink, MemSource, NoDoors, OpenGate, Opened, Sink, Source, SteadyFiles,
    SteadySink, SteadySource, put_all, put_whole, take_into,
};
use std::alloc::{AllocError, Global};
use std::process::Abort;

fn source(
    alloc: Global,
    bytes: &[u8],
    sizes: &[usize],
    failing: &[u64],
) -> Result<MemSource, AllocError> {
    let bytes = Vec::from_slice(alloc, bytes)?;
    let sizes = Vec::from_slice(alloc, sizes)?;
    let failing = Vec::from_slice(alloc, failing)?;
    Ok(MemSource::of(bytes, sizes, failing))
}

fn sink(alloc: Global, room: usize, failing: &[u64]) -> Result<MemSink, AllocError> {
    let failing = Vec::from_slice(alloc, failing)?;
    MemSink::of(alloc, room, failing)
}

// Takes once and puts what was taken, over any connection.
fn echo_once<C: Conn>(conn: &mut C, room: usize) -> Result<usize, Failed> {
    let mut piece = [0_u8; 8];
    let count = take_into(conn, &mut piece[..room.min(8)])?;
    put_whole(conn, &piece[..count.min(8)])?;
    Ok(count)
}

// How many bytes so many calls echo each, or that one fails.
fn counts(alloc: Global, conn: &mut MemConn, calls: u32) -> Result<String, AllocError> {
    let mut text = String::new(alloc);
    for _ in 0..calls {
        match echo_once(conn, 8) {
            Ok(count) => text.push_str(format!(in alloc; "{count} ")?.as_str())?,
            Err(Failed) => text.push_str("failed ")?,
        }
    }
    Ok(text)
}

#[test]
fn a_connection_cuts_its_input_and_tells_its_output(rt: HostRuntime) -> Result<(), AllocError> {
    let alloc = rt.alloc();
    let input = source(alloc, b"walnutkiln", &[1, 0, 4], &[4])?;
    let mut conn = MemConn::of(input, sink(alloc, 100, &[])?);
    let counts = counts(alloc, &mut conn, 8)?;
    assert_eq!(rt; counts.as_str(), "1 1 4 failed 1 1 2 0 ");
    assert_eq!(rt; conn.output(), b"walnutkiln".as_slice());
    Ok(())
}

// Asserts that a sink with room for ten bytes takes no more.
fn assert_full(rt: &impl Abort, full: &mut MemSink) {
    assert_eq!(rt; put_all(full, b"HTTP/1.1 200 OK"), Err(Failed));
    assert_eq!(rt; full.as_bytes(), b"HTTP/1.1 2".as_slice());
    assert_eq!(rt; full.put(b""), Ok(0));
}

// Asserts that a sink whose second call fails goes on behind it.
fn assert_failing(rt: &impl Abort, failing: &mut MemSink) {
    assert_eq!(rt; put_all(failing, b"one"), Ok(()));
    assert_eq!(rt; put_all(failing, b"two"), Err(Failed));
    assert_eq!(rt; put_all(failing, b"six"), Ok(()));
    assert_eq!(rt; failing.as_bytes(), b"onesix".as_slice());
}

#[test]
fn a_full_sink_fails_after_its_room(rt: HostRuntime) -> Result<(), AllocError> {
    assert_full(&rt, &mut sink(rt.alloc(), 10, &[])?);
    assert_failing(&rt, &mut sink(rt.alloc(), 10, &[2])?);
    Ok(())
}

fn file(alloc: Global, name: &str, bytes: &[u8]) -> Result<(Text, Vec<u8>), AllocError> {
    let bytes = Vec::from_slice(alloc, bytes)?;
    Ok((Text::copy_of(alloc, name)?, bytes))
}

fn two_files(alloc: Global) -> Result<Vec<(Text, Vec<u8>)>, AllocError> {
    let mut files = Vec::new(alloc);
    files.push(file(alloc, "town.opl", b"n1 x0 y0\n")?)?;
    files.push(file(alloc, "town.opl", b"n2")?)?;
    Ok(files)
}

// Asserts what is read of two files with one name, where the second read fails.
fn assert_read(rt: &impl Abort, alloc: Global, files: &mut MemFiles) {
    let first = files.read(alloc, "town.opl").unwrap_or(Vec::new(alloc));
    assert_eq!(rt; first.as_slice(), b"n1 x0 y0\n".as_slice());
    assert!(rt; matches!(&files.read(alloc, "town.opl"), Err(FileFault::Failed)));
    assert!(rt; matches!(&files.read(alloc, "Town.opl"), Err(FileFault::Failed)));
    assert!(rt; files.read(alloc, "town.opl").is_ok());
}

// Asserts what that left.
fn assert_reads_told(rt: &impl Abort, files: &MemFiles) {
    assert_eq!(rt; files.reads().len(), 4);
    assert!(rt;
        matches!(files.failed_names(), [town, other] if town.as_str() == "town.opl" && other.as_str() == "Town.opl")
    );
}

#[test]
fn files_are_read_by_name(rt: HostRuntime) -> Result<(), AllocError> {
    let alloc = rt.alloc();
    let mut files = MemFiles::of(alloc, two_files(alloc)?, vec![in alloc; 2_u64]?);
    assert_read(&rt, alloc, &mut files);
    assert_reads_told(&rt, &files);
    let mut steady = SteadyFiles::of(two_files(alloc)?);
    assert!(rt; matches!(&steady.read(alloc, "town.opl"), Ok(v) if v.len() == 9));
    assert!(rt; matches!(&steady.read(alloc, "nowhere"), Ok(v) if v.is_empty()));
    Ok(())
}

#[test]
fn steady_forms_go_on(rt: HostRuntime) -> Result<(), AllocError> {
    let alloc = rt.alloc();
    let mut input = SteadySource::of(Vec::from_slice(alloc, b"abc")?, vec![in alloc; 2_usize]?);
    let mut piece = [0_u8; 8];
    for expected in [2, 1, 0, 0] {
        assert_eq!(rt; input.take(&mut piece), Ok(expected));
    }
    let mut output = SteadySink::new();
    assert_eq!(rt; put_all(&mut output, b"walnut"), Ok(()));
    assert_eq!(rt; output.count(), 6);
    Ok(())
}

fn pass_once<G: Gate>(gate: &G) {
    gate.pass(0, 4_294_967_295);
}

#[test]
fn an_open_gate_holds_nobody_and_no_doors_never_open(rt: HostRuntime) {
    pass_once(&OpenGate);
    let mut doors = NoDoors::new();
    let opened = doors.open(&rt, rt.alloc(), "127.0.0.1:0", "127.0.0.1:0", 1);
    match opened {
        Ok(opened) => {
            let Opened {
                queries,
                control,
                closer,
            } = opened;
            doors.back(queries, control);
            closer.close();
            assert!(rt; false, "doors that never open");
        }
        Err(fault) => assert_eq!(rt; fault, DoorsFault::Failed),
    }
}

fn one_connection(alloc: Global) -> Result<Vec<MemConn>, AllocError>
    ensures { IfOk result (λ v. All IsUnused v.items) }
{
    let input = MemSource::of(
        Vec::from_slice(alloc, b"GET")?,
        Vec::new(alloc),
        Vec::new(alloc),
    );
    let output = MemSink::of(alloc, 10, Vec::new(alloc))?;
    let connections = vec![in alloc; MemConn::of(input, output)]?;
    Ok(connections)
}

// Asserts that one connection comes through a door, and none after it.
fn assert_used_up(rt: &impl Abort, door: &mut MemDoor)
    requires { (door_view door.old).finished ≤ (door_view door.old).given }
{
    let first = door.next();
    assert!(rt; matches!(&first, Ok(Some(_))));
    if let Ok(Some(mut conn)) = first {
        assert_eq!(rt; echo_once(&mut conn, 8), Ok(3));
        door.finish(conn);
    }
    assert!(rt; matches!(&door.next(), Ok(None)));
    assert!(rt; !door.has_fault());
}

// Asserts that a door fails once, and then has ended.
fn assert_fails_once(rt: &impl Abort, failing: &mut MemDoor) {
    assert!(rt; failing.next().is_err());
    assert!(rt; failing.has_fault());
    assert!(rt; matches!(&failing.next(), Ok(None)));
}

#[test]
fn a_door_ends_once_its_connections_are_used_up(rt: HostRuntime) -> Result<(), AllocError> {
    let alloc = rt.alloc();
    let mut door = MemDoor::of(alloc, one_connection(alloc)?, Vec::new(alloc))?;
    assert_used_up(&rt, &mut door);
    MemCloser.close();
    let mut failing = MemDoor::of(alloc, Vec::new(alloc), vec![in alloc; 1_u64]?)?;
    assert_fails_once(&rt, &mut failing);
    Ok(())
}
