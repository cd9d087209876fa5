//! What no clause says of the system's edge: what it hands over, and what becomes of it.

ghost use Rattle.std.specs.Prelude.{◌≤◌, IfOk};

use crate::{Reading, SystemFiles, TcpDoor, TcpDoors, Writing};
use road_io::{
    Closer, Conn, Door, Doors, DoorsFault, Failed, FileFault, Files, Opened, Sink, Source,
    put_whole, take_into,
};
use std::alloc::{AllocError, Global};
use std::fmt::Display;
use std::io;
use std::io::{ErrorKind, Read, Write};
use std::net::{Net, Shutdown, SocketAddr, TcpListener, TcpStream};
use std::rt::Clock;
use std::sync::atomic::AtomicBool;
use std::sync::{Arc, OnceLock};
use std::test::*;
use std::thread::{Threads, join, sleep};
use std::time::{Duration, Instant};

// Whether the file of this name can't be read.
fn is_unreadable<F: Files>(files: &mut F, alloc: Global, name: &str) -> bool {
    matches!(&files.read(alloc, name), Err(FileFault::Failed))
}

// None is there, a folder, and no name at all.
#[test]
fn files_that_cannot_be_read_are_no_empty_ones(rt: HostRuntime) {
    let mut files = SystemFiles::of(&rt);
    assert!(rt; is_unreadable(&mut files, rt.alloc(), "no/such/file"));
    assert!(rt; is_unreadable(&mut files, rt.alloc(), "/"));
    assert!(rt; is_unreadable(&mut files, rt.alloc(), ""));
}

// A stream whose calls are interrupted so many times; then it gives or takes a byte, or is broken.
#[derive(Drop)]
struct Halting {
    interrupted: u32,
    broken: bool,
}

impl Halting {
    fn step(&mut self, most: usize) -> io::Result<usize>
        ensures { IfOk result (λ count. count ≤ most) }
    {
        if self.interrupted > 0 {
            self.interrupted -= 1;
            return Err(io::Error::from(ErrorKind::Interrupted));
        }
        if self.broken {
            return Err(io::Error::from(ErrorKind::BrokenPipe));
        }
        Ok(most.min(1))
    }
}

impl Read for Halting {
    fn read(&mut self, buf: &mut [u8]) -> io::Result<usize> {
        self.step(buf.len())
    }
}

impl Write for Halting {
    fn write(&mut self, buf: &[u8]) -> io::Result<usize> {
        self.step(buf.len())
    }

    fn flush(&mut self) -> io::Result<()> {
        Ok(())
    }
}

// What a take comes to behind three interrupted calls.
fn taken_at_last(broken: bool) -> Result<usize, Failed> {
    let mut input = Reading::of(Halting {
        interrupted: 3,
        broken,
    });
    input.take(&mut [0; 4])
}

// What a put comes to behind three interrupted calls.
fn put_at_last(broken: bool) -> Result<usize, Failed> {
    let mut output = Writing::of(Halting {
        interrupted: 3,
        broken,
    });
    output.put(b"town")
}

#[test]
fn interrupted_calls_are_tried_again(rt: HostRuntime) {
    assert!(rt; taken_at_last(false) == Ok(1) && put_at_last(false) == Ok(1));
    assert!(rt; taken_at_last(true) == Err(Failed) && put_at_last(true) == Err(Failed));
}

// Takes one piece of any connection's input, and puts it back. Answers how many bytes it has.
fn echo_piece<C: Conn>(conn: &mut C) -> Result<usize, Failed> {
    let mut piece = [0_u8; 4];
    let count = take_into(conn, &mut piece)?;
    put_whole(conn, &piece[..count.min(4)])?;
    Ok(count)
}

// Puts the input of any connection back, to its end. Answers how many bytes it has.
fn echo<C: Conn>(conn: &mut C) -> Result<usize, Failed> {
    let mut total = 0_usize;
    for _ in 0..100 {
        match echo_piece(conn)? {
            0 => return Ok(total),
            count => total = total.saturating_add(count),
        }
    }
    Err(Failed)
}

// Serves the next connection of any door. Answers how many bytes it took; None where the door has ended.
fn serve_one<D: Door>(door: &mut D) -> Result<Option<usize>, Failed>
    requires { (D.view door.old).finished ≤ (D.view door.old).given }
{
    match door.next() {
        Ok(Some(mut conn)) => {
            let total = echo(&mut conn);
            door.finish(conn);
            total.map(Some)
        }
        Ok(None) => Ok(None),
        Err(failed) => Err(failed),
    }
}

// Puts these bytes to an address, ends its output, and takes what comes back to its end. Whether it is the same.
fn gets_back<R: Net<Listener = TcpListener, Stream = TcpStream>>(
    rt: &R,
    alloc: Global,
    address: SocketAddr,
    bytes: &[u8],
) -> io::Result<bool> {
    let mut stream = TcpStream::connect(rt, address)?;
    stream.write_all(bytes)?;
    stream.shutdown(Shutdown::Write)?;
    let mut answer = Vec::new(alloc);
    stream.read_to_end(&mut answer)?;
    Ok(answer.as_slice() == bytes)
}

// Whether a client of this door gets its bytes back, and the door serves it to its end.
fn echoes<R: Net<Listener = TcpListener, Stream = TcpStream> + Threads + Sync>(
    rt: &R,
    alloc: Global,
    door: &mut TcpDoor,
    address: SocketAddr,
    text: &str,
) -> bool {
    let bytes = text.as_bytes();
    let (same, served) = join(
        rt,
        || matches!(gets_back(rt, alloc, address, bytes), Ok(true)),
        || serve_one(door),
    );
    same && served == Ok(Some(bytes.len()))
}

// The same at the door's own address.
fn gives_back<R: Net<Listener = TcpListener, Stream = TcpStream> + Threads + Sync>(
    rt: &R,
    alloc: Global,
    door: &mut TcpDoor,
    text: &str,
) -> bool {
    match door.address() {
        Ok(address) => echoes(rt, alloc, door, address, text),
        Err(_) => false,
    }
}

// Whether this query door gives bytes back until it is closed, and this control door after that.
fn both_give_back<K: Closer, R: Net<Listener = TcpListener, Stream = TcpStream> + Threads + Sync>(
    rt: &R,
    alloc: Global,
    query: &mut TcpDoor,
    control: &mut TcpDoor,
    closer: K,
) -> bool {
    let asked = gives_back(rt, alloc, query, "GET /nearest/v1/car/0,0");
    let silent = gives_back(rt, alloc, query, "");
    closer.close();
    let closed = serve_one(query) == Ok(None);
    let controlled = gives_back(rt, alloc, control, "the control door is not closed");
    asked && silent && closed && controlled
}

#[test]
fn bytes_go_through_doors_and_come_back(rt: HostRuntime) {
    let mut doors = TcpDoors::of(&rt);
    let opened = doors.open(&rt, rt.alloc(), "127.0.0.1:0", "127.0.0.1:0", 1);
    let Opened {
        mut queries,
        mut control,
        closer,
    } = opened.expect(&rt, "doors that open");
    let mut query = queries.pop().expect(&rt, "a query door");
    assert!(rt; both_give_back(&rt, rt.alloc(), &mut query, &mut control, closer));
}

// A door at a free port of this machine, and its address. Its clients may be silent for so many milliseconds.
fn door_of<R: Net<Listener = TcpListener, Stream = TcpStream>>(
    rt: &R,
    alloc: Global,
    silence: u64,
) -> Result<(TcpDoor, SocketAddr), Fail> {
    let listener = TcpListener::bind(rt, "127.0.0.1:0")?;
    let address = listener.local_addr()?;
    let close = Arc::new(alloc, AtomicBool::new(false))?;
    Ok((
        TcpDoor::of(listener, close, Duration::from_millis(silence)),
        address,
    ))
}

// Puts these bytes to the next connection of any door.
fn put_to_next<D: Door>(door: &mut D, bytes: &[u8]) -> Result<(), Failed>
    requires { (D.view door.old).finished ≤ (D.view door.old).given }
{
    match door.next() {
        Ok(Some(mut conn)) => {
            let put = put_whole(&mut conn, bytes);
            door.finish(conn);
            put
        }
        Ok(None) => Ok(()),
        Err(failed) => Err(failed),
    }
}

// More bytes than the buffers of the system hold.
fn long_reply(alloc: Global) -> Result<Vec<u8>, AllocError> {
    vec![in alloc; 0; 1 << 26]
}

// Whether a connection is failed whose client sends nothing, and how long that takes.
fn silent<R: Net<Listener = TcpListener, Stream = TcpStream> + Clock>(
    rt: &R,
    door: &mut TcpDoor,
    address: SocketAddr,
) -> io::Result<(bool, Duration)> {
    let _client = TcpStream::connect(rt, address)?;
    let begun = Instant::now(rt)?;
    let failed = serve_one(door) == Err(Failed);
    Ok((failed, begun.elapsed(rt)?))
}

// Whether a connection is failed whose client takes nothing of a long reply, and how long that takes.
fn deaf<R: Net<Listener = TcpListener, Stream = TcpStream> + Clock>(
    rt: &R,
    door: &mut TcpDoor,
    address: SocketAddr,
    reply: &[u8],
) -> io::Result<(bool, Duration)> {
    let _client = TcpStream::connect(rt, address)?;
    let begun = Instant::now(rt)?;
    let failed = put_to_next(door, reply) == Err(Failed);
    Ok((failed, begun.elapsed(rt)?))
}

// Whether the door serves a client that has sent all before it is let in.
fn serves_next<R: Net<Listener = TcpListener, Stream = TcpStream>>(
    rt: &R,
    door: &mut TcpDoor,
    address: SocketAddr,
) -> io::Result<bool> {
    let mut client = TcpStream::connect(rt, address)?;
    client.write_all(b"next")?;
    client.shutdown(Shutdown::Write)?;
    Ok(serve_one(door) == Ok(Some(4)))
}

#[test]
fn a_client_that_sends_nothing_is_let_go_after_its_time(rt: HostRuntime) -> Result<(), Fail> {
    let (mut door, address) = door_of(&rt, rt.alloc(), 500)?;
    let (failed, waited) = silent(&rt, &mut door, address)?;
    assert!(rt; failed && waited >= Duration::from_millis(250));
    assert!(rt; serves_next(&rt, &mut door, address)?);
    Ok(())
}

#[test]
fn a_client_that_takes_nothing_is_let_go_after_its_time(rt: HostRuntime) -> Result<(), Fail> {
    let reply = long_reply(rt.alloc())?;
    let (mut door, address) = door_of(&rt, rt.alloc(), 500)?;
    let (failed, waited) = deaf(&rt, &mut door, address, &reply)?;
    assert!(rt; failed && waited >= Duration::from_millis(250));
    assert!(rt; serves_next(&rt, &mut door, address)?);
    Ok(())
}

// The system sets no limit of no time.
#[test]
fn a_client_whose_time_cannot_be_limited_is_not_waited_for(rt: HostRuntime) -> Result<(), Fail> {
    let (mut door, address) = door_of(&rt, rt.alloc(), 0)?;
    assert!(rt; silent(&rt, &mut door, address)?.0);
    assert!(rt; deaf(&rt, &mut door, address, b"a reply")?.0);
    Ok(())
}

// Whether doors that open have these limits, in seconds. They are closed, and go back.
fn have_limits<N: Net + Eprint, R: Net<Listener = TcpListener, Stream = TcpStream>>(
    rt: &R,
    alloc: Global,
    doors: &mut TcpDoors<'_, N>,
    query: u64,
    control: u64,
) -> bool {
    let Ok(opened) = doors.open(rt, alloc, "127.0.0.1:0", "127.0.0.1:0", 1) else {
        return false;
    };
    let Opened {
        queries,
        control: control_door,
        closer,
    } = opened;
    closer.close();
    let are_right = control_door.silence() == Duration::from_secs(control)
        && queries
            .iter()
            .all(|door| door.silence() == Duration::from_secs(query));
    doors.back(queries, control_door);
    are_right
}

#[test]
fn the_program_waits_a_minute_for_queries_and_five_to_publish(rt: HostRuntime) {
    assert!(rt; have_limits(&rt, rt.alloc(), &mut TcpDoors::of(&rt), 60, 300));
}

// Closes the doors of any closer, after a while.
fn close_later<K: Closer>(clock: &impl Clock, closer: K) {
    sleep(clock, Duration::from_millis(100));
    closer.close();
}

#[test]
fn doors_that_wait_wake_when_they_are_closed(rt: HostRuntime) {
    let mut doors = TcpDoors::of(&rt);
    let opened = doors.open(&rt, rt.alloc(), "127.0.0.1:0", "127.0.0.1:0", 2);
    let Opened {
        mut queries,
        control: _control,
        closer,
    } = opened.expect(&rt, "doors that open");
    let mut second = queries.pop().expect(&rt, "two query doors");
    let mut first = queries.pop().expect(&rt, "two query doors");
    let mut left = Some(closer);
    let (ends, ()) = join(
        &rt,
        || join(&rt, || serve_one(&mut first), || serve_one(&mut second)),
        || {
            if let Some(closer) = left.take() {
                close_later(&rt, closer);
            }
        },
    );
    if let Some(closer) = left {
        closer.close();
    }
    assert_eq!(rt; ends, (Ok(None), Ok(None)));
}

// Whether doors can't be opened at these addresses. Doors that open are closed, and go back.
fn refuses<N: Doors, R: Net<Listener = TcpListener, Stream = TcpStream>>(
    rt: &R,
    alloc: Global,
    doors: &mut N,
    query: &str,
    control: &str,
) -> bool {
    match doors.open(rt, alloc, query, control, 1) {
        Ok(opened) => {
            let Opened {
                queries,
                control,
                closer,
            } = opened;
            closer.close();
            doors.back(queries, control);
            false
        }
        Err(fault) => fault == DoorsFault::Failed,
    }
}

#[test]
fn doors_open_at_addresses_and_no_other_texts(rt: HostRuntime) {
    let mut doors = TcpDoors::of(&rt);
    assert!(rt; refuses(&rt, rt.alloc(), &mut doors, "127.0.0.1", "127.0.0.1:0"));
    assert!(rt; refuses(&rt, rt.alloc(), &mut doors, "127.0.0.1:0", "no port"));
    assert!(rt; !refuses(&rt, rt.alloc(), &mut doors, "127.0.0.1:0", "127.0.0.1:0"));
}

// A runtime that keeps the first line that is told on standard error.
#[derive(Drop)]
struct Listening<'a, R> {
    rt: &'a R,
    alloc: Global,
    said: OnceLock<String>,
}

impl<'a, R> Eprint for Listening<'a, R> {
    fn eprint<D: Display + Drop>(&self, value: D) -> io::Result<()> {
        self.eprintln(value)
    }

    fn eprintln<D: Display + Drop>(&self, value: D) -> io::Result<()> {
        let line = format!(in self.alloc; "{value}")?;
        let _ = self.said.try_set(line);
        Ok(())
    }
}

impl<'a, R: Net<Listener = TcpListener, Stream = TcpStream>> Net for Listening<'a, R> {
    type Stream = TcpStream;

    type Listener = TcpListener;

    fn bind(&self, address: SocketAddr) -> io::Result<TcpListener> {
        self.rt.bind(address)
    }

    fn connect(&self, address: SocketAddr) -> io::Result<TcpStream> {
        self.rt.connect(address)
    }
}

#[test]
fn an_address_in_use_is_told_on_standard_error(rt: HostRuntime) -> Result<(), Fail> {
    let alloc = rt.alloc();
    let listener = TcpListener::bind(&rt, "127.0.0.1:0")?;
    let address = listener.local_addr()?;
    let text = format!(in alloc; "{address}")?;
    let expected = format!(in alloc;
        "walnutkiln: cannot listen at {address}: Address already in use (os error 98)"
    )?;
    let heard = Listening {
        rt: &rt,
        alloc,
        said: OnceLock::new(),
    };
    let mut doors = TcpDoors::of(&heard);
    assert!(rt; refuses(&rt, alloc, &mut doors, text.as_str(), "127.0.0.1:0"));
    assert!(rt;
        heard
            .said
            .get()
            .is_some_and(|line| line.as_str() == expected.as_str())
    );
    Ok(())
}
