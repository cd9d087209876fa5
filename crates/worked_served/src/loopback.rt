//! The command `serve` over TCP, with a client in a thread.

use crate::served::{ASKED, REPLIES, STOP};
use road_base::Status;
use road_io::{MemFiles, MemSink, MemSource, OpenGate};
use road_real::TcpDoors;
use road_run::run;
use run_cases::{Case, files_of, words};
use std::alloc::Global;
use std::io;
use std::io::{Read, Write};
use std::net::{Net, Shutdown, TcpListener, TcpStream};
use std::rt::Clock;
use std::sync::Wait;
use std::test::*;
use std::thread::{Threads, join, sleep};
use std::time::Duration;

// An address of this machine at which nothing listens.
fn free_address<R: Net<Listener = TcpListener, Stream = TcpStream>>(
    rt: &R,
    alloc: Global,
) -> Result<String, Fail> {
    let listener = TcpListener::bind(rt, "127.0.0.1:0")?;
    let address = listener.local_addr()?;
    Ok(format!(in alloc; "{address}")?)
}

// A stream to this address, once something listens there.
fn connect<R: Net<Listener = TcpListener, Stream = TcpStream> + Clock>(
    rt: &R,
    address: &str,
) -> io::Result<TcpStream> {
    for _ in 0..200 {
        if let Ok(stream) = TcpStream::connect(rt, address) {
            return Ok(stream);
        }
        sleep(rt, Duration::from_millis(50));
    }
    TcpStream::connect(rt, address)
}

// Puts these bytes to an address, ends its output, and takes what comes back to its end.
fn ask<R: Net<Listener = TcpListener, Stream = TcpStream> + Clock>(
    rt: &R,
    alloc: Global,
    address: &str,
    bytes: &[u8],
) -> io::Result<Vec<u8>> {
    let mut stream = connect(rt, address)?;
    stream.write_all(bytes)?;
    stream.shutdown(Shutdown::Write)?;
    let mut answer = Vec::new(alloc);
    stream.read_to_end(&mut answer)?;
    Ok(answer)
}

// Asks two requests of the server, and then for its stop; answers what the first connection gave.
fn ask_and_stop<R: Net<Listener = TcpListener, Stream = TcpStream> + Clock>(
    rt: &R,
    alloc: Global,
    queries: &str,
    control: &str,
) -> io::Result<Vec<u8>> {
    let replies = ask(rt, alloc, queries, ASKED);
    ask(rt, alloc, control, STOP)?;
    replies
}

// Serves the town at these addresses until it is stopped.
fn serve_at<R: Threads + Wait + Net<Listener = TcpListener, Stream = TcpStream> + Eprint + Sync>(
    rt: &R,
    alloc: Global,
    queries: &str,
    control: &str,
) -> Result<(Status, MemSink), Fail> {
    let list = files_of(alloc, Case::over_town(b""))?;
    let mut files = MemFiles::of(alloc, list, Vec::new(alloc));
    let mut input = MemSource::of(Vec::new(alloc), Vec::new(alloc), Vec::new(alloc));
    let mut output = MemSink::of(alloc, 100, Vec::new(alloc))?;
    let text = format!(in alloc;
        "serve town.opl settings.toml --listen {queries} --control {control}"
    )?;
    let asked = words(alloc, text.as_str())?;
    let mut doors = TcpDoors::of(rt);
    let status = run(
        rt,
        alloc,
        asked.as_slice(),
        &mut files,
        &mut input,
        &mut output,
        &mut doors,
        &OpenGate,
    );
    Ok((status, output))
}

#[test]
fn a_client_over_loopback_gets_both_replies(rt: HostRuntime) -> Result<(), Fail> {
    let alloc = rt.alloc();
    let queries = free_address(&rt, alloc)?;
    let control = free_address(&rt, alloc)?;
    let (replies, served) = join(
        &rt,
        || ask_and_stop(&rt, alloc, queries.as_str(), control.as_str()),
        || serve_at(&rt, alloc, queries.as_str(), control.as_str()),
    );
    assert!(rt; matches!(&replies, Ok(bytes) if bytes.as_slice() == REPLIES));
    let (status, output) = served?;
    assert_eq!(rt; status, Status::Ok);
    assert_eq!(rt;
        output.as_bytes(),
        b"ready\nconnections 2\nmetric 0\n".as_slice()
    );
    Ok(())
}
