//! Runs, and what is told of them.

use crate::cases::{Case, files, input_of, output_of, words};
use road_base::Status;
use road_io::{MemFiles, MemSink, NoDoors, OpenGate};
use road_run::run;
use std::alloc::{AllocError, Global};
use std::net::{Net, TcpListener, TcpStream};
use std::sync::Wait;
use std::thread::Threads;

/// A run of a case over these files: how it ended, and what it put.
pub fn run_over(
    rt: &(impl Threads + Wait + Net<Listener = TcpListener, Stream = TcpStream> + Sync),
    alloc: Global,
    case: Case<'_>,
    files: &mut MemFiles,
) -> Result<(Status, MemSink), AllocError> {
    let words = words(alloc, case.words)?;
    let mut input = input_of(alloc, case)?;
    let mut output = output_of(alloc, case)?;
    let status = run(
        rt,
        alloc,
        words.as_slice(),
        files,
        &mut input,
        &mut output,
        &mut NoDoors::new(),
        &OpenGate,
    );
    Ok((status, output))
}

/// The same over its own files.
pub fn run_case(
    rt: &(impl Threads + Wait + Net<Listener = TcpListener, Stream = TcpStream> + Sync),
    alloc: Global,
    case: Case<'_>,
) -> Result<(Status, MemSink), AllocError> {
    let mut files = files(alloc, case)?;
    run_over(rt, alloc, case, &mut files)
}

/// Whether a run ends so, with this output.
pub fn ends(
    rt: &(impl Threads + Wait + Net<Listener = TcpListener, Stream = TcpStream> + Sync),
    alloc: Global,
    case: Case<'_>,
    status: Status,
    output: &[u8],
) -> Result<bool, AllocError> {
    let (ended, written) = run_case(rt, alloc, case)?;
    Ok(ended == status && written.as_bytes() == output)
}

/// Whether a run ends so, and what it puts begins with this.
pub fn begins(
    rt: &(impl Threads + Wait + Net<Listener = TcpListener, Stream = TcpStream> + Sync),
    alloc: Global,
    case: Case<'_>,
    status: Status,
    front: &[u8],
) -> Result<bool, AllocError> {
    let (ended, written) = run_case(rt, alloc, case)?;
    Ok(ended == status && written.as_bytes().starts_with(front))
}

/// Whether a run is done, and what it puts has this text in it.
pub fn shows(
    rt: &(impl Threads + Wait + Net<Listener = TcpListener, Stream = TcpStream> + Sync),
    alloc: Global,
    case: Case<'_>,
    expected: &str,
) -> Result<bool, AllocError> {
    let (status, output) = run_case(rt, alloc, case)?;
    let told = std::str::from_utf8(output.as_bytes()).unwrap_or("");
    Ok(status == Status::Ok && told.contains(expected))
}
