//! Runs over forms that never fail.

ghost use Rattle.std.specs.Prelude.{◌≢◌, All, IfOk};
ghost use Rattle.memory_doors.specs.SteadyState.{steady_state};
ghost use Rattle.road_io.specs.Views.{IsFreshConn};

use crate::served::ASKED;
use memory_doors::{SteadyConn, SteadyDoors};
use road_base::Status;
use road_io::{OpenGate, SteadyFiles, SteadySink, SteadySource};
use road_run::run;
use run_cases::{Case, files_of, words};
use std::alloc::{AllocError, Global};
use std::net::{Net, TcpListener, TcpStream};
use std::sync::Wait;
use std::thread::Threads;

// Runs on these words. Whatever they are, status 1 doesn't come.
fn run_steadily<R: Threads + Wait + Net<Listener = TcpListener, Stream = TcpStream> + Sync>(
    rt: &R,
    alloc: Global,
    words: &[String],
    files: &mut SteadyFiles,
    input: &mut SteadySource,
    output: &mut SteadySink,
    doors: &mut SteadyDoors<SteadyConn>,
) -> Status
    ensures { result ≢ Status.Outside }
{
    run(rt, alloc, words, files, input, output, doors, &OpenGate)
}

// Connections for queries, of which there is one.
fn one_connection(alloc: Global) -> Result<Vec<SteadyConn>, AllocError>
    ensures { IfOk result (λ v. All (λ c. IsFreshConn (steady_state c)) v.items) }
{
    let mut connections = Vec::new(alloc);
    connections.push(SteadyConn::of(Vec::from_slice(alloc, ASKED)?, Vec::new(alloc)))?;
    Ok(connections)
}

const WORDS: &str = "serve town.opl settings.toml --listen a:1 --control a:2 --workers 1";

// Serves one connection over the town: how that ended, and how many bytes were put.
fn serve_one<R: Threads + Wait + Net<Listener = TcpListener, Stream = TcpStream> + Sync>(
    rt: &R,
    alloc: Global,
    doors: &mut SteadyDoors<SteadyConn>,
) -> Result<(Status, u64), AllocError> {
    let words = words(alloc, WORDS)?;
    let mut files = SteadyFiles::of(files_of(alloc, Case::over_town(b""))?);
    let mut input = SteadySource::of(Vec::new(alloc), Vec::new(alloc));
    let mut output = SteadySink::new();
    let status = run_steadily(
        rt,
        alloc,
        words.as_slice(),
        &mut files,
        &mut input,
        &mut output,
        doors,
    );
    Ok((status, output.count()))
}

#[test]
fn a_connection_is_served_without_a_fault(rt: HostRuntime) -> Result<(), AllocError> {
    let alloc = rt.alloc();
    let mut doors = SteadyDoors::of(one_connection(alloc)?, Vec::new(alloc));
    let told = b"ready\nconnections 1\nmetric 0\n";
    assert_eq!(rt;
        serve_one(&rt, alloc, &mut doors)?,
        (Status::Ok, told.len() as u64)
    );
    assert_eq!(rt; doors.out(), 0);
    Ok(())
}
