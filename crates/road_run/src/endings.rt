//! A run with the words as they were read, and how the system is told of its end.

ghost use Rattle.std.specs.Prelude.{◌≡◌, map, string_bytes, MatchResult};
ghost use Rattle.std.specs.Process.{exit_status};
ghost use Rattle.command_words.specs.Commands.{command_of};
ghost use Rattle.road_io.specs.Outside.{outside};
ghost use Rattle.road_base.specs.StatusCode.{code_of};
ghost use Rattle.road_run.specs.Ending.{EndsRun, EndsWordless};

use crate::running::run;
use program_ends::end_exhausted;
use road_base::Status;
use road_io::{Door, Doors, Files, Gate, Sink, Source};
use std::alloc::{AllocError, Global};
use std::io::Eprint;
use std::net::{Net, TcpListener, TcpStream};
use std::process::{ExitCode, Termination};
use std::sync::Wait;
use std::thread::Threads;

/// How a run ended. Only a run makes one, so what `main` answers is how its run ended.
#[derive(Drop)]
pub struct Ended {
    status: Status,
}

impl Termination for Ended {
    fn report<R: Eprint>(self, _rt: &R) -> ExitCode
        ensures { exit_status result ≡ code_of self.status }
    {
        ExitCode::from(self.status.exit_code())
    }
}

/// Runs on the words as they were read. Where there was no memory for them, it ends for that.
pub fn run_to_end<
    F: Files,
    I: Source,
    O: Sink,
    N: Doors,
    G: Gate + Sync,
    R: Threads + Wait + Net<Listener = TcpListener, Stream = TcpStream> + Sync,
>(
    rt: &R,
    alloc: Global,
    words: Result<Vec<String>, AllocError>,
    files: &mut F,
    input: &mut I,
    output: &mut O,
    doors: &mut N,
    gate: &G,
) -> Ended
where
    N::Door: Send,
    <N::Door as Door>::Conn: Send,
    ensures ends { MatchResult words (λ all. EndsRun (command_of (map string_bytes all.items)) result.status (outside (F.view files.old) (I.view input.old) (O.view output.old))
        (outside (F.view files.new) (I.view input.new) (O.view output.new)) (N.Doors.view doors.old) (N.Doors.view doors.new))
        (λ _. EndsWordless result.status (outside (F.view files.old) (I.view input.old) (O.view output.old))
        (outside (F.view files.new) (I.view input.new) (O.view output.new)) (N.Doors.view doors.old) (N.Doors.view doors.new)) }
{
    let status = match words {
        Ok(words) => run(
            rt,
            alloc,
            words.as_slice(),
            files,
            input,
            output,
            doors,
            gate,
        ),
        Err(_) => end_exhausted(output),
    };
    Ended { status }
}
