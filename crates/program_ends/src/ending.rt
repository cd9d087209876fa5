//! The lines on which a run ends.

ghost use Rattle.std.specs.Prelude.{◌≡◌, ◌++◌, ◌≤◌, codes, OnOk, OnErr};
ghost use Rattle.std.specs.Io.KnownBytes.{Appends};
ghost use Rattle.road_io.specs.Faults.{HasCause};
ghost use Rattle.road_io.specs.Putting.{Closes};
ghost use Rattle.road_io.specs.Told.{AppendsFront};
ghost use Rattle.program_ends.specs.Ends.{EndsLeft};
ghost use Rattle.program_ends.specs.StoppedEarly.{cannot_read, memory_line};

use road_base::{Status, Text};
use road_io::{Failed, FileFault, Sink, put_all};

/// The line for want of memory outside of a reply.
const MEMORY: &[u8] = b"out of memory\n";

/// Puts the line on which a run ends. Where the output fails, the status stays.
pub fn close<O: Sink>(output: &mut O, line: &[u8])
    ensures put { Closes (O.view output.old) (O.view output.new) line.now }
    ensures later { (O.view output.old).faults ≤ (O.view output.new).faults }
{
    match put_all(output, line) {
        Ok(()) => (),
        Err(_) => (),
    }
}

/// Puts a line of these words and this text, or a proper front of it where the output failed.
pub fn put_line<O: Sink>(output: &mut O, words: &[u8], text: &str) -> Result<(), Failed>
    ensures all { OnOk result (Appends (O.view output.old).written (O.view output.new).written (words.now ++ (text.now ++ codes "\n"))) }
    ensures part { OnErr result (AppendsFront (O.view output.old).written (O.view output.new).written (words.now ++ (text.now ++ codes "\n"))) }
    ensures cause { HasCause (O.view output.old).faults (O.view output.new).faults result }
{
    put_all(output, words)?;
    put_all(output, text.as_bytes())?;
    put_all(output, b"\n")
}

/// Ends a run for which there was no memory.
pub fn end_exhausted<O: Sink>(output: &mut O) -> Status
    ensures status { result ≡ Status.Memory }
    ensures put { Closes (O.view output.old) (O.view output.new) memory_line }
{
    close(output, MEMORY);
    Status::Memory
}

// Puts the line on a file that could not be read.
fn close_unread<O: Sink>(output: &mut O, name: &str)
    ensures { Closes (O.view output.old) (O.view output.new) (cannot_read name.now) }
{
    match put_line(output, b"cannot read ", name) {
        Ok(()) => (),
        Err(_) => (),
    }
}

/// Ends a run for a file that could not be read, or for which there was no memory.
pub fn end_unread<O: Sink>(output: &mut O, name: &str, fault: FileFault) -> Status
    ensures { EndsLeft fault name.now result (O.view output.old) (O.view output.new) }
{
    match fault {
        FileFault::Failed => {
            close_unread(output, name);
            Status::Outside
        }
        FileFault::Memory => end_exhausted(output),
    }
}

/// Ends a run whose data are refused on this line.
pub fn end_refused<O: Sink>(output: &mut O, line: Text) -> Status
    ensures status { result ≡ Status.Refused }
    ensures put { Closes (O.view output.old) (O.view output.new) line }
{
    close(output, line.as_bytes());
    Status::Refused
}
