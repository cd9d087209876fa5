//! Readers and writers of std, as the program's input and output. A call that a signal interrupts is tried
//! again; any other failure is a fault.

ghost use Rattle.std.specs.Prelude.{◌≡◌, ◌<◌, ◌≤◌, IfOk, length};
ghost use Rattle.std.specs.Io.KnownBytes.{ReadConsumes, WriteAppends};
ghost use Rattle.road_io.specs.Faults.{HasCause};
ghost use Rattle.road_io.specs.Told.{CountsTaken};

use crate::retrying::{read_retrying, write_retrying};
use road_io::{Failed, Sink, Source};
use std::io::{Read, Write};

/// A reader as a source. It tells what the reader tells, which for the system's streams is nothing.
#[derive(Drop)]
pub struct Reading<R: Read + Drop> {
    reader: R,
    faults: u64,
    taken: u64,
}

impl<R: Read + Drop> Reading<R> {
    /// A source that takes from this reader.
    pub fn of(reader: R) -> Reading<R> {
        Reading {
            reader,
            faults: 0,
            taken: 0,
        }
    }
}

impl<R: Read + Drop> Source for Reading<R> {
    ghost use Rattle.road_io.specs.Sides.{no_sink_side};

    ghost view = { λ s. record { left = R.remaining s.reader; taken = s.taken; faults = s.faults } };

    ghost beside = { λ _. no_sink_side };

    fn take(&mut self, into: &mut [u8]) -> Result<usize, Failed> {
        take_counting(&mut self.reader, into, &mut self.taken, &mut self.faults)
    }
}

/// A writer as a sink. It tells what the writer tells, which for the system's streams is nothing.
#[derive(Drop)]
pub struct Writing<W: Write + Drop> {
    writer: W,
    faults: u64,
}

impl<W: Write + Drop> Writing<W> {
    /// A sink that puts to this writer.
    pub fn of(writer: W) -> Writing<W> {
        Writing { writer, faults: 0 }
    }
}

impl<W: Write + Drop> Sink for Writing<W> {
    ghost use Rattle.road_io.specs.Sides.{no_source_side};

    ghost view = { λ s. record { written = W.contents s.writer; faults = s.faults } };

    ghost beside = { λ _. no_source_side };

    fn put(&mut self, bytes: &[u8]) -> Result<usize, Failed> {
        put_counting(&mut self.writer, bytes, &mut self.faults)
    }
}

/// Takes the next bytes of a reader into the front of `into`, and counts them, or a fault.
pub fn take_counting<R: Read>(
    reader: &mut R,
    into: &mut [u8],
    taken: &mut u64,
    faults: &mut u64,
) -> Result<usize, Failed>
    ensures bound { IfOk result (λ n. n ≤ length into.new) }
    ensures bytes { ReadConsumes (R.remaining reader.old) (R.remaining reader.new) result into.new }
    ensures count { CountsTaken taken.old taken.new result }
    ensures cause { HasCause faults.old faults.new result }
{
    match read_retrying(reader, into) {
        Ok(count) => {
            *taken = taken.saturating_add(count as u64);
            Ok(count)
        }
        Err(_) => {
            *faults = faults.saturating_add(1);
            Err(Failed)
        }
    }
}

/// Puts the first of these bytes to a writer, at least one where there are any, or counts a fault.
pub fn put_counting<W: Write>(
    writer: &mut W,
    bytes: &[u8],
    faults: &mut u64,
) -> Result<usize, Failed>
    ensures bound { IfOk result (λ n. n ≤ length bytes.now) }
    ensures some { IfOk result (λ n. 0 < length bytes.now → 0 < n) }
    ensures bytes { WriteAppends (W.contents writer.old) (W.contents writer.new) result bytes.now }
    ensures cause { HasCause faults.old faults.new result }
{
    match write_retrying(writer, bytes) {
        Ok(count) if count > 0 || bytes.is_empty() => Ok(count),
        _ => {
            *faults = faults.saturating_add(1);
            Err(Failed)
        }
    }
}
