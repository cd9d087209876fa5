//! A source in memory.

ghost use Rattle.std.specs.Prelude.{◌≡◌, ◌<◌, ◌≤◌, ◌↔◌, IsErr, IfOk, Contains, length};
ghost use Rattle.std.specs.Io.KnownBytes.{ReadConsumes};
ghost use Rattle.road_io.specs.Faults.{HasCause};
ghost use Rattle.road_io.specs.Told.{CountsTaken};
ghost use Rattle.road_io.specs.MemoryStates.{new_source, next_call};

use crate::byte_sources::Source;
use crate::failures::Failed;
use crate::memory::pieces::PieceReader;
use std::marker::Model;

/// A source of bytes in memory, which gives them in pieces and fails where it is told to.
#[derive(Debug)]
pub struct MemSource {
    reader: PieceReader,
    failing: Vec<u64>,
    calls: u64,
    faults: u64,
    taken: u64,
}

impl Drop for MemSource {
    fn drop(self) {
        let MemSource {
            reader: _reader,
            failing: _failing,
            calls: _calls,
            faults: _faults,
            taken: _taken,
        } = self;
    }
}

impl Model for MemSource {
    ghost use Rattle.road_io.specs.MemoryStates.{SourceState};

    ghost Value = { SourceState };

    ghost view = { λ s. record { all = s.reader.all; left = s.reader.left; failing = s.failing.items; calls = s.calls; faults = s.faults; taken = s.taken } };
}

impl MemSource {
    /// A source of these bytes. It gives them in pieces of these sizes at most, which come round again
    /// when they are used up; none is no limit, and a size of 0 counts as 1. The calls of `take` whose
    /// numbers are in `failing`, counted from 1, fail.
    pub fn of(bytes: Vec<u8>, pieces: Vec<usize>, failing: Vec<u64>) -> MemSource
        ensures { result ≡ new_source bytes.items failing.items }
    {
        MemSource {
            reader: PieceReader::of(bytes, pieces),
            failing,
            calls: 0,
            faults: 0,
            taken: 0,
        }
    }
}

impl Source for MemSource {
    ghost use Rattle.std.specs.Prelude.{Some};
    ghost use Rattle.road_io.specs.Sides.{no_sink_side};

    ghost view = { λ s. record { left = Some s.left; taken = s.taken; faults = s.faults } };

    ghost beside = { λ _. no_sink_side };

    fn take(&mut self, into: &mut [u8]) -> Result<usize, Failed>
        ensures bound { IfOk result (λ n. n ≤ length into.new) }
        ensures bytes { ReadConsumes (Some self.old.left) (Some self.new.left) result into.new }
        ensures count { CountsTaken self.old.taken self.new.taken result }
        ensures cause { HasCause self.old.faults self.new.faults result }
        ensures beside { no_sink_side ≡ no_sink_side }
        ensures fails { IsErr result ↔ Contains self.old.failing (next_call self.old.calls) }
        ensures all { self.new.all ≡ self.old.all }
        ensures calls { self.new.calls ≡ next_call self.old.calls }
        ensures failing { self.new.failing ≡ self.old.failing }
    {
        self.calls = self.calls.saturating_add(1);
        if self.failing.contains(&self.calls) {
            self.faults = self.faults.saturating_add(1);
            return Err(Failed);
        }
        let count = self.reader.give(into);
        self.taken = self.taken.saturating_add(count as u64);
        Ok(count)
    }
}
