//! Forms in memory that never fail.

ghost use Rattle.std.specs.Prelude.{◌≡◌, [], unwrap_or};
ghost use Rattle.road_io.specs.FileNamed.{file_of, named_files};

use crate::byte_sinks::Sink;
use crate::byte_sources::Source;
use crate::failures::{Failed, FileFault};
use crate::file_access::Files;
use crate::memory::files::file_in;
use crate::memory::pieces::PieceReader;
use road_base::Text;
use std::alloc::Global;
use std::marker::Model;

/// A source of bytes in memory that never fails.
#[derive(Debug)]
pub struct SteadySource {
    reader: PieceReader,
    taken: u64,
}

impl Drop for SteadySource {
    fn drop(self) {
        let SteadySource {
            reader: _reader,
            taken: _taken,
        } = self;
    }
}

impl Model for SteadySource {
    ghost use Rattle.road_io.specs.MemoryStates.{SteadySourceState};

    ghost Value = { SteadySourceState };

    ghost view = { λ s. record { left = s.reader.left; taken = s.taken } };
}

impl SteadySource {
    /// A source of these bytes, which gives them in pieces as `MemSource` does.
    pub fn of(bytes: Vec<u8>, pieces: Vec<usize>) -> SteadySource
        ensures { result ≡ record { left = bytes.items; taken = 0 } }
    {
        SteadySource {
            reader: PieceReader::of(bytes, pieces),
            taken: 0,
        }
    }
}

impl Source for SteadySource {
    ghost use Rattle.std.specs.Prelude.{Some};
    ghost use Rattle.road_io.specs.Sides.{no_sink_side};

    ghost view = { λ s. record { left = Some s.left; taken = s.taken; faults = 0 } };

    ghost beside = { λ _. no_sink_side };

    fn take(&mut self, into: &mut [u8]) -> Result<usize, Failed> {
        let count = self.reader.give(into);
        self.taken = self.taken.saturating_add(count as u64);
        Ok(count)
    }
}

/// A sink that never fails: it counts the bytes that were put, and keeps and tells none of them.
#[derive(Debug)]
pub struct SteadySink {
    count: u64,
}

impl Drop for SteadySink {
    fn drop(self) {
        let SteadySink { count: _count } = self;
    }
}

impl Model for SteadySink {
    ghost use Rattle.std.specs.Prelude.{ℕ};

    ghost Value = { ℕ };

    ghost view = { λ s. s.count };
}

impl SteadySink {
    /// A sink that nothing was put into.
    pub fn new() -> SteadySink
        ensures { result ≡ 0 }
    {
        SteadySink { count: 0 }
    }

    /// How many bytes were put; at 18446744073709551615 the count stands still.
    pub fn count(&self) -> u64
        ensures { result ≡ self.now }
    {
        self.count
    }
}

impl Sink for SteadySink {
    ghost use Rattle.std.specs.Prelude.{None};
    ghost use Rattle.road_io.specs.Sides.{no_source_side};

    ghost view = { λ _. record { written = None; faults = 0 } };

    ghost beside = { λ _. no_source_side };

    fn put(&mut self, bytes: &[u8]) -> Result<usize, Failed> {
        self.count = self.count.saturating_add(bytes.len() as u64);
        Ok(bytes.len())
    }
}

/// Files in memory that never fail: a name that none has is an empty file.
#[derive(Drop, Debug)]
pub struct SteadyFiles {
    files: Vec<(Text, Vec<u8>)>,
}

impl Model for SteadyFiles {
    ghost use Rattle.std.specs.Prelude.{ℕ, List};
    ghost use Rattle.road_io.specs.FileNamed.{named_files};

    ghost Value = { List (List ℕ × List ℕ) };

    ghost view = { λ f. named_files f.files.items };
}

impl SteadyFiles {
    /// Files of these names, of which the first of a name counts.
    pub fn of(files: Vec<(Text, Vec<u8>)>) -> SteadyFiles
        ensures { result ≡ named_files files.items }
    {
        SteadyFiles { files }
    }
}

impl Files for SteadyFiles {
    ghost use Rattle.std.specs.Prelude.{None, Some};

    ghost view = { λ f. record { content = λ name. Some (Some (unwrap_or (file_of f name) [])); reads = None; failed_names = Some []; faults = 0 } };

    fn read(&mut self, alloc: Global, name: &str) -> Result<Vec<u8>, FileFault> {
        match file_in(&self.files, name) {
            Some(bytes) => Vec::from_slice(alloc, bytes).map_err(|_| FileFault::Memory),
            None => Ok(Vec::new(alloc)),
        }
    }
}
