//! A connection in memory that never fails.

ghost use Rattle.std.specs.Prelude.{◌≡◌};

use road_io::{Conn, Failed, Sink, Source, SteadySink, SteadySource};
use std::snapshot::Snapshot;

/// A connection in memory that never fails. It counts the bytes that were put, and keeps and tells none of
/// them; its input it tells.
#[derive(Drop)]
pub struct SteadyConn {
    input: Snapshot<Vec<u8>>,
    source: SteadySource,
    sink: SteadySink,
}

impl SteadyConn {
    ghost use Rattle.road_io.specs.Views.{IsFreshConn};
    ghost use Rattle.memory_doors.specs.SteadyState.{steady_state};

    /// A connection with this input, given in pieces of these sizes at most, which come round again when they
    /// are used up; none is no limit, and a size of 0 counts as 1.
    pub fn of(bytes: Vec<u8>, pieces: Vec<usize>) -> SteadyConn
        ensures fresh { IsFreshConn (steady_state result) }
        ensures input { result.source.left ≡ bytes.items }
    {
        SteadyConn {
            input: Snapshot::of(&bytes),
            source: SteadySource::of(bytes, pieces),
            sink: SteadySink::new(),
        }
    }

    /// How many bytes were put; at 18446744073709551615 the count stands still.
    pub fn count(&self) -> u64
        ensures { result ≡ self.now.sink }
    {
        self.sink.count()
    }
}

impl Source for SteadyConn {
    ghost use Rattle.road_io.specs.Sides.{sink_side};
    ghost use Rattle.memory_doors.specs.SteadyState.{steady_state};

    ghost view = { λ c. (steady_state c).source };

    ghost beside = { λ c. sink_side (steady_state c) };

    fn take(&mut self, into: &mut [u8]) -> Result<usize, Failed> {
        self.source.take(into)
    }
}

impl Sink for SteadyConn {
    ghost use Rattle.road_io.specs.Sides.{source_side};
    ghost use Rattle.memory_doors.specs.SteadyState.{steady_state};

    ghost view = { λ c. (steady_state c).sink };

    ghost beside = { λ c. source_side (steady_state c) };

    fn put(&mut self, bytes: &[u8]) -> Result<usize, Failed> {
        self.sink.put(bytes)
    }
}

impl Conn for SteadyConn {
    ghost use Rattle.std.specs.Prelude.{refl};
    ghost use Rattle.memory_doors.specs.SteadyState.{steady_state};

    ghost state = { steady_state };

    ghost is_source = { λ c. refl };

    ghost is_sink = { λ c. refl };

    ghost take_keeps = { λ c. refl };

    ghost put_keeps = { λ c. refl };
}
