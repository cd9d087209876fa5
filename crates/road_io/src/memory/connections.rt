//! A connection in memory.

ghost use Rattle.std.specs.Prelude.{◌≡◌};

use crate::byte_sinks::Sink;
use crate::byte_sources::Source;
use crate::connections::Conn;
use crate::failures::Failed;
use crate::memory::sinks::MemSink;
use crate::memory::sources::MemSource;
use std::marker::Model;

/// A connection in memory: a source and a sink. It was given with all of the source's bytes, and with no
/// fault.
#[derive(Debug)]
pub struct MemConn {
    source: MemSource,
    sink: MemSink,
}

impl Drop for MemConn {
    fn drop(self) {
        let MemConn {
            source: _source,
            sink: _sink,
        } = self;
    }
}

impl Model for MemConn {
    ghost use Rattle.road_io.specs.MemoryStates.{MemConnState};

    ghost Value = { MemConnState };

    ghost view = { λ c. record { source = c.source; sink = c.sink } };
}

impl MemConn {
    /// The connection of these two halves.
    pub fn of(source: MemSource, sink: MemSink) -> MemConn
        ensures { result ≡ record { source = source; sink = sink } }
    {
        MemConn { source, sink }
    }

    /// The output so far.
    pub fn output(&self) -> &[u8]
        ensures { result.now ≡ self.now.sink.written }
    {
        self.sink.as_bytes()
    }
}

impl Source for MemConn {
    ghost use Rattle.road_io.specs.Sides.{sink_side};
    ghost use Rattle.road_io.specs.MemoryStates.{conn_state};

    ghost view = { λ c. (conn_state c).source };

    ghost beside = { λ c. sink_side (conn_state c) };

    fn take(&mut self, into: &mut [u8]) -> Result<usize, Failed> {
        self.source.take(into)
    }
}

impl Sink for MemConn {
    ghost use Rattle.road_io.specs.Sides.{source_side};
    ghost use Rattle.road_io.specs.MemoryStates.{conn_state};

    ghost view = { λ c. (conn_state c).sink };

    ghost beside = { λ c. source_side (conn_state c) };

    fn put(&mut self, bytes: &[u8]) -> Result<usize, Failed> {
        self.sink.put(bytes)
    }
}

impl Conn for MemConn {
    ghost use Rattle.std.specs.Prelude.{refl};
    ghost use Rattle.road_io.specs.MemoryStates.{conn_state};

    ghost state = { conn_state };

    ghost is_source = { λ c. refl };

    ghost is_sink = { λ c. refl };

    ghost take_keeps = { λ c. refl };

    ghost put_keeps = { λ c. refl };
}
