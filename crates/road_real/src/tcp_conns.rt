//! A connection over TCP.

ghost use Rattle.road_io.specs.Views.{IsFreshConn};

use crate::std_streams::{put_counting, take_counting};
use road_io::{Conn, Failed, Sink, Source};
use std::net::TcpStream;
use std::time::Duration;

/// A connection over TCP, which is closed where it is dropped. It tells its counts, and no bytes. A call that
/// waits for its client longer than the limit of its door fails, as any other call that the system fails.
#[derive(Drop)]
pub struct TcpConn {
    // None where the system set no limit: nobody shall wait for this client.
    stream: Option<TcpStream>,
    taken: u64,
    source_faults: u64,
    sink_faults: u64,
}

impl TcpConn {
    ghost use Rattle.road_real.specs.TcpStates.{conn_state};

    /// The connection of this stream, of which nothing was taken and to which nothing was put. What is put goes
    /// out at once, where the system grants that. No call waits longer than `silence` for the client; where the
    /// system doesn't grant that, the stream is closed, and each call of the connection fails.
    pub fn of(stream: TcpStream, silence: Duration) -> TcpConn
        ensures { IsFreshConn (conn_state result) }
    {
        let _ = stream.set_nodelay(true);
        TcpConn {
            stream: limited(stream, silence),
            taken: 0,
            source_faults: 0,
            sink_faults: 0,
        }
    }
}

// The stream, each call of which waits so long at the most; None where the system doesn't grant that.
fn limited(stream: TcpStream, silence: Duration) -> Option<TcpStream> {
    stream.set_read_timeout(Some(silence)).ok()?;
    stream.set_write_timeout(Some(silence)).ok()?;
    Some(stream)
}

impl Source for TcpConn {
    ghost use Rattle.road_io.specs.Sides.{sink_side};
    ghost use Rattle.road_real.specs.TcpStates.{conn_state};

    ghost view = { λ c. (conn_state c).source };

    ghost beside = { λ c. sink_side (conn_state c) };

    fn take(&mut self, into: &mut [u8]) -> Result<usize, Failed> {
        match &mut self.stream {
            Some(stream) => take_counting(stream, into, &mut self.taken, &mut self.source_faults),
            None => {
                self.source_faults = self.source_faults.saturating_add(1);
                Err(Failed)
            }
        }
    }
}

impl Sink for TcpConn {
    ghost use Rattle.road_io.specs.Sides.{source_side};
    ghost use Rattle.road_real.specs.TcpStates.{conn_state};

    ghost view = { λ c. (conn_state c).sink };

    ghost beside = { λ c. source_side (conn_state c) };

    fn put(&mut self, bytes: &[u8]) -> Result<usize, Failed> {
        match &mut self.stream {
            Some(stream) => put_counting(stream, bytes, &mut self.sink_faults),
            None => {
                self.sink_faults = self.sink_faults.saturating_add(1);
                Err(Failed)
            }
        }
    }
}

impl Conn for TcpConn {
    ghost use Rattle.std.specs.Prelude.{refl};
    ghost use Rattle.road_real.specs.TcpStates.{conn_state};

    ghost state = { conn_state };

    ghost is_source = { λ c. refl };

    ghost is_sink = { λ c. refl };

    ghost take_keeps = { λ c. refl };

    ghost put_keeps = { λ c. refl };
}
