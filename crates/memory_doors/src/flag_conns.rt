//! Connections that wait for one another by flags.

ghost use Rattle.std.specs.Prelude.{◌≡◌};

use crate::flags::Flag;
use road_io::{Conn, Failed, Sink, Source};
use std::sync::Arc;

/// A connection whose `take` first waits for a flag, so many yielding turns at most, and then goes on, and
/// whose `put` sets another once so many bytes were put. In all else it is the connection inside.
#[derive(Drop)]
pub struct FlagConn<C> {
    conn: C,
    wait: Arc<Flag>,
    turns: u64,
    set: Arc<Flag>,
    after: u64,
    put: u64,
    late: bool,
}

impl<C> FlagConn<C> {
    /// This connection, which waits for `wait` so many turns at most, and sets `set` once `after` bytes were
    /// put.
    pub fn of(conn: C, wait: Arc<Flag>, turns: u64, set: Arc<Flag>, after: u64) -> FlagConn<C>
        ensures { result.conn ≡ conn }
    {
        FlagConn {
            conn,
            wait,
            turns,
            set,
            after,
            put: 0,
            late: false,
        }
    }

    /// The connection inside.
    pub fn inner(&self) -> &C
        ensures { result.now ≡ self.now.conn }
    {
        &self.conn
    }

    /// Whether a wait ended by its limit.
    pub fn is_late(&self) -> bool
        ensures { result ≡ self.now.late }
    {
        self.late
    }
}

impl<C: Conn> Source for FlagConn<C> {
    ghost view = { λ c. C.Source.view c.conn };

    ghost beside = { λ c. C.Source.beside c.conn };

    fn take(&mut self, into: &mut [u8]) -> Result<usize, Failed> {
        if !self.wait.wait(self.turns) {
            self.late = true;
        }
        self.conn.take(into)
    }
}

impl<C: Conn> Sink for FlagConn<C> {
    ghost view = { λ c. C.Sink.view c.conn };

    ghost beside = { λ c. C.Sink.beside c.conn };

    fn put(&mut self, bytes: &[u8]) -> Result<usize, Failed> {
        let count = self.conn.put(bytes)?;
        self.put = self.put.saturating_add(count as u64);
        if self.put >= self.after {
            self.set.set();
        }
        Ok(count)
    }
}

impl<C: Conn> Conn for FlagConn<C> {
    ghost state = { λ c. C.state c.conn };

    ghost is_source = { λ c. C.is_source c.conn };

    ghost is_sink = { λ c. C.is_sink c.conn };

    ghost take_keeps = { λ c. C.take_keeps c.conn };

    ghost put_keeps = { λ c. C.put_keeps c.conn };
}
