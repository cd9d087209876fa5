//! A door in memory.

ghost use Rattle.std.specs.Prelude.{◌≡◌, ◌<◌, ◌≤◌, ◌+◌, All, IfOk, vec_len, vec_capacity};
ghost use Rattle.road_io.specs.MemoryStates.{IsUnused, new_door};

use crate::doorways::{Closer, Door};
use crate::failures::Failed;
use crate::memory::connections::MemConn;
use std::alloc::{AllocError, Global};

/// A door in memory: it gives the connections that it was made with, and has the room to take all of
/// them back.
#[derive(Debug)]
pub struct MemDoor {
    waiting: Vec<MemConn>,
    done: Vec<MemConn>,
    failing: Vec<u64>,
    calls: u64,
    given: usize,
    ended: bool,
    faults: u64,
    ghost room: { given + vec_len waiting ≤ vec_capacity done },
    ghost unused: { All IsUnused waiting.items },
}

impl Drop for MemDoor {
    fn drop(self) {
        let MemDoor {
            waiting: _waiting,
            done: _done,
            failing: _failing,
            calls: _calls,
            given: _given,
            ended: _ended,
            faults: _faults,
        } = self;
    }
}

impl MemDoor {
    ghost use Rattle.road_io.specs.MemoryDoor.{door_view};

    /// A door that these connections come through in order. The calls of `next` whose numbers are in
    /// `failing`, counted from 1, fail.
    pub fn of(
        alloc: Global,
        waiting: Vec<MemConn>,
        failing: Vec<u64>,
    ) -> Result<MemDoor, AllocError>
        requires { All IsUnused waiting.items }
        ensures { IfOk result (λ door. door_view door ≡ new_door (vec_len waiting)) }
    {
        let done = Vec::with_capacity(alloc, waiting.len())?;
        Ok(MemDoor {
            waiting,
            done,
            failing,
            calls: 0,
            given: 0,
            ended: false,
            faults: 0,
        })
    }
}

impl Door for MemDoor {
    ghost use Rattle.road_io.specs.MemoryDoor.{door_view};

    type Conn = MemConn;

    ghost view = { door_view };

    fn next(&mut self) -> Result<Option<MemConn>, Failed> {
        if self.ended {
            return Ok(None);
        }
        self.calls = self.calls.saturating_add(1);
        if self.failing.contains(&self.calls) {
            self.faults = self.faults.saturating_add(1);
            self.ended = true;
            return Err(Failed);
        }
        if self.waiting.is_empty() {
            self.ended = true;
            return Ok(None);
        }
        self.given += 1;
        Ok(Some(self.waiting.remove(0)))
    }

    fn finish(&mut self, conn: MemConn) {
        match self.done.push(conn) {
            Ok(()) => {}
            Err(_) => unreachable!(),
        }
    }

    fn has_fault(&self) -> bool {
        self.faults > 0
    }
}

/// The closer of doors in memory, which end by themselves once their connections are used up. It has no
/// `Drop`, so it can't be lost.
#[derive(Debug)]
pub struct MemCloser;

impl Closer for MemCloser {
    fn close(self) {
        let MemCloser = self;
    }
}
