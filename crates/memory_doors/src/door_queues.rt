//! A door in memory.

ghost use Rattle.std.specs.Prelude.{◌≡◌, ◌<◌, All, IfOk, Some, map, vec_len};
ghost use Rattle.road_io.specs.MemoryStates.{new_door};
ghost use Rattle.road_io.specs.Views.{IsFreshConn};

use road_io::{Conn, Door, Failed};
use std::alloc::{AllocError, Global};
use std::marker::Model;

/// A door in memory: the connections that it was made with come through it in order, and it has the room to
/// take all of them back. It ends by itself once they are used up.
pub struct QueueDoor<C: Conn> {
    // the connections to come, the last one first
    waiting: Vec<C>,
    done: Vec<C>,
    failing: Vec<u64>,
    calls: u64,
    given: usize,
    ended: bool,
    faults: u64,
}

impl<C: Conn + Drop> Drop for QueueDoor<C> {
    fn drop(self) {
        let QueueDoor {
            waiting: _waiting,
            done: _done,
            failing: _failing,
            calls: _calls,
            given: _given,
            ended: _ended,
            faults: _faults,
        } = self;
    }
}

impl<C: Conn> Model for QueueDoor<C> {
    ghost use Rattle.std.specs.Prelude.{◌+◌, ◌≤◌, All, Some, false, map, vec_len, vec_capacity};
    ghost use Rattle.road_io.specs.Doorway.{DoorView};
    ghost use Rattle.road_io.specs.Views.{IsFreshConn};

    ghost Value = { DoorView };

    ghost view = { λ d. record { transcripts = Some (map C.state d.done.items); waiting = Some (vec_len d.waiting); given = d.given; finished = vec_len d.done; closed = false; ended = d.ended; faults = d.faults } };

    ghost invariant = { λ d. (d.given + vec_len d.waiting ≤ vec_capacity d.done) × All (λ c. IsFreshConn (C.state c)) d.waiting.items };
}

impl<C: Conn> QueueDoor<C> {
    /// A door that these connections come through in order. The calls of `next` whose numbers are in
    /// `failing`, counted from 1, fail.
    pub fn of(
        alloc: Global,
        connections: Vec<C>,
        failing: Vec<u64>,
    ) -> Result<QueueDoor<C>, AllocError>
    where
        C: Drop,
        requires { All (λ c. IsFreshConn (C.state c)) connections.items }
        ensures { IfOk result (λ door. door ≡ new_door (vec_len connections)) }
    {
        let done = Vec::with_capacity(alloc, connections.len())?;
        let mut waiting = connections;
        waiting.reverse();
        Ok(QueueDoor {
            waiting,
            done,
            failing,
            calls: 0,
            given: 0,
            ended: false,
            faults: 0,
        })
    }

    /// The connections that came back, in order.
    pub fn finished(&self) -> &[C]
        ensures { self.now.transcripts ≡ Some (map C.state result.now) }
    {
        &self.done
    }
}

impl<C: Conn> Door for QueueDoor<C> {
    type Conn = C;

    ghost view = { λ d. d };

    fn next(&mut self) -> Result<Option<C>, Failed> {
        if self.ended {
            return Ok(None);
        }
        self.calls = self.calls.saturating_add(1);
        if self.failing.contains(&self.calls) {
            self.faults = self.faults.saturating_add(1);
            self.ended = true;
            return Err(Failed);
        }
        match self.waiting.pop() {
            Some(conn) => {
                self.given += 1;
                Ok(Some(conn))
            }
            None => {
                self.ended = true;
                Ok(None)
            }
        }
    }

    fn finish(&mut self, conn: C) {
        match self.done.push(conn) {
            Ok(()) => {}
            Err(_) => unreachable!(),
        }
    }

    fn has_fault(&self) -> bool {
        self.faults > 0
    }
}
