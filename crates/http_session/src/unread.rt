//! The bytes of a connection that were taken and are not yet read.

ghost use Rattle.std.specs.Prelude.{◌≡◌, ◌≤◌, ◌<◌, [], length, drop};
ghost use Rattle.http_session.specs.Taking.{Takes};

use road_io::{Conn, Failed, take_into};
use std::marker::Model;

/// Bytes that were taken and are not yet read: at most 8192, as many as a head may have. Contracts see the
/// list of them. It takes no memory but its own.
pub struct Unread {
    bytes: [u8; 8192],
    held: usize,
}

impl Drop for Unread {
    fn drop(self) {
        let Unread {
            bytes: _bytes,
            held: _held,
        } = self;
    }
}

impl Model for Unread {
    ghost use Rattle.std.specs.Prelude.{ℕ, List, take, ◌≤◌};

    ghost Value = { List ℕ };

    ghost view = { λ u. take u.held u.bytes };

    ghost invariant = { λ u. u.held ≤ 8192 };
}

impl Unread {
    /// No bytes.
    pub fn new() -> Unread
        ensures { result ≡ [] }
    {
        Unread {
            bytes: [0; 8192],
            held: 0,
        }
    }

    /// The bytes, in the order in which they were taken.
    pub fn as_slice(&self) -> &[u8]
        ensures { result.now ≡ self.now }
    {
        &self.bytes[..self.held]
    }

    /// How many there are.
    pub fn len(&self) -> usize
        ensures count { result ≡ length self.now }
        ensures room { result ≤ 8192 }
    {
        self.held
    }

    /// Reads the first so many: they are gone from the front.
    pub fn consume(&mut self, size: usize)
        requires { size ≤ length self.old }
        ensures { self.new ≡ drop size self.old }
    {
        let held = self.held;
        self.bytes.copy_within(size..held, 0);
        self.held = held - size;
    }

    /// Takes bytes of the connection behind those that are here, as many as one call gives and as there is
    /// room for, and answers how many: none is the end of the input. May wait.
    pub fn take_from<C: Conn>(&mut self, conn: &mut C) -> Result<usize, Failed>
        requires { length self.old < 8192 }
        ensures takes { Takes (C.state conn.old) (C.state conn.new) self.old self.new result }
    {
        let count = take_into(conn, &mut self.bytes[self.held..])?;
        self.held += count;
        Ok(count)
    }
}
