//! The body of a request.

ghost use Rattle.std.specs.Prelude.{◌++◌, List, [], ℕ};
ghost use Rattle.http_session.specs.Bodies.{Came, Holds};
ghost use Rattle.http_session.specs.Filling.{Fills};

use crate::unread::Unread;
use road_io::{Conn, Failed};
use std::alloc::Global;

/// What was taken of a body.
#[derive(Drop)]
pub enum Body {
    /// All of it; it is kept, unless memory ran out.
    All { kept: Option<Vec<u8>> },
    /// The input ended inside it.
    Ends,
    /// The input failed inside it.
    Fails,
}

// Room for a body of this size.
fn room(alloc: Global, size: usize) -> Option<Vec<u8>>
    ensures { Holds result [] }
{
    match Vec::with_capacity(alloc, size) {
        Ok(all) => Some(all),
        Err(_) => None,
    }
}

// Keeps these bytes too, or none any more where memory runs out.
fn keep(kept: Option<Vec<u8>>, bytes: &[u8]) -> Option<Vec<u8>>
    ensures { (front : List ℕ) → Holds kept front → Holds result (front ++ bytes.now) }
{
    let mut all = kept?;
    match all.extend_from_slice(bytes) {
        Ok(()) => Some(all),
        Err(_) => None,
    }
}

// Takes bytes where none are unread, and answers how many are unread then.
fn fill<C: Conn>(conn: &mut C, unread: &mut Unread) -> Result<usize, Failed>
    ensures fills { Fills (C.state conn.old) (C.state conn.new) unread.old unread.new result }
{
    let count = unread.len();
    if count > 0 {
        return Ok(count);
    }
    unread.take_from(conn)
}

/// Takes a body of this size, of which the first bytes may stand in `unread` already. Its room is taken first;
/// where there is no memory for it, it is taken to its end and dropped all the same. As a sink the connection stays
/// as it was. May wait.
pub fn take_body<C: Conn>(alloc: Global, conn: &mut C, unread: &mut Unread, size: usize) -> Body
    ensures came { Came result (C.state conn.old) (C.state conn.new) unread.old unread.new size }
{
    let mut kept = room(alloc, size);
    let mut done = 0;
    'takes: while done < size {
        let count = match fill(conn, unread) {
            Ok(count) => count,
            Err(_) => return Body::Fails,
        };
        if count == 0 {
            return Body::Ends;
        }
        let step = count.min(size - done);
        kept = keep(kept, &unread.as_slice()[..step]);
        unread.consume(step);
        done += step;
    }
    Body::All { kept }
}
