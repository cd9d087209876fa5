//! What comes next on a connection.

ghost use Rattle.std.specs.Prelude.{◌≡◌, ◌==◌, if◌then◌else◌, length};
ghost use Rattle.http_session.specs.Coming.{Comes, Grows};
ghost use Rattle.http_session.specs.Finding.{Finds};
ghost use Rattle.http_session.specs.declared.coming.Coming.TheVariants as coming;

use crate::unread::Unread;
use http_head::parts::{Front, Head};
use http_head::{HEAD_LIMIT, head};
use road_io::Conn;

/// What stands at the front of the bytes that are not yet read, once that is clear.
#[derive(Clone, Copy, Debug, PartialEq, Eq)]
pub enum Coming {
    /// A whole head, which is `size` bytes long.
    Whole { head: Head, size: usize },
    /// Bytes that are no head, and can't become one within its limits.
    NoHead,
    /// The end of the input, and no bytes.
    End,
    /// The end of the input behind a part of a head.
    Short,
    /// A fault of the input, with no bytes or behind a part of a head.
    Fault,
}

/// Takes bytes behind those that are not yet read until it is clear what comes next. As a sink the connection
/// stays as it was. It takes nothing where a whole head is there already. May wait.
pub fn next_head<C: Conn>(conn: &mut C, unread: &mut Unread) -> Coming
    ensures grows { Grows (C.state conn.old) (C.state conn.new) unread.old unread.new }
    ensures comes { Comes result (C.state conn.old) (C.state conn.new) unread.new }
{
    'takes: loop {
        match found(unread) {
            Some(next) => return next,
            None => {}
        }
        let count = match unread.take_from(conn) {
            Ok(count) => count,
            Err(_) => return Coming::Fault,
        };
        if count == 0 {
            return ended_input(unread);
        }
    }
}

// What stands at the front of these bytes, or None where there are none or a part of a head, so that more bytes are to
// be taken.
fn found(unread: &Unread) -> Option<Coming>
    ensures { Finds result unread.now }
{
    match head(unread.as_slice()) {
        Front::Whole { head, size } => return Some(Coming::Whole { head, size }),
        Front::Bad => return Some(Coming::NoHead),
        Front::More => {}
    }
    if unread.len() == HEAD_LIMIT {
        return Some(Coming::NoHead);
    }
    None
}

// The input ended behind these bytes.
fn ended_input(unread: &Unread) -> Coming
    ensures { result ≡ (if length unread.now == 0 then coming.End else coming.Short) }
{
    if unread.len() == 0 {
        Coming::End
    } else {
        Coming::Short
    }
}
