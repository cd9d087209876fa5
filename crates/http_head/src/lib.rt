//! Heads of HTTP requests and the replies to them.
//!
//! [`head`] says what stands at the front of the bytes that a connection has not yet read, and
//! [`response`] makes the bytes of a reply. `httparse` reads the head; the source is RFC 9112.
#![tactic(auto)]

mod fields;
pub mod parts;
mod reading;
mod reply;

pub use crate::reading::{FIELD_LIMIT, HEAD_LIMIT, head};
pub use crate::reply::{BUSY, BUSY_CLOSE, HEAD_BAD, busy_reply, head_bad_reply, response};
