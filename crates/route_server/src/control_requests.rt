//! Reads control requests.

ghost use Rattle.std.specs.Prelude.{◌≡◌};
ghost use Rattle.httparse.specs.Grammar.{RequestHead};
ghost use Rattle.http_head.specs.Heads.{IsHeadOf};
ghost use Rattle.route_server.specs.ControlReading.{ComesRequest};
ghost use Rattle.route_server.specs.ControlRule.{closes_by};

use crate::serving::closes_at;
use control_port::ControlHead;
use http_head::parts::Head;
use http_session::{Body, Coming, Unread, next_head, take_body};
use road_io::Conn;
use std::alloc::Global;

/// A whole request with its body, which is kept unless memory ran out, and whether its reply closes the connection.
#[derive(Drop)]
pub struct Taken {
    pub asked: ControlHead,
    pub close: bool,
    pub kept: Option<Vec<u8>>,
}

/// What comes next on a control connection.
#[derive(Drop)]
pub enum ControlRequest {
    /// A whole request.
    Whole(Taken),
    /// Bytes that are no head.
    NoHead,
    /// The end of the input, and no bytes.
    End,
    /// The end of the input inside a request.
    Short,
    /// A fault of the input, with no bytes or inside a request.
    Fault,
}

// Whether the reply to a request closes the connection, where a query's would or would not.
fn closes_by(asked: ControlHead, close: bool) -> bool
    ensures { result ≡ closes_by asked close }
{
    match asked {
        ControlHead::Metric {
            speeds: _,
            length: _,
        } => close,
        ControlHead::Stop => true,
        ControlHead::Bad => true,
    }
}

// Reads the request whose head stands at the front of the bytes that are unread, where so many replies stand before
// it.
fn take_request<C: Conn>(
    alloc: Global,
    conn: &mut C,
    unread: &mut Unread,
    head: &Head,
    size: usize,
    replied: u32,
) -> ControlRequest
    requires { (h : RequestHead) × IsHeadOf unread.old head.now size h }
    ensures { ComesRequest result (C.state conn.old) (C.state conn.new) unread.old unread.new replied }
{
    let asked = ControlHead::of(unread.as_slice(), head);
    let close = closes_by(asked, closes_at(head, replied));
    unread.consume(size);
    match take_body(alloc, conn, unread, asked.body_length()) {
        Body::All { kept } => ControlRequest::Whole(Taken { asked, close, kept }),
        Body::Ends => ControlRequest::Short,
        Body::Fails => ControlRequest::Fault,
    }
}

/// Takes bytes behind those that are unread until it is clear what comes next, and reads it where it is a request.
/// So many replies stand before it. May wait.
pub fn next_request<C: Conn>(
    alloc: Global,
    conn: &mut C,
    unread: &mut Unread,
    replied: u32,
) -> ControlRequest
    ensures { ComesRequest result (C.state conn.old) (C.state conn.new) unread.old unread.new replied }
{
    match next_head(conn, unread) {
        Coming::Whole { head, size } => take_request(alloc, conn, unread, &head, size, replied),
        Coming::NoHead => ControlRequest::NoHead,
        Coming::End => ControlRequest::End,
        Coming::Short => ControlRequest::Short,
        Coming::Fault => ControlRequest::Fault,
    }
}
