//! Serves query connections, whatever answers their targets.

ghost use Rattle.std.specs.Prelude.{◌≡◌, ◌≤◌, ◌||◌, ◌==◌, length};
ghost use Rattle.httparse.specs.Grammar.{RequestHead};
ghost use Rattle.http_head.specs.Heads.{IsHeadOf};
ghost use Rattle.http_session.specs.Coming.{IsPartOfHead};
ghost use Rattle.http_session.specs.Ending.{IsSession};
ghost use Rattle.road_io.specs.Views.{IsFreshConn};
ghost use Rattle.route_server.specs.QueryRule.{QueryRule, IsUnserved, is_served};
ghost use Rattle.route_server.specs.Replying.{Gives, PutsReply};
ghost use Rattle.route_server.specs.Seats.{seat_state};
ghost use Rattle.route_server.specs.Sessions.{IsQuerySession};
ghost use Rattle.route_server.specs.Transcripts.{IsQueryTranscript};

use crate::answering::{Answering, Said};
use http_head::parts::Head;
use http_head::{busy_reply, response};
use http_session::{Coming, Ended, Unread, next_head, refuse};
use metric_publish::Reading;
use road_io::{Conn, Failed, Gate, put_whole};
use std::alloc::{AllocError, Global};

/// The number, from 0, of the last request of a connection.
const LAST_REQUEST: u32 = 99;

// Whether the head at the front of these bytes is served: its method is GET, and it announces no body.
fn is_served(unread: &[u8], head: &Head, size: usize) -> bool
    requires { (h : RequestHead) × IsHeadOf unread.now head.now size h }
    ensures { (h : RequestHead) → IsHeadOf unread.now head.now size h → result ≡ is_served h }
{
    head.method.of(unread) == b"GET".as_slice() && !head.announced
}

// Whether the reply to a head closes the connection, where so many replies stand before it.
pub(crate) fn closes_at(head: &Head, replied: u32) -> bool
    ensures { result ≡ (head.now.close || replied == 99) }
{
    head.close || replied == LAST_REQUEST
}

/// What answers the targets of a connection, and the gate that is passed under a number before each.
#[derive(Drop)]
struct Service<'a, A, G> {
    alloc: Global,
    id: u32,
    gate: &'a G,
    answering: &'a A,
}

// Enters once, and makes the reply to a target under what is held.
fn reply_to<V: Drop, S: Reading<V>, A: Answering<V>, G: Gate>(
    service: &Service<'_, A, G>,
    seat: &mut S,
    target: &[u8],
    close: bool,
) -> Result<Vec<u8>, AllocError>
    requires fits { (x : V) → S.kin seat.old x → A.fits service.now.answering.now x }
    ensures gives { Gives (λ e. A.says e.value e.number) (seat_state (S.seen seat.old) (S.learned seat.old) (S.reads seat.old)) (seat_state (S.seen seat.new) (S.learned seat.new) (S.reads seat.new)) target.now close result }
    ensures kin_stays { (x : V) → S.kin seat.new x → S.kin seat.old x }
{
    let held = seat.enter()?;
    service.gate.pass(service.id, held.number());
    let said: Said = service.answering.answer(service.alloc, &held, target)?;
    response(service.alloc, said.status, said.body.as_bytes(), close)
}

// Puts that reply; where there was no memory for it, `BUSY` or `BUSY_CLOSE` in its place.
fn put_reply<V: Drop, S: Reading<V>, A: Answering<V>, G: Gate, C: Conn>(
    service: &Service<'_, A, G>,
    seat: &mut S,
    target: &[u8],
    close: bool,
    conn: &mut C,
) -> Result<(), Failed>
    requires fits { (x : V) → S.kin seat.old x → A.fits service.now.answering.now x }
    ensures puts { PutsReply (λ e. A.says e.value e.number) (seat_state (S.seen seat.old) (S.learned seat.old) (S.reads seat.old)) (seat_state (S.seen seat.new) (S.learned seat.new) (S.reads seat.new)) target.now close (C.state conn.old) (C.state conn.new) result }
    ensures kin_stays { (x : V) → S.kin seat.new x → S.kin seat.old x }
{
    match reply_to(service, seat, target, close) {
        Ok(reply) => put_whole(conn, &reply),
        Err(_) => put_whole(conn, busy_reply(close)),
    }
}

// Takes requests and puts replies until the connection ends.
fn serve_requests<V: Drop, S: Reading<V>, A: Answering<V>, G: Gate, C: Conn>(
    service: &Service<'_, A, G>,
    seat: &mut S,
    conn: &mut C,
) -> Ended
    requires fits { (x : V) → S.kin seat.old x → A.fits service.now.answering.now x }
    ensures session { IsSession (QueryRule (λ e. A.says e.value e.number)) IsUnserved IsPartOfHead (seat_state (S.seen seat.old) (S.learned seat.old) (S.reads seat.old)) (seat_state (S.seen seat.new) (S.learned seat.new) (S.reads seat.new)) (C.state conn.old) (C.state conn.new) result }
    ensures kin_stays { (x : V) → S.kin seat.new x → S.kin seat.old x }
{
    let mut unread = Unread::new();
    let mut replied: u32 = 0;
    'requests: loop {
        match next_head(conn, &mut unread) {
            Coming::Whole { head, size } => {
                if !is_served(unread.as_slice(), &head, size) {
                    return refuse(conn);
                }
                let close = closes_at(&head, replied);
                let target = head.target.of(unread.as_slice());
                match put_reply(service, seat, target, close, conn) {
                    Ok(()) => {}
                    Err(_) => return Ended::SinkFault,
                }
                if close {
                    return Ended::Closed;
                }
                unread.consume(size);
                replied += 1;
            }
            Coming::NoHead => return refuse(conn),
            Coming::End => return Ended::EndOfInput,
            Coming::Short => return Ended::CutShort,
            Coming::Fault => return Ended::SourceFault,
        }
    }
}

/// Serves a query connection to its end, with the replies of what answers targets.
///
/// Each request that is served gets one reply, in order: the seat enters once, the gate is passed under `id`,
/// and the target is answered under what is held; where memory runs out, `BUSY` or `BUSY_CLOSE` stands in the
/// reply's place, as it would close the connection or not. A request is served where its method is GET and it
/// announces no body. A reply closes the connection where its request asks for that, and where it is the
/// hundredth. It answers
///
/// - `EndOfInput` where the input ended between two requests, `CutShort` where it ended inside one;
/// - `Closed` after a reply that closes;
/// - `HeadBad` where `HEAD_BAD` was put: for a head that isn't served, bytes that can't become one, or 8192
///   bytes without a whole one;
/// - `SourceFault` where the input failed between two requests or inside one, `SinkFault` where the output failed.
///
/// It holds 8192 bytes of input, and one reply at a time. May wait.
pub fn serve_with<V: Drop, S: Reading<V>, A: Answering<V>, G: Gate, C: Conn>(
    alloc: Global,
    id: u32,
    seat: &mut S,
    gate: &G,
    answering: &A,
    conn: &mut C,
) -> Ended
    requires fits { (x : V) → S.kin seat.old x → A.fits answering.now x }
    ensures session { IsQuerySession (λ e. A.says e.value e.number) (seat_state (S.seen seat.old) (S.learned seat.old) (S.reads seat.old)) (seat_state (S.seen seat.new) (S.learned seat.new) (S.reads seat.new)) (C.state conn.old) (C.state conn.new) result }
    ensures transcript { IsFreshConn (C.state conn.old) → IsQueryTranscript (λ e. A.says e.value e.number) (S.seen seat.new) (C.state conn.new) result }
    ensures kin_stays { (x : V) → S.kin seat.new x → S.kin seat.old x }
{
    let service = Service {
        alloc,
        id,
        gate,
        answering,
    };
    serve_requests(&service, seat, conn)
}
