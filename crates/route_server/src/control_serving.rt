//! Serves control connections, whatever carries out their requests.

ghost use Rattle.std.specs.Prelude.{◌≡◌, ℕ, List};
ghost use Rattle.http_session.specs.Bodies.{Holds};
ghost use Rattle.road_io.specs.Views.{IsFreshConn};
ghost use Rattle.route_server.specs.ControlReplying.{KeepsBody, MakesReply, PutsControl};
ghost use Rattle.route_server.specs.ControlRule.{is_stop};
ghost use Rattle.route_server.specs.ControlSessions.{IsControlSession, IsControlTranscript};

use crate::control_requests::{ControlRequest, Taken, next_request};
use crate::controlling::Controlling;
use control_port::ControlHead;
use http_head::busy_reply;
use http_session::{Ended, Unread, refuse};
use metric_publish::{Kindred, Publishing};
use road_io::{Conn, Failed, put_whole};
use std::alloc::Global;
use std::thread::Threads;

/// How a control connection ended.
#[derive(Clone, Copy, Debug, PartialEq, Eq)]
pub enum ControlEnded {
    /// By the reply to a stop, which stands whole.
    Stopped,
    /// As other connections end.
    Other(Ended),
}

fn is_stop(request: ControlHead) -> bool
    ensures { result ≡ is_stop request }
{
    match request {
        ControlHead::Metric {
            speeds: _,
            length: _,
        } => false,
        ControlHead::Stop => true,
        ControlHead::Bad => false,
    }
}

// The reply to a request, or None for want of memory.
fn control_reply<V: Kindred, R: Threads + Sync, P: Publishing<V, R>, A: Controlling<V>>(
    rt: &R,
    alloc: Global,
    desk: &mut P,
    controlling: &A,
    taken: Taken,
) -> Option<Vec<u8>>
    requires body { KeepsBody taken.asked taken.kept }
    requires makes { (x : V) → A.makes controlling.now x → P.kin desk.old x }
    ensures gives { (body : List ℕ) → Holds taken.kept body → MakesReply (A.controls controlling.now) (P.list desk.old) (P.list desk.new) taken.asked body taken.close result }
    ensures kin_stays { (x : V) → P.kin desk.old x → P.kin desk.new x }
{
    let Taken { asked, close, kept } = taken;
    match kept {
        Some(body) => match controlling.control(rt, alloc, desk, asked, &body, close) {
            Ok(reply) => Some(reply),
            Err(_) => None,
        },
        None => None,
    }
}

// Puts that reply; where there was no memory for it, `BUSY` or `BUSY_CLOSE` in its place. It answers whether a stop
// was answered.
fn put_control<V: Kindred, R: Threads + Sync, P: Publishing<V, R>, A: Controlling<V>, C: Conn>(
    rt: &R,
    alloc: Global,
    desk: &mut P,
    controlling: &A,
    taken: Taken,
    conn: &mut C,
) -> Result<bool, Failed>
    requires body { KeepsBody taken.asked taken.kept }
    requires makes { (x : V) → A.makes controlling.now x → P.kin desk.old x }
    ensures puts { (body : List ℕ) → Holds taken.kept body → PutsControl (A.controls controlling.now) (P.list desk.old) (P.list desk.new) taken.asked body taken.close (C.state conn.old) (C.state conn.new) result }
    ensures kin_stays { (x : V) → P.kin desk.old x → P.kin desk.new x }
{
    let (asked, close) = (taken.asked, taken.close);
    match control_reply(rt, alloc, desk, controlling, taken) {
        Some(reply) => match put_whole(conn, &reply) {
            Ok(()) => Ok(is_stop(asked)),
            Err(failed) => Err(failed),
        },
        None => match put_whole(conn, busy_reply(close)) {
            Ok(()) => Ok(false),
            Err(failed) => Err(failed),
        },
    }
}

// Takes control requests and puts replies until the connection ends.
fn control_requests<V: Kindred, R: Threads + Sync, P: Publishing<V, R>, A: Controlling<V>, C: Conn>(
    rt: &R,
    alloc: Global,
    desk: &mut P,
    controlling: &A,
    conn: &mut C,
) -> ControlEnded
    requires makes { (x : V) → A.makes controlling.now x → P.kin desk.old x }
    ensures session { IsControlSession (A.controls controlling.now) (P.list desk.old) (P.list desk.new) (C.state conn.old) (C.state conn.new) result }
    ensures kin_stays { (x : V) → P.kin desk.old x → P.kin desk.new x }
{
    let mut unread = Unread::new();
    let mut replied: u32 = 0;
    'requests: loop {
        match next_request(alloc, conn, &mut unread, replied) {
            ControlRequest::Whole(taken) => {
                let close = taken.close;
                match put_control(rt, alloc, desk, controlling, taken, conn) {
                    Ok(stopped) => {
                        if stopped {
                            return ControlEnded::Stopped;
                        }
                        if close {
                            return ControlEnded::Other(Ended::Closed);
                        }
                        replied += 1;
                    }
                    Err(_) => return ControlEnded::Other(Ended::SinkFault),
                }
            }
            ControlRequest::NoHead => return ControlEnded::Other(refuse(conn)),
            ControlRequest::End => return ControlEnded::Other(Ended::EndOfInput),
            ControlRequest::Short => return ControlEnded::Other(Ended::CutShort),
            ControlRequest::Fault => return ControlEnded::Other(Ended::SourceFault),
        }
    }
}

/// Serves a control connection to its end, with what carries out its requests.
///
/// Each request gets one reply, in order: its head is read with the body that it announces, and it is carried out;
/// where memory runs out, for the body too, `BUSY` or `BUSY_CLOSE` stands in the reply's place, as it would close the
/// connection or not, and the list of publications is as before. A body for which there is no memory is taken to its
/// end and dropped. The reply to a stop and that to what is no request close the connection, others close it as on
/// a query connection. It answers
///
/// - `Stopped` exactly where the reply to a stop was put whole;
/// - `Closed` after another reply that closes;
/// - `EndOfInput` where the input ended between two requests, `CutShort` where it ended inside a head or a body;
/// - `HeadBad` where `HEAD_BAD` was put: for bytes that can't become a head, or 8192 bytes without a whole one;
/// - `SourceFault` where the input failed between two requests or inside one, `SinkFault` where the output failed.
///
/// It holds 8192 bytes of input, and one body and one reply at a time. May wait.
pub fn control_with<V: Kindred, R: Threads + Sync, P: Publishing<V, R>, A: Controlling<V>, C: Conn>(
    rt: &R,
    alloc: Global,
    desk: &mut P,
    controlling: &A,
    conn: &mut C,
) -> ControlEnded
    requires makes { (x : V) → A.makes controlling.now x → P.kin desk.old x }
    ensures session { IsControlSession (A.controls controlling.now) (P.list desk.old) (P.list desk.new) (C.state conn.old) (C.state conn.new) result }
    ensures transcript { IsFreshConn (C.state conn.old) → IsControlTranscript (A.controls controlling.now) (P.list desk.old) (P.list desk.new) (C.state conn.new) result }
    ensures kin_stays { (x : V) → P.kin desk.old x → P.kin desk.new x }
{
    control_requests(rt, alloc, desk, controlling, conn)
}
