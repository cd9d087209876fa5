//! Control connections in memory over a town. Expected texts are this project's rules.

use crate::connections::{ROOM, failing, front_of, in_pieces};
use crate::towns::{board, last_number, roads};
use customized::Roads;
use http_head::HEAD_BAD;
use road_io::MemConn;
use route_server::{ControlEnded, Ended, serve_control};
use std::alloc::{AllocError, Global};
use std::process::Abort;
use std::thread::Threads;

/// A metric with a faulty row, a metric of one row, and a stop.
const THREE_REQUESTS: &[u8] =
    b"POST /control/v1/metric?speeds=22 HTTP/1.1\r\nContent-Length: 22\r\n\r\n1,2,20\n2,3,30\n3,2,abc\nPOST /control/v1/metric?speeds=6 HTTP/1.1\r\nContent-Length: 6\r\n\r\n1,2,20POST /control/v1/stop HTTP/1.1\r\n\r\nPOST";

/// The replies to them.
const THREE_REPLIES: &[u8] =
    b"HTTP/1.1 400 Bad Request\r\nContent-Type: application/json; charset=utf-8\r\nContent-Length: 61\r\n\
Connection: keep-alive\r\n\r\n{\"code\":\"Refused\",\"file\":\"speeds\",\"row\":3,\
\"kind\":\"BadNumber\"}HTTP/1.1 200 OK\r\nContent-Type: application/json; charset=utf-8\r\nContent-Length: 46\r\n\
Connection: keep-alive\r\n\r\n{\"code\":\"Ok\",\"data_version\":\"1\",\"unmatched\":0}HTTP/1.1 200 OK\r\n\
Content-Type: application/json; charset=utf-8\r\nContent-Length: 29\r\nConnection: close\r\n\r\n\
{\"code\":\"Ok\",\"stopping\":true}";

/// The reply to a metric that closes the connection.
const PUBLISHED_CLOSE: &[u8] =
    b"HTTP/1.1 200 OK\r\nContent-Type: application/json; charset=utf-8\r\nContent-Length: 46\r\nConnection: close\r\n\r\n{\"code\":\"Ok\",\"data_version\":\"1\",\"unmatched\":0}";

/// The reply to what is no request.
const BAD_REQUEST: &[u8] =
    b"HTTP/1.1 400 Bad Request\r\nContent-Type: application/json; charset=utf-8\r\nContent-Length: 21\r\nConnection: close\r\n\r\n{\"code\":\"BadRequest\"}";

/// The reply to a stop.
const STOPPING: &[u8] =
    b"HTTP/1.1 200 OK\r\nContent-Type: application/json; charset=utf-8\r\nContent-Length: 29\r\nConnection: close\r\n\r\n{\"code\":\"Ok\",\"stopping\":true}";

// How a control connection ends that is served on a board of these roads, and the number that was published last.
fn ended_on(
    rt: &(impl Threads + Sync),
    alloc: Global,
    roads: &Roads,
    conn: &mut MemConn,
) -> Result<(ControlEnded, u32), AllocError> {
    let mut desk = board(rt, alloc, roads, 0)?;
    let ended = serve_control(rt, alloc, &mut *desk, roads, conn);
    Ok((ended, last_number(&desk)?))
}

// How a control connection ends that is served over the town, its output, and the number that was published last.
fn ended(
    rt: &(impl Threads + Sync),
    alloc: Global,
    conn: &mut MemConn,
) -> Result<(ControlEnded, Vec<u8>, u32), AllocError> {
    let roads = roads(alloc)?;
    let (ended, number) = ended_on(rt, alloc, &roads, conn)?;
    Ok((ended, Vec::from_slice(alloc, conn.output())?, number))
}

/// How a control connection with this input ends, its output, and the number that was published last.
fn controlled(
    rt: &(impl Threads + Sync),
    alloc: Global,
    input: &[u8],
    piece: usize,
    room: usize,
) -> Result<(ControlEnded, Vec<u8>, u32), AllocError> {
    let mut conn = in_pieces(alloc, input, piece, room)?;
    ended(rt, alloc, &mut conn)
}

#[test]
fn control_requests_are_answered_in_any_pieces(rt: HostRuntime) -> Result<(), AllocError> {
    for piece in [THREE_REQUESTS.len(), 1] {
        let (ended, output, number) = controlled(&rt, rt.alloc(), THREE_REQUESTS, piece, ROOM)?;
        assert_eq!(rt; ended, ControlEnded::Stopped);
        assert_eq!(rt; output.as_slice(), THREE_REPLIES);
        assert_eq!(rt; number, 1);
    }
    Ok(())
}

/// How a control connection with these requests ends whose take of the one number fails and whose put of the other, how
/// many bytes of the replies stand in its output, and the number that was published last. There is no call 0.
pub fn told_failing(
    rt: &(impl Threads + Sync),
    alloc: Global,
    take: u64,
    put: u64,
) -> Result<String, AllocError> {
    let mut conn = failing(alloc, THREE_REQUESTS, take, put)?;
    let (ended, output, number) = ended(rt, alloc, &mut conn)?;
    let part = front_of(output.as_slice(), THREE_REPLIES);
    format!(in alloc; "{ended:?} {part}/{number};")
}

// Inputs, each with how its connection ends, and a name for its output. A bar stands between each two parts, and a
// dollar sign between each two rows: one text, since a proof takes time for each value of a list.
const ENDS: &str = "|EndOfInput|nothing$\
POST /con|CutShort|nothing$\
\x20POST|HeadBad|head bad$\
POST /control/v1/metric?speeds=0 HTTP/1.1\r\nContent-Length: 5\r\n\r\n1,2|CutShort|nothing$\
GET /control/v1/stop HTTP/1.1\r\n\r\n|Closed|bad request$\
POST /control/v1/metric?speeds=23 HTTP/1.1\r\nContent-Length: 22\r\n\r\n1,2,20\n|Closed|bad request$\
POST /control/v1/metric?speeds=0 HTTP/1.1\r\nContent-Length: 67108865\r\n\r\n|Closed|bad request$\
POST /control/v1/metric?speeds=0 HTTP/1.0\r\nContent-Length: 0\r\n\r\nPOST|Closed|published, close";

fn output_named(rt: &impl Abort, name: &str) -> &'static [u8] {
    match name {
        "nothing" => b"",
        "head bad" => HEAD_BAD,
        "bad request" => BAD_REQUEST,
        "published, close" => PUBLISHED_CLOSE,
        _ => panic!(rt; "a name of an output"),
    }
}

// Asserts how the connection of a case ends, and its output.
fn assert_end(
    rt: &(impl Threads + Abort + Sync),
    alloc: Global,
    input: &str,
    end: &str,
    name: &str,
) -> Result<(), AllocError> {
    let (ended, output, _) = controlled(rt, alloc, input.as_bytes(), 3, ROOM)?;
    let want = format!(in alloc; "Other({end})")?;
    assert_eq!(rt;
        format!(in alloc; "{ended:?}")?.as_str(),
        want.as_str(),
        "{input:?}"
    );
    assert_eq!(rt; output.as_slice(), output_named(rt, name), "{input:?}");
    Ok(())
}

#[test]
fn each_control_input_has_its_end(rt: HostRuntime) -> Result<(), AllocError> {
    for row in ENDS.split('$') {
        let mut parts = row.split('|');
        match (parts.next(), parts.next(), parts.next()) {
            (Some(input), Some(end), Some(name)) => {
                assert_end(&rt, rt.alloc(), input, end, name)?;
            }
            _ => panic!(rt; "a row of three"),
        }
    }
    Ok(())
}

#[test]
fn a_stop_is_told_where_its_reply_stands_whole(rt: HostRuntime) -> Result<(), AllocError> {
    let stop: &[u8] = b"POST /control/v1/stop HTTP/1.1\r\n\r\n";
    let (ended, output, _) = controlled(&rt, rt.alloc(), stop, 3, ROOM)?;
    assert_eq!(rt; ended, ControlEnded::Stopped);
    assert_eq!(rt; output.as_slice(), STOPPING);
    let (ended, output, _) = controlled(&rt, rt.alloc(), stop, 3, 10)?;
    assert_eq!(rt; ended, ControlEnded::Other(Ended::SinkFault));
    assert_eq!(rt; output.as_slice(), b"HTTP/1.1 2".as_slice());
    Ok(())
}
