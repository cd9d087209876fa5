//! Query connections in memory over a town.

ghost use Rattle.std.specs.Prelude.{◌≤◌};

use crate::connections::{ROOM, front_of, in_pieces};
use crate::towns::{board, grid, roads};
use customized::Roads;
use http_head::HEAD_BAD;
use road_io::{MemConn, OpenGate};
use route_server::{Ended, serve_connection};
use std::alloc::{AllocError, Global};
use std::process::Abort;
use std::thread::Threads;

/// A request for a route, and the same that asks to close.
const TWO_ROUTES: &[u8] =
    b"GET /route/v1/car/0,0;0.001,0.001?overview=false HTTP/1.1\r\nHost: a\r\n\r\nGET /route/v1/car/0,0;0.001,0.001?overview=false HTTP/1.1\r\nConnection: close\r\n\r\n";

/// The replies to both.
const TWO_REPLIES: &[u8] =
    b"HTTP/1.1 200 OK\r\nContent-Type: application/json; charset=utf-8\r\nContent-Length: 329\r\n\
Connection: keep-alive\r\n\r\n{\"code\":\"Ok\",\"data_version\":\"0\",\"routes\":[{\"distance\":222.2,\
\"duration\":19.8,\"weight\":19.8,\"weight_name\":\"duration\",\"legs\":[{\"distance\":222.2,\"duration\":19.8,\
\"weight\":19.8,\"summary\":\"\",\"steps\":[]}]}],\"waypoints\":[{\"distance\":0.0,\"name\":\"\",\
\"location\":[0.000000,0.000000]},{\"distance\":0.0,\"name\":\"\",\
\"location\":[0.001000,0.001000]}]}HTTP/1.1 200 OK\r\nContent-Type: application/json; charset=utf-8\r\nContent-Length: 329\r\n\
Connection: close\r\n\r\n{\"code\":\"Ok\",\"data_version\":\"0\",\"routes\":[{\"distance\":222.2,\"duration\":19.8,\
\"weight\":19.8,\"weight_name\":\"duration\",\"legs\":[{\"distance\":222.2,\"duration\":19.8,\"weight\":19.8,\
\"summary\":\"\",\"steps\":[]}]}],\"waypoints\":[{\"distance\":0.0,\"name\":\"\",\"location\":[0.000000,0.000000]},\
{\"distance\":0.0,\"name\":\"\",\"location\":[0.001000,0.001000]}]}";

/// The reply to a target that is no path of a service, where it leaves the connection open.
const NO_PATH: &[u8] =
    b"HTTP/1.1 400 Bad Request\r\nContent-Type: application/json; charset=utf-8\r\nContent-Length: 38\r\nConnection: keep-alive\r\n\r\n{\"code\":\"InvalidUrl\",\"message\":\"path\"}";

/// The same where it closes it.
const NO_PATH_CLOSE: &[u8] =
    b"HTTP/1.1 400 Bad Request\r\nContent-Type: application/json; charset=utf-8\r\nContent-Length: 38\r\nConnection: close\r\n\r\n{\"code\":\"InvalidUrl\",\"message\":\"path\"}";

// How a connection ends that is served on a board of these roads.
fn ended_on(
    rt: &(impl Threads + Sync),
    alloc: Global,
    roads: &Roads,
    conn: &mut MemConn,
) -> Result<Ended, AllocError> {
    let grid = grid(alloc, roads)?;
    let mut board = board(rt, alloc, roads, 0)?;
    Ok(serve_connection(rt, alloc, 0, &mut *board, &OpenGate, &grid, conn))
}

// How a connection ends that is served over the town, and its output.
fn ended(
    rt: &(impl Threads + Sync),
    alloc: Global,
    conn: &mut MemConn,
) -> Result<(Ended, Vec<u8>), AllocError> {
    let roads = roads(alloc)?;
    let ended = ended_on(rt, alloc, &roads, conn)?;
    Ok((ended, Vec::from_slice(alloc, conn.output())?))
}

/// How a connection with this input ends, and its output.
fn served(
    rt: &(impl Threads + Sync),
    alloc: Global,
    input: &[u8],
    piece: usize,
    room: usize,
) -> Result<(Ended, Vec<u8>), AllocError> {
    let mut conn = in_pieces(alloc, input, piece, room)?;
    ended(rt, alloc, &mut conn)
}

// Asserts how a connection ends, and its output.
fn assert_served(
    rt: &(impl Threads + Abort + Sync),
    alloc: Global,
    input: &[u8],
    piece: usize,
    end: Ended,
    replies: &[u8],
) -> Result<(), AllocError> {
    let (ended, output) = served(rt, alloc, input, piece, ROOM)?;
    assert_eq!(rt; ended, end);
    assert_eq!(rt; output.as_slice(), replies);
    Ok(())
}

#[test]
fn two_requests_are_answered_in_any_pieces(rt: HostRuntime) -> Result<(), AllocError> {
    for piece in [TWO_ROUTES.len(), 1] {
        assert_served(
            &rt,
            rt.alloc(),
            TWO_ROUTES,
            piece,
            Ended::Closed,
            TWO_REPLIES,
        )?;
    }
    Ok(())
}

/// A request for the nearest place, twice.
pub const NEAREST_TWICE: &[u8] =
    b"GET /nearest/v1/car/0,0 HTTP/1.1\r\nHost: a\r\n\r\nGET /nearest/v1/car/0,0 HTTP/1.1\r\nHost: a\r\n\r\n";

/// The replies to both.
const NEAREST_REPLIES: &[u8] =
    b"HTTP/1.1 200 OK\r\nContent-Type: application/json; charset=utf-8\r\nContent-Length: 118\r\n\
Connection: keep-alive\r\n\r\n{\"code\":\"Ok\",\"data_version\":\"0\",\"waypoints\":[{\"nodes\":[1,2],\
\"distance\":0.0,\"name\":\"\",\"location\":[0.000000,0.000000]}]}HTTP/1.1 200 OK\r\n\
Content-Type: application/json; charset=utf-8\r\nContent-Length: 118\r\nConnection: keep-alive\r\n\r\n\
{\"code\":\"Ok\",\"data_version\":\"0\",\"waypoints\":[{\"nodes\":[1,2],\"distance\":0.0,\"name\":\"\",\
\"location\":[0.000000,0.000000]}]}";

#[test]
fn the_nearest_place_is_answered_twice(rt: HostRuntime) -> Result<(), AllocError> {
    for piece in [NEAREST_TWICE.len(), 1] {
        assert_served(
            &rt,
            rt.alloc(),
            NEAREST_TWICE,
            piece,
            Ended::EndOfInput,
            NEAREST_REPLIES,
        )?;
    }
    Ok(())
}

/// A head of so many bytes, padded by a field.
fn head_of_size(alloc: Global, size: usize) -> Result<Vec<u8>, AllocError>
    requires { 30 ≤ size }
{
    let mut bytes = Vec::new(alloc);
    bytes.extend_from_slice(b"GET / HTTP/1.1\r\nHost: ")?;
    for _ in 0..size - 26 {
        bytes.push(b'a')?;
    }
    bytes.extend_from_slice(b"\r\n\r\n")?;
    Ok(bytes)
}

#[test]
fn a_head_of_8192_bytes_is_answered_and_none_longer(rt: HostRuntime) -> Result<(), AllocError> {
    let longest = head_of_size(rt.alloc(), 8192)?;
    assert_eq!(rt; longest.len(), 8192);
    assert_served(&rt, rt.alloc(), &longest, 8192, Ended::EndOfInput, NO_PATH)?;
    let too_long = head_of_size(rt.alloc(), 8193)?;
    assert_served(&rt, rt.alloc(), &too_long, 8192, Ended::HeadBad, HEAD_BAD)
}

// Inputs, each with how its connection ends, and a name for its output. A bar stands between each two parts, and a
// dollar sign between each two rows: one text, since a proof takes time for each value of a list.
const ENDS: &str = "|EndOfInput|nothing$\
GET /nea|CutShort|nothing$\
GET / HTTP/1.1\r\n\r\n|EndOfInput|no path$\
GET / HTTP/1.0\r\n\r\nGET|Closed|no path, close$\
POST / HTTP/1.1\r\n\r\n|HeadBad|head bad$\
GET / HTTP/1.1\r\nContent-Length: 1\r\n\r\n|HeadBad|head bad$\
GET / HTTP/1.1\r\nContent-Length: 00\r\n\r\n|EndOfInput|no path";

fn output_named(rt: &impl Abort, name: &str) -> &'static [u8] {
    match name {
        "nothing" => b"",
        "no path" => NO_PATH,
        "no path, close" => NO_PATH_CLOSE,
        "head bad" => HEAD_BAD,
        _ => panic!(rt; "a name of an output"),
    }
}

// Asserts how the connection of a case ends, and its output.
fn assert_end(
    rt: &(impl Threads + Abort + Sync),
    alloc: Global,
    input: &str,
    end: &str,
    name: &str,
) -> Result<(), AllocError> {
    let (ended, output) = served(rt, alloc, input.as_bytes(), 3, ROOM)?;
    assert_eq!(rt; format!(in alloc; "{ended:?}")?.as_str(), end, "{input:?}");
    assert_eq!(rt; output.as_slice(), output_named(rt, name), "{input:?}");
    Ok(())
}

#[test]
fn each_input_has_its_end(rt: HostRuntime) -> Result<(), AllocError> {
    for row in ENDS.split('$') {
        let mut parts = row.split('|');
        match (parts.next(), parts.next(), parts.next()) {
            (Some(input), Some(end), Some(name)) => {
                assert_end(&rt, rt.alloc(), input, end, name)?;
            }
            _ => panic!(rt; "a row of three"),
        }
    }
    Ok(())
}

// How a connection ends that is served on a board of these roads, behind which the same seat serves another.
fn ended_before(
    rt: &(impl Threads + Sync),
    alloc: Global,
    roads: &Roads,
    conn: &mut MemConn,
    next: &mut MemConn,
) -> Result<Ended, AllocError> {
    let grid = grid(alloc, roads)?;
    let mut board = board(rt, alloc, roads, 0)?;
    let ended = serve_connection(rt, alloc, 0, &mut *board, &OpenGate, &grid, conn);
    let _ = serve_connection(rt, alloc, 0, &mut *board, &OpenGate, &grid, next);
    Ok(ended)
}

/// How a connection ends that asks for the nearest place twice, how many bytes of the replies stand in its output, and
/// how many in that of the seat's next connection, which asks for the same.
pub fn told_with_next(
    rt: &(impl Threads + Sync),
    alloc: Global,
    conn: &mut MemConn,
) -> Result<String, AllocError> {
    let mut next = in_pieces(alloc, NEAREST_TWICE, 100, ROOM)?;
    let roads = roads(alloc)?;
    let ended = ended_before(rt, alloc, &roads, conn, &mut next)?;
    let part = front_of(conn.output(), NEAREST_REPLIES);
    let whole = front_of(next.output(), NEAREST_REPLIES);
    format!(in alloc; "{ended:?} {part}/{whole};")
}

#[test]
fn behind_a_full_output_the_next_connection_is_answered_whole(
    rt: HostRuntime,
) -> Result<(), AllocError> {
    let mut full = in_pieces(rt.alloc(), NEAREST_TWICE, 100, 10)?;
    let told = told_with_next(&rt, rt.alloc(), &mut full)?;
    assert_eq!(rt; told.as_str(), "SinkFault 10/458;");
    Ok(())
}

/// These bytes so many times.
fn repeated(alloc: Global, bytes: &[u8], count: u32) -> Result<Vec<u8>, AllocError> {
    let mut all = Vec::new(alloc);
    for _ in 0..count {
        all.extend_from_slice(bytes)?;
    }
    Ok(all)
}

#[test]
fn the_hundredth_reply_closes(rt: HostRuntime) -> Result<(), AllocError> {
    let input = repeated(rt.alloc(), b"GET / HTTP/1.1\r\n\r\n", 101)?;
    let mut replies = repeated(rt.alloc(), NO_PATH, 99)?;
    replies.extend_from_slice(NO_PATH_CLOSE)?;
    assert_served(&rt, rt.alloc(), &input, 8192, Ended::Closed, &replies)
}
