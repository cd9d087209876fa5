ghost use Rattle.std.specs.Prelude.{◌≤◌, IsTrue};
ghost use Rattle.http_head.specs.Replies.{is_status};

use case_tables::{count, pair};
use http_head::parts::{Front, Head, Span};
use http_head::{BUSY, BUSY_CLOSE, HEAD_BAD, busy_reply, head, head_bad_reply, response};
use std::alloc::{AllocError, Global};
use std::process::Abort;

/// The `close` and `announced` of a whole head, as `close announced`, or the other answers' names.
fn told(bytes: &[u8]) -> &'static str {
    match head(bytes) {
        Front::Whole { head, .. } => flags(&head),
        Front::More => "more",
        Front::Bad => "bad",
    }
}

fn flags(head: &Head) -> &'static str {
    match (head.close, head.announced) {
        (false, false) => "keep",
        (true, false) => "close",
        (false, true) => "keep, body",
        (true, true) => "close, body",
    }
}

// Heads, each with what is told of it.
const HEADS: &[u8] = b"GET /nearest/v1/car/0,0 HTTP/1.1\r\nHost: a\r\n\r\n|keep$\
GET / HTTP/1.1\r\n\r\n|keep$\
GET / HTTP/1.1\n\n|keep$\
\r\nGET / HTTP/1.1\r\n\r\n|keep$\
POST / HTTP/1.1\r\n\r\n|keep$\
GET / HTTP/1.1\r\nConnection: close\r\n\r\n|close$\
GET / HTTP/1.1\r\ncONNECTION:CLOSE\r\n\r\n|close$\
GET / HTTP/1.1\r\nConnection: upgrade \t,\tclose , x\r\n\r\n|close$\
GET / HTTP/1.1\r\nConnection: x\r\nConnection: close\r\n\r\n|close$\
GET / HTTP/1.1\r\nConnection: closed\r\n\r\n|keep$\
GET / HTTP/1.1\r\nConnection: close x\r\n\r\n|keep$\
GET / HTTP/1.1\r\nX-Connection: close\r\n\r\n|keep$\
GET / HTTP/1.0\r\n\r\n|close$\
GET / HTTP/1.0\r\nConnection: Keep-Alive\r\n\r\n|keep$\
GET / HTTP/1.0\r\nConnection: keep-alive, close\r\n\r\n|close$\
GET / HTTP/1.1\r\nConnection: keep-alive\r\n\r\n|keep$\
GET / HTTP/1.1\r\nContent-Length: 1\r\n\r\n|keep, body$\
GET / HTTP/1.1\r\ncontent-length: 00\r\n\r\n|keep$\
GET / HTTP/1.1\r\nContent-Length:\r\n\r\n|keep$\
GET / HTTP/1.1\r\nContent-Length: 0\r\nContent-Length: 10\r\n\r\n|keep, body$\
GET / HTTP/1.1\r\nContent-Length: 0, 0\r\n\r\n|keep, body$\
GET / HTTP/1.1\r\nTransfer-Encoding: chunked\r\n\r\n|keep, body$\
GET / HTTP/1.0\r\ntransfer-encoding:\r\n\r\n|close, body$\
|more$\
GET /nea|more$\
GET / HTTP/1.1\r\nHost: a\r\n|more$\
GET / HTTP/1.1\r\n\r|more$\
GET / HTTP/2.0\r\n\r\n|bad$\
GET / HTTP/1.1\r\nHost a\r\n\r\n|bad$\
GET / HTTP/1.1\r\n: a\r\n\r\n|bad$\
GET /\x7f HTTP/1.1\r\n\r\n|bad$\
GET / HTTP/1.1\rHost: a\r\n\r\n|bad$\
\x20GET / HTTP/1.1\r\n\r\n|bad";

#[test]
fn each_kind_of_head_is_told_apart(rt: HostRuntime) {
    for number in 0..count(HEADS) {
        let (bytes, want) = pair(HEADS, number).expect(&rt, "a row of two");
        assert_eq!(rt; told(bytes).as_bytes(), want, "row {number}");
    }
}

const POSTED: &[u8] = b"\nPOST /control/v1/stop HTTP/1.0\r\n\r\nrest";

const POSTED_TOLD: &str =
    "Whole { head: Head { method: Span { from: 1, to: 5 }, target: Span { from: 6, to: 22 }, \
    minor: 0, close: true, announced: false }, size: 35 }";

#[test]
fn spans_cover_the_method_and_the_target(rt: HostRuntime) -> Result<(), AllocError> {
    let found = format!(in rt.alloc(); "{:?}", head(POSTED))?;
    assert_eq!(rt; found.as_str(), POSTED_TOLD);
    Ok(())
}

// The bytes that the target of `POSTED` covers.
fn posted_target() -> &'static [u8] {
    Span { from: 6, to: 22 }.of(POSTED)
}

#[test]
fn a_span_has_the_bytes_that_it_covers(rt: HostRuntime) {
    assert_eq!(rt; posted_target(), b"/control/v1/stop".as_slice());
}

/// A head of so many bytes: a target of slashes, and the rest.
fn head_of_size(alloc: Global, size: usize) -> Result<Vec<u8>, AllocError>
    requires { 18 ≤ size }
{
    let mut bytes = Vec::new(alloc);
    bytes.extend_from_slice(b"GET ")?;
    for _ in 0..size - 17 {
        bytes.push(b'/')?;
    }
    bytes.extend_from_slice(b" HTTP/1.1\r\n\r\n")?;
    Ok(bytes)
}

/// A head of so many fields.
fn head_of_fields(alloc: Global, fields: usize) -> Result<Vec<u8>, AllocError> {
    let mut bytes = Vec::new(alloc);
    bytes.extend_from_slice(b"GET / HTTP/1.1\r\n")?;
    for _ in 0..fields {
        bytes.extend_from_slice(b"a: b\r\n")?;
    }
    bytes.extend_from_slice(b"\r\n")?;
    Ok(bytes)
}

// Sizes of heads in bytes, and numbers of their fields, each with what is told of such a head.
const SIZES: &str = "8191 keep
8192 keep
8193 more";

const FIELDS: &str = "63 keep
64 keep
65 more";

// A size or a number, and what is told.
fn row_of<'a>(rt: &impl Abort, row: &'a str) -> (usize, &'a str) {
    let mut parts = row.split(' ');
    let (Some(size), Some(want)) = (parts.next(), parts.next()) else {
        panic!(rt; "a row of two");
    };
    let Ok(size) = size.parse::<usize>() else {
        panic!(rt; "a size");
    };
    (size, want)
}

// Asserts what is told of a head of so many bytes.
fn assert_sized(rt: &impl Abort, alloc: Global, size: usize, want: &str) -> Result<(), AllocError> {
    assert!(rt; size >= 18);
    let bytes = head_of_size(alloc, size)?;
    assert_eq!(rt; bytes.len(), size);
    assert_eq!(rt; told(&bytes), want, "{size} bytes");
    Ok(())
}

// Asserts what is told of a head of so many fields.
fn assert_fields(
    rt: &impl Abort,
    alloc: Global,
    fields: usize,
    want: &str,
) -> Result<(), AllocError> {
    let bytes = head_of_fields(alloc, fields)?;
    assert_eq!(rt; told(&bytes), want, "{fields} fields");
    Ok(())
}

#[test]
fn a_head_has_8192_bytes_at_most(rt: HostRuntime) -> Result<(), AllocError> {
    for row in SIZES.split('\n') {
        let (size, want) = row_of(&rt, row);
        assert_sized(&rt, rt.alloc(), size, want)?;
    }
    Ok(())
}

#[test]
fn a_head_has_64_fields_at_most(rt: HostRuntime) -> Result<(), AllocError> {
    for row in FIELDS.split('\n') {
        let (fields, want) = row_of(&rt, row);
        assert_fields(&rt, rt.alloc(), fields, want)?;
    }
    Ok(())
}

// Asserts that the response with this status and this body, of a connection that stays open at 200 alone, has these bytes.
fn assert_response(
    rt: &impl Abort,
    alloc: Global,
    status: u32,
    body: &[u8],
    want: &[u8],
) -> Result<(), AllocError>
    requires { IsTrue (is_status status) }
{
    let reply = response(alloc, status, body, status != 200)?;
    assert_eq!(rt; reply.as_slice(), want);
    Ok(())
}

const OPEN: &[u8] =
    b"HTTP/1.1 200 OK\r\nContent-Type: application/json; charset=utf-8\r\nContent-Length: 13\r\nConnection: keep-alive\r\n\r\n{\"code\":\"Ok\"}";

const CLOSED: &[u8] =
    b"HTTP/1.1 400 Bad Request\r\nContent-Type: application/json; charset=utf-8\r\nContent-Length: 0\r\nConnection: close\r\n\r\n";

#[test]
fn a_response_has_its_length_and_its_connection(rt: HostRuntime) -> Result<(), AllocError> {
    let alloc = rt.alloc();
    assert_response(&rt, alloc, 200, b"{\"code\":\"Ok\"}", OPEN)?;
    assert_response(&rt, alloc, 400, b"", CLOSED)?;
    assert_response(&rt, alloc, 503, b"{\"code\":\"Busy\"}", BUSY_CLOSE)
}

#[test]
fn a_reply_for_want_of_memory_is_written_already(rt: HostRuntime) {
    assert_eq!(rt; busy_reply(true), BUSY_CLOSE);
    assert_eq!(rt; busy_reply(false), BUSY);
    assert_eq!(rt; head_bad_reply(), HEAD_BAD);
}
