//! The bytes of replies.
ghost use Rattle.std.specs.Prelude.{◌≡◌, IfOk, IsTrue, true, codes, string_bytes};
ghost use Rattle.http_head.specs.Replies.{is_status, status_text, connection_text, head_text, reply_text};

use std::alloc::{AllocError, Global};

/// The reply in place of one for which no memory was found. The connection stays open.
pub const BUSY: &[u8] =
    b"HTTP/1.1 503 Service Unavailable\r\nContent-Type: application/json; charset=utf-8\r\nContent-Length: 15\r\nConnection: keep-alive\r\n\r\n{\"code\":\"Busy\"}";

/// The same in place of a reply that would close the connection.
pub const BUSY_CLOSE: &[u8] =
    b"HTTP/1.1 503 Service Unavailable\r\nContent-Type: application/json; charset=utf-8\r\nContent-Length: 15\r\nConnection: close\r\n\r\n{\"code\":\"Busy\"}";

/// The reply to bytes that aren't a head that the server takes.
pub const HEAD_BAD: &[u8] =
    b"HTTP/1.1 400 Bad Request\r\nContent-Type: application/json; charset=utf-8\r\nContent-Length: 50\r\nConnection: close\r\n\r\n{\"code\":\"InvalidUrl\",\"message\":\"bad request head\"}";

/// `BUSY` or `BUSY_CLOSE`, as the reply in whose place it stands would close.
pub fn busy_reply(close: bool) -> &'static [u8]
    ensures { result.now ≡ reply_text 503 (codes "{\"code\":\"Busy\"}") close }
{
    if close { BUSY_CLOSE } else { BUSY }
}

/// `HEAD_BAD`.
pub fn head_bad_reply() -> &'static [u8]
    ensures { result.now ≡ reply_text 400 (codes "{\"code\":\"InvalidUrl\",\"message\":\"bad request head\"}") true }
{
    HEAD_BAD
}

/// The bytes of a reply with this status, which is 200, 400 or 503: a status line, the fields
/// `Content-Type`, `Content-Length` and `Connection`, an empty line and the body. An `Err` is want
/// of memory.
pub fn response(alloc: Global, status: u32, body: &[u8], close: bool) -> Result<Vec<u8>, AllocError>
    requires { IsTrue (is_status status) }
    ensures { IfOk result (λ reply. reply.items ≡ reply_text status body.now close) }
{
    let head = head_text(alloc, status, body.len(), close)?;
    let mut reply = head.into_bytes();
    reply.extend_from_slice(body)?;
    Ok(reply)
}

/// The reply up to its body, which has this many bytes.
fn head_text(alloc: Global, status: u32, size: usize, close: bool) -> Result<String, AllocError>
    requires { IsTrue (is_status status) }
    ensures { IfOk result (λ head. string_bytes head ≡ head_text status size close) }
{
    let phrase = status_text(status);
    let connection = connection_text(close);
    format!(in alloc;
        "HTTP/1.1 {phrase}\r\nContent-Type: application/json; charset=utf-8\r\nContent-Length: {size}\r\nConnection: {connection}\r\n\r\n"
    )
}

fn status_text(status: u32) -> &'static str
    requires { IsTrue (is_status status) }
    ensures { result.now ≡ status_text status }
{
    match status {
        200 => "200 OK",
        400 => "400 Bad Request",
        _ => "503 Service Unavailable",
    }
}

fn connection_text(close: bool) -> &'static str
    ensures { result.now ≡ connection_text close }
{
    if close { "close" } else { "keep-alive" }
}
