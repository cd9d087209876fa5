//! The head at the front of the bytes.
ghost use Rattle.std.specs.Prelude.{◌≡◌, ◌≤◌, length, All, map, take};
ghost use Rattle.httparse.specs.Spans.{IsHeaderWithin, IsRequestWithin, IsRequestOf};
ghost use Rattle.http_head.specs.Heads.{AnswersHead};

use crate::fields::{announces, closes};
use crate::parts::{Front, Head, Span};
use httparse::spans::{EMPTY_HEADER_SPAN, HeaderSpan, RequestSpans, parse_request};
use httparse::{Error, Status};

/// How many fields a head has at most.
pub const FIELD_LIMIT: usize = 64;

/// How many bytes a head has at most.
pub const HEAD_LIMIT: usize = 8192;

/// What stands at the front of the bytes: a whole head exactly where a front of them is a request
/// head of HTTP/1.0 or 1.1 within both limits, `Bad` only where no bytes that may follow make a
/// head of it, and else `More`. Takes no memory.
pub fn head(bytes: &[u8]) -> Front
    ensures { AnswersHead bytes.now result }
{
    let mut fields = [EMPTY_HEADER_SPAN; FIELD_LIMIT];
    match parse_request(bytes, &mut fields) {
        Ok(Status::Complete(found)) => whole(bytes, &fields, found),
        Ok(Status::Partial) | Err(Error::TooManyHeaders) => Front::More,
        Err(_) => Front::Bad,
    }
}

/// The answer where the parser found a head, whose fields stand first in `fields`.
fn whole(bytes: &[u8], fields: &[HeaderSpan], found: RequestSpans) -> Front
    requires within { IsRequestWithin bytes.now fields.now found }
    requires complete { IsRequestOf bytes.now fields.now found }
    requires room { length fields.now ≤ 64 }
    ensures { AnswersHead bytes.now result }
{
    if found.len > HEAD_LIMIT {
        return Front::More;
    }
    let fields = &fields[..found.headers];
    Front::Whole {
        head: Head {
            method: span(found.method),
            target: span(found.path),
            minor: found.version,
            close: closes(bytes, fields, found.version),
            announced: announces(bytes, fields),
        },
        size: found.len,
    }
}

fn span(found: httparse::spans::Span) -> Span
    ensures from { result.from ≡ found.start }
    ensures to { result.to ≡ found.end }
{
    Span {
        from: found.start,
        to: found.end,
    }
}
