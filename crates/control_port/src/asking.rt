//! What the head of a request asks for.

ghost use Rattle.std.specs.Prelude.{◌≡◌, ◌≤◌, ℕ, length, drop, map, All, codes, filter};
ghost use Rattle.std.specs.List.{list_any};
ghost use Rattle.httparse.specs.Grammar.{RequestHead};
ghost use Rattle.httparse.specs.Spans.{IsHeaderWithin, header_bytes};
ghost use Rattle.http_head.specs.Fields.{fields_of, is_named};
ghost use Rattle.http_head.specs.Heads.{IsHeadOf};
ghost use Rattle.control_port.specs.Asking.{HasSpeeds, announced_by, asked_of, body_length, by_lengths, metric_by, metric_target, stop_by, target_asks, with_field, with_length};

use crate::numbers::number_in;
use http_head::FIELD_LIMIT;
use http_head::parts::Head;
use httparse::Status;
use httparse::spans::{EMPTY_HEADER_SPAN, HeaderSpan, parse_request};

/// The most bytes that the body of a request may have.
pub const MOST_BYTES: usize = 67108864;

const STOP_TARGET: &[u8] = b"/control/v1/stop";

const METRIC_TARGET: &[u8] = b"/control/v1/metric?speeds=";

/// What a control request asks for.
#[derive(Clone, Copy, Debug, PartialEq, Eq)]
pub enum ControlHead {
    /// A metric of the two traffic files in its body of `length` bytes, of which the first `speeds` are the
    /// speeds file and the others the turns file.
    Metric { speeds: usize, length: usize },
    /// To stop.
    Stop,
    /// Nothing that there is: another method or target, another body, or a body that is too long.
    Bad,
}

/// Which body the fields of a head announce.
#[derive(Clone, Copy, Debug, PartialEq, Eq)]
pub enum Announced {
    /// None.
    Nothing,
    /// One of so many bytes.
    Length(usize),
    /// One that this port doesn't take: in a transfer coding, or of a length that isn't one number.
    Other,
}

impl ControlHead {
    /// What the head at the front of these bytes asks for, which `head` of `http_head` found there. It takes no
    /// memory.
    pub fn of(bytes: &[u8], head: &Head) -> ControlHead
        requires { (size : ℕ) × (h : RequestHead) × IsHeadOf bytes.now head.now size h }
        ensures asked { (size : ℕ) (h : RequestHead) → IsHeadOf bytes.now head.now size h → result ≡ asked_of h }
        ensures speeds { HasSpeeds result }
        ensures bound { body_length result ≤ 67108864 }
    {
        if head.method.of(bytes) != b"POST".as_slice() {
            return ControlHead::Bad;
        }
        target_asks(head.target.of(bytes), body_behind(bytes))
    }

    /// How many bytes of a body are read behind the head.
    pub fn body_length(self) -> usize
        ensures { result ≡ body_length self }
    {
        match self {
            ControlHead::Metric { speeds: _, length } => length,
            ControlHead::Stop => 0,
            ControlHead::Bad => 0,
        }
    }
}

// What a target asks for, of such a body.
fn target_asks(target: &[u8], body: Announced) -> ControlHead
    ensures asked { result ≡ target_asks target.now body }
    ensures speeds { HasSpeeds result }
    ensures bound { body_length result ≤ 67108864 }
{
    if target == STOP_TARGET {
        return stop_by(body);
    }
    if !target.starts_with(METRIC_TARGET) {
        return ControlHead::Bad;
    }
    metric_by(number_in(past_question(target)), body)
}

// What stands behind the front of a metric's target.
fn past_question(target: &[u8]) -> &[u8]
    requires { length metric_target ≤ length target.now }
    ensures { result.now ≡ drop (length metric_target) target.now }
{
    let (_, speeds) = target.split_at(METRIC_TARGET.len());
    speeds
}

fn stop_by(body: Announced) -> ControlHead
    ensures asked { result ≡ stop_by body }
    ensures speeds { HasSpeeds result }
    ensures bound { body_length result ≤ 67108864 }
{
    match body {
        Announced::Nothing | Announced::Length(0) => ControlHead::Stop,
        _ => ControlHead::Bad,
    }
}

fn metric_by(speeds: Option<usize>, body: Announced) -> ControlHead
    ensures asked { result ≡ metric_by speeds body }
    ensures speeds { HasSpeeds result }
    ensures bound { body_length result ≤ 67108864 }
{
    match (speeds, body) {
        (Some(speeds), Announced::Length(length)) => {
            if speeds <= length && length <= MOST_BYTES {
                ControlHead::Metric { speeds, length }
            } else {
                ControlHead::Bad
            }
        }
        _ => ControlHead::Bad,
    }
}

// Which body is announced by the head at the front of these bytes; another one where none stands there.
fn body_behind(bytes: &[u8]) -> Announced
    ensures { (found : Head) (size : ℕ) (h : RequestHead) → IsHeadOf bytes.now found size h → result ≡ announced_by (fields_of h) }
{
    let mut fields = [EMPTY_HEADER_SPAN; FIELD_LIMIT];
    match parse_request(bytes, &mut fields) {
        Ok(Status::Complete(found)) => announced_by(bytes, &fields[..found.headers]),
        _ => Announced::Other,
    }
}

// Which body these fields announce.
fn announced_by(bytes: &[u8], fields: &[HeaderSpan]) -> Announced
    requires { All (IsHeaderWithin (length bytes.now)) fields.now }
    ensures { result ≡ announced_by (map (header_bytes bytes.now) fields.now) }
{
    if is_coded(bytes, fields) {
        return Announced::Other;
    }
    by_lengths(bytes, fields)
}

// Whether one of the fields announces a body in a transfer coding.
fn is_coded(bytes: &[u8], fields: &[HeaderSpan]) -> bool
    requires { All (IsHeaderWithin (length bytes.now)) fields.now }
    ensures { result ≡ list_any (λ field. is_named (codes "transfer-encoding") (header_bytes bytes.now field)) fields.now }
{
    fields
        .iter()
        .any(|field| is_named(bytes, field, b"transfer-encoding"))
}

// Which body is announced by those of these fields that are named `Content-Length`.
fn by_lengths(bytes: &[u8], fields: &[HeaderSpan]) -> Announced
    requires { All (IsHeaderWithin (length bytes.now)) fields.now }
    ensures { result ≡ by_lengths (filter (is_named (codes "content-length")) (map (header_bytes bytes.now) fields.now)) }
{
    let mut body = Announced::Nothing;
    for field in fields {
        body = with_field(bytes, field, body);
    }
    body
}

// What is announced where this field is one more.
fn with_field(bytes: &[u8], field: &HeaderSpan, before: Announced) -> Announced
    requires { IsHeaderWithin (length bytes.now) field.now }
    ensures { result ≡ with_field before (header_bytes bytes.now field.now) }
{
    if is_named(bytes, field, b"content-length") {
        with_length(before, number_in(field.value.of(bytes)))
    } else {
        before
    }
}

// What is announced where one length more is.
fn with_length(before: Announced, length: Option<usize>) -> Announced
    ensures { result ≡ with_length before length }
{
    match (before, length) {
        (Announced::Nothing, Some(length)) => Announced::Length(length),
        _ => Announced::Other,
    }
}

fn is_named(bytes: &[u8], field: &HeaderSpan, name: &[u8]) -> bool
    requires { IsHeaderWithin (length bytes.now) field.now }
    ensures { result ≡ is_named name.now (header_bytes bytes.now field.now) }
{
    field.name.of(bytes).eq_ignore_ascii_case(name)
}
