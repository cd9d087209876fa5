//! Replies, written without memory into room that was taken before.

ghost use Rattle.std.specs.Prelude.{◌≡◌, ◌+◌, ◌≤◌, ◌<◌, ◌++◌, [], length, string_bytes, string_len, string_capacity};
ghost use Rattle.http_head.specs.Replies.{connection_text, head_text, reply_text, status_text};
ghost use Rattle.control_port.specs.Telling.{body_of, published_text, refused_text, spent_text, status_of};

use crate::controlled::{Controlled, file_text, kind_text};
use std::alloc::{AllocError, Global};
use traffic_files::RowFault;

// More bytes than the longest body of a reply has.
const BODY_BYTES: usize = 96;

// More bytes than the longest reply has.
const REPLY_BYTES: usize = 320;

/// Room for the body of any control reply, and for one byte behind it.
#[derive(Drop)]
pub struct BodyRoom {
    text: String,
    ghost empty: { string_bytes text ≡ [] },
    ghost none: { string_len text ≡ 0 },
    ghost room: { 96 ≤ string_capacity text },
}

impl BodyRoom {
    /// Takes the room. It answers an error only where memory runs out.
    pub fn new(alloc: Global) -> Result<BodyRoom, AllocError> {
        let text = String::with_capacity(alloc, BODY_BYTES)?;
        Ok(BodyRoom { text })
    }

    /// The body of the reply. It takes no memory, and one byte behind it takes none either.
    pub fn body(self, answer: &Controlled) -> String
        ensures text { string_bytes result ≡ body_of answer.now }
        ensures short { string_len result < 96 }
        ensures spare { string_len result < string_capacity result }
    {
        let BodyRoom { mut text } = self;
        write_body(&mut text, answer);
        text
    }
}

/// Room for any whole control reply.
#[derive(Drop)]
pub struct ReplyRoom {
    body: BodyRoom,
    reply: String,
    ghost empty: { string_bytes reply ≡ [] },
    ghost none: { string_len reply ≡ 0 },
    ghost room: { 320 ≤ string_capacity reply },
}

impl ReplyRoom {
    /// Takes the room. It answers an error only where memory runs out.
    pub fn new(alloc: Global) -> Result<ReplyRoom, AllocError> {
        let body = BodyRoom::new(alloc)?;
        let reply = String::with_capacity(alloc, REPLY_BYTES)?;
        Ok(ReplyRoom { body, reply })
    }

    /// The reply: a status line, three fields, an empty line and the body. It takes no memory.
    pub fn reply(self, answer: &Controlled, close: bool) -> Vec<u8>
        ensures { result.items ≡ reply_text (status_of answer.now) (body_of answer.now) close }
    {
        let ReplyRoom { body, mut reply } = self;
        let body = body.body(answer);
        write_head(&mut reply, answer, body.len(), close);
        append(&mut reply, body.as_str());
        reply.into_bytes()
    }
}

// Puts a piece behind a text that has room for it.
fn append(text: &mut String, piece: &str)
    requires { string_len text.old + length piece.now ≤ string_capacity text.old }
    ensures bytes { string_bytes text.new ≡ string_bytes text.old ++ piece.now }
    ensures len { string_len text.new ≡ string_len text.old + length piece.now }
    ensures capacity { string_capacity text.old ≤ string_capacity text.new }
{
    text.push_str(piece).unwrap();
}

fn write_published(text: &mut String, number: u32, unmatched: u64)
    requires empty { string_bytes text.old ≡ [] }
    requires none { string_len text.old ≡ 0 }
    requires room { 96 ≤ string_capacity text.old }
    ensures text { string_bytes text.new ≡ published_text number unmatched }
    ensures short { string_len text.new < 96 }
    ensures capacity { 96 ≤ string_capacity text.new }
{
    let mut digits = itoa::Buffer::new();
    append(text, "{\"code\":\"Ok\",\"data_version\":\"");
    append(text, digits.format(number));
    append(text, "\",\"unmatched\":");
    append(text, digits.format(unmatched));
    append(text, "}");
}

fn write_refused(text: &mut String, fault: &RowFault)
    requires empty { string_bytes text.old ≡ [] }
    requires none { string_len text.old ≡ 0 }
    requires room { 96 ≤ string_capacity text.old }
    ensures text { string_bytes text.new ≡ refused_text fault.now }
    ensures short { string_len text.new < 96 }
    ensures capacity { 96 ≤ string_capacity text.new }
{
    let mut digits = itoa::Buffer::new();
    append(text, "{\"code\":\"Refused\",\"file\":\"");
    append(text, file_text(fault.file));
    append(text, "\",\"row\":");
    append(text, digits.format(fault.row));
    append(text, ",\"kind\":\"");
    append(text, kind_text(fault.kind));
    append(text, "\"}");
}

fn write_spent(text: &mut String, number: u32)
    requires empty { string_bytes text.old ≡ [] }
    requires none { string_len text.old ≡ 0 }
    requires room { 96 ≤ string_capacity text.old }
    ensures text { string_bytes text.new ≡ spent_text number }
    ensures short { string_len text.new < 96 }
    ensures capacity { 96 ≤ string_capacity text.new }
{
    let mut digits = itoa::Buffer::new();
    append(text, "{\"code\":\"Spent\",\"data_version\":\"");
    append(text, digits.format(number));
    append(text, "\"}");
}

// The body of the reply, in a text with nothing in it but room.
fn write_body(text: &mut String, answer: &Controlled)
    requires empty { string_bytes text.old ≡ [] }
    requires none { string_len text.old ≡ 0 }
    requires room { 96 ≤ string_capacity text.old }
    ensures text { string_bytes text.new ≡ body_of answer.now }
    ensures short { string_len text.new < 96 }
    ensures capacity { 96 ≤ string_capacity text.new }
{
    match answer {
        Controlled::Published { number, unmatched } => write_published(text, *number, *unmatched),
        Controlled::Refused(fault) => write_refused(text, fault),
        Controlled::BadRequest => append(text, "{\"code\":\"BadRequest\"}"),
        Controlled::Spent(number) => write_spent(text, *number),
        Controlled::Stopping => append(text, "{\"code\":\"Ok\",\"stopping\":true}"),
    }
}

// The status line as it stands behind the version.
fn status_text(answer: &Controlled) -> &'static str
    ensures value { result.now ≡ status_text (status_of answer.now) }
    ensures short { length result.now ≤ 15 }
{
    if answer.status() == 200 {
        "200 OK"
    } else {
        "400 Bad Request"
    }
}

fn connection_text(close: bool) -> &'static str
    ensures value { result.now ≡ connection_text close }
    ensures short { length result.now ≤ 10 }
{
    if close { "close" } else { "keep-alive" }
}

// The reply up to its body, which has this many bytes, in a text with nothing in it but room.
fn write_head(reply: &mut String, answer: &Controlled, size: usize, close: bool)
    requires empty { string_bytes reply.old ≡ [] }
    requires none { string_len reply.old ≡ 0 }
    requires room { 320 ≤ string_capacity reply.old }
    ensures text { string_bytes reply.new ≡ head_text (status_of answer.now) size close }
    ensures short { string_len reply.new ≤ 200 }
    ensures capacity { 320 ≤ string_capacity reply.new }
{
    let mut digits = itoa::Buffer::new();
    append(reply, "HTTP/1.1 ");
    append(reply, status_text(answer));
    append(
        reply,
        "\r\nContent-Type: application/json; charset=utf-8\r\nContent-Length: ",
    );
    append(reply, digits.format(size));
    append(reply, "\r\nConnection: ");
    append(reply, connection_text(close));
    append(reply, "\r\n\r\n");
}
