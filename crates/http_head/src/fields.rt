//! What the fields of a head ask of the connection.
ghost use Rattle.std.specs.Prelude.{◌≡◌, length, All, map, reverse};
ghost use Rattle.std.specs.List.{list_any};
ghost use Rattle.httparse.specs.Grammar.{is_ows, skip_ows};
ghost use Rattle.httparse.specs.Spans.{IsHeaderWithin, header_bytes};
ghost use Rattle.http_head.specs.Fields.{is_named, is_option, has_option, is_connection_option, closes, is_all_zeros, announces_body};

use httparse::spans::HeaderSpan;

/// Whether the connection closes after the reply to a head of this version with these fields.
pub fn closes(bytes: &[u8], fields: &[HeaderSpan], minor: u8) -> bool
    requires { All (IsHeaderWithin (length bytes.now)) fields.now }
    ensures { result ≡ closes minor (map (header_bytes bytes.now) fields.now) }
{
    lists_option(bytes, fields, b"close")
        || (minor == 0 && !lists_option(bytes, fields, b"keep-alive"))
}

/// Whether one of the fields announces a body.
pub fn announces(bytes: &[u8], fields: &[HeaderSpan]) -> bool
    requires { All (IsHeaderWithin (length bytes.now)) fields.now }
    ensures { result ≡ list_any (λ field. announces_body (header_bytes bytes.now field)) fields.now }
{
    fields.iter().any(|field| announces_body(bytes, field))
}

/// Whether some `Connection` field lists the option.
fn lists_option(bytes: &[u8], fields: &[HeaderSpan], option: &[u8]) -> bool
    requires { All (IsHeaderWithin (length bytes.now)) fields.now }
    ensures { result ≡ list_any (λ field. is_connection_option option.now (header_bytes bytes.now field)) fields.now }
{
    fields
        .iter()
        .any(|field| is_connection_option(bytes, field, option))
}

fn is_connection_option(bytes: &[u8], field: &HeaderSpan, option: &[u8]) -> bool
    requires { IsHeaderWithin (length bytes.now) field.now }
    ensures { result ≡ is_connection_option option.now (header_bytes bytes.now field.now) }
{
    is_named(bytes, field, b"connection") && has_option(field.value.of(bytes), option)
}

fn announces_body(bytes: &[u8], field: &HeaderSpan) -> bool
    requires { IsHeaderWithin (length bytes.now) field.now }
    ensures { result ≡ announces_body (header_bytes bytes.now field.now) }
{
    is_named(bytes, field, b"transfer-encoding")
        || (is_named(bytes, field, b"content-length") && !is_all_zeros(field.value.of(bytes)))
}

fn is_named(bytes: &[u8], field: &HeaderSpan, name: &[u8]) -> bool
    requires { IsHeaderWithin (length bytes.now) field.now }
    ensures { result ≡ is_named name.now (header_bytes bytes.now field.now) }
{
    field.name.of(bytes).eq_ignore_ascii_case(name)
}

fn is_all_zeros(value: &[u8]) -> bool
    ensures { result ≡ is_all_zeros value.now }
{
    value.iter().all(|byte| *byte == b'0')
}

/// Whether one of the pieces between the value's commas is the option.
fn has_option(value: &[u8], option: &[u8]) -> bool
    ensures { result ≡ has_option option.now value.now }
{
    value
        .split(|byte| *byte == b',')
        .any(|piece| is_option(piece, option))
}

#[tactic(auto, unfolding(httparse::specs::Grammar::trim_ows))]
fn is_option(piece: &[u8], option: &[u8]) -> bool
    ensures { result ≡ is_option option.now piece.now }
{
    trim_end(trim_start(piece)).eq_ignore_ascii_case(option)
}

fn is_blank(byte: u8) -> bool
    ensures { result ≡ is_ows byte }
{
    byte == b' ' || byte == b'\t'
}

/// The piece from its first byte that is no blank.
fn trim_start(mut piece: &[u8]) -> &[u8]
    ensures { result.now ≡ skip_ows piece.entry.now }
{
    while let [first, rest @ ..] = piece {
        if !is_blank(*first) {
            break;
        }
        piece = rest;
    }
    piece
}

/// The piece up to its last byte that is no blank.
fn trim_end(mut piece: &[u8]) -> &[u8]
    ensures { result.now ≡ reverse (skip_ows (reverse piece.entry.now)) }
{
    while let [rest @ .., last] = piece {
        if !is_blank(*last) {
            break;
        }
        piece = rest;
    }
    piece
}
