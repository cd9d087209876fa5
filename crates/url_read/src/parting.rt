//! A target parted into its path and its query.

ghost use Rattle.std.specs.Prelude.{◌≡◌, ◌<◌, ◌==◌, true, false, MatchOption, IfOk, IfSome, cond, length, string_bytes};
ghost use Rattle.std.specs.Str.{is_utf8};
ghost use Rattle.percent_encoding.specs.Percent.{percent_decode};
ghost use Rattle.url_read.specs.Target.{mark_of, path_at, query_at};

use percent_encoding::percent_decode;
use std::alloc::{AllocError, Global};

// The path of a target, and its query.
pub(crate) fn parted(target: &[u8]) -> (&[u8], &[u8])
    ensures path { result.0.now ≡ path_at (mark_of target.now) target.now }
    ensures query { result.1.now ≡ query_at (mark_of target.now) target.now }
{
    match mark_in(target) {
        Some(mark) => (&target[..mark], &target[mark + 1..]),
        None => (target, &[]),
    }
}

// Where the first `?` stands that has as many `(` as `)` before it.
fn mark_in(target: &[u8]) -> Option<usize>
    ensures mark { result ≡ mark_of target.now }
    ensures within { IfSome result (λ mark. mark < length target.now) }
{
    let mut opened = 0;
    let mut closed = 0;
    for place in 0..target.len() {
        let byte = target[place];
        if byte == b'?' && opened == closed {
            return Some(place);
        }
        opened += once_if(byte, b'(');
        closed += once_if(byte, b')');
    }
    None
}

// 1 for the wanted byte, and 0 for another one.
fn once_if(byte: u8, wanted: u8) -> usize
    ensures { result ≡ cond (byte == wanted) 1 0 }
{
    if byte == wanted { 1 } else { 0 }
}

// A part of a target with its percent escapes read, None where that is not UTF-8.
pub(crate) fn decoded(alloc: Global, part: &[u8]) -> Result<Option<String>, AllocError>
    ensures { IfOk result (λ found. MatchOption found (is_utf8 (percent_decode part.now) ≡ false) (λ text. string_bytes text ≡ percent_decode part.now)) }
{
    let mut bytes = Vec::new(alloc);
    percent_decode(part).append_to(&mut bytes)?;
    match String::from_utf8(bytes) {
        Ok(text) => Ok(Some(text)),
        Err(_) => Ok(None),
    }
}

// The characters of a text, which are UTF-8.
pub(crate) fn characters(text: &String) -> &str
    ensures same { result.now ≡ string_bytes text.now }
    ensures utf8 { is_utf8 (string_bytes text.now) ≡ true }
{
    text.as_str()
}
