//! The tags of an OpenStreetMap object.

ghost use Rattle.std.specs.Prelude.{◌≡◌, ◌∷◌, ◌++◌, ◌<◌, [], IfOk, IfSome, IfNone, OnOk, length, option_copied, position};
ghost use Rattle.std.specs.List.{before_first, after_first};
ghost use Rattle.std.specs.Str.{IsUtf8};
ghost use Rattle.road_base.specs.TagBytes.{is_end, tags_in, texts_in, text_bytes};
ghost use Rattle.road_base.specs.TagValue.{value_of};

use std::alloc::{AllocError, Global};
use std::marker::Model;

// What stands before and behind a text of at least so many bytes: no text in UTF-8 has it. Before a shorter one stands
// its length.
const END: u8 = 255;

/// The tags of an object, each a key and a value, in the order in which they were written. Contracts
/// see the list of the pairs of their bytes.
#[derive(Debug)]
pub struct Tags {
    // The keys and values in turn, the length of each before it, by which a look-up goes past it unread: most
    // objects have few and short ones, and a map has many objects.
    bytes: Vec<u8>,
}

impl Drop for Tags {
    fn drop(self) {
        let Tags { bytes: _bytes } = self;
    }
}

impl Model for Tags {
    ghost use Rattle.std.specs.Prelude.{ℕ, List};
    ghost use Rattle.road_base.specs.TagBytes.{tags_in, AreTagBytes};

    ghost Value = { List (List ℕ × List ℕ) };

    ghost view = { λ tags. tags_in tags.bytes.items };

    ghost invariant = { λ tags. AreTagBytes tags.bytes.items };
}

impl Tags {
    /// No tags, which take no memory.
    pub fn new(alloc: Global) -> Tags
        ensures { result ≡ [] }
    {
        Tags {
            bytes: Vec::new(alloc),
        }
    }

    /// No tags, with room for so many bytes: a tag takes those of its key and of its value, and two, and one more
    /// for each of these of more than 254.
    pub fn with_capacity(alloc: Global, bytes: usize) -> Result<Tags, AllocError>
        ensures { IfOk result (λ tags. tags ≡ []) }
    {
        let bytes = Vec::with_capacity(alloc, bytes)?;
        Ok(Tags { bytes })
    }

    /// The tags and this one behind them.
    pub fn with(self, key: &str, value: &str) -> Result<Tags, AllocError>
        ensures { IfOk result (λ tags. tags ≡ self ++ (key.now, value.now) ∷ []) }
    {
        let Tags { mut bytes } = self;
        add_text(&mut bytes, key.as_bytes())?;
        add_text(&mut bytes, value.as_bytes())?;
        Ok(Tags { bytes })
    }

    /// The value of the first tag whose key equals this one byte for byte, or None where there is no
    /// such tag.
    #[inline(always)]
    pub fn get(&self, key: &str) -> Option<&str>
        ensures { option_copied result ≡ value_of self.now key.now }
    {
        if self.bytes.is_empty() {
            return None;
        }
        self.found(key)
    }

    // The same, of tags that may be some.
    #[inline(never)]
    fn found(&self, key: &str) -> Option<&str>
        ensures { option_copied result ≡ value_of self.now key.now }
    {
        match value_in(self.bytes.as_slice(), key.as_bytes()) {
            Some(value) => text_in(value),
            None => None,
        }
    }
}

// The text that these bytes are.
fn text_in(bytes: &[u8]) -> Option<&str>
    requires { IsUtf8 bytes.now }
    ensures { option_copied result ≡ Some bytes.now }
{
    match std::str::from_utf8(bytes) {
        Ok(text) => Some(text),
        Err(_) => None,
    }
}

// The value of the first of the tags in these bytes that has this key.
fn value_in<'a>(bytes: &'a [u8], key: &[u8]) -> Option<&'a [u8]>
    ensures { option_copied result ≡ value_of (tags_in bytes.now) key.now }
{
    let mut rest = bytes;
    while let Some((found, value, more)) = first_tag(rest) {
        if found == key {
            return Some(value);
        }
        rest = more;
    }
    None
}

// The key and the value of the first tag in these bytes, and what stands behind it.
fn first_tag(bytes: &[u8]) -> Option<(&[u8], &[u8], &[u8])>
    ensures none { IfNone result (tags_in bytes.now ≡ []) }
    ensures tag { IfSome result (λ found. tags_in bytes.now ≡ (found.0.now, found.1.now) ∷ tags_in found.2.now) }
    ensures shorter { IfSome result (λ found. length found.2.now < length bytes.now) }
{
    let (key, behind) = first_text(bytes)?;
    let (value, more) = first_text(behind)?;
    Some((key, value, more))
}

// The first of the texts in these bytes, and what stands behind it.
fn first_text(bytes: &[u8]) -> Option<(&[u8], &[u8])>
    ensures none { IfNone result (texts_in bytes.now ≡ []) }
    ensures text { IfSome result (λ found. texts_in bytes.now ≡ found.0.now ∷ texts_in found.1.now) }
    ensures shorter { IfSome result (λ found. length found.1.now < length bytes.now) }
{
    let (size, behind) = bytes.split_first()?;
    if *size == END {
        Some(long_text(behind))
    } else {
        Some(behind.split_at(usize::from(*size).min(behind.len())))
    }
}

// What stands before the first `END`, or all, and what stands behind it.
fn long_text(bytes: &[u8]) -> (&[u8], &[u8])
    ensures before { result.0.now ≡ before_first is_end bytes.now }
    ensures behind { result.1.now ≡ after_first is_end bytes.now }
{
    match end_in(bytes) {
        Some(at) => (&bytes[..at], &bytes[at + 1..]),
        None => (bytes, &[]),
    }
}

// Where the first `END` stands.
fn end_in(bytes: &[u8]) -> Option<usize>
    ensures { result ≡ position is_end bytes.now }
{
    bytes.iter().position(|b| *b == END)
}

// Puts a text behind the others.
fn add_text(bytes: &mut Vec<u8>, text: &[u8]) -> Result<(), AllocError>
    ensures { OnOk result (bytes.new.items ≡ bytes.old.items ++ text_bytes text.now) }
{
    if text.len() < usize::from(END) {
        bytes.push(text.len() as u8)?;
        bytes.extend_from_slice(text)?;
    } else {
        bytes.push(END)?;
        bytes.extend_from_slice(text)?;
        bytes.push(END)?;
    }
    Ok(())
}
