//! Lines cut into fields, and fields into entries.

ghost use Rattle.std.specs.Prelude.{◌≡◌, ◌∷◌, [], ℕ, ◌+◌, ◌<◌, ◌≤◌, ◌==◌, false, IsTrue, MatchOption, IfSome, IsNone, is_some, length, position, slice_index};
ghost use Rattle.std.specs.List.{slice_split, before_first, after_first};
ghost use Rattle.opl_read.specs.Cutting.{has, is_blank, fields_of, IsFirstField};

use memchr::memchr;

// So many bytes are looked at together: most fields and entries have about as many.
const GROUP: usize = 8;

// What stands before and after the first of these bytes.
pub(crate) fn parted_at(text: &str, byte: u8) -> Option<(&str, &str)>
    requires { byte < 128 }
    ensures none { IsNone result → slice_split (λ b. b == byte) text.now ≡ text.now ∷ [] }
    ensures parts { IfSome result (λ parts. slice_split (λ b. b == byte) text.now ≡ parts.0.now ∷ slice_split (λ b. b == byte) parts.1.now) }
    ensures found { is_some result ≡ has byte text.now }
    ensures before { IfSome result (λ parts. parts.0.now ≡ before_first (λ b. b == byte) text.now) }
    ensures after { IfSome result (λ parts. parts.1.now ≡ after_first (λ b. b == byte) text.now) }
    ensures shorter { IfSome result (λ parts. length parts.1.now < length text.now) }
{
    match position_of(text.as_bytes(), byte) {
        Some(at) => Some((&text[..at], &text[at + 1..])),
        None => None,
    }
}

// Where the first of these bytes stands, which may be far.
pub(crate) fn far_position_of(text: &[u8], byte: u8) -> Option<usize>
    ensures { result ≡ position (λ b. b == byte) text.now }
{
    memchr(byte, text)
}

// Where the first of these bytes stands, mostly in a short text or near its begin.
pub(crate) fn position_of(text: &[u8], byte: u8) -> Option<usize>
    ensures { result ≡ position (λ b. b == byte) text.now }
{
    for at in front_without(text, byte)..text.len() {
        if text[at] == byte {
            return Some(at);
        }
    }
    None
}

// The length of a front that has no such byte, by whole groups of bytes.
#[inline(always)]
fn front_without(text: &[u8], byte: u8) -> usize
    ensures within { result ≤ length text.now }
    ensures none { (k : ℕ) → k < result → (slice_index text.now k == byte) ≡ false }
{
    let mut from = 0;
    while text.len() - from >= GROUP && all_differ(&text[from..from + GROUP], byte) {
        from += GROUP;
    }
    from
}

// Whether each of these bytes is another.
#[inline(always)]
fn all_differ(bytes: &[u8], byte: u8) -> bool
    ensures { IsTrue result → (k : ℕ) → k < length bytes.now → (slice_index bytes.now k == byte) ≡ false }
{
    let mut differ = true;
    for other in bytes {
        differ &= *other != byte;
    }
    differ
}

// How many entries a content has: one more than its commas.
pub(crate) fn entry_count(content: &str) -> usize
    ensures { result ≤ length content.now + 1 }
{
    let mut count = 1;
    for byte in content.as_bytes() {
        count += usize::from(*byte == b',');
    }
    count
}

// The first field, and what stands behind it, or None where there is no field.
pub(crate) fn first_field(text: &str) -> Option<(&str, &str)>
    ensures { MatchOption result (fields_of text.now ≡ []) (λ found. IsFirstField text.now found.0.now found.1.now) }
{
    let rest = past_blanks(text);
    if rest.is_empty() {
        return None;
    }
    match blank_in(rest.as_bytes()) {
        Some(at) => Some((&rest[..at], &rest[at + 1..])),
        None => Some((rest, "")),
    }
}

// Where the first blank stands.
fn blank_in(text: &[u8]) -> Option<usize>
    ensures { result ≡ position is_blank text.now }
{
    for at in front_without_blank(text)..text.len() {
        if is_blank(text[at]) {
            return Some(at);
        }
    }
    None
}

// The length of a front that has no blank, by whole groups of bytes.
#[inline(always)]
fn front_without_blank(text: &[u8]) -> usize
    ensures within { result ≤ length text.now }
    ensures none { (k : ℕ) → k < result → is_blank (slice_index text.now k) ≡ false }
{
    let mut from = 0;
    while text.len() - from >= GROUP && is_above_blank(&text[from..from + GROUP]) {
        from += GROUP;
    }
    from
}

// Whether each of these bytes stands behind the blank in ASCII.
#[inline(always)]
fn is_above_blank(bytes: &[u8]) -> bool
    ensures { IsTrue result → (k : ℕ) → k < length bytes.now → is_blank (slice_index bytes.now k) ≡ false }
{
    let mut above = true;
    for byte in bytes {
        above &= *byte > b' ';
    }
    above
}

// Whether a byte is a blank or a tab: most are neither, and above both.
#[inline(always)]
fn is_blank(byte: u8) -> bool
    ensures { result ≡ is_blank byte }
{
    byte <= b' ' && (byte == b' ' || byte == b'\t')
}

// The text without the blanks at its front.
fn past_blanks(text: &str) -> &str
    ensures fields { fields_of result.now ≡ fields_of text.now }
    ensures front { is_blank (slice_index result.now 0) ≡ false }
    ensures shorter { length result.now ≤ length text.now }
{
    let mut rest = text;
    while begins_with_blank(rest) {
        rest = &rest[1..];
    }
    rest
}

fn begins_with_blank(text: &str) -> bool
    ensures { result ≡ is_blank (slice_index text.now 0) }
{
    match text.as_bytes().first() {
        Some(first) => is_blank(*first),
        None => false,
    }
}
