//! Whole numbers of digits, and a minus sign.

ghost use Rattle.std.specs.Prelude.{◌≡◌, ℕ, ◌+◌, ◌*◌, ◌≤◌, ◌<◌, ◌^◌, min, drop, length, true, IsTrue};
ghost use Rattle.std.specs.Char.{is_ascii_digit};
ghost use Rattle.std.specs.List.{list_all};
ghost use Rattle.std.specs.Str.Parse.{digits_value_after, starts_with_minus};
ghost use Rattle.decimal_text.specs.Numeral.{is_numeral, whole_within, without_minus, signed_as};

// Whether a text begins with a minus sign.
#[inline(always)]
pub(crate) fn has_minus(text: &[u8]) -> bool
    ensures { result ≡ starts_with_minus text.now }
{
    matches!(text.first(), Some(b'-'))
}

// The text without its minus sign, if it has one.
#[inline(always)]
pub(crate) fn past_minus(text: &[u8]) -> &[u8]
    ensures { result.now ≡ without_minus text.now }
{
    if has_minus(text) { &text[1..] } else { text }
}

/// The number that one or more digits write (leading zeros are allowed), but `limit` where it is above that.
/// None exactly where the bytes are something else.
pub fn whole(bytes: &[u8], limit: u64) -> Option<u64>
    ensures { result ≡ whole_within limit bytes.now }
{
    if is_numeral(bytes) {
        Some(append_digits(0, bytes, limit))
    } else {
        None
    }
}

/// Whether these are one or more digits and nothing else.
pub fn is_numeral(bytes: &[u8]) -> bool
    ensures { result ≡ is_numeral bytes.now }
{
    !bytes.is_empty() && are_digits(bytes)
}

// Whether each of these bytes is a digit.
#[inline(always)]
fn are_digits(bytes: &[u8]) -> bool
    ensures { result ≡ list_all (λ b. is_ascii_digit b) bytes.now }
{
    bytes.iter().all(|b| b.is_ascii_digit())
}

// The number that is written by the digits of `number` with these digits behind them, but `limit` where
// it is above that.
#[inline(always)]
pub(crate) fn append_digits(number: u64, digits: &[u8], limit: u64) -> u64
    requires are_digits { list_all (λ b. is_ascii_digit b) digits.now ≡ true }
    requires within { number ≤ limit }
    ensures { result ≡ min (digits_value_after 10 number digits.now) limit }
{
    if digits.len() <= room_behind(number) {
        append_fitting(number, digits).min(limit)
    } else {
        append_held(number, digits, limit)
    }
}

// How many digits surely fit 64 bits behind those of this number: the most behind zero, as many as are kept after
// a point behind what is no more than the farthest decimal that is told, and none behind a greater one.
#[inline(always)]
fn room_behind(number: u64) -> usize
    ensures { (number + 1) * 10 ^ result ≤ 2 ^ 64 }
{
    if number == 0 {
        19
    } else if number <= 1_000_000_000_000 {
        6
    } else {
        0
    }
}

// The number that is written by the digits of `number` with these digits behind them, where it is one of
// 64 bits.
#[inline(always)]
pub(crate) fn append_fitting(number: u64, digits: &[u8]) -> u64
    requires are_digits { list_all (λ b. is_ascii_digit b) digits.now ≡ true }
    requires fits { digits_value_after 10 number digits.now < 2 ^ 64 }
    ensures { result ≡ digits_value_after 10 number digits.now }
{
    let mut number = number;
    for digit in digits {
        number = number * 10 + u64::from(*digit - b'0');
    }
    number
}

// What `append_digits` tells, of any number of digits: each in turn is held within the limit.
fn append_held(number: u64, digits: &[u8], limit: u64) -> u64
    requires are_digits { list_all (λ b. is_ascii_digit b) digits.now ≡ true }
    requires within { number ≤ limit }
    ensures { result ≡ min (digits_value_after 10 number digits.now) limit }
{
    let mut number = number;
    for digit in digits {
        let more = u64::from(*digit - b'0');
        number = number.saturating_mul(10).saturating_add(more).min(limit);
    }
    number
}

// The number of this magnitude with the sign of the text.
#[inline(always)]
pub(crate) fn signed(text: &[u8], magnitude: u64) -> i64
    requires { magnitude < 2 ^ 63 }
    ensures { result ≡ signed_as text.now magnitude }
{
    let number = magnitude as i64;
    if has_minus(text) { -number } else { number }
}
