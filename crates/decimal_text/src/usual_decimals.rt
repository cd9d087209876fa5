//! Decimals as most coordinates are written: few digits before the point, and six or seven behind it.

ghost use Rattle.std.specs.Prelude.{◌≡◌, ℕ, ◌+◌, ◌*◌, ◌^◌, ◌≤◌, ◌<◌, IfSome, IsTrue, length, slice_index, true};
ghost use Rattle.std.specs.Char.{is_ascii_digit};
ghost use Rattle.std.specs.List.{list_all};
ghost use Rattle.std.specs.Str.Parse.{digits_value_after};
ghost use Rattle.decimal_text.specs.Decimal.{is_unsigned_decimal, magnitude_of, AreUsualParts};

use crate::decimals::seventh_rounding;

// The shortest and the longest text of this form.
const SHORTEST: usize = 9;

const LONGEST: usize = 20;

// A number of so many degrees or more is left to the general form.
const TOO_FAR: u64 = 1_000_000;

// How far from zero a decimal without its sign is told, where it is of this form. None tells nothing of the text.
#[inline(always)]
pub(crate) fn usual_magnitude(text: &[u8]) -> Option<u64>
    ensures decimal { IfSome result (λ _. is_unsigned_decimal text.now ≡ true) }
    ensures value { IfSome result (λ found. found ≡ magnitude_of text.now) }
{
    let (whole, fraction) = usual_parts(text)?;
    let units = tested_append(0, whole)?;
    if units >= TOO_FAR {
        return None;
    }
    let (kept, _) = fraction.split_at(6);
    let millionths = tested_append(units, kept)?;
    if !has_seventh_digit(fraction) {
        return None;
    }
    Some(millionths + seventh_rounding(fraction))
}

// What stands before a point and the six or seven bytes behind it.
#[inline(always)]
fn usual_parts(text: &[u8]) -> Option<(&[u8], &[u8])>
    ensures { IfSome result (λ found. AreUsualParts text.now found.0.now found.1.now) }
{
    if text.len() < SHORTEST || text.len() > LONGEST {
        return None;
    }
    let point = text.len() - 8;
    if text[point] == b'.' {
        return Some((&text[..point], &text[point + 1..]));
    }
    if text[point + 1] == b'.' {
        return Some((&text[..point + 1], &text[point + 2..]));
    }
    None
}

// Whether a seventh byte is a digit, where there is one.
#[inline(always)]
fn has_seventh_digit(fraction: &[u8]) -> bool
    ensures { IsTrue result → 6 < length fraction.now → is_ascii_digit (slice_index fraction.now 6) ≡ true }
{
    fraction.len() <= 6 || fraction[6].is_ascii_digit()
}

// The number that is written by the digits of `number` with these behind them, or None where one of them is no digit.
#[inline(always)]
fn tested_append(number: u64, text: &[u8]) -> Option<u64>
    requires fits { (number + 1) * 10 ^ length text.now ≤ 2 ^ 64 }
    ensures digits { IfSome result (λ _. list_all (λ b. is_ascii_digit b) text.now ≡ true) }
    ensures value { IfSome result (λ found. found ≡ digits_value_after 10 number text.now) }
{
    let mut appended = number;
    for byte in text {
        if !byte.is_ascii_digit() {
            return None;
        }
        appended = appended * 10 + u64::from(*byte - b'0');
    }
    Some(appended)
}
