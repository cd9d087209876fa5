//! Decimals as whole numbers of their last digit's unit.

ghost use Rattle.std.specs.Prelude.{◌≡◌, ◌≤◌, min, true, false, IfSome, MatchOption, position};
ghost use Rattle.std.specs.Char.{is_ascii_digit};
ghost use Rattle.std.specs.List.{list_all};
ghost use Rattle.std.specs.Str.Parse.{digits_value};
ghost use Rattle.decimal_text.specs.Decimal.{farthest, kept_digits, scaled_within, TellsRanges, microdegrees_of, millionths, rounding, is_point, is_unsigned_decimal, ArePartsOf};

use crate::numerals::{append_digits, is_numeral, past_minus, signed};
use crate::usual_decimals::usual_magnitude;

/// The farthest value either way that is told, in microdegrees: 1,000,000 degrees, far outside of the Earth's
/// 180, so that a test for a range on Earth comes out as it would for the number itself.
pub const FARTHEST: u64 = 1_000_000_000_000;

// The digits that are kept after the point, where none is written.
const ABSENT_DIGITS: [u8; 6] = *b"000000";

/// A decimal number of degrees in whole microdegrees: an optional `-`, one or more digits (leading zeros
/// are allowed), and optionally a point and one or more digits. None exactly where the bytes are
/// something else.
///
/// Six digits after the point are kept; a seventh of 5 or more adds one away from zero, and further ones
/// are dropped. What is more than [`FARTHEST`] away from zero is told as that.
#[tactic(auto, unfolding(crate::specs::Decimal::microdegrees_of))]
pub fn microdegrees(bytes: &[u8]) -> Option<i64>
    ensures value { result ≡ microdegrees_of bytes.now }
    ensures ranges { IfSome result (TellsRanges bytes.now) }
{
    let text = past_minus(bytes);
    if let Some(magnitude) = usual_magnitude(text) {
        return Some(signed(bytes, magnitude));
    }
    match parts(text) {
        Some((whole, fraction)) => Some(signed(bytes, rounded(whole, fraction))),
        None => None,
    }
}

/// A decimal number without a sign, with this many digits kept after its point, in whole units of the last one: 3 for
/// thousandths. Further digits are dropped; a number above `limit` is told as that. None exactly where the bytes are
/// something else.
pub fn decimal(bytes: &[u8], kept: usize, limit: u64) -> Option<u64>
    requires { kept ≤ 6 }
    ensures { result ≡ scaled_within kept limit bytes.now }
{
    match parts(bytes) {
        Some((whole, fraction)) => Some(joined(whole, fraction, kept, limit)),
        None => None,
    }
}

// The digits before and after the point of a decimal without a sign, or None where the bytes are none.
fn parts(bytes: &[u8]) -> Option<(&[u8], &[u8])>
    ensures { MatchOption result (is_unsigned_decimal bytes.now ≡ false) (λ found. ArePartsOf bytes.now found.0.now found.1.now) }
{
    match point_in(bytes) {
        None => {
            if is_numeral(bytes) {
                Some((bytes, &[]))
            } else {
                None
            }
        }
        Some(point) => {
            let whole = &bytes[..point];
            let fraction = &bytes[point + 1..];
            if is_numeral(whole) && is_numeral(fraction) {
                Some((whole, fraction))
            } else {
                None
            }
        }
    }
}

// Where the first point stands.
fn point_in(bytes: &[u8]) -> Option<usize>
    ensures { result ≡ position is_point bytes.now }
{
    bytes.iter().position(|b| *b == b'.')
}

// The value of these digits before and after a point in whole millionths, rounded by the seventh digit
// after the point, but the farthest where it is above that.
fn rounded(whole: &[u8], fraction: &[u8]) -> u64
    requires whole_digits { list_all (λ b. is_ascii_digit b) whole.now ≡ true }
    requires fraction_digits { list_all (λ b. is_ascii_digit b) fraction.now ≡ true }
    ensures { result ≡ min (millionths whole.now fraction.now) farthest }
{
    (joined(whole, fraction, 6, FARTHEST) + seventh_rounding(fraction)).min(FARTHEST)
}

// The number that these digits before and after a point make with this many kept after it, but `limit` where it is
// above that.
fn joined(whole: &[u8], fraction: &[u8], kept: usize, limit: u64) -> u64
    requires whole_digits { list_all (λ b. is_ascii_digit b) whole.now ≡ true }
    requires fraction_digits { list_all (λ b. is_ascii_digit b) fraction.now ≡ true }
    requires few { kept ≤ 6 }
    ensures { result ≡ min (digits_value 10 (kept_digits kept whole.now fraction.now)) limit }
{
    let written = fraction.len().min(kept);
    let (present, _) = fraction.split_at(written);
    let (absent, _) = ABSENT_DIGITS.split_at(kept - written);
    let units = append_digits(0, whole, limit);
    let with_present = append_digits(units, present, limit);
    append_digits(with_present, absent, limit)
}

// What the seventh digit after the point adds.
#[inline(always)]
pub(crate) fn seventh_rounding(fraction: &[u8]) -> u64
    ensures { result ≡ rounding fraction.now }
{
    if fraction.len() > 6 && fraction[6] >= b'5' {
        1
    } else {
        0
    }
}
