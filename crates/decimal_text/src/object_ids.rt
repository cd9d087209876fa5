//! Ids of OpenStreetMap objects.

ghost use Rattle.std.specs.Prelude.{◌≡◌};
ghost use Rattle.decimal_text.specs.ObjectId.{id_of};

use crate::numerals::{append_fitting, has_minus, is_numeral, past_minus, signed};

const MOST_DIGITS: usize = 19;

/// An object's id: an optional `-` and 1 to 19 digits (leading zeros are allowed), in the range of
/// `i64`. None exactly where the bytes are something else.
#[tactic(auto, unfolding(crate::specs::ObjectId::id_of))]
pub fn id(bytes: &[u8]) -> Option<i64>
    ensures { result ≡ id_of bytes.now }
{
    let digits = past_minus(bytes);
    if digits.len() > MOST_DIGITS || !is_numeral(digits) {
        return None;
    }
    let magnitude = append_fitting(0, digits);
    if magnitude <= i64::MAX as u64 {
        Some(signed(bytes, magnitude))
    } else if has_minus(bytes) && magnitude == i64::MIN.unsigned_abs() {
        Some(i64::MIN)
    } else {
        None
    }
}
