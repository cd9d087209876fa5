//! Distances in metres, in whole decimetres.

ghost use Rattle.std.specs.Prelude.{◌≡◌, Some, None, if◌then◌else◌};
ghost use Rattle.decimal_text.specs.Decimal.{is_unsigned_decimal};
ghost use Rattle.option_values.specs.Values.{limited, decimetres_of};

use decimal_text::decimal;

// From so many decimetres on, any distance will do.
const UNLIMITED: u64 = 536_870_912;

// A decimal number of metres without a sign in whole decimetres, or any distance; None where the text is
// something else. Of the digits behind the point the first is kept.
pub(crate) fn decimetres_in(text: &str) -> Option<Option<u64>>
    ensures { result ≡ (if is_unsigned_decimal text.now then Some (limited (decimetres_of text.now)) else None) }
{
    let decimetres = decimal(text.as_bytes(), 1, UNLIMITED)?;
    Some(limited(decimetres))
}

// A distance of so many decimetres, None for any distance.
fn limited(decimetres: u64) -> Option<u64>
    ensures { result ≡ limited decimetres }
{
    if decimetres < UNLIMITED {
        Some(decimetres)
    } else {
        None
    }
}
