//! Whole numbers in the values of options.

ghost use Rattle.std.specs.Prelude.{◌≡◌};
ghost use Rattle.option_values.specs.Values.{number_up_to, short_number_of};

use decimal_text::whole;

// The most digits of a short number.
const MOST_DIGITS: usize = 9;

// The number of one or more digits, None where the text is something else or the number is above the greatest.
pub(crate) fn number_up_to(greatest: u32, text: &str) -> Option<u32>
    ensures { result ≡ number_up_to greatest text.now }
{
    let number = whole(text.as_bytes(), u64::MAX)?;
    if number <= u64::from(greatest) {
        Some(number as u32)
    } else {
        None
    }
}

// The number of one to nine digits.
pub(crate) fn short_number_of(text: &str) -> Option<u32>
    ensures { result ≡ short_number_of text.now }
{
    if text.len() > MOST_DIGITS {
        return None;
    }
    number_up_to(u32::MAX, text)
}
