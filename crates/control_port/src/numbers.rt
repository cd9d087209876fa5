//! Numbers of digits.

ghost use Rattle.std.specs.Prelude.{◌≡◌};
ghost use Rattle.control_port.specs.Asking.{number_of};

use decimal_text::whole;

// The most digits of a number.
const MOST_DIGITS: usize = 18;

// The number that 1 to 18 digits write, None where the text is something else.
#[tactic(auto, using(crate::proofs::DigitValues::number_of_whole))]
pub(crate) fn number_in(text: &[u8]) -> Option<usize>
    ensures { result ≡ number_of text.now }
{
    if text.len() > MOST_DIGITS {
        return None;
    }
    let number = whole(text, u64::MAX)?;
    Some(number as usize)
}
