//! The lines of a text.

ghost use Rattle.std.specs.Prelude.{◌≡◌, ◌∷◌, ◌<◌, length};
ghost use Rattle.opl_read.specs.Objects.{lines_of};

use crate::cutting::far_position_of;

// The first line of a text with its newline, and what follows it.
pub(crate) fn first_line(text: &[u8]) -> (&[u8], &[u8])
    requires { 0 < length text.now }
    ensures lines { lines_of text.now ≡ result.0.now ∷ lines_of result.1.now }
    ensures shorter { length result.1.now < length text.now }
{
    match far_position_of(text, b'\n') {
        Some(at) => (&text[..at + 1], &text[at + 1..]),
        None => (text, &[]),
    }
}
