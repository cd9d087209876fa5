//! Escapes in keys, values and roles.

ghost use Rattle.std.specs.Prelude.{◌≡◌, Ok, IfOk, IfErr, IsTrue};
ghost use Rattle.std.specs.Char.{is_ascii_hexdigit};
ghost use Rattle.std.specs.List.{list_all};
ghost use Rattle.opl_read.specs.Escapes.{character_of, is_hex, unescaped};
ghost use Rattle.opl_read.specs.Faults.{IsLineErrorOf};

use crate::cutting::{parted_at, position_of};
use crate::line_faults::{FaultKind, LineError};
use road_base::Text;
use std::alloc::Global;

// The most digits of an escape.
const MOST_DIGITS: usize = 6;

// What a key, a value or a role stands for. Most have no escape, and are copied whole.
pub(crate) fn unescaped(alloc: Global, written: &str) -> Result<Text, LineError>
    ensures text { IfOk result (λ text. unescaped written.now ≡ Ok text) }
    ensures fault { IfErr result (IsLineErrorOf (unescaped written.now)) }
{
    if is_plain(written) {
        return Ok(Text::copy_of(alloc, written)?);
    }
    with_escapes(alloc, written)
}

// Whether there is no escape in it, so that it stands for itself.
pub(crate) fn is_plain(written: &str) -> bool
    ensures { IsTrue result → unescaped written.now ≡ Ok written.now }
{
    position_of(written.as_bytes(), b'%').is_none()
}

fn with_escapes(alloc: Global, written: &str) -> Result<Text, LineError>
    ensures text { IfOk result (λ text. unescaped written.now ≡ Ok text) }
    ensures fault { IfErr result (IsLineErrorOf (unescaped written.now)) }
{
    let mut text = String::new(alloc);
    let mut rest = written;
    while let Some((before, escape)) = parted_at(rest, b'%') {
        let Some((digits, behind)) = parted_at(escape, b'%') else {
            return Err(LineError::Fault(FaultKind::BadEscape));
        };
        let Some(character) = character_of(digits) else {
            return Err(LineError::Fault(FaultKind::BadEscape));
        };
        text.push_str(before)?;
        text.push(character)?;
        rest = behind;
    }
    text.push_str(rest)?;
    Ok(Text::of(text))
}

// The character whose number these digits write.
fn character_of(digits: &str) -> Option<char>
    ensures { result ≡ character_of digits.now }
{
    if !is_hex(digits.as_bytes()) {
        return None;
    }
    match u32::from_str_radix(digits, 16) {
        Ok(number) => char::from_u32(number),
        Err(_) => None,
    }
}

fn is_hex(digits: &[u8]) -> bool
    ensures { result ≡ is_hex digits.now }
{
    !digits.is_empty() && digits.len() <= MOST_DIGITS && are_hex_digits(digits)
}

fn are_hex_digits(bytes: &[u8]) -> bool
    ensures { result ≡ list_all (λ b. is_ascii_hexdigit b) bytes.now }
{
    bytes.iter().all(|b| b.is_ascii_hexdigit())
}
