//! Texts cut at a character.

ghost use Rattle.std.specs.Prelude.{◌≡◌, ◌==◌, ◌<◌, IfOk, MatchOption};
ghost use Rattle.std.specs.List.{slice_split};
ghost use Rattle.option_values.specs.Cutting.{IsCut, IsUncut};

use road_base::Text;
use std::alloc::{AllocError, Global};

/// What stands before and behind the first such ASCII character, None where there is none.
pub fn cut(text: &str, separator: char) -> Option<(&str, &str)>
    requires { separator < 128 }
    ensures { MatchOption result (IsUncut separator text.now) (λ parts. IsCut separator text.now parts.0.now parts.1.now) }
{
    text.split_once(separator)
}

// Copies of what stands between such ASCII characters, in order; an empty text has one part, which is empty.
pub(crate) fn parts_of(alloc: Global, separator: char, text: &str) -> Result<Vec<Text>, AllocError>
    requires { separator < 128 }
    ensures { IfOk result (λ parts. parts.items ≡ slice_split (λ b. b == separator) text.now) }
{
    let mut parts = Vec::new(alloc);
    for part in text.split(separator) {
        parts.push(Text::copy_of(alloc, part)?)?;
    }
    Ok(parts)
}
