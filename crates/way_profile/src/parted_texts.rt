//! Texts parted at a character.

ghost use Rattle.std.specs.Prelude.{◌≡◌, ◌<◌, ◌==◌};
ghost use Rattle.std.specs.List.{after_first, before_first};

// What stands before and behind the first such ASCII character; where there is none, the text and nothing.
pub(crate) fn parted(text: &str, separator: char) -> (&str, &str)
    requires { separator < 128 }
    ensures front { result.0.now ≡ before_first (λ b. b == separator) text.now }
    ensures behind { result.1.now ≡ after_first (λ b. b == separator) text.now }
{
    match text.split_once(separator) {
        Some(parts) => parts,
        None => (text, ""),
    }
}
