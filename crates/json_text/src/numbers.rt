//! The digits of numbers with a fixed count of decimals.
ghost use Rattle.std.specs.Prelude.{◌≡◌, ◌<◌, ◌^◌, ◌+◌, ◌∷◌, []};
ghost use Rattle.json_text.specs.Numbers.{sign_text};

/// A digit below ten.
pub fn digit(n: u32) -> &'static str
    requires { n < 10 }
    ensures { result.now ≡ (48 + n) ∷ [] }
{
    match n {
        0 => "0",
        1 => "1",
        2 => "2",
        3 => "3",
        4 => "4",
        5 => "5",
        6 => "6",
        7 => "7",
        8 => "8",
        _ => "9",
    }
}

/// `-` before a number below 0.
pub fn sign_text(n: i32) -> &'static str
    ensures { result.now ≡ sign_text n }
{
    if n < 0 { "-" } else { "" }
}
