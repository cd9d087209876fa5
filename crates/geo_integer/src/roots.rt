//! Square roots of whole numbers.

ghost use Rattle.std.specs.Prelude.{◌≡◌, ◌↔◌, IsTrue};
ghost use Rattle.geo_integer.specs.Root.{IsRoot, root_of};

use std::num::{nearest_u64_to_f64, saturating_f64_to_u32};

// The greatest number whose square is at most n. Most are of 64 bits, where it is found much faster.
pub(crate) fn square_root(n: u128) -> u64
    ensures { result ≡ root_of n }
{
    match u64::try_from(n) {
        Ok(small) => root(small),
        Err(_) => n.isqrt() as u64,
    }
}

// The same of 64 bits. A float's root, rounded down, mostly is it: that is judged in whole numbers,
// and where it isn't, std finds it by halves.
fn root(n: u64) -> u64
    ensures { result ≡ root_of n }
{
    let guess = saturating_f64_to_u32(nearest_u64_to_f64(n).sqrt());
    if is_root(n, guess) {
        u64::from(guess)
    } else {
        n.isqrt()
    }
}

// Whether this is the greatest number whose square is at most n.
fn is_root(n: u64, guess: u32) -> bool
    ensures { IsTrue result ↔ IsRoot n guess }
{
    let guess = u64::from(guess);
    guess * guess <= n && n - guess * guess <= 2 * guess
}
