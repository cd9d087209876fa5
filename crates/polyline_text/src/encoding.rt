//! From points to text.
ghost use Rattle.std.specs.Prelude.{◌≡◌, ◌<◌, ◌≤◌, ◌^◌, ◌++◌, ℤ, pos, negsuc, ◌≤ℤ◌, ◌-ℤ◌, IfOk, OnOk, IsTrue, string_bytes};
ghost use Rattle.polyline_text.specs.Answers.{is_digits};
ghost use Rattle.polyline_text.specs.Encoding.{rounded, folded, groups_text, difference_text, encoded};

use road_base::{Point, Text};
use std::alloc::{AllocError, Global};

/// The text of the points, in their order, with coordinates to 5 or 6 digits. A coordinate of `v`
/// microdegrees is `floor((v + 5) / 10)` to 5 digits and `v` to 6. An `Err` is want of memory.
pub fn encode(alloc: Global, points: &[Point], digits: u32) -> Result<Text, AllocError>
    requires { IsTrue (is_digits digits) }
    ensures { IfOk result (λ text. text ≡ encoded digits points.now) }
{
    let mut text = String::new(alloc);
    let (mut lat, mut lon) = (0, 0);
    for point in points {
        let next_lat = rounded(digits, point.lat);
        let next_lon = rounded(digits, point.lon);
        push_difference(&mut text, lat, next_lat)?;
        push_difference(&mut text, lon, next_lon)?;
        lat = next_lat;
        lon = next_lon;
    }
    Ok(Text::of(text))
}

/// A coordinate in microdegrees as a whole number of its last digit.
fn rounded(digits: u32, v: i32) -> i32
    requires low { negsuc 179999999 ≤ℤ v }
    requires high { v ≤ℤ pos 180000000 }
    ensures value { result ≡ rounded digits v }
    ensures low { negsuc 179999999 ≤ℤ result }
    ensures high { result ≤ℤ pos 180000000 }
{
    if digits == 5 {
        (v + 5).div_euclid(10)
    } else {
        v
    }
}

/// Puts the difference of two coordinates behind the text.
fn push_difference(text: &mut String, from: i32, to: i32) -> Result<(), AllocError>
    requires from_low { negsuc 179999999 ≤ℤ from }
    requires from_high { from ≤ℤ pos 180000000 }
    requires to_low { negsuc 179999999 ≤ℤ to }
    requires to_high { to ≤ℤ pos 180000000 }
    ensures { OnOk result (string_bytes text.new ≡ string_bytes text.old ++ difference_text (to -ℤ from)) }
{
    push_groups(text, folded(to - from))
}

/// Shifted left by one bit, and inverted if negative.
fn folded(difference: i32) -> u32
    requires low { negsuc 359999999 ≤ℤ difference }
    requires high { difference ≤ℤ pos 360000000 }
    ensures value { result ≡ folded difference }
{
    if difference < 0 {
        difference.unsigned_abs() * 2 - 1
    } else {
        difference.unsigned_abs() * 2
    }
}

/// Puts groups of five bits behind the text, the lowest first.
fn push_groups(text: &mut String, n: u32) -> Result<(), AllocError>
    ensures { OnOk result (string_bytes text.new ≡ string_bytes text.old ++ groups_text 7 n) }
{
    let mut rest = n;
    while rest >= 32 {
        text.push(char::from(95 + (rest % 32) as u8))?;
        rest /= 32;
    }
    text.push(char::from(63 + rest as u8))?;
    Ok(())
}
