//! How the tags of a way change the speed on it.

ghost use Rattle.std.specs.Prelude.{◌≡◌, ◌*◌, ◌/◌, ◌<◌, max, Some, None, IfSome, if◌then◌else◌};
ghost use Rattle.std.specs.Char.{is_ascii_digit};
ghost use Rattle.std.specs.List.{before_first, list_all};
ghost use Rattle.std.specs.Str.Parse.{digits_value};
ghost use Rattle.way_profile.specs.Vehicle.{IsFactor, IsSpeed};
ghost use Rattle.way_profile.specs.WayRule.{is_in_miles, is_blank, is_short_number, kmh_of, limit_or, slowed_by};

use crate::parted_texts::parted;

// The most digits of a number in a speed limit.
const MOST_DIGITS: usize = 3;

// The thousandths of km/h of a mile per hour, in thousandths again.
const MILE: u32 = 1_609_344;

// A value of `maxspeed` in thousandths of km/h.
pub(crate) fn kmh_of(text: &str) -> Option<u32>
    ensures { result ≡ kmh_of text.now }
{
    match short_number(text) {
        Some(number) => Some(number * 1000),
        None => miles_per_hour(text),
    }
}

// The same of a number of miles per hour.
fn miles_per_hour(text: &str) -> Option<u32>
    ensures { result ≡ (if is_in_miles text.now then Some (digits_value 10 (before_first is_blank text.now) * 1609344 / 1000) else None) }
{
    let (digits, unit) = parted(text, ' ');
    match short_number(digits) {
        Some(number) if unit == "mph" => Some(number * MILE / 1000),
        _ => None,
    }
}

// The number of one to three digits.
fn short_number(text: &str) -> Option<u32>
    ensures value { result ≡ (if is_short_number text.now then Some (digits_value 10 text.now) else None) }
    ensures range { IfSome result (λ number. number < 1000) }
{
    if text.is_empty() || text.len() > MOST_DIGITS || !are_digits(text.as_bytes()) {
        return None;
    }
    text.parse::<u32>().ok()
}

// Whether each of these bytes is a digit.
fn are_digits(bytes: &[u8]) -> bool
    ensures { result ≡ list_all is_ascii_digit bytes.now }
{
    bytes.iter().all(|b| b.is_ascii_digit())
}

// A limit that is a speed, or this speed.
pub(crate) fn limit_or(limit: Option<u32>, speed: u32) -> u32
    requires { IsSpeed speed }
    ensures value { result ≡ limit_or limit speed }
    ensures range { IsSpeed result }
{
    match limit {
        Some(limit) if (1000..=1_000_000).contains(&limit) => limit,
        _ => speed,
    }
}

// A speed by a factor in thousandths, but no less than 1 km/h.
pub(crate) fn slowed_by(factor: Option<u32>, speed: u32) -> u32
    requires factor { IfSome factor IsFactor }
    requires speed { IsSpeed speed }
    ensures value { result ≡ slowed_by factor speed }
    ensures range { IsSpeed result }
{
    match factor {
        Some(factor) => (speed * factor / 1000).max(1000),
        None => speed,
    }
}
