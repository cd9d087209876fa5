//! Speeds and rates in whole thousandths, penalties and weights in whole tenths.

ghost use Rattle.std.specs.Prelude.{◌≡◌, ◌≤◌};
ghost use Rattle.traffic_files.specs.Numbers.{is_minus_decimal, kept_rate, kept_speed, limited, rate_of, scaled_of, speed_of, tenths_of};

use decimal_text::decimal;

const GREATEST: u64 = 1_000_000;

// Numbers above the greatest are counted as this one.
const TOO_GREAT: u64 = 1_000_001;

// The slowest speed that a way is passed at, in thousandths of km/h.
const SLOWEST: u32 = 1000;

// The least rate, in thousandths of a metre for each unit of weight.
const LEAST_RATE: u32 = 278;

/// Why a field has no number.
#[derive(Clone, Copy, Drop)]
pub(crate) enum NumberFault {
    /// It is no decimal, or has a sign where none may stand.
    NoDecimal,
    /// Its number is too small or too great.
    NotInRange,
}

// A speed in thousandths of km/h.
pub(crate) fn speed_in(text: &[u8]) -> Result<u32, NumberFault>
    ensures { result ≡ speed_of text.now }
{
    let speed = scaled_in(text, 3)?;
    Ok(kept_speed(speed))
}

// A speed above 0 is at least the slowest.
fn kept_speed(speed: u32) -> u32
    ensures { result ≡ kept_speed speed }
{
    if speed == 0 { 0 } else { speed.max(SLOWEST) }
}

// A rate in thousandths of a metre for each unit of weight: one with a minus sign is out of range.
pub(crate) fn rate_in(text: &[u8]) -> Result<u32, NumberFault>
    ensures { result ≡ rate_of text.now }
{
    if is_minus_decimal(text) {
        return Err(NumberFault::NotInRange);
    }
    let rate = scaled_in(text, 3)?;
    kept_rate(rate)
}

// A rate above 0 is at least the least; 0 is none.
fn kept_rate(rate: u32) -> Result<u32, NumberFault>
    ensures { result ≡ kept_rate rate }
{
    if rate == 0 {
        Err(NumberFault::NotInRange)
    } else {
        Ok(rate.max(LEAST_RATE))
    }
}

// A penalty in deciseconds, or a weight in tenths: one below zero is 0.
pub(crate) fn tenths_in(text: &[u8]) -> Result<u32, NumberFault>
    ensures { result ≡ tenths_of text.now }
{
    if is_minus_decimal(text) {
        Ok(0)
    } else {
        scaled_in(text, 1)
    }
}

// Whether the text is a decimal with a minus sign.
fn is_minus_decimal(text: &[u8]) -> bool
    ensures { result ≡ is_minus_decimal text.now }
{
    match text {
        [b'-', magnitude @ ..] => decimal(magnitude, 0, TOO_GREAT).is_some(),
        _ => false,
    }
}

// A decimal without a sign with this many digits kept behind its point, as a whole number of the last one's
// unit: further ones are dropped.
fn scaled_in(text: &[u8], kept: usize) -> Result<u32, NumberFault>
    requires { kept ≤ 6 }
    ensures { result ≡ scaled_of kept text.now }
{
    match decimal(text, kept, TOO_GREAT) {
        Some(number) => limited(number),
        None => Err(NumberFault::NoDecimal),
    }
}

// The number if it is not above the greatest.
fn limited(number: u64) -> Result<u32, NumberFault>
    ensures { result ≡ limited number }
{
    if number <= GREATEST {
        Ok(number as u32)
    } else {
        Err(NumberFault::NotInRange)
    }
}
