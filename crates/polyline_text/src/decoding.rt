//! From text to points.
ghost use Rattle.std.specs.Prelude.{◌≡◌, ◌+◌, ◌*◌, ◌<◌, ◌≤◌, ◌^◌, length, pos, negsuc, ◌≤ℤ◌, ◌<ℤ◌, IfOk, IfErr, IsTrue};
ghost use Rattle.polyline_text.specs.Answers.{is_digits, Answers, AnswersPath};
ghost use Rattle.polyline_text.specs.Grammar.{Path, IsPath, unfolded, unit_of, moved};
ghost use Rattle.polyline_text.specs.Decoding.{is_last_group, is_group_with_more, value_in, checked, coordinate_in, point_in};
ghost use Rattle.polyline_text.specs.Readings.{Reads};

use std::alloc::Global;

/// Why a text has no points.
#[derive(Clone, Copy, Debug, PartialEq, Eq)]
pub enum DecodeError {
    /// The text isn't an encoded polyline. The first fault is at this byte: one outside 63 to 126,
    /// the eighth group of one value, or the last byte of a value with which a coordinate in
    /// microdegrees leaves 32 bits. Where the text ends inside a value or behind a latitude, it is
    /// the text's length.
    BadPolyline(usize),
    /// Want of memory.
    Memory,
}

/// The points of an encoded polyline with coordinates to 5 or 6 digits, each as its longitude and
/// its latitude in microdegrees. They may lie anywhere in 32 bits. Groups of zero at a value's end
/// are taken. A text with points has them alone, and is answered by them unless memory is wanting.
pub fn decode(alloc: Global, bytes: &[u8], digits: u32) -> Result<Vec<(i32, i32)>, DecodeError>
    requires { IsTrue (is_digits digits) }
    ensures reads { Reads digits bytes.now result }
    ensures answers { Answers digits bytes.now result }
    ensures complete { (path : Path) → IsPath digits bytes.now path → AnswersPath path result }
{
    points_of(alloc, bytes, digits)
}

/// The points, from the left.
fn points_of(alloc: Global, bytes: &[u8], digits: u32) -> Result<Vec<(i32, i32)>, DecodeError>
    ensures { Reads digits bytes.now result }
{
    let mut points = Vec::new(alloc);
    let (mut lon, mut lat) = (0, 0);
    let mut at = 0;
    while at < bytes.len() {
        let (next_lon, next_lat, taken) = match point_in(digits, lon, lat, &bytes[at..]) {
            Ok(next) => next,
            Err(offset) => return Err(DecodeError::BadPolyline(at + offset)),
        };
        if points.push((next_lon, next_lat)).is_err() {
            return Err(DecodeError::Memory);
        }
        lon = next_lon;
        lat = next_lat;
        at += taken;
    }
    Ok(points)
}

/// The point at the front of the bytes, behind one, and how many bytes it takes.
fn point_in(digits: u32, lon: i32, lat: i32, bytes: &[u8]) -> Result<(i32, i32, usize), usize>
    ensures value { result ≡ point_in digits lon lat bytes.now }
    ensures taken { IfOk result (λ p. (0 < p.2) × (p.2 ≤ length bytes.now)) }
    ensures offset { IfErr result (λ o. o ≤ length bytes.now) }
{
    let (next_lat, before) = coordinate_in(digits, lat, bytes)?;
    match coordinate_in(digits, lon, &bytes[before..]) {
        Ok((next_lon, taken)) => Ok((next_lon, next_lat, before + taken)),
        Err(offset) => Err(before + offset),
    }
}

/// The coordinate at the front of the bytes, behind one, and how many bytes it takes.
fn coordinate_in(digits: u32, sum: i32, bytes: &[u8]) -> Result<(i32, usize), usize>
    ensures value { result ≡ coordinate_in digits sum bytes.now }
    ensures taken { IfOk result (λ c. (0 < c.1) × (c.1 ≤ length bytes.now)) }
    ensures offset { IfErr result (λ o. o ≤ length bytes.now) }
{
    let (n, taken) = value_in(7, bytes)?;
    checked(moved(digits, sum, n), taken)
}

/// A coordinate, in microdegrees, behind the one before it.
fn moved(digits: u32, sum: i32, n: u64) -> i64
    requires { n < 2 ^ 35 }
    ensures { result ≡ moved digits sum n }
{
    i64::from(sum) + unit_of(digits) * unfolded(n)
}

/// The coordinate with the bytes that it took, or the offset of its last byte where it doesn't fit.
fn checked(sum: i64, taken: usize) -> Result<(i32, usize), usize>
    requires { 0 < taken }
    ensures value { result ≡ checked sum taken }
    ensures taken { IfOk result (λ c. c.1 ≡ taken) }
    ensures offset { IfErr result (λ o. o < taken) }
{
    match i32::try_from(sum) {
        Ok(next) => Ok((next, taken)),
        Err(_) => Err(taken - 1),
    }
}

fn unit_of(digits: u32) -> i64
    ensures { result ≡ pos (unit_of digits) }
{
    if digits == 5 { 10 } else { 1 }
}

/// 0, 1, 2, 3, .. stand for 0, -1, 1, -2, ..
fn unfolded(n: u64) -> i64
    requires { n < 2 ^ 35 }
    ensures value { result ≡ unfolded n }
    ensures low { negsuc 34359738367 ≤ℤ result }
    ensures high { result ≤ℤ pos 34359738368 }
{
    let half = (n / 2) as i64;
    if n % 2 == 0 { half } else { -half - 1 }
}

/// The value at the front of the bytes, of at most so many groups of five bits, and how many bytes
/// it takes.
#[tactic(auto, unfolding(crate::specs::Decoding::value_in))]
fn value_in(groups: u32, bytes: &[u8]) -> Result<(u64, usize), usize>
    requires { groups ≤ 7 }
    ensures value { result ≡ value_in groups bytes.now }
    ensures small { IfOk result (λ v. v.0 < 32 ^ groups) }
    ensures taken { IfOk result (λ v. (0 < v.1) × (v.1 ≤ length bytes.now)) }
    ensures offset { IfErr result (λ o. o ≤ length bytes.now) }
{
    let [byte, rest @ ..] = bytes else {
        return Err(0);
    };
    if groups == 0 {
        return Err(0);
    }
    match *byte {
        63..=94 => Ok((u64::from(*byte - 63), 1)),
        95..=126 => match value_in(groups - 1, rest) {
            Ok((n, taken)) => Ok((u64::from(*byte - 95) + 32 * n, taken + 1)),
            Err(offset) => Err(offset + 1),
        },
        _ => Err(0),
    }
}
