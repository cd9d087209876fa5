//! Coordinates that are an encoded polyline.

ghost use Rattle.std.specs.Prelude.{◌≡◌, Ok, IfOk, IfErr, IsTrue};
ghost use Rattle.polyline_text.specs.Answers.{is_digits};
ghost use Rattle.url_read.specs.Coordinates.{closed, polyline_degrees};
ghost use Rattle.url_read.specs.Refusals.{IsFaultOf};

use crate::messages::{bad_coordinate, bad_polyline};
use crate::refusals::RequestFault;
use polyline_text::{DecodeError, decode};
use std::alloc::{AllocError, Global};

// The longitudes and latitudes of a polyline of so many digits, which ends before a `)` at the end of what follows its
// opening parenthesis; or the first fault of it.
pub(crate) fn polyline_degrees(
    alloc: Global,
    digits: u32,
    rest: &[u8],
) -> Result<Vec<(i64, i64)>, RequestFault>
    requires { IsTrue (is_digits digits) }
    ensures degrees { IfOk result (λ degrees. polyline_degrees digits (closed rest.now) ≡ Ok degrees.items) }
    ensures refusal { IfErr result (IsFaultOf (polyline_degrees digits (closed rest.now))) }
{
    let Some(text) = rest.strip_suffix(b")") else {
        return Err(RequestFault::Refused(bad_coordinate(alloc, 0)?));
    };
    match decode(alloc, text, digits) {
        Ok(points) => Ok(widened(alloc, &points)?),
        Err(DecodeError::BadPolyline(offset)) => {
            Err(RequestFault::Refused(bad_polyline(alloc, offset)?))
        }
        Err(DecodeError::Memory) => Err(RequestFault::Memory),
    }
}

// The same numbers in a wider type.
fn widened(alloc: Global, points: &[(i32, i32)]) -> Result<Vec<(i64, i64)>, AllocError>
    ensures { IfOk result (λ degrees. degrees.items ≡ points.now) }
{
    let mut degrees = Vec::with_capacity(alloc, points.len())?;
    for (lon, lat) in points {
        degrees.push((i64::from(*lon), i64::from(*lat)))?;
    }
    Ok(degrees)
}
