//! The refusals of targets, with their messages.

ghost use Rattle.std.specs.Prelude.{◌≡◌, IfOk, string_bytes};
ghost use Rattle.url_read.specs.Refusals.{bad_path, bad_service, bad_version, bad_option, bad_coordinate, bad_polyline, out_of_range, bad_count, too_many, too_many_results};

use crate::refusals::{Refusal, RefusalCode};
use road_base::Text;
use std::alloc::{AllocError, Global};

fn refused(code: RefusalCode, message: String) -> Refusal
    ensures { result ≡ record { code = code; message = string_bytes message } }
{
    Refusal {
        code,
        message: Text::of(message),
    }
}

// The target is not a path of four pieces and a query.
pub(crate) fn bad_path(alloc: Global) -> Result<Refusal, AllocError>
    ensures { IfOk result (λ refusal. refusal ≡ bad_path) }
{
    let message = format!(in alloc; "path")?;
    Ok(refused(RefusalCode::InvalidUrl, message))
}

// The service of this name is not served.
pub(crate) fn bad_service(alloc: Global, name: &str) -> Result<Refusal, AllocError>
    ensures { IfOk result (λ refusal. refusal ≡ bad_service name.now) }
{
    let message = format!(in alloc; "service {name}")?;
    Ok(refused(RefusalCode::InvalidService, message))
}

// There is no such version.
pub(crate) fn bad_version(alloc: Global, name: &str) -> Result<Refusal, AllocError>
    ensures { IfOk result (λ refusal. refusal ≡ bad_version name.now) }
{
    let message = format!(in alloc; "version {name}")?;
    Ok(refused(RefusalCode::InvalidVersion, message))
}

// The option of this name is not one of the service, not of its form, or does not fit the coordinates.
pub(crate) fn bad_option(alloc: Global, name: &str) -> Result<Refusal, AllocError>
    ensures { IfOk result (λ refusal. refusal ≡ bad_option name.now) }
{
    let message = format!(in alloc; "option {name}")?;
    Ok(refused(RefusalCode::InvalidOptions, message))
}

// The coordinate of this number, from 0, is not of its form.
pub(crate) fn bad_coordinate(alloc: Global, number: usize) -> Result<Refusal, AllocError>
    ensures { IfOk result (λ refusal. refusal ≡ bad_coordinate number) }
{
    let message = format!(in alloc; "coordinate {number}")?;
    Ok(refused(RefusalCode::InvalidQuery, message))
}

// The polyline between the parentheses has its first fault at this byte, from 0.
pub(crate) fn bad_polyline(alloc: Global, offset: usize) -> Result<Refusal, AllocError>
    ensures { IfOk result (λ refusal. refusal ≡ bad_polyline offset) }
{
    let message = format!(in alloc; "polyline byte {offset}")?;
    Ok(refused(RefusalCode::InvalidQuery, message))
}

// The coordinate of this number, from 0, is not on the Earth.
pub(crate) fn out_of_range(alloc: Global, number: usize) -> Result<Refusal, AllocError>
    ensures { IfOk result (λ refusal. refusal ≡ out_of_range number) }
{
    let message = format!(in alloc; "coordinate {number}")?;
    Ok(refused(RefusalCode::InvalidValue, message))
}

// So many coordinates are too few, or are not the one that there has to be.
pub(crate) fn bad_count(alloc: Global, count: usize) -> Result<Refusal, AllocError>
    ensures { IfOk result (λ refusal. refusal ≡ bad_count count) }
{
    let message = format!(in alloc; "{count} coordinates")?;
    Ok(refused(RefusalCode::InvalidQuery, message))
}

// So many coordinates are too many.
pub(crate) fn too_many(alloc: Global, count: usize, most: usize) -> Result<Refusal, AllocError>
    ensures { IfOk result (λ refusal. refusal ≡ too_many count most) }
{
    let message = format!(in alloc; "{count} coordinates, at most {most}")?;
    Ok(refused(RefusalCode::TooBig, message))
}

// So many results are too many.
pub(crate) fn too_many_results(alloc: Global, count: u32, most: u32) -> Result<Refusal, AllocError>
    ensures { IfOk result (λ refusal. refusal ≡ too_many_results count most) }
{
    let message = format!(in alloc; "{count} results, at most {most}")?;
    Ok(refused(RefusalCode::TooBig, message))
}
