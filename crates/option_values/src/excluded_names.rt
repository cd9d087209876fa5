//! Names of classes of ways that are not to be used.

ghost use Rattle.std.specs.Prelude.{◌≡◌, IfOk, is_some};
ghost use Rattle.option_values.specs.Values.{excluded_of};

use crate::cutting::parts_of;
use road_base::Words;
use std::alloc::{AllocError, Global};

/// Whether a value is names of classes: one or more with commas between, none of them empty.
pub fn is_exclusion(value: &str) -> bool
    ensures { result ≡ is_some (excluded_of value.now) }
{
    value.split(',').all(|name| !name.is_empty())
}

/// The names of a value, in their order, None where one is empty. Whatever is no comma may stand in a name. It
/// answers an error only where memory runs out.
pub fn excluded_of(alloc: Global, value: &str) -> Result<Option<Words>, AllocError>
    ensures { IfOk result (λ names. names ≡ excluded_of value.now) }
{
    if is_exclusion(value) {
        Ok(Some(Words::of(parts_of(alloc, ',', value)?)))
    } else {
        Ok(None)
    }
}
