//! What the entries of lists stand for.

use crate::cutting::cut;
use crate::decimetres::decimetres_in;
use crate::entries::Entry;
use crate::option_types::{Approach, Bearing};
use crate::whole_numbers::{number_up_to, short_number_of};

impl Entry for Option<u64> {
    ghost use Rattle.option_values.specs.Values.{radius_of};

    ghost read = { radius_of };

    fn of_text(text: &str) -> Option<Option<u64>> {
        if text.is_empty() || text == "unlimited" {
            return Some(None);
        }
        decimetres_in(text)
    }
}

impl Entry for Option<Bearing> {
    ghost use Rattle.option_values.specs.Values.{bearing_of};

    ghost read = { bearing_of };

    fn of_text(text: &str) -> Option<Option<Bearing>> {
        if text.is_empty() {
            return Some(None);
        }
        let (value, range) = cut(text, ',')?;
        let value = number_up_to(360, value)?;
        let range = number_up_to(180, range)?;
        Some(Some(Bearing { value, range }))
    }
}

impl Entry for Option<Approach> {
    ghost use Rattle.option_values.specs.Values.{approach_of};

    ghost read = { approach_of };

    fn of_text(text: &str) -> Option<Option<Approach>> {
        if text.is_empty() {
            Some(None)
        } else if text == "unrestricted" {
            Some(Some(Approach::Unrestricted))
        } else {
            None
        }
    }
}

// The number of a coordinate.
impl Entry for u32 {
    ghost use Rattle.option_values.specs.Values.{short_number_of};

    ghost read = { short_number_of };

    fn of_text(text: &str) -> Option<u32> {
        short_number_of(text)
    }
}
