//! Chosen coordinates.

ghost use Rattle.std.specs.Prelude.{◌≡◌, IfOk, IfSome, is_some, nat_lt, option_copied};
ghost use Rattle.std.specs.List.{list_all};
ghost use Rattle.option_values.specs.Entries.{chosen_among};
ghost use Rattle.option_values.specs.Entries.{AreThere};
ghost use Rattle.option_values.specs.Values.{chosen_of};

use crate::entries::{all_read, are_read};
use crate::entry_lists::Indexes;
use crate::option_types::Chosen;
use std::alloc::{AllocError, Global};

const ALL: &str = "all";

/// Whether a value chooses coordinates: `all`, or numbers of one to nine digits parted by semicolons.
pub fn is_chosen(value: &str) -> bool
    ensures { result ≡ is_some (chosen_of value.now) }
{
    value == ALL || are_read::<u32>(value)
}

/// The chosen ones of so many coordinates, all where there is no value. None where one is past them, or the value
/// is of another form. It answers an error only where memory runs out.
pub fn chosen_among(
    alloc: Global,
    count: usize,
    value: Option<&str>,
) -> Result<Option<Chosen>, AllocError>
    ensures chosen { IfOk result (λ found. found ≡ chosen_among count (option_copied value.entry)) }
    ensures there { IfOk result (λ found. IfSome found (AreThere count)) }
{
    let Some(value) = value else {
        return Ok(Some(Chosen::All));
    };
    if value == ALL {
        return Ok(Some(Chosen::All));
    }
    let Some(indexes) = all_read::<u32>(alloc, value)? else {
        return Ok(None);
    };
    if are_below(&indexes, count) {
        Ok(Some(Chosen::Only(Indexes::of(indexes))))
    } else {
        Ok(None)
    }
}

// Whether each number is below the count.
fn are_below(indexes: &[u32], count: usize) -> bool
    ensures { result ≡ list_all (λ i. nat_lt i count) indexes.now }
{
    indexes.iter().all(|i| (*i as usize) < count)
}
