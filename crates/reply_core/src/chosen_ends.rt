//! The chosen ones of a list.

ghost use Rattle.std.specs.Prelude.{◌≡◌, IfOk, length, nat_lt, true};
ghost use Rattle.std.specs.List.{flat_map, list_all, slice_get};
ghost use Rattle.std.specs.Option.{option_to_list};
ghost use Rattle.option_values.specs.Entries.{AreThere};
ghost use Rattle.reply_core.specs.Asked.{chosen_from};

use std::alloc::{AllocError, Global};
use url_read::Chosen;

// The elements of a list that are chosen: all, or those of the numbers, in their order.
pub(crate) fn chosen_from<T: Copy>(
    alloc: Global,
    which: &Chosen,
    all: &[T],
) -> Result<Vec<T>, AllocError>
    requires { AreThere (length all.now) which.now }
    ensures { IfOk result (λ chosen. chosen.items ≡ chosen_from which.now all.now) }
{
    match which {
        Chosen::All => copied(alloc, all),
        Chosen::Only(indexes) => elements_at(alloc, indexes.as_slice(), all),
    }
}

// All elements.
fn copied<T: Copy>(alloc: Global, all: &[T]) -> Result<Vec<T>, AllocError>
    ensures { IfOk result (λ copy. copy.items ≡ all.now) }
{
    Vec::from_slice(alloc, all)
}

// The elements of these numbers.
fn elements_at<T: Copy>(alloc: Global, indexes: &[u32], all: &[T]) -> Result<Vec<T>, AllocError>
    requires { list_all (λ i. nat_lt i (length all.now)) indexes.now ≡ true }
    ensures { IfOk result (λ chosen. chosen.items ≡ flat_map (λ i. option_to_list (slice_get all.now i)) indexes.now) }
{
    let mut chosen = Vec::with_capacity(alloc, indexes.len())?;
    for index in indexes {
        chosen.push(all[*index as usize])?;
    }
    Ok(chosen)
}
