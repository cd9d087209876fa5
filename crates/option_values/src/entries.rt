//! Values that are lists of entries, parted by semicolons.

ghost use Rattle.std.specs.Prelude.{◌≡◌, [], None, Some, IfOk, IfSome, MatchOption, is_some, length, option_copied, option_map, replicate};
ghost use Rattle.std.specs.List.{slice_split};
ghost use Rattle.option_values.specs.Entries.{one_each};
ghost use Rattle.option_values.specs.Values.{all_read, hint_of};

use crate::cutting::parts_of;
use crate::entry_lists::Hints;
use crate::option_types::{Approach, Bearing};
use road_base::Text;
use std::alloc::{AllocError, Global};

/// What an entry of a list stands for: a radius, a bearing, an approach or the number of a coordinate.
pub trait Entry: Copy + Drop {
    ghost use Rattle.std.specs.Prelude.{ℕ, List, Option};

    ghost read: { List ℕ → Option Self };

    /// What a text stands for, None where it is not of the entry's grammar.
    fn of_text(text: &str) -> Option<Self>
        ensures { result ≡ read text.now };
}

/// Whether each entry of a value, parted by semicolons, stands for something.
pub fn are_read<E: Entry>(value: &str) -> bool
    ensures { result ≡ is_some (all_read E.read value.now) }
{
    value.split(';').all(|text| E::of_text(text).is_some())
}

// What the entries of a value stand for, None where one stands for nothing.
pub(crate) fn all_read<E: Entry>(alloc: Global, value: &str) -> Result<Option<Vec<E>>, AllocError>
    ensures { IfOk result (λ found. MatchOption found (all_read E.read value.now ≡ None) (λ entries. all_read E.read value.now ≡ Some entries.items)) }
{
    let mut entries = Vec::new(alloc);
    for text in value.split(';') {
        let Some(entry) = E::of_text(text) else {
            return Ok(None);
        };
        entries.push(entry)?;
    }
    Ok(Some(entries))
}

/// An entry for each of so many coordinates: those of a value that has as many, or absent ones where there is no
/// value. None where it has more or fewer, or one stands for nothing. It answers an error only where memory runs
/// out.
pub fn one_each<E: Entry>(
    alloc: Global,
    absent: E,
    count: usize,
    value: Option<&str>,
) -> Result<Option<Vec<E>>, AllocError>
    ensures entries { IfOk result (λ found. option_map (λ entries. entries.items) found ≡ one_each absent E.read count (option_copied value.entry)) }
    ensures count { IfOk result (λ found. IfSome found (λ entries. length entries.items ≡ count)) }
{
    let Some(value) = value else {
        return Ok(Some(copies_of(alloc, absent, count)?));
    };
    match all_read(alloc, value)? {
        Some(entries) if entries.len() == count => Ok(Some(entries)),
        _ => Ok(None),
    }
}

// So many copies of an entry.
fn copies_of<E: Entry>(alloc: Global, entry: E, count: usize) -> Result<Vec<E>, AllocError>
    ensures { IfOk result (λ copies. copies.items ≡ replicate count entry) }
{
    let mut copies = Vec::new(alloc);
    for _ in 0..count {
        copies.push(entry)?;
    }
    Ok(copies)
}

/// A hint for each of so many coordinates: the parts of a value that has as many, or empty texts where there is no
/// value. None where it has more or fewer. It answers an error only where memory runs out.
pub fn hints_each(
    alloc: Global,
    count: usize,
    value: Option<&str>,
) -> Result<Option<Vec<Text>>, AllocError>
    ensures hints { IfOk result (λ found. option_map (λ hints. hints.items) found ≡ one_each [] hint_of count (option_copied value.entry)) }
    ensures count { IfOk result (λ found. IfSome found (λ hints. length hints.items ≡ count)) }
{
    let Some(value) = value else {
        return Ok(Some(empty_texts(alloc, count)?));
    };
    let hints = parts_of(alloc, ';', value)?;
    if hints.len() == count {
        Ok(Some(hints))
    } else {
        Ok(None)
    }
}

// So many empty texts.
fn empty_texts(alloc: Global, count: usize) -> Result<Vec<Text>, AllocError>
    ensures { IfOk result (λ texts. texts.items ≡ replicate count []) }
{
    let mut texts = Vec::new(alloc);
    for _ in 0..count {
        texts.push(Text::of(String::new(alloc)))?;
    }
    Ok(texts)
}
