//! Lists of small things, each kept by a number.

ghost use Rattle.std.specs.Prelude.{◌≡◌, ℕ, ◌==◌, [], ◌∷◌, ◌++◌, if◌then◌else◌, OnOk};
ghost use Rattle.via_paths.specs.Tries.{list_at};

use std::alloc::{AllocError, Global};
use std::collections::HashMap;

/// The list that is kept for a number.
pub fn list_of<T: Copy + Drop>(lists: &HashMap<u32, Vec<T>>, number: u32) -> &[T]
    ensures { result.now ≡ list_at lists.now number }
{
    match lists.get(&number) {
        Some(list) => list.as_slice(),
        None => &[],
    }
}

// The list of a number, taken out.
fn take_list<T: Copy + Drop>(alloc: Global, lists: &mut HashMap<u32, Vec<T>>, number: u32) -> Vec<T>
    ensures list { result.items ≡ list_at lists.old number }
    ensures rest { (v : ℕ) → list_at lists.new v ≡ (if number == v then [] else list_at lists.old v) }
{
    match lists.remove(&number) {
        Some(list) => list,
        None => Vec::new(alloc),
    }
}

/// One thing more behind the list of a number.
pub fn add_to<T: Copy + Drop>(
    alloc: Global,
    lists: &mut HashMap<u32, Vec<T>>,
    number: u32,
    thing: T,
) -> Result<(), AllocError>
    ensures { OnOk result ((v : ℕ) → list_at lists.new v ≡ (if number == v then list_at lists.old v ++ thing ∷ [] else list_at lists.old v)) }
{
    let mut list = take_list(alloc, lists, number);
    list.push(thing)?;
    lists.insert(number, list)?;
    Ok(())
}
