//! What copies are made of: each start of a group, with the path behind it.

ghost use Rattle.std.specs.Prelude.{◌≡◌, ℕ, ◌<◌, ◌++◌, List, Some, length, map, All, IfOk, OnOk};
ghost use Rattle.std.specs.List.{slice_get};
ghost use Rattle.via_paths.specs.declared.barred.Barred.{Barred};
ghost use Rattle.via_paths.specs.Stems.{firsts_in, firsts_of, path_by, word_by};

use crate::barred::Barred;
use crate::stem::Stem;
use std::alloc::{AllocError, Global};

/// The stem at a place.
pub fn stem_at(stems: &[Stem], i: usize) -> Stem
    requires { i < length stems.now }
    ensures { slice_get stems.now i ≡ Some result }
{
    stems[i]
}

/// The path behind the start of a stem.
pub fn path_of(groups: &[Barred], stem: Stem) -> &[u32]
    requires { stem.group < length groups.now }
    ensures { result.now ≡ path_by groups.now stem }
{
    groups[stem.group].path.as_slice()
}

// The stems of the group of this number, where it has an end.
fn push_stems(barred: &Barred, group: usize, stems: &mut Vec<Stem>) -> Result<(), AllocError>
    ensures words { OnOk result ((groups : List Barred) → slice_get groups group ≡ Some barred.now →
        map (word_by groups) stems.new.items ≡ map (word_by groups) stems.old.items ++ firsts_of barred.now) }
    ensures groups { OnOk result ((k : ℕ) → group < k → All (λ s. s.group < k) stems.old.items → All (λ s. s.group < k) stems.new.items) }
{
    if barred.ends.is_empty() {
        return Ok(());
    }
    for i in 0..barred.starts.len() {
        let start = barred.starts[i];
        stems.push(Stem { group, start })?;
    }
    Ok(())
}

/// The stems of all groups that have an end, in their order.
pub fn stems_of(alloc: Global, groups: &[Barred]) -> Result<Vec<Stem>, AllocError>
    ensures words { IfOk result (λ stems. map (word_by groups.now) stems.items ≡ firsts_in groups.now) }
    ensures groups { IfOk result (λ stems. All (λ s. s.group < length groups.now) stems.items) }
{
    let mut stems = Vec::new(alloc);
    for g in 0..groups.len() {
        push_stems(&groups[g], g, &mut stems)?;
    }
    Ok(stems)
}
