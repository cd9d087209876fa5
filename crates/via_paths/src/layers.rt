//! The trie of the copies of all sequences, layer by layer.

ghost use Rattle.std.specs.Prelude.{◌≡◌, ◌-◌, ◌^◌, ◌<◌, ◌≤◌, length, map, All, IfOk, IsErrOf};
ghost use Rattle.via_paths.specs.declared.errors.ViaError.TheVariants.{TooManyVias};
ghost use Rattle.via_paths.specs.Copies.{copies_of, longest};
ghost use Rattle.via_paths.specs.Forbidden.{IsBelow, words_in};
ghost use Rattle.via_paths.specs.Stems.{word_by};
ghost use Rattle.via_paths.specs.Tries.{IsTrie};

use crate::barred::Barred;
use crate::errors::ViaError;
use crate::stem::Stem;
use crate::stems::{path_of, stem_at, stems_of};
use crate::trie::Trie;
use std::alloc::{AllocError, Global};

// The length of the longest path behind a stem, which is that of the longest sequence without its ends.
fn longest(groups: &[Barred], stems: &[Stem]) -> usize
    requires { All (λ s. s.group < length groups.now) stems.now }
    ensures { result ≡ longest (map (word_by groups.now) stems.now) - 2 }
{
    let mut most = 0;
    for i in 0..stems.len() {
        let length = path_of(groups, stem_at(stems, i)).len();
        if length > most {
            most = length;
        }
    }
    most
}

// The starts of the stems.
fn starts_of(alloc: Global, stems: &[Stem]) -> Result<Vec<u32>, AllocError>
    ensures { IfOk result (λ starts. starts.items ≡ map (λ s. s.start) stems.now) }
{
    let mut starts = Vec::with_capacity(alloc, stems.len())?;
    for i in 0..stems.len() {
        starts.push(stem_at(stems, i).start)?;
    }
    Ok(starts)
}

/// The trie of the copies of the sequences of these groups. It lays the stems alone, which have all prefixes that get
/// a copy.
pub fn trie_of(alloc: Global, vertices: u32, groups: &[Barred]) -> Result<Trie, ViaError>
    requires vertices { vertices ≤ 2 ^ 25 }
    requires ordinary { All (IsBelow vertices) groups.now }
    ensures vertices { IfOk result (λ trie. trie.vertices ≡ vertices) }
    ensures is { IfOk result (λ trie. IsTrie vertices (copies_of (words_in groups.now)) trie.next trie.copied.items) }
    ensures many { IsErrOf result TooManyVias → 2 ^ 20 < length (copies_of (words_in groups.now)) }
{
    let listed = stems_of(alloc, groups)?;
    let stems = listed.as_slice();
    let mut starts = starts_of(alloc, stems)?;
    let states = starts.as_mut_slice();
    let mut trie = Trie::new(alloc, vertices);
    for m in 0..longest(groups, stems) {
        trie.lay(groups, stems, states, m)?;
    }
    Ok(trie)
}
