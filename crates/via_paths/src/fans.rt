//! The heads of the turns from the vertices at which a copy stands.

ghost use Rattle.std.specs.Prelude.{◌≡◌, ℕ, ◌<◌, Some, length, All, IfOk};
ghost use Rattle.std.specs.List.{slice_get};
ghost use Rattle.via_paths.specs.Tries.{AreFans, AreStood, list_at};

use crate::lists::add_to;
use crate::trie::Trie;
use std::alloc::{AllocError, Global};
use std::collections::{HashMap, HashSet};

// The vertices at which copies stand.
fn stood_at(alloc: Global, trie: &Trie) -> Result<HashSet<u32>, AllocError>
    ensures { IfOk result (λ stood. AreStood trie.now.copied.items stood) }
{
    let mut stood = HashSet::new(alloc);
    for k in 0..trie.copied.len() {
        let vertex = trie.copied[k].vertex;
        stood.insert(vertex)?;
    }
    Ok(stood)
}

fn turn_at(turns: &[(u32, u32)], i: usize) -> (u32, u32)
    requires { i < length turns.now }
    ensures { slice_get turns.now i ≡ Some result }
{
    turns[i]
}

/// The heads of the turns from each vertex at which a copy stands, in the order of the turns.
pub fn fans_of(
    alloc: Global,
    trie: &Trie,
    turns: &[(u32, u32)],
) -> Result<HashMap<u32, Vec<u32>>, AllocError>
    requires { All (λ t. (t.0 < trie.now.vertices) × (t.1 < trie.now.vertices)) turns.now }
    ensures are { IfOk result (λ fans. AreFans trie.now.copied.items turns.now fans) }
    ensures below { IfOk result (λ fans. (v : ℕ) → All (λ e. e < trie.now.vertices) (list_at fans v)) }
{
    let stood = stood_at(alloc, trie)?;
    let mut fans = HashMap::new(alloc);
    for i in 0..turns.len() {
        let turn = turn_at(turns, i);
        if stood.contains(&turn.0) {
            add_to(alloc, &mut fans, turn.0, turn.1)?;
        }
    }
    Ok(fans)
}
