//! Where a sequence would end.

ghost use Rattle.std.specs.Prelude.{◌≡◌, ℕ, ◌+◌, ◌<◌, ◌≤◌, ◌==◌, ◌&&◌, ◌||◌, List, [], ◌∷◌, ◌++◌, length, All, IfOk, OnOk};
ghost use Rattle.std.specs.HashSet.{contains};
ghost use Rattle.std.specs.List.{list_any};
ghost use Rattle.via_paths.specs.Expansion.{AreCopies, held, word_of};
ghost use Rattle.via_paths.specs.Forbidden.{HasPath, IsBelow, ends_in, has, words_in};
ghost use Rattle.via_paths.specs.Stems.{stems_by};
ghost use Rattle.via_paths.specs.Tries.{AreEnds, IsTrie, list_at, pair_eq};

use crate::barred::Barred;
use crate::ended::Ends;
use crate::lists::add_to;
use crate::trie::Trie;
use std::alloc::{AllocError, Global};
use std::collections::{HashMap, HashSet};

// The state of a start with the path behind it.
fn state_of(trie: &Trie, start: u32, path: &[u32]) -> u32
    requires start { start < trie.now.vertices }
    requires path { All (λ v. v < trie.now.vertices) path.now }
    ensures within { result < trie.now.vertices + length trie.now.copied.items }
    ensures is { (copies : List (List ℕ)) → IsTrie trie.now.vertices copies trie.now.next trie.now.copied.items →
        word_of trie.now.vertices copies result ≡ held copies (start ∷ path.now) }
{
    let mut state = start;
    for i in 0..path.len() {
        state = trie.onward(state, path[i]);
    }
    state
}

// The group of this number, where it has an end, behind each of its stems.
fn push_group(
    alloc: Global,
    trie: &Trie,
    barred: &Barred,
    group: usize,
    groups: &mut HashMap<u32, Vec<usize>>,
) -> Result<(), AllocError>
    requires { IsBelow trie.now.vertices barred.now }
    ensures { OnOk result ((copies : List (List ℕ)) → IsTrie trie.now.vertices copies trie.now.next trie.now.copied.items →
        All (λ w. held copies w ≡ w) (stems_by barred.now.starts.items barred.now.path.items barred.now.ends.items) →
        (q h : ℕ) → list_any (λ x. x == h) (list_at groups.new q)
        ≡ (list_any (λ x. x == h) (list_at groups.old q)
        || ((group == h) && has (stems_by barred.now.starts.items barred.now.path.items barred.now.ends.items) (word_of trie.now.vertices copies q)))) }
{
    if barred.ends.is_empty() {
        return Ok(());
    }
    for i in 0..barred.starts.len() {
        let state = state_of(trie, barred.starts[i], barred.path.as_slice());
        add_to(alloc, groups, state, group)?;
    }
    Ok(())
}

// The group of this number with each of its ends.
fn push_ends(
    ends: &[u32],
    group: usize,
    vertices: &mut HashSet<(usize, u32)>,
) -> Result<(), AllocError>
    ensures { OnOk result ((h e : ℕ) → contains pair_eq vertices.new (h, e)
        ≡ (contains pair_eq vertices.old (h, e) || ((group == h) && list_any (λ x. x == e) ends.now))) }
{
    for i in 0..ends.len() {
        vertices.insert((group, ends[i]))?;
    }
    Ok(())
}

/// Where the sequences of the groups end.
pub fn ends_of(alloc: Global, trie: &Trie, groups: &[Barred]) -> Result<Ends, AllocError>
    requires paths { All HasPath groups.now }
    requires ordinary { All (IsBelow trie.now.vertices) groups.now }
    ensures { IfOk result (λ ends. (copies : List (List ℕ)) → IsTrie trie.now.vertices copies trie.now.next trie.now.copied.items →
        AreCopies (words_in groups.now) copies → AreEnds trie.now.vertices (words_in groups.now) copies ends) }
{
    let mut by_state = HashMap::new(alloc);
    let mut vertices = HashSet::new(alloc);
    for g in 0..groups.len() {
        let barred = &groups[g];
        push_group(alloc, trie, barred, g, &mut by_state)?;
        push_ends(barred.ends.as_slice(), g, &mut vertices)?;
    }
    Ok(Ends {
        groups: by_state,
        vertices,
    })
}

/// Whether a sequence ends on this vertex behind a state.
pub fn is_ended(trie: &Trie, ends: &Ends, state: u32, vertex: u32) -> bool
    requires { state < trie.now.vertices + length trie.now.copied.items }
    ensures { (sequences copies : List (List ℕ)) → All (λ s. 3 ≤ length s) sequences → IsTrie trie.now.vertices copies trie.now.next trie.now.copied.items →
        AreCopies sequences copies → AreEnds trie.now.vertices sequences copies ends.now →
        result ≡ ends_in sequences (word_of trie.now.vertices copies state ++ vertex ∷ []) }
{
    let mut at = state;
    while at >= trie.vertices {
        if ends.have(at, vertex) {
            return true;
        }
        at = trie.copied[(at - trie.vertices) as usize].back;
    }
    false
}
