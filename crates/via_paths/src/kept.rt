//! The heads that are left behind a group's sequences: its copies have the same ones, so they are found once.

ghost use Rattle.std.specs.Prelude.{◌≡◌, ℕ, ◌+◌, ◌<◌, not, List, [], ◌∷◌, ◌++◌, filter, length, take, All, IfOk, IfSome, OnOk};
ghost use Rattle.std.specs.HashSet.{contains};
ghost use Rattle.via_paths.specs.Expansion.{copy_arcs, word_of};
ghost use Rattle.via_paths.specs.Forbidden.{ends_in};
ghost use Rattle.via_paths.specs.Tries.{AreFans, AreKept, IsAutomaton, list_at, left_by, out_by, pair_eq};

use crate::ended::Ends;
use crate::lists::list_of;
use crate::trie::Trie;
use std::alloc::{AllocError, Global};
use std::collections::{HashMap, HashSet};

// The one group whose ends alone end a sequence behind a copy: it is of no other, and falls back to an ordinary vertex,
// behind which none ends.
fn sole_group(trie: &Trie, ends: &Ends, k: usize) -> Option<usize>
    requires { k < length trie.now.copied.items }
    ensures { IfSome result (λ group. (sequences copies : List (List ℕ)) (e : ℕ) →
        IsAutomaton trie.now.vertices sequences copies trie.now.next trie.now.copied.items ends.now →
        ends_in sequences (word_of trie.now.vertices copies (trie.now.vertices + k) ++ e ∷ []) ≡ contains pair_eq ends.now.vertices (group, e)) }
{
    let copy = trie.copied[k];
    if copy.back >= trie.vertices {
        return None;
    }
    let groups = list_of(&ends.groups, trie.vertices + k as u32);
    if groups.len() == 1 {
        Some(groups[0])
    } else {
        None
    }
}

// The heads that are no end of a group.
fn heads_left(
    alloc: Global,
    vertices: &HashSet<(usize, u32)>,
    group: usize,
    heads: &[u32],
) -> Result<Vec<u32>, AllocError>
    ensures { IfOk result (λ left. left.items ≡ left_by vertices.now group heads.now) }
{
    let mut left = Vec::new(alloc);
    for i in 0..heads.len() {
        let head = heads[i];
        if !vertices.contains(&(group, head)) {
            left.push(head)?;
        }
    }
    Ok(left)
}

// Keeps those of a vertex for a group, unless they are there. It answers how many it has put there.
fn keep_left(
    alloc: Global,
    ends: &Ends,
    fans: &HashMap<u32, Vec<u32>>,
    at: (usize, u32),
    kept: &mut HashMap<(usize, u32), Vec<u32>>,
) -> Result<usize, AllocError>
    requires { AreKept ends.now.vertices fans.now kept.old }
    ensures { OnOk result (AreKept ends.now.vertices fans.now kept.new) }
{
    if kept.contains_key(&at) {
        return Ok(0);
    }
    let heads = heads_left(alloc, &ends.vertices, at.0, list_of(fans, at.1))?;
    let many = heads.len();
    kept.insert(at, heads)?;
    Ok(many)
}

/// The heads that are left at the vertex of each copy whose sequences are those of one group, by this group and the
/// vertex. Past this many heads no more lists are kept, so that they cost no more than the turns.
pub fn kept_of(
    alloc: Global,
    trie: &Trie,
    ends: &Ends,
    fans: &HashMap<u32, Vec<u32>>,
    most: usize,
) -> Result<HashMap<(usize, u32), Vec<u32>>, AllocError>
    ensures { IfOk result (λ kept. AreKept ends.now.vertices fans.now kept) }
{
    let mut kept = HashMap::new(alloc);
    let mut room = most;
    for k in 0..trie.copied.len() {
        let vertex = trie.copied[k].vertex;
        if let Some(group) = sole_group(trie, ends, k) {
            if list_of(fans, vertex).len() <= room {
                let many = keep_left(alloc, ends, fans, (group, vertex), &mut kept)?;
                room = room.saturating_sub(many);
            }
        }
    }
    Ok(kept)
}

/// Heads of the turns from the vertex of a copy, among them all on which no sequence ends.
pub fn heads_of<'a>(
    trie: &Trie,
    ends: &Ends,
    fans: &'a HashMap<u32, Vec<u32>>,
    kept: &'a HashMap<(usize, u32), Vec<u32>>,
    k: usize,
) -> &'a [u32]
    requires copy { k < length trie.now.copied.items }
    requires kept { AreKept ends.now.vertices fans.now kept.now }
    ensures below { (n : ℕ) → ((v : ℕ) → All (λ e. e < n) (list_at fans.now v)) → All (λ e. e < n) result.now }
    ensures is { (sequences copies : List (List ℕ)) (turns : List (ℕ × ℕ)) →
        IsAutomaton trie.now.vertices sequences copies trie.now.next trie.now.copied.items ends.now →
        AreFans trie.now.copied.items turns fans.now →
        copy_arcs trie.now.vertices sequences copies turns trie.now.vertices (take (k + 1) copies)
        ≡ copy_arcs trie.now.vertices sequences copies turns trie.now.vertices (take k copies)
        ++ out_by trie.now.vertices sequences copies (trie.now.vertices + k) (word_of trie.now.vertices copies (trie.now.vertices + k)) result.now }
{
    let vertex = trie.copied[k].vertex;
    if let Some(group) = sole_group(trie, ends, k) {
        if let Some(heads) = kept.get(&(group, vertex)) {
            return heads.as_slice();
        }
    }
    list_of(fans, vertex)
}
