//! The arcs of the graph with copies, and how many there are.

ghost use Rattle.std.specs.Prelude.{◌≡◌, ℕ, ◌+◌, ◌^◌, ◌<◌, ◌≤◌, List, ◌++◌, length, All, IfNone, IfSome, OnOk};
ghost use Rattle.via_paths.specs.Expansion.{copy_arcs, word_of};
ghost use Rattle.via_paths.specs.Tries.{AreFans, AreKept, IsAutomaton, IsTrie, first_arcs, list_at, out_by};

use crate::ended::Ends;
use crate::ends::is_ended;
use crate::kept::heads_of;
use crate::trie::Trie;
use std::alloc::AllocError;
use std::collections::HashMap;

// The most arcs, 2^27.
const MOST_ARCS: usize = 134217728;

// How many arcs leave a copy, by the heads of the turns from its last vertex.
fn count_out(trie: &Trie, ends: &Ends, state: u32, heads: &[u32]) -> usize
    requires { state < trie.now.vertices + length trie.now.copied.items }
    ensures { (sequences copies : List (List ℕ)) →
        IsAutomaton trie.now.vertices sequences copies trie.now.next trie.now.copied.items ends.now →
        result ≡ length (out_by trie.now.vertices sequences copies state (word_of trie.now.vertices copies state) heads.now) }
{
    let mut count = 0;
    for i in 0..heads.len() {
        if !is_ended(trie, ends, state, heads[i]) {
            count += 1;
        }
    }
    count
}

/// How many arcs leave the copies, or None where there are more than 2^27 with those of as many turns. So no arc is made
/// before it is known that there is room for all.
pub fn count_arcs(
    trie: &Trie,
    ends: &Ends,
    fans: &HashMap<u32, Vec<u32>>,
    kept: &HashMap<(usize, u32), Vec<u32>>,
    turns: usize,
) -> Option<usize>
    requires { AreKept ends.now.vertices fans.now kept.now }
    ensures within { IfSome result (λ count. turns + count ≤ 2 ^ 27) }
    ensures some { IfSome result (λ count. (sequences copies : List (List ℕ)) (turn_list : List (ℕ × ℕ)) →
        IsAutomaton trie.now.vertices sequences copies trie.now.next trie.now.copied.items ends.now →
        AreFans trie.now.copied.items turn_list fans.now →
        count ≡ length (copy_arcs trie.now.vertices sequences copies turn_list trie.now.vertices copies)) }
    ensures none { IfNone result ((sequences copies : List (List ℕ)) (turn_list : List (ℕ × ℕ)) →
        IsAutomaton trie.now.vertices sequences copies trie.now.next trie.now.copied.items ends.now →
        AreFans trie.now.copied.items turn_list fans.now →
        2 ^ 27 < turns + length (copy_arcs trie.now.vertices sequences copies turn_list trie.now.vertices copies)) }
{
    if turns > MOST_ARCS {
        return None;
    }
    let room = MOST_ARCS - turns;
    let mut left = room;
    for k in 0..trie.copied.len() {
        let heads = heads_of(trie, ends, fans, kept, k);
        let count = count_out(trie, ends, trie.vertices + k as u32, heads);
        if count > left {
            return None;
        }
        left -= count;
    }
    Some(room - left)
}

/// Puts in the place of each turn its arc, out of its ordinary vertex.
pub fn put_arcs(trie: &Trie, turns: &mut Vec<(u32, u32)>)
    requires { All (λ t. (t.0 < trie.now.vertices) × (t.1 < trie.now.vertices)) turns.old.items }
    ensures { (copies : List (List ℕ)) → IsTrie trie.now.vertices copies trie.now.next trie.now.copied.items →
        turns.new.items ≡ first_arcs trie.now.vertices copies turns.old.items }
{
    for i in 0..turns.len() {
        let turn = turns[i];
        let head = trie.onward(turn.0, turn.1);
        turns[i] = (turn.0, head);
    }
}

// The arcs out of a copy, by the heads of the turns from its last vertex.
fn push_out(
    trie: &Trie,
    ends: &Ends,
    state: u32,
    heads: &[u32],
    arcs: &mut Vec<(u32, u32)>,
) -> Result<(), AllocError>
    requires state { state < trie.now.vertices + length trie.now.copied.items }
    requires heads { All (λ v. v < trie.now.vertices) heads.now }
    ensures { OnOk result ((sequences copies : List (List ℕ)) →
        IsAutomaton trie.now.vertices sequences copies trie.now.next trie.now.copied.items ends.now →
        arcs.new.items ≡ arcs.old.items
        ++ out_by trie.now.vertices sequences copies state (word_of trie.now.vertices copies state) heads.now) }
{
    for i in 0..heads.len() {
        let head = heads[i];
        if !is_ended(trie, ends, state, head) {
            let next = trie.onward(state, head);
            arcs.push((state, next))?;
        }
    }
    Ok(())
}

/// The arcs out of all copies, by the heads of the turns from each vertex at which one stands.
pub fn push_copies(
    trie: &Trie,
    ends: &Ends,
    fans: &HashMap<u32, Vec<u32>>,
    kept: &HashMap<(usize, u32), Vec<u32>>,
    arcs: &mut Vec<(u32, u32)>,
) -> Result<(), AllocError>
    requires kept { AreKept ends.now.vertices fans.now kept.now }
    requires below { (v : ℕ) → All (λ e. e < trie.now.vertices) (list_at fans.now v) }
    ensures { OnOk result ((sequences copies : List (List ℕ)) (turns : List (ℕ × ℕ)) →
        IsAutomaton trie.now.vertices sequences copies trie.now.next trie.now.copied.items ends.now →
        AreFans trie.now.copied.items turns fans.now →
        arcs.new.items ≡ arcs.old.items ++ copy_arcs trie.now.vertices sequences copies turns trie.now.vertices copies) }
{
    for k in 0..trie.copied.len() {
        let heads = heads_of(trie, ends, fans, kept, k);
        push_out(trie, ends, trie.vertices + k as u32, heads, arcs)?;
    }
    Ok(())
}
