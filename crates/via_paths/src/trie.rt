//! The words of the copies as a trie: which state has a state's word with one vertex more, and where a walk falls
//! back to.

ghost use Rattle.std.specs.Prelude.{◌≡◌, ℕ, ◌+◌, ◌^◌, ◌<◌, ◌≤◌, List, [], ◌∷◌, ◌++◌, length, map, take, All, IfOk, OnOk, IsErrOf};
ghost use Rattle.via_paths.specs.declared.errors.ViaError.TheVariants.{TooManyVias};
ghost use Rattle.via_paths.specs.Copies.{with_new, with_prefix, layer};
ghost use Rattle.via_paths.specs.Expansion.{word_of, onward};
ghost use Rattle.via_paths.specs.Forbidden.{IsBelow};
ghost use Rattle.via_paths.specs.Stems.{word_by};
ghost use Rattle.via_paths.specs.Tries.{IsSound, IsTrie, AreUpTo, IsExtended, IsAdvanced, IsLaid, fallen};

use crate::barred::Barred;
use crate::copied::Copied;
use crate::errors::ViaError;
use crate::stem::Stem;
use crate::stems::{path_of, stem_at};
use std::alloc::Global;
use std::collections::HashMap;

// The most copies, 2^20.
const MOST_COPIES: usize = 1048576;

/// The words of copies. A state is an ordinary vertex, or a copy, which comes behind them. It costs 8 bytes a copy,
/// and an entry of the map.
#[derive(Drop)]
pub struct Trie {
    pub vertices: u32,
    /// by a state and a vertex, the copy whose word is the state's with the vertex behind it
    pub next: HashMap<(u32, u32), u32>,
    /// the copies, shorter words first
    pub copied: Vec<Copied>,
    ghost sound: { IsSound vertices next copied.items },
}

impl Trie {
    /// The trie of no words.
    pub fn new(alloc: Global, vertices: u32) -> Trie
        requires { vertices ≤ 2 ^ 25 }
        ensures vertices { result.vertices ≡ vertices }
        ensures none { result.copied.items ≡ [] }
        ensures is { IsTrie vertices [] result.next result.copied.items }
    {
        Trie {
            vertices,
            next: HashMap::new(alloc),
            copied: Vec::new(alloc),
        }
    }

    /// The state behind a state, one vertex on: that of the longest end of its word with the vertex that has a copy.
    pub fn onward(&self, state: u32, vertex: u32) -> u32
        requires state { state < self.now.vertices + length self.now.copied.items }
        requires vertex { vertex < self.now.vertices }
        ensures within { result < self.now.vertices + length self.now.copied.items }
        ensures is { (copies : List (List ℕ)) → IsTrie self.now.vertices copies self.now.next self.now.copied.items →
            result ≡ onward self.now.vertices copies (word_of self.now.vertices copies state) vertex }
    {
        let mut at = state;
        while at >= self.vertices {
            if let Some(copy) = self.next.get(&(at, vertex)) {
                return *copy;
            }
            at = self.copied[(at - self.vertices) as usize].back;
        }
        match self.next.get(&(at, vertex)) {
            Some(copy) => *copy,
            None => vertex,
        }
    }

    // The state of a state's word without the first vertex, one vertex on.
    fn fallen(&self, state: u32, vertex: u32) -> u32
        requires state { state < self.now.vertices + length self.now.copied.items }
        requires vertex { vertex < self.now.vertices }
        ensures within { result < self.now.vertices + length self.now.copied.items }
        ensures is { (copies : List (List ℕ)) → IsTrie self.now.vertices copies self.now.next self.now.copied.items →
            result ≡ fallen self.now.vertices copies (word_of self.now.vertices copies state) vertex }
    {
        if state < self.vertices {
            return vertex;
        }
        let back = self.copied[(state - self.vertices) as usize].back;
        self.onward(back, vertex)
    }

    /// The copy of a state's word with a vertex behind it, made where there is none.
    pub fn extend(&mut self, state: u32, vertex: u32) -> Result<u32, ViaError>
        requires state { state < self.old.vertices + length self.old.copied.items }
        requires vertex { vertex < self.old.vertices }
        ensures vertices { self.new.vertices ≡ self.old.vertices }
        ensures more { length self.old.copied.items ≤ length self.new.copied.items }
        ensures within { IfOk result (λ copy. copy < self.new.vertices + length self.new.copied.items) }
        ensures is { IfOk result (λ copy. (copies : List (List ℕ)) → IsTrie self.old.vertices copies self.old.next self.old.copied.items →
            AreUpTo (length (word_of self.old.vertices copies state) + 1) copies →
            IsExtended self.old.vertices copies (word_of self.old.vertices copies state ++ vertex ∷ []) self.new.next self.new.copied.items copy) }
        ensures many { IsErrOf result TooManyVias → (copies : List (List ℕ)) → IsTrie self.old.vertices copies self.old.next self.old.copied.items →
            2 ^ 20 < length (with_new copies (word_of self.old.vertices copies state ++ vertex ∷ [])) }
    {
        if let Some(copy) = self.next.get(&(state, vertex)) {
            return Ok(*copy);
        }
        if self.copied.len() >= MOST_COPIES {
            return Err(ViaError::TooManyVias);
        }
        let copy = self.vertices + self.copied.len() as u32;
        let back = self.fallen(state, vertex);
        self.copied.push(Copied { vertex, back })?;
        self.next.insert((state, vertex), copy)?;
        Ok(copy)
    }

    // From the state of the first m + 1 vertices of a sequence to that of one more, where there is a copy of these. The
    // path is what stands between the start and the end of the sequence.
    fn advance(&mut self, state: u32, path: &[u32], m: usize) -> Result<u32, ViaError>
        requires state { state < self.old.vertices + length self.old.copied.items }
        requires ordinary { All (λ v. v < self.old.vertices) path.now }
        ensures vertices { self.new.vertices ≡ self.old.vertices }
        ensures more { length self.old.copied.items ≤ length self.new.copied.items }
        ensures within { IfOk result (λ next. next < self.new.vertices + length self.new.copied.items) }
        ensures is { IfOk result (λ next. (d e : ℕ) (copies : List (List ℕ)) → IsTrie self.old.vertices copies self.old.next self.old.copied.items →
            AreUpTo ((m + 1) + 1) copies →
            (m + 1 < length (d ∷ (path.now ++ e ∷ [])) → word_of self.old.vertices copies state ≡ take (m + 1) (d ∷ (path.now ++ e ∷ []))) →
            IsAdvanced self.old.vertices copies (d ∷ (path.now ++ e ∷ [])) (m + 1) self.new.next self.new.copied.items next) }
        ensures many { IsErrOf result TooManyVias → (d e : ℕ) (copies : List (List ℕ)) → IsTrie self.old.vertices copies self.old.next self.old.copied.items →
            (m + 1 < length (d ∷ (path.now ++ e ∷ [])) → word_of self.old.vertices copies state ≡ take (m + 1) (d ∷ (path.now ++ e ∷ []))) →
            2 ^ 20 < length (with_prefix ((m + 1) + 1) copies (d ∷ (path.now ++ e ∷ []))) }
    {
        if m < path.len() {
            self.extend(state, path[m])
        } else {
            Ok(state)
        }
    }

    /// Adds the prefixes of m + 2 vertices, with the states of those of m + 1.
    pub fn lay(
        &mut self,
        groups: &[Barred],
        stems: &[Stem],
        states: &mut [u32],
        m: usize,
    ) -> Result<(), ViaError>
        requires states { length states.old ≡ length stems.now }
        requires within { All (λ q. q < self.old.vertices + length self.old.copied.items) states.old }
        requires ordinary { All (IsBelow self.old.vertices) groups.now }
        requires groups { All (λ s. s.group < length groups.now) stems.now }
        ensures vertices { self.new.vertices ≡ self.old.vertices }
        ensures more { length self.old.copied.items ≤ length self.new.copied.items }
        ensures within { OnOk result (All (λ q. q < self.new.vertices + length self.new.copied.items) states.new) }
        ensures is { OnOk result ((copies : List (List ℕ)) →
            IsLaid self.old.vertices copies (map (word_by groups.now) stems.now) (m + 1) self.old.next self.old.copied.items states.old →
            IsLaid self.old.vertices (layer ((m + 1) + 1) copies (map (word_by groups.now) stems.now)) (map (word_by groups.now) stems.now) ((m + 1) + 1) self.new.next self.new.copied.items states.new) }
        ensures many { IsErrOf result TooManyVias → (copies : List (List ℕ)) →
            IsLaid self.old.vertices copies (map (word_by groups.now) stems.now) (m + 1) self.old.next self.old.copied.items states.old →
            2 ^ 20 < length (layer ((m + 1) + 1) copies (map (word_by groups.now) stems.now)) }
    {
        for i in 0..stems.len() {
            let path = path_of(groups, stem_at(stems, i));
            let next = self.advance(states[i], path, m)?;
            states[i] = next;
        }
        Ok(())
    }
}
