//! The graph with copies of vertices, which keeps walks off forbidden sequences.

ghost use Rattle.std.specs.Prelude.{◌≡◌, ℕ, ◌^◌, ◌<◌, ◌≤◌, List, length, map, All, IfOk, OnOk, IsErrOf};
ghost use Rattle.via_paths.specs.declared.errors.ArcsError.TheVariants.{TooManyTurns};
ghost use Rattle.via_paths.specs.declared.errors.ViaError.TheVariants.{TooManyVias};
ghost use Rattle.via_paths.specs.Copies.{copies_of};
ghost use Rattle.via_paths.specs.Expansion.{expanded_arcs};
ghost use Rattle.via_paths.specs.Forbidden.{HasPath, IsBelow, last_of, words_in};
ghost use Rattle.via_paths.specs.Made.{AreMadeOf, ordinary_of};

use crate::arcs::{count_arcs, push_copies, put_arcs};
use crate::barred::Barred;
use crate::ended::Ends;
use crate::ends::ends_of;
use crate::errors::{ArcsError, ViaError};
use crate::fans::fans_of;
use crate::kept::kept_of;
use crate::layers::trie_of;
use crate::trie::Trie;
use std::alloc::{AllocError, Global};

/// The copies of vertices for groups of forbidden sequences: one for each proper prefix, of two vertices or more, of a
/// sequence. They come behind the ordinary vertices, shorter prefixes first, and those of one length in the order of
/// the sequences.
///
/// It costs 8 bytes and an entry of a map a copy, an entry of a map and 8 bytes a start, and an entry of a set an end:
/// nothing for each pair of a start and an end.
#[derive(Drop)]
pub struct Copies {
    trie: Trie,
    ends: Ends,
}

impl Copies {
    /// The copies for these groups.
    ///
    /// There are at most 2^25 ordinary vertices, and each path has one of them or more, so that a sequence has three.
    /// It answers `TooManyVias` exactly past 2^20 copies, or `Memory` where memory runs out. It looks once at each
    /// start for each vertex of the longest path, and then goes along each start's own path.
    pub fn of(alloc: Global, vertices: u32, groups: &[Barred]) -> Result<Copies, ViaError>
        requires vertices { vertices ≤ 2 ^ 25 }
        requires paths { All HasPath groups.now }
        requires ordinary { All (IsBelow vertices) groups.now }
        ensures are { IfOk result (AreMadeOf vertices (words_in groups.now)) }
        ensures few { OnOk result (length (copies_of (words_in groups.now)) ≤ 2 ^ 20) }
        ensures vias { IsErrOf result TooManyVias → 2 ^ 20 < length (copies_of (words_in groups.now)) }
    {
        let trie = trie_of(alloc, vertices, groups)?;
        let ends = ends_of(alloc, &trie, groups)?;
        Ok(Copies { trie, ends })
    }

    /// The ordinary vertex for which each copy stands. It costs 4 bytes a copy.
    pub fn stands_for(&self, alloc: Global) -> Result<Vec<u32>, AllocError>
        ensures { IfOk result (λ stands_for. (n : ℕ) (sequences : List (List ℕ)) → AreMadeOf n sequences self.now →
            stands_for.items ≡ map last_of (copies_of sequences)) }
    {
        let trie = &self.trie;
        let mut stands_for = Vec::with_capacity(alloc, trie.copied.len())?;
        for k in 0..trie.copied.len() {
            let vertex = trie.copied[k].vertex;
            stands_for.push(vertex)?;
        }
        Ok(stands_for)
    }

    /// The arcs of the graph with copies, made in the list of the turns: the arc of each turn in its place, and behind
    /// them the arcs out of the copies. It costs 8 bytes an arc, and while it works at most 12 bytes a turn, and an entry
    /// of a map a group.
    ///
    /// It answers `TooManyTurns` exactly past 2^27 arcs, which are counted before any is made, or `Memory` where memory
    /// runs out. A turn costs two look-ups, and a turn from the vertex of a copy, for each such copy, some for each
    /// vertex of its word, and one for each group whose sequences have that word but for their last vertex. Copies
    /// behind which only one group's sequences end share the turns that are left to them: these cost as much for each
    /// arc out of them, and a turn one look-up for the group.
    pub fn expand(
        &self,
        alloc: Global,
        turns: Vec<(u32, u32)>,
    ) -> Result<Vec<(u32, u32)>, ArcsError>
        requires { All (λ t. (t.0 < ordinary_of self.now) × (t.1 < ordinary_of self.now)) turns.items }
        ensures arcs { IfOk result (λ arcs. (n : ℕ) (sequences : List (List ℕ)) → AreMadeOf n sequences self.now →
            arcs.items ≡ expanded_arcs n sequences (copies_of sequences) turns.items) }
        ensures within { IfOk result (λ arcs. (n : ℕ) (sequences : List (List ℕ)) → AreMadeOf n sequences self.now →
            length arcs.items ≤ 2 ^ 27) }
        ensures turns { IsErrOf result TooManyTurns → (n : ℕ) (sequences : List (List ℕ)) → AreMadeOf n sequences self.now →
            2 ^ 27 < length (expanded_arcs n sequences (copies_of sequences) turns.items) }
    {
        let mut arcs = turns;
        let fans = fans_of(alloc, &self.trie, arcs.as_slice())?;
        let kept = kept_of(alloc, &self.trie, &self.ends, &fans, arcs.len())?;
        let Some(more) = count_arcs(&self.trie, &self.ends, &fans, &kept, arcs.len()) else {
            return Err(ArcsError::TooManyTurns);
        };
        arcs.reserve_exact(more)?;
        put_arcs(&self.trie, &mut arcs);
        push_copies(&self.trie, &self.ends, &fans, &kept, &mut arcs)?;
        Ok(arcs)
    }
}
