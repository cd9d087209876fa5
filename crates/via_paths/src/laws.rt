//! What walks of the graph with copies stand for. Each contract is a law; there is nothing to do.
//!
//! The laws are over any list of the words of all copies (`AreCopies`), in whatever order they come.

ghost use Rattle.std.specs.Prelude.{◌≡◌, ℕ, ◌+◌, ◌<◌, ◌≤◌, ◌↔◌, ◌++◌, List, [], Option, None, Some, length, map, get_or, All};
ghost use Rattle.std.specs.List.{Contains, slice_get};
ghost use Rattle.search_graph.specs.Digraph.{Weighting};
ghost use Rattle.via_paths.specs.declared.barred.Barred.{Barred};
ghost use Rattle.via_paths.specs.Copies.{copies_of};
ghost use Rattle.via_paths.specs.Expansion.{AreCopies, IsStateOf, expanded, expanded_arcs, standing, unexpanded, word_of};
ghost use Rattle.via_paths.specs.Forbidden.{HasPath, IsBelow, IsFree, IsFreeBehind, last_of, words_in};
ghost use Rattle.via_paths.specs.Standing.{IsCostedAlike, StandForFree, StandBehind, EndsStandForFree, EndsStandBehind};

use search_graph::Cost;

/// Each walk of the graph with copies from an ordinary vertex stands for a walk in which no sequence runs, of
/// the same cost, and each such walk is stood for by exactly one (`walks`). So it is between starts that are
/// ordinary vertices and a target (`ends`).
pub fn walks_stand_for_free_ones<C: Cost>()
    ensures walks { (n : ℕ) (sequences copies : List (List ℕ)) (turns : List (ℕ × ℕ)) (w x : Weighting C) →
        All (λ s. 3 ≤ length s) sequences → All (λ t. (t.0 < n) × (t.1 < n)) turns → AreCopies sequences copies →
        IsCostedAlike (standing n (map last_of copies)) (unexpanded n turns) w (expanded n sequences copies turns) x →
        StandForFree C.ops n sequences (standing n (map last_of copies)) (unexpanded n turns) w (expanded n sequences copies turns) x }
    ensures ends { (n : ℕ) (sequences copies : List (List ℕ)) (turns : List (ℕ × ℕ)) (w x : Weighting C) →
        All (λ s. 3 ≤ length s) sequences → All (λ t. (t.0 < n) × (t.1 < n)) turns → AreCopies sequences copies →
        IsCostedAlike (standing n (map last_of copies)) (unexpanded n turns) w (expanded n sequences copies turns) x →
        EndsStandForFree C.ops n sequences (standing n (map last_of copies)) (unexpanded n turns) w (expanded n sequences copies turns) x }
{}

/// The same from any state, behind a walk that is in it: each walk of the graph with copies from there stands for
/// one that goes on from that walk and along which no sequence ends, and each such one is stood for by exactly one.
pub fn walks_go_on_from_states<C: Cost>()
    ensures walks { (n : ℕ) (sequences copies : List (List ℕ)) (turns : List (ℕ × ℕ)) (w x : Weighting C) →
        All (λ s. 3 ≤ length s) sequences → All (λ t. (t.0 < n) × (t.1 < n)) turns → AreCopies sequences copies →
        IsCostedAlike (standing n (map last_of copies)) (unexpanded n turns) w (expanded n sequences copies turns) x →
        StandBehind C.ops n sequences copies (standing n (map last_of copies)) (unexpanded n turns) w (expanded n sequences copies turns) x }
    ensures ends { (n : ℕ) (sequences copies : List (List ℕ)) (turns : List (ℕ × ℕ)) (w x : Weighting C) →
        All (λ s. 3 ≤ length s) sequences → All (λ t. (t.0 < n) × (t.1 < n)) turns → AreCopies sequences copies →
        IsCostedAlike (standing n (map last_of copies)) (unexpanded n turns) w (expanded n sequences copies turns) x →
        EndsStandBehind C.ops n sequences copies (standing n (map last_of copies)) (unexpanded n turns) w (expanded n sequences copies turns) x }
{}

/// Each vertex of the graph with copies is the state of its own word, an ordinary one as a walk of one vertex
/// (`own`); and the state of a walk stands for the vertex at which the walk ends (`last`).
pub fn vertices_are_states()
    ensures own { (n q : ℕ) (sequences copies : List (List ℕ)) →
        All (λ s. All (λ v. v < n) s) sequences → AreCopies sequences copies → q < n + length copies →
        IsStateOf n copies (word_of n copies q) q }
    ensures last { (n q : ℕ) (copies : List (List ℕ)) (walk : List ℕ) →
        IsStateOf n copies walk q → standing n (map last_of copies) q ≡ last_of walk }
{}

/// No sequence is a run of two walks joined exactly where none is one of the first, and the second goes on from
/// there with none ending along it.
pub fn free_walks_are_joined()
    ensures { (sequences : List (List ℕ)) (before walk : List ℕ) →
        IsFree sequences (before ++ walk) ↔ (IsFree sequences before × IsFreeBehind sequences before walk) }
{}

/// The words of the copies are the proper prefixes of two vertices or more, each once.
pub fn copies_are_prefixes()
    ensures { (sequences : List (List ℕ)) → AreCopies sequences (copies_of sequences) }
{}

/// The sequences of groups whose paths have a vertex or more have three or more (`long`), and all their vertices are in
/// range where those of the groups are (`ordinary`).
pub fn words_are_long()
    ensures long { (groups : List Barred) → All HasPath groups → All (λ s. 3 ≤ length s) (words_in groups) }
    ensures ordinary { (n : ℕ) (groups : List Barred) → All (IsBelow n) groups → All (λ s. All (λ v. v < n) s) (words_in groups) }
{}

/// Without sequences there are no copies (`copies`), and the arcs are the turns (`arcs`).
pub fn without_sequences_arcs_are_turns()
    ensures copies { copies_of [] ≡ [] }
    ensures arcs { (n : ℕ) (turns : List (ℕ × ℕ)) → expanded_arcs n [] [] turns ≡ turns }
{}

/// Each arc of the graph with copies joins two of its vertices and stands for a turn (`arcs`), and the arc of a
/// turn's number stands for that turn (`turns`); so there are no fewer arcs than turns (`more`).
pub fn arcs_stand_for_turns()
    ensures arcs { (n : ℕ) (sequences copies : List (List ℕ)) (turns : List (ℕ × ℕ)) (p q : ℕ) →
        All (λ s. 3 ≤ length s) sequences → All (λ t. (t.0 < n) × (t.1 < n)) turns → AreCopies sequences copies →
        Contains (expanded_arcs n sequences copies turns) (p, q) →
        (p < n + length copies) × (q < n + length copies) × Contains turns (standing n (map last_of copies) p, standing n (map last_of copies) q) }
    ensures turns { (n : ℕ) (sequences copies : List (List ℕ)) (turns : List (ℕ × ℕ)) (i d e : ℕ) →
        All (λ s. 3 ≤ length s) sequences → All (λ t. (t.0 < n) × (t.1 < n)) turns → AreCopies sequences copies →
        slice_get turns i ≡ Some (d, e) →
        (q : ℕ) × (slice_get (expanded_arcs n sequences copies turns) i ≡ Some (d, q)) × (standing n (map last_of copies) q ≡ e) }
    ensures more { (n : ℕ) (sequences copies : List (List ℕ)) (turns : List (ℕ × ℕ)) →
        length turns ≤ length (expanded_arcs n sequences copies turns) }
{}

/// Where an arc costs by what its two ends stand for, and a copy what its vertex costs, the weights are alike.
pub fn costs_by_ends_are_alike<C: Cost>()
    ensures { (n : ℕ) (sequences copies : List (List ℕ)) (turns : List (ℕ × ℕ)) (vertex : List (Option C)) (cost : ℕ → ℕ → C) →
        AreCopies sequences copies → length vertex ≡ n → All (λ s. All (λ v. v < n) s) sequences →
        IsCostedAlike (standing n (map last_of copies)) (unexpanded n turns) (record { vertex = vertex; arc = map (λ t. cost t.0 t.1) turns })
        (expanded n sequences copies turns) (record {
          vertex = vertex ++ map (λ p. get_or vertex (last_of p) None) copies;
          arc = map (λ a. cost (standing n (map last_of copies) a.0) (standing n (map last_of copies) a.1)) (expanded_arcs n sequences copies turns);
        }) }
{}
