//! The graph that is searched: that of the turns, with copies of vertices for the sequences that no walk may run through.

ghost use Rattle.std.specs.Prelude.{◌≡◌, ℕ, ◌+◌, ◌^◌, ◌==◌, ◌<◌, ◌≤◌, ◌++◌, ◌∷◌, [], List, None, All, IfOk, IfErr, OnOk, if◌then◌else◌, length};
ghost use Rattle.std.specs.HashMap.{get};
ghost use Rattle.search_graph.specs.Faults.{AllInRange};
ghost use Rattle.via_paths.specs.Copies.{copies_of};
ghost use Rattle.via_paths.specs.Expansion.{expanded_arcs};
ghost use Rattle.via_paths.specs.Forbidden.{HasPath, IsBelow, words_in};
ghost use Rattle.via_paths.specs.Made.{AreMadeOf, ordinary_of};
ghost use Rattle.edge_graph.specs.BuildCause.{IsTurnsFault, IsViasFault};
ghost use Rattle.edge_graph.specs.Limits.{most_copies};
ghost use Rattle.road_turns.specs.Limits.{most_turns};
ghost use Rattle.edge_graph.specs.NetworkParts.{AreArcsOf, AreCopiesByVertex, AreCopiesFor, AreWithin, copies_in_map};

use crate::build_faults::BuildFault;
use search_graph::{Graph, GraphFault};
use std::alloc::{AllocError, Global};
use std::collections::HashMap;
use via_paths::{ArcsError, Barred, Copies, ViaError};

/// The arcs of the graph, and the vertex that each copy stands for.
#[derive(Drop)]
pub struct Arcs {
    pub list: Vec<(u32, u32)>,
    pub stands_for: Vec<u32>,
}

/// The copies for groups of sequences, None where there is no group.
#[tactic(auto, unfolding(crate::specs::Limits::most_copies))]
pub fn copies_for(
    alloc: Global,
    vertices: u32,
    groups: &[Barred],
) -> Result<Option<Copies>, BuildFault>
    requires vertices { vertices ≤ 2 ^ 25 }
    requires paths { All HasPath groups.now }
    requires below { All (IsBelow vertices) groups.now }
    ensures are { IfOk result (AreCopiesFor vertices (words_in groups.now)) }
    ensures few { OnOk result (length (copies_of (words_in groups.now)) ≤ most_copies) }
    ensures err { IfErr result (IsViasFault (length (copies_of (words_in groups.now)))) }
{
    if groups.is_empty() {
        return Ok(None);
    }
    match Copies::of(alloc, vertices, groups) {
        Ok(copies) => Ok(Some(copies)),
        Err(ViaError::TooManyVias) => Err(BuildFault::TooManyVias),
        Err(ViaError::Memory) => Err(BuildFault::Memory),
    }
}

// The arcs with these copies, made in the list of the turns.
#[tactic(auto, unfolding(road_turns::specs::Limits::most_turns))]
fn arcs_with(alloc: Global, copies: &Copies, turns: Vec<(u32, u32)>) -> Result<Arcs, BuildFault>
    requires { All (λ t. (t.0 < ordinary_of copies.now) × (t.1 < ordinary_of copies.now)) turns.items }
    ensures are { IfOk result (λ arcs. (n : ℕ) (words : List (List ℕ)) → AreMadeOf n words copies.now → AreArcsOf n turns.items words arcs.stands_for.items arcs.list.items) }
    ensures err { IfErr result (λ fault. (n : ℕ) (words : List (List ℕ)) → AreMadeOf n words copies.now → IsTurnsFault (length (expanded_arcs n words (copies_of words) turns.items)) fault) }
{
    let stands_for = copies.stands_for(alloc)?;
    match copies.expand(alloc, turns) {
        Ok(list) => Ok(Arcs { list, stands_for }),
        Err(ArcsError::TooManyTurns) => Err(BuildFault::TooManyTurns),
        Err(ArcsError::Memory) => Err(BuildFault::Memory),
    }
}

/// The arcs of the graph, made in the list of the turns: without copies they are the turns.
pub fn arcs_of(
    alloc: Global,
    copies: Option<Copies>,
    turns: Vec<(u32, u32)>,
) -> Result<Arcs, BuildFault>
    requires few { length turns.items ≤ most_turns }
    requires within { AreWithin copies turns.items }
    ensures are { IfOk result (λ arcs. (n : ℕ) (words : List (List ℕ)) → AreCopiesFor n words copies → AreArcsOf n turns.items words arcs.stands_for.items arcs.list.items) }
    ensures err { IfErr result (λ fault. (n : ℕ) (words : List (List ℕ)) → AreCopiesFor n words copies → IsTurnsFault (length (expanded_arcs n words (copies_of words) turns.items)) fault) }
{
    match copies {
        Some(copies) => arcs_with(alloc, &copies, turns),
        None => {
            let stands_for = Vec::new(alloc);
            Ok(Arcs {
                list: turns,
                stands_for,
            })
        }
    }
}

/// The graph of these arcs, which keeps their list. Each joins two vertices, so nothing but memory can be wanting.
#[tactic(auto, unfolding(road_turns::specs::Limits::most_turns))]
pub fn searched_graph(
    alloc: Global,
    vertices: u32,
    arcs: Vec<(u32, u32)>,
) -> Result<Graph, GraphFault>
    requires few { length arcs.items ≤ most_turns }
    requires in_range { AllInRange vertices arcs.items }
    ensures vertices { IfOk result (λ graph. graph.vertices ≡ vertices) }
    ensures arcs { IfOk result (λ graph. graph.arcs ≡ arcs.items) }
    ensures err { IfErr result (λ fault. fault ≡ GraphFault.Memory) }
{
    Graph::of(alloc, vertices, arcs)
}

// Takes the list of a vertex out of the map.
fn take_copies(alloc: Global, copies: &mut HashMap<u32, Vec<u32>>, v: u32) -> Vec<u32>
    ensures items { result.items ≡ copies_in_map copies.old v }
    ensures rest { (w : ℕ) → get (λ a b. a == b) copies.new w ≡ (if v == w then None else get (λ a b. a == b) copies.old w) }
{
    match copies.remove(&v) {
        Some(list) => list,
        None => Vec::new(alloc),
    }
}

// Adds a copy to the list of its vertex.
fn add_copy(
    alloc: Global,
    copies: &mut HashMap<u32, Vec<u32>>,
    v: u32,
    q: u32,
) -> Result<(), AllocError>
    ensures { OnOk result ((w : ℕ) → copies_in_map copies.new w ≡ (if v == w then copies_in_map copies.old w ++ q ∷ [] else copies_in_map copies.old w)) }
{
    let mut list = take_copies(alloc, copies, v);
    list.push(q)?;
    copies.insert(v, list)?;
    Ok(())
}

/// The copies of each vertex that has some. They are numbered in the order of the vertices that they stand for, from this
/// number on.
pub fn copies_by_vertex(
    alloc: Global,
    first: u32,
    stands_for: &[u32],
) -> Result<HashMap<u32, Vec<u32>>, AllocError>
    requires { first + length stands_for.now < 2 ^ 32 }
    ensures { IfOk result (AreCopiesByVertex first stands_for.now) }
{
    let mut copies = HashMap::new(alloc);
    for k in 0..stands_for.len() {
        let vertex = stands_for[k];
        add_copy(alloc, &mut copies, vertex, first + k as u32)?;
    }
    Ok(copies)
}
