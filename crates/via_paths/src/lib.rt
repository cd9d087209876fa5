//! Forbidden sequences of vertices, as restrictions over via ways make them, and the graph that keeps walks off
//! them: beside the ordinary vertices it has a copy for each proper prefix, of two vertices or more, of a sequence,
//! in which a walk stands that came along that prefix.
//!
//! [`Copies::of`] makes the copies for groups of sequences that share their middle ([`Barred`]), and [`Copies::expand`]
//! the arcs of the graph, of the turns. `specs/` is to be read in this order: `Forbidden` (the sequences of groups, and
//! which walks are free of them), `Expansion` (the states of a walk, and the arcs out of each), `Copies` (in which order
//! the copies come), `Made` (what the first call says to the others) and `Standing` (what a walk of the graph with
//! copies stands for). That its walks stand for the free ones, from any state, is proved as laws
//! ([`walks_stand_for_free_ones`], [`walks_go_on_from_states`]).
//!
//! It is the automaton of A. V. Aho and M. J. Corasick ("Efficient string matching", 1975) along the arcs of a graph;
//! copies for forbidden paths are those of D. Villeneuve and G. Desaulniers (2005).
#![tactic(auto)]

mod arcs;
mod barred;
mod copied;
mod ended;
mod ends;
mod errors;
mod expansion;
mod fans;
mod kept;
mod laws;
mod layers;
mod lists;
mod stem;
mod stems;
#[cfg(test)]
mod tests;
mod trie;

pub use barred::Barred;
pub use errors::{ArcsError, ViaError};
pub use expansion::Copies;
pub use laws::{
    arcs_stand_for_turns, copies_are_prefixes, costs_by_ends_are_alike, free_walks_are_joined,
    vertices_are_states, walks_go_on_from_states, walks_stand_for_free_ones,
    without_sequences_arcs_are_turns, words_are_long,
};
