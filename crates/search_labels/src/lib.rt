//! The labels of the vertices that a search has come to, in the memory and time of what it touches.
//!
//! A label is the cost of the cheapest way to a vertex so far and the node of a tree that the way goes by. A vertex has none, or one
//! that may still be put in place of another, or one at which it is settled. Labels stand in slots, one behind the other in the order in
//! which vertices are first labelled, so a look-up is two reads and nothing is made for each vertex of the space but four bytes of a
//! table. A slot takes 16 bytes: it has its vertex and its label's node in four each, and the rank of its cost (`Cost::rank`) in place
//! of the cost, or the place of a cost without a rank in a list beside the slots.
//!
//! What is known of a vertex stands in `specs/Labelled`, as two functions of the vertex; laws of these in `specs/ChangedLaws`.
#![tactic(auto)]

mod labels;
mod slots;
mod words;

pub use labels::{Label, Labels};
