//! Lemmas about lists and numbers in general, which std doesn't have and several crates cite.
//!
//! There is no code here: what stands in `proofs/` is the crate. A lemma belongs here where it speaks of lists or
//! numbers alone, and of no type of this project.
#![tactic(auto)]
