//! A priority queue of keys and vertices, the least key first.
//!
//! A key that has a rank (`Cost::rank`), as durations have, stands in a heap of numbers by it; any other stands whole in a second
//! heap. Who uses the queue sees one list of entries. It has no way to lower a key: a vertex whose key has fallen is pushed again,
//! and its older entry passed over where it comes up.
//!
//! What a call does to the entries stands in `specs/Queued`.
#![tactic(auto)]

mod key_heap;
mod queue;
mod rank_heap;

pub use queue::Queue;
