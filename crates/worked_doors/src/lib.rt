//! Tests over boards and doors in memory that need no roads, of what no clause says: that calls succeed where memory is
//! ample, in which order connections and publications come, and that threads run beside each other.
#![tactic(auto)]

#[cfg(test)]
mod flags_and_queues;
#[cfg(test)]
mod forms_in_memory;
#[cfg(test)]
mod publishing;
#[cfg(test)]
mod serving;
