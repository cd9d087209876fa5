//! What is kept of the ends of sequences.

ghost use Rattle.std.specs.Prelude.{◌≡◌};
ghost use Rattle.via_paths.specs.Tries.{ended_at};

use crate::lists::list_of;
use std::collections::{HashMap, HashSet};

/// Where sequences end: behind the state of a start and its path, on each end of its group. Starts and ends are kept
/// apart, so that it costs an entry of a map for each of these states, 8 bytes a start, and an entry of a set an end.
#[derive(Drop)]
pub struct Ends {
    /// by the state of a start with the path behind it, the groups that it is of
    pub groups: HashMap<u32, Vec<usize>>,
    /// each group with each of its ends
    pub vertices: HashSet<(usize, u32)>,
}

impl Ends {
    /// Whether a sequence ends on this vertex behind the very word of a state.
    pub fn have(&self, state: u32, vertex: u32) -> bool
        ensures { result ≡ ended_at self.now.groups self.now.vertices state vertex }
    {
        let groups = list_of(&self.groups, state);
        for i in 0..groups.len() {
            if self.vertices.contains(&(groups[i], vertex)) {
                return true;
            }
        }
        false
    }
}
