//! What a search sees of an arc before it looks at the arc's cost: where it leads, and its cost's rank.

ghost use Rattle.std.specs.Prelude.{◌≡◌, ◌+◌, ◌<◌, ◌^◌};
ghost use Rattle.label_search.specs.Ranked.{AddsAtLeast};

use search_graph::Cost;
use step_search::Hop;

// The sum of a lesser rank and one of a label is below the words of labels that are no ranks.
const TOO_LONG: u64 = 9223372036854775807;

/// Where an arc leads, and the rank of its cost, or 0 where that has none.
#[derive(Clone, Copy, Drop)]
pub struct ArcRank {
    pub head: u32,
    pub rank: u64,
}

impl ArcRank {
    /// That of a hop.
    pub fn of<C: Cost>(hop: Hop<C>) -> ArcRank
        ensures head { result.head ≡ hop.head }
        ensures short { result.rank + 1 < 2 ^ 63 }
        ensures adds { AddsAtLeast C.ops C.ranked result.rank hop.cost }
    {
        ArcRank {
            head: hop.head,
            rank: added(hop.cost),
        }
    }
}

// What a cost adds to a rank at least.
fn added<C: Cost>(cost: C) -> u64
    ensures short { result + 1 < 2 ^ 63 }
    ensures adds { AddsAtLeast C.ops C.ranked result cost }
{
    match cost.rank() {
        None => 0,
        Some(rank) => { if rank < TOO_LONG { rank } else { 0 } }
    }
}
