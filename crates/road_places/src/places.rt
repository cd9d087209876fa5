//! How places lie on the two directions of their segments, and what parts of these cost.

ghost use Rattle.std.specs.Prelude.{◌≡◌, ◌*◌, ◌/◌, ◌^◌, ◌≤◌};
ghost use Rattle.search_graph.specs.RoadCosts.{road_cost_ops};
ghost use Rattle.road_places.specs.Places.{before, parts_along};

use road_base::Place;
use search_graph::WeightDurLen;

/// How many parts a segment has: a place lies so many of them along it.
const PARTS: u32 = 1024;

/// How far along a vertex, a direction of its segment, a place lies, in 1024ths.
pub fn parts_along(place: Place, vertex: u32) -> u32
    requires { place.at ≤ 1024 }
    ensures value { result ≡ parts_along place vertex }
    ensures bound { result ≤ 1024 }
{
    if vertex % 2 == 0 {
        place.at
    } else {
        PARTS - place.at
    }
}

/// What the first `parts` 1024ths of a vertex cost that costs at most one unit: each part of the cost
/// rounded down.
pub fn before(cost: WeightDurLen, parts: u32) -> WeightDurLen
    requires small { road_cost_ops.units cost 1 }
    requires within { parts ≤ 1024 }
    ensures { result ≡ before cost parts }
{
    WeightDurLen {
        weight: part_of(cost.weight, parts),
        duration: part_of(cost.duration, parts),
        length: part_of(cost.length, parts),
    }
}

// So many 1024ths of a number, rounded down.
fn part_of(whole: u64, parts: u32) -> u64
    requires small { whole ≤ 2 ^ 32 }
    requires within { parts ≤ 1024 }
    ensures { result ≡ whole * parts / 1024 }
{
    whole * u64::from(parts) / u64::from(PARTS)
}
