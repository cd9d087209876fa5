//! The trips of a drill.

ghost use Rattle.std.specs.Prelude.{◌≡◌, ◌*◌, ◌<◌, ◌≤◌, IfOk};
ghost use Rattle.std.specs.List.{range_with_len};
ghost use Rattle.geo_integer.specs.Position.{position_of};
ghost use Rattle.snap_index.specs.Ends.{all_ends};
ghost use Rattle.town_drill.specs.Asked.{node_position, start_of, stop_of};
ghost use Rattle.town_drill.specs.Drill.{AreTrips};

use crate::trips::{Trip, trip_between};
use customized::Under;
use road_base::Point;
use snap_index::Grid;
use std::alloc::{AllocError, Global};

/// How many trips there are under each metric.
const TRIPS: u32 = 16;

// Where the node of a number lies, in the order of the nodes' ids from 0.
pub(crate) fn node_point(n: u32, number: u32) -> Point
    requires some { 1 ≤ n }
    requires few { n ≤ 1000 }
    requires number { number < n * n }
    ensures { position_of result ≡ node_position n number }
{
    let (column, row) = (number % n, number / n);
    Point {
        lon: (1000 * column) as i32,
        lat: (1000 * row) as i32,
    }
}

// The number of the node where a trip starts.
pub(crate) fn start_of(n: u32, metric: u32, number: u32) -> u32
    requires some { 1 ≤ n }
    requires few { n ≤ 1000 }
    requires metric { metric < 4 }
    requires number { number < 16 }
    ensures value { result ≡ start_of n metric number }
    ensures within { result < n * n }
{
    (101 * number + metric) % (n * n)
}

// The number of the node where it stops.
pub(crate) fn stop_of(n: u32, metric: u32, number: u32) -> u32
    requires some { 1 ≤ n }
    requires few { n ≤ 1000 }
    requires metric { metric < 4 }
    requires number { number < 16 }
    ensures value { result ≡ stop_of n metric number }
    ensures within { result < n * n }
{
    (211 * number + 3 * metric + n) % (n * n)
}

/// What comes of the trips under the metric of this number. The grid is that of the network. It answers an error only
/// where memory runs out.
pub(crate) fn trips_under(
    alloc: Global,
    under: &Under<'_>,
    grid: &Grid,
    n: u32,
    metric: u32,
) -> Result<Vec<Trip>, AllocError>
    requires grid { grid.now ≡ all_ends under.now.road.network.segments }
    requires some { 1 ≤ n }
    requires few { n ≤ 1000 }
    requires metric { metric < 4 }
    ensures { IfOk result (λ trips. AreTrips under.now.road n metric (range_with_len 0 16) trips.items) }
{
    let mut trips = Vec::new(alloc);
    for number in 0..TRIPS {
        let from = node_point(n, start_of(n, metric, number));
        let to = node_point(n, stop_of(n, metric, number));
        let one = trip_between(alloc, under, grid, from, to)?;
        trips.push(one)?;
    }
    Ok(trips)
}
