//! The values of options.

use crate::entry_lists::Indexes;

/// From where a coordinate is to be passed: within so many degrees either way of a direction, clockwise from
/// north. Both are whole degrees, `value` at most 360 and `range` at most 180.
#[derive(Clone, Copy, Debug, PartialEq, Eq)]
pub struct Bearing {
    pub value: u32,
    pub range: u32,
}

/// On which side of the road a coordinate is to be reached.
#[derive(Clone, Copy, Debug, PartialEq, Eq)]
pub enum Approach {
    /// On either side.
    Unrestricted,
}

/// Which roads a coordinate may be moved onto.
#[derive(Clone, Copy, Debug, PartialEq, Eq)]
pub enum Snapping {
    /// Those that may be travelled.
    Default,
}

/// Whether other routes are looked for beside the best.
#[derive(Clone, Copy, Debug, PartialEq, Eq)]
pub enum Alternatives {
    /// `false`.
    Off,
    /// `true`.
    On,
    /// At most so many.
    UpTo(u32),
}

/// What is told of each piece of a route: `true` asks for all five, `false` for none.
#[derive(Clone, Copy, Debug, PartialEq, Eq)]
pub struct RouteAnnotations {
    pub distance: bool,
    pub duration: bool,
    pub weight: bool,
    pub nodes: bool,
    pub speed: bool,
}

/// The form of a route's line.
#[derive(Clone, Copy, Debug, PartialEq, Eq)]
pub enum Geometries {
    /// Google's polyline, five digits after the point.
    Polyline,
    /// The same with six digits.
    Polyline6,
    /// A GeoJSON `LineString`.
    Geojson,
}

/// How much of a route's line is told.
#[derive(Clone, Copy, Debug, PartialEq, Eq)]
pub enum Overview {
    /// What shows at the scale of the whole route.
    Simplified,
    /// Each point.
    Full,
    /// `false`: no line.
    Off,
}

/// Whether a route goes straight on at its inner coordinates, or may turn round there.
#[derive(Clone, Copy, Debug, PartialEq, Eq)]
pub enum ContinueStraight {
    /// `default`, which stands for `false`.
    Default,
    /// `false`: it may turn round.
    Off,
    /// `true`: it goes straight on.
    On,
}

/// At which coordinate a trip begins.
#[derive(Clone, Copy, Debug, PartialEq, Eq)]
pub enum Source {
    /// At any.
    Any,
    /// At the first.
    First,
}

/// At which coordinate a trip ends, before it goes back to its beginning if it does.
#[derive(Clone, Copy, Debug, PartialEq, Eq)]
pub enum Destination {
    /// At any.
    Any,
    /// At the last.
    Last,
}

/// What a table tells of each of its routes.
#[derive(Clone, Copy, Debug, PartialEq, Eq)]
pub struct TableAnnotations {
    pub duration: bool,
    pub distance: bool,
}

/// Which coordinates are a table's sources, or its destinations.
#[derive(Drop, Debug)]
pub enum Chosen {
    /// All, in their order.
    All,
    /// Those of these numbers.
    Only(Indexes),
}
