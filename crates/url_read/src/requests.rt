//! What a target asks for.

use option_values::{
    Alternatives, Approaches, Bearings, Chosen, ContinueStraight, Destination, Geometries, Hints,
    Overview, Radiuses, RouteAnnotations, Snapping, Source, TableAnnotations,
};
use road_base::{Points, Words};

/// A request: its coordinates, and the value of each option that a target of its service may have, the default
/// where the target has none.
#[derive(Debug)]
pub struct Request {
    pub points: Points,
    /// The service that is asked, with its own options.
    pub service: Service,
    /// How far each coordinate may be moved; one for each.
    pub radiuses: Radiuses,
    /// From where each is passed; one for each.
    pub bearings: Bearings,
    /// How each is reached; one for each.
    pub approaches: Approaches,
    /// One for each coordinate; they have no effect.
    pub hints: Hints,
    /// Whether hints are asked for.
    pub generate_hints: bool,
    /// Whether the reply leaves out its waypoints.
    pub skip_waypoints: bool,
    pub snapping: Snapping,
    /// The least number that the metric of the reply may have.
    pub since: u32,
    /// The classes of ways that are not to be used, None where all ways may be.
    pub exclude: Option<Words>,
}

impl Drop for Request {
    fn drop(self) {
        let Request {
            points: _points,
            service: _service,
            radiuses: _radiuses,
            bearings: _bearings,
            approaches: _approaches,
            hints: _hints,
            generate_hints: _generate_hints,
            skip_waypoints: _skip_waypoints,
            snapping: _snapping,
            since: _since,
            exclude: _exclude,
        } = self;
    }
}

/// A service with the options that it alone has.
#[derive(Drop, Debug)]
pub enum Service {
    /// The least route through all coordinates in their order.
    Route(RouteOptions),
    /// The costs from each of some coordinates to each of some.
    Table(TableOptions),
    /// The places on roads next to one coordinate.
    Nearest(NearestOptions),
    /// The least route through all coordinates in the order that is best.
    Trip(TripOptions),
}

/// What a reply tells of its routes.
#[derive(Clone, Copy, Drop, Debug)]
pub struct Telling {
    /// Whether each leg has its steps.
    pub steps: bool,
    pub annotations: RouteAnnotations,
    pub geometries: Geometries,
    pub overview: Overview,
}

/// The options of `route`.
#[derive(Clone, Copy, Drop, Debug)]
pub struct RouteOptions {
    pub alternatives: Alternatives,
    pub telling: Telling,
    pub continue_straight: ContinueStraight,
}

/// The options of `table`.
#[derive(Debug)]
pub struct TableOptions {
    pub sources: Chosen,
    pub destinations: Chosen,
    pub annotations: TableAnnotations,
}

impl Drop for TableOptions {
    fn drop(self) {
        let TableOptions {
            sources: _sources,
            destinations: _destinations,
            annotations: _annotations,
        } = self;
    }
}

/// The options of `nearest`.
#[derive(Clone, Copy, Drop, Debug)]
pub struct NearestOptions {
    /// How many places are asked for, at least 1.
    pub number: u32,
}

/// The options of `trip`.
#[derive(Clone, Copy, Drop, Debug)]
pub struct TripOptions {
    pub telling: Telling,
    /// Whether the trip goes back to its beginning.
    pub roundtrip: bool,
    pub source: Source,
    pub destination: Destination,
}

// The values of all options of a request.
#[derive(Drop, Debug)]
pub(crate) struct OptionValues {
    pub(crate) service: Service,
    pub(crate) radiuses: Radiuses,
    pub(crate) bearings: Bearings,
    pub(crate) approaches: Approaches,
    pub(crate) hints: Hints,
    pub(crate) generate_hints: bool,
    pub(crate) skip_waypoints: bool,
    pub(crate) snapping: Snapping,
    pub(crate) since: u32,
    pub(crate) exclude: Option<Words>,
}
