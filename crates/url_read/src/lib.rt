//! Reads the target of a request: what it asks for, or its first refusal.
//!
//! Targets are those of OSRM's HTTP API, version 1, `/{service}/v1/{profile}/{coordinates}[.json]?{options}`, of
//! the services `route`, `table`, `nearest` and `trip`. `specs/Request` says which target is which request, and which refusal
//! comes first; `specs/Target` and `specs/Coordinates` have its path, `specs/Options` which options each service has,
//! `specs/Judging` how they are judged; what their values stand for is told by `option_values`. A target is
//! parted in one pass over its bytes; its coordinates and its options are each read once, and then the last value of
//! each option is looked up.
#![tactic(auto)]

mod coordinates;
mod judging;
mod last_values;
mod messages;
mod options;
mod parting;
mod pieces;
mod points;
mod polylines;
mod refusals;
mod requests;
mod service_names;
mod sizes;
mod targets;
mod values;

pub use option_values::{
    Alternatives, Approach, Approaches, Bearing, Bearings, Chosen, ContinueStraight, Destination,
    Geometries, Hints, Indexes, Overview, Radiuses, RouteAnnotations, Snapping, Source,
    TableAnnotations,
};
pub use refusals::{Refusal, RefusalCode, RequestFault};
pub use requests::{
    NearestOptions, Request, RouteOptions, Service, TableOptions, Telling, TripOptions,
};
pub use targets::request;
