//! Least walks between places on roads, along the legs of a list of places, and what they cost between two lists.
//!
//! [`least_route`] answers for two places, [`least_routes`] for each place and the next of a list, [`cost_rows`]
//! for each place of a list and each of another, the costs alone. [`leg_costs`] and [`least_route_between`] are for routes
//! that go on as they came: the least of the walks that lead from a given state of the one place to a given one of the
//! other, of those that [`states_of`] tells: a state is a direction of the place's segment, or a copy of it, which holds
//! what the walk so far has of forbidden sequences. `specs/` is to be read in this order: `Least` (a least route), `Legs`
//! (legs, routes along them, and the first leg that has none), `Tables` (what least walks cost, in rows), `WalkLaws` (what
//! lets a search over the graph with copies of vertices stand for walks on roads), `Between` (least routes from one state
//! to another) and `StateLaws` (which walks go on behind a walk that is in a state). What a permitted walk is and costs is
//! told by `road_places`.
//!
//! Each leg is one search over the cells of the network, and the unpacking of the walk that it finds, with work
//! and memory that follow what these touch. A row of costs is one search over the cells too, which goes on through all
//! destinations; the rows are made side by side in threads. The costs of a leg are such rows, one for each state: two of two
//! on a network without copies of vertices.
#![tactic(auto)]

mod along_one;
mod by_turns;
mod cheapest;
mod copies;
mod leg_faults;
mod legs;
mod routes;
mod rows;
mod state_costs;
mod state_ends;
mod state_routes;
mod states;
mod table_ends;
mod tables;

pub use leg_faults::LegFault;
pub use legs::least_routes;
pub use routes::least_route;
pub use rows::Rows;
pub use state_costs::leg_costs;
pub use state_routes::least_route_between;
pub use states::states_of;
pub use tables::cost_rows;
