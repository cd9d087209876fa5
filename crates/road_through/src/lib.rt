//! One least walk through a list of places.
//!
//! [`least_through`] answers a route along each leg, from each place to the next, where each goes on along the vertex
//! on which the one before it ends: at each place the walk goes on as it came there, and no forbidden sequence of vertices
//! runs along the walk as a whole. Of all such lists it is one that costs the least. `specs/Through` says what such a walk
//! is, which is a least one, and where there is none.
//!
//! At each place a walk is in a state: on one of the two vertices of the place's segment, or in a copy of it, which holds
//! what it has of forbidden sequences so far. So a leg is a table of costs, which searches of `road_walks` find, of four
//! where the segments have no copies; `through_query` chooses a state at each place so that the legs between them cost the
//! least together, and the routes are least walks between these states.
#![tactic(auto)]

mod routes;
mod tables;
mod through;

pub use through::least_through;
