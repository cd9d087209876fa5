//! What the values of a request's options stand for, one value at a time: texts as truth values, numbers, names,
//! distances, directions, and lists of these over a number of coordinates. None for a text that is not of the
//! option's grammar.
//!
//! The options are those of OSRM's HTTP API, version 1. `specs/` is to be read in this order: `Values` (what a value
//! stands for) and `Entries` (lists with an entry for each coordinate, and numbers of coordinates). Which service has
//! which option, and what a request makes of them, is told above. Each call goes once over its text; those that hand
//! out lists take memory, in proportion to their entries.
#![tactic(auto)]

mod chosen_lists;
mod cutting;
mod decimetres;
mod entries;
mod entry_lists;
mod entry_values;
mod excluded_names;
mod option_types;
mod values;
mod whole_numbers;

pub use chosen_lists::{chosen_among, is_chosen};
pub use cutting::cut;
pub use entries::{Entry, are_read, hints_each, one_each};
pub use entry_lists::{Approaches, Bearings, Hints, Indexes, Radiuses};
pub use excluded_names::{excluded_of, is_exclusion};
pub use option_types::{
    Alternatives, Approach, Bearing, Chosen, ContinueStraight, Destination, Geometries, Overview,
    RouteAnnotations, Snapping, Source, TableAnnotations,
};
pub use values::{
    alternatives_of, continue_straight_of, destination_of, every_annotation, geometries_of,
    number_of, overview_of, route_annotations_of, since_of, snapping_of, source_of,
    table_annotations_of, truth_of,
};
