//! The words that the rest of Walnutkiln shares: points and places on roads, texts and lists that
//! contracts see as plain lists, the objects of OpenStreetMap data, and the statuses of the program.
//! Nothing here reads, routes or prints.
#![tactic(auto)]

mod coordinates;
mod directions;
mod id_lists;
mod on_earth;
mod osm_objects;
mod point_lists;
mod program_status;
mod segments;
mod tag_lists;
mod texts;
mod word_lists;

pub use coordinates::Point;
pub use directions::Modifier;
pub use id_lists::Ids;
pub use osm_objects::{Kind, Member, Members, Node, Object, Relation, Way};
pub use point_lists::Points;
pub use program_status::Status;
pub use segments::Place;
pub use tag_lists::Tags;
pub use texts::Text;
pub use word_lists::Words;
