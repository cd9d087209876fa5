//! Where walks are unpacked.

use cell_frame::{Cliques, Frame};
use search_graph::{Cost, Weights};

/// A frame with its weights and their cliques.
#[derive(Drop)]
pub struct Overlay<'a, C: Cost> {
    pub frame: &'a Frame,
    pub weights: &'a Weights<C>,
    pub cliques: &'a Cliques<C>,
}
