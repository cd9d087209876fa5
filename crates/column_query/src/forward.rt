//! What a row's search goes by.

use cell_frame::{Cliques, Frame};
use search_graph::{Cost, Weights};

/// What a search forward goes by: a graph's frame, its weights, and their cliques.
#[derive(Drop)]
pub struct Forward<'a, C: Cost> {
    /// the graph, and its cells
    pub frame: &'a Frame,
    /// what vertices and arcs cost
    pub weights: &'a Weights<C>,
    /// what walks inside the cells cost
    pub cliques: &'a Cliques<C>,
}
