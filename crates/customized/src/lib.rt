//! A road network cut into cells, and metrics on it that are customized whole: the publication stage of
//! Customizable Route Planning (D. Delling, A. V. Goldberg, T. Pajor and R. F. Werneck, 2017).
//!
//! [`Roads`] is a network with the frame of its graph and its costs by the profile alone, which all metrics of one
//! board share. A [`Metric`] is roads with what their vertices and turns cost, and what cheapest walks cost inside each
//! cell for just these costs. [`Under`] is what an answer under a metric needs of it.
#![tactic(auto)]

mod bases;
mod metrics;
mod midpoints;
mod roads;
mod under;

pub use metrics::{Metric, Remade};
pub use roads::{Roads, SERVER_LIMITS};
pub use under::Under;
