//! Several weightings of one graph side by side, as those in which classes of roads are avoided, and which of several
//! sets of names is asked for.
//!
//! The cliques of each weighting are made by customization and brought up to date by recustomization (D. Delling, A. V.
//! Goldberg, T. Pajor and R. F. Werneck, "Customizable Route Planning in Road Networks", 2017), one weighting after
//! another, each with the cells of a level side by side in threads.
#![tactic(auto)]

mod clique_sets;
mod customizing;
mod finding;
mod recustomizing;

pub use clique_sets::CliqueSets;
pub use customizing::customize_all;
pub use finding::{equal_sets_are_found, find};
pub use recustomizing::{RecustomizedSets, recustomize_all};
