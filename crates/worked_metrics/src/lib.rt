//! Tests over worked maps, of what no clause says: that metrics, their cells and what walks cost inside these come out as
//! their definitions are meant, and are made where memory is ample.
#![tactic(auto)]

#[cfg(test)]
mod cells;
#[cfg(test)]
mod exclusions;
#[cfg(test)]
mod metrics;
#[cfg(test)]
mod refusals;
#[cfg(test)]
mod remaking;
#[cfg(test)]
mod under_rows;
