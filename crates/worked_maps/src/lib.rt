//! Tests over worked maps, of what no clause says: that geometry and networks, with what restrictions forbid in them, come out
//! as their definitions are meant, and are made where memory is ample.
#![tactic(auto)]

#[cfg(test)]
mod geometry;
#[cfg(test)]
mod hard_maps;
#[cfg(test)]
mod networks;
#[cfg(test)]
mod via_ways;
