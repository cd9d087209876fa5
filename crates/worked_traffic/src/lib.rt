//! Tests over whole runs of the program under traffic files, of what no clause says: that they succeed where memory is ample,
//! with the texts of worked examples.
#![tactic(auto)]

#[cfg(test)]
mod rows;
#[cfg(test)]
mod traffic;
#[cfg(test)]
mod weights;
