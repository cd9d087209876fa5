//! Tests over whole runs of the program that answer lines, count a map or write a town, of what no clause says: that they
//! succeed where memory is ample, with the texts of worked examples.
#![tactic(auto)]

#[cfg(test)]
mod asking;
#[cfg(test)]
mod counting;
#[cfg(test)]
mod excluded;
#[cfg(test)]
mod generated;
#[cfg(test)]
mod large;
#[cfg(test)]
mod routes;
#[cfg(test)]
mod steps;
#[cfg(test)]
mod through;
#[cfg(test)]
mod typed;
#[cfg(test)]
mod via_ways;
