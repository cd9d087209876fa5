//! Tests over whole runs of the program that serve, over doors in memory and over real sockets, and over runs of which one
//! call fails, of what no clause says: that they succeed where memory is ample, with the texts of worked examples.
#![tactic(auto)]

#[cfg(test)]
mod faults;
#[cfg(test)]
mod loopback;
#[cfg(test)]
mod served;
#[cfg(test)]
mod steady;
