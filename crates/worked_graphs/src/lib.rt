//! Tests over small graphs that a reader follows by hand, of what no clause says: that lists of costs, graphs and searches
//! answer where memory is ample, with these very values.
#![tactic(auto)]

#[cfg(test)]
mod costs;
#[cfg(test)]
mod graphs;
#[cfg(test)]
mod heads;
#[cfg(test)]
mod leading;
#[cfg(test)]
mod plain;
#[cfg(test)]
mod rings;
