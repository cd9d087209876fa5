//! Tests over small graphs that are cut into cells, of what no clause says: that cells, cliques, queries and tables answer
//! where memory is ample, with these very values, and that queries over cells find what plain search does.
#![tactic(auto)]

#[cfg(test)]
mod borders;
#[cfg(test)]
mod changes;
#[cfg(test)]
mod cliques;
#[cfg(test)]
mod columns;
#[cfg(test)]
mod jobs;
#[cfg(test)]
mod keys;
#[cfg(test)]
mod partitions;
#[cfg(test)]
mod queries;
#[cfg(test)]
mod sets;
#[cfg(test)]
mod tables;
#[cfg(test)]
mod walks;
