//! Tests over worked files, of what no clause says: that what is read at the start (maps, restrictions, traffic files) is read
//! where memory is ample, with these very values, and that the definitions say what was meant.
#![tactic(auto)]

#[cfg(test)]
mod maps;
#[cfg(test)]
mod numbers;
#[cfg(test)]
mod objects;
#[cfg(test)]
mod restrictions;
#[cfg(test)]
mod towns;
#[cfg(test)]
mod traffic;
