//! Tests over worked requests, of what no clause says: that what is asked (heads, targets, options, words of a command line) is
//! read where memory is ample, with these very values, and that the definitions say what was meant.
#![tactic(auto)]

#[cfg(test)]
mod heads;
#[cfg(test)]
mod options;
#[cfg(test)]
mod targets;
#[cfg(test)]
mod values;
#[cfg(test)]
mod words;
