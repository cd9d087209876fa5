//! Tests over worked replies, of what no clause says: that targets and lines are answered where memory is ample, with these
//! very texts, and that the definitions say what was meant.
#![tactic(auto)]

#[cfg(test)]
mod answers;
#[cfg(test)]
mod cases;
#[cfg(test)]
mod exclusions;
#[cfg(test)]
mod roundabouts;
#[cfg(test)]
mod steps;
#[cfg(test)]
mod texts;
#[cfg(test)]
mod towns;
#[cfg(test)]
mod trips;
#[cfg(test)]
mod turns;
