//! Tests over worked texts, of what no clause says: that texts are written (JSON, polylines, simplified lines), and polylines read,
//! where memory is ample, with these very values, and that the definitions say what was meant.
#![tactic(auto)]

#[cfg(test)]
mod json;
#[cfg(test)]
mod polylines;
#[cfg(test)]
mod simplified;
