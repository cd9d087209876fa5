//! What the offers along each row of places have cost so far, so that most offers are seen to improve nothing without a look
//! at the labels of the places' heads, which lie anywhere.
//!
//! A row has a name, the number of a level and its own number there, and as many places as are gone along. The values of a row
//! that is touched stand side by side, in a word of eight bytes each: the rank of a cost (`Cost::rank`), or the place of a cost
//! without a rank in a list beside the words. The blocks of the rows stand one behind the other, and all their memory is kept
//! when the values are taken away.
//!
//! What is kept at each place of each row is `value_of` of `specs/Rowed`, and what offers along a row leave of it `LowersRow`.
#![tactic(auto)]

mod blocks;
mod rows;
mod words;

pub use blocks::Span;
pub use rows::{RowLabels, Rows};
