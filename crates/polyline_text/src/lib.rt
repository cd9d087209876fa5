//! Google's Encoded Polyline Algorithm Format, to 5 and to 6 digits.
//!
//! [`encode`] writes points as text and [`decode`] reads them, both exactly. The format is described
//! at developers.google.com/maps/documentation/utilities/polylinealgorithm.
#![tactic(auto)]

mod decoding;
mod encoding;
mod laws;

pub use crate::decoding::{DecodeError, decode};
pub use crate::encoding::encode;
pub use crate::laws::{decoding_undoes_encoding, reading_is_the_grammar};
