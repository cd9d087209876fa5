//! Reads the words of the command line: which command they make, by `clap`'s reading of them.
//!
//! `specs/Commands` writes the command line down as `clap` sees it, and says which words make which command.
#![tactic(auto)]

mod command_lines;
mod laws;
mod words;

pub use laws::{made_commands_have_their_numbers, taken_words_make_a_command};
pub use words::{ServeWords, Words, WordsFault, read_words};
