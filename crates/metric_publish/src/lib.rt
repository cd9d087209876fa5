//! A board of publications: one desk publishes whole values, and seats read the last one
//! without waiting. It is the one place where threads share anything.
//!
//! There is one list of publications, numbered by one up from the opening one. What a place
//! knows of it is a front, a beginning of that list: what the desk has published, what a seat
//! has seen, what it has learned, and what a note tells. The list stands in the proofs alone;
//! a running board keeps its last value and no earlier one.
//!
//! `open` makes a desk and seats for threads, and `LocalBoard::of` a board for one thread. Code
//! above is written over the traits `Reading` and `Publishing`, which both meet. These rules
//! are this project's own.
#![tactic(auto)]

mod board_traits;
mod desk;
mod entry;
mod held;
mod history;
mod local_board;
mod opening;
mod rule;
mod seat;
mod shown;

pub use board_traits::{Publishing, Reading};
pub use desk::{Desk, DeskOf};
pub use entry::{Entry, Kindred, Put, View};
pub use held::{Held, Receipt, Refused};
pub use history::{Book, Front, Naming, Opened};
pub use local_board::{LocalBoard, Page};
pub use opening::open;
pub use seat::{Note, Seat};
pub use shown::Shown;
