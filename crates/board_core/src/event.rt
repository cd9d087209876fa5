//! What happens on a board, and what each happening comes to.

/// One step that a desk or a seat asks for.
#[derive(Clone, Copy, Debug, PartialEq, Eq)]
pub enum Event {
    /// The desk publishes an entry with this tag.
    Publish(u64),
    /// This seat takes the last entry.
    Enter(u32),
    /// This seat is handed a note: a number that the desk told.
    Learn(u32, u32),
    /// The desk tells the number of its last entry.
    Tell,
}

/// What an event came to.
#[derive(Clone, Copy, Debug, PartialEq, Eq)]
pub enum Outcome {
    /// The entry has this number.
    Published(u32),
    /// No number is left: the last entry has 4294967295. Nothing changed.
    Spent,
    /// The number and the tag of the last entry.
    Entered(u32, u64),
    /// The seat knows the note's number from now on.
    Learned,
    /// The note's number is above the last entry's, so no desk told it. Nothing changed.
    NotTold,
    /// A note: the number of the last entry.
    Told(u32),
    /// There is no seat of this number. Nothing changed.
    NoSeat,
}
