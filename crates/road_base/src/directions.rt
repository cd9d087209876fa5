//! The direction of a turn.

/// How a turn bends, in the eight words of the OSRM HTTP API's `modifier`, from straight on clockwise.
#[derive(Clone, Copy, Debug, PartialEq, Eq)]
pub enum Modifier {
    Straight,
    SlightRight,
    Right,
    SharpRight,
    Uturn,
    SharpLeft,
    Left,
    SlightLeft,
}
