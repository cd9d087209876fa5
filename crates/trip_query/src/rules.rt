//! Which orders of the places are admitted.

ghost use Rattle.std.specs.Prelude.{◌≡◌};
ghost use Rattle.trip_query.specs.Trips.{begins_at_first, is_first, is_last};

/// Where a trip may begin.
#[derive(Clone, Copy, Debug, PartialEq, Eq)]
pub enum Source {
    /// At any place; on a round trip at the first, unless it has to end at the last.
    Any,
    /// At the first place.
    First,
}

impl Source {
    // Whether it is the first place.
    fn is_first(self) -> bool
        ensures { result ≡ is_first self }
    {
        match self {
            Source::Any => false,
            Source::First => true,
        }
    }
}

/// Where a trip may end, before any way back.
#[derive(Clone, Copy, Debug, PartialEq, Eq)]
pub enum Destination {
    /// At any place.
    Any,
    /// At the last place.
    Last,
}

impl Destination {
    // Whether it is the last place.
    pub(crate) fn is_last(self) -> bool
        ensures { result ≡ is_last self }
    {
        match self {
            Destination::Any => false,
            Destination::Last => true,
        }
    }
}

/// What is asked of a trip.
#[derive(Clone, Copy, Debug, PartialEq, Eq)]
pub struct Rule {
    /// whether it returns to the place where it began
    pub roundtrip: bool,
    /// where it may begin
    pub source: Source,
    /// where it may end
    pub destination: Destination,
}

impl Rule {
    // Whether each trip begins at the first place.
    pub(crate) fn begins_at_first(self) -> bool
        ensures { result ≡ begins_at_first self }
    {
        self.source.is_first() || (self.roundtrip && !self.destination.is_last())
    }
}
