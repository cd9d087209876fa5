//! Which orders of a request's coordinates a trip may have.

ghost use Rattle.std.specs.Prelude.{◌≡◌};
ghost use Rattle.reply_core.specs.TripAsked.{destination_of, rule_of, source_of};

use trip_query::Rule;
use url_read::{Destination, Source, TripOptions};

// Where a trip may begin.
fn source_of(asked: Source) -> trip_query::Source
    ensures { result ≡ source_of asked }
{
    match asked {
        Source::Any => trip_query::Source::Any,
        Source::First => trip_query::Source::First,
    }
}

// Where it may end.
fn destination_of(asked: Destination) -> trip_query::Destination
    ensures { result ≡ destination_of asked }
{
    match asked {
        Destination::Any => trip_query::Destination::Any,
        Destination::Last => trip_query::Destination::Last,
    }
}

/// What these options ask of a trip's order.
pub(crate) fn rule_of(own: &TripOptions) -> Rule
    ensures { result ≡ rule_of own.now }
{
    Rule {
        roundtrip: own.roundtrip,
        source: source_of(own.source),
        destination: destination_of(own.destination),
    }
}
