//! What a request lacks under a metric.

ghost use Rattle.std.specs.Prelude.{◌≡◌, IfOk, string_bytes};
ghost use Rattle.refusal_texts.specs.Codes.{lack_code, lack_message};

use crate::reply_codes::Code;
use std::alloc::{AllocError, Global};

/// What a request lacks, so that it has no result. The first that is lacking is told.
#[derive(Clone, Copy, Debug, PartialEq, Eq)]
pub enum Lack {
    /// It asks for a metric of this number or a higher one, and its metric has a lower one.
    Ahead(u32),
    /// The coordinate of this number, from 0, has no place.
    Segment(u32),
    /// The leg of this number, from 0, has no permitted walk; or, where all legs are to be one walk, none reaches its end.
    Route(u32),
    /// In each order of the places that is admitted a leg has no permitted walk.
    Trips,
}

impl Lack {
    /// The code of the reply to a request that lacks this.
    pub fn code(self) -> Code
        ensures { result ≡ lack_code self }
    {
        match self {
            Lack::Ahead(_) => Code::AheadOfData,
            Lack::Segment(_) => Code::NoSegment,
            Lack::Route(_) => Code::NoRoute,
            Lack::Trips => Code::NoTrips,
        }
    }

    /// What is lacking, and its number: the message of the reply. An `Err` is want of memory.
    pub fn message(self, alloc: Global) -> Result<String, AllocError>
        ensures { IfOk result (λ message. string_bytes message ≡ lack_message self) }
    {
        match self {
            Lack::Ahead(since) => format!(in alloc; "since {since}"),
            Lack::Segment(coordinate) => format!(in alloc; "coordinate {coordinate}"),
            Lack::Route(leg) => format!(in alloc; "leg {leg}"),
            Lack::Trips => format!(in alloc; "trip"),
        }
    }
}
