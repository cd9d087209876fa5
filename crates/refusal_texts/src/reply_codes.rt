//! What became of a request.

ghost use Rattle.std.specs.Prelude.{◌≡◌};
ghost use Rattle.refusal_texts.specs.Codes.{code_text};

/// What became of a line or a target, in the words of OSRM's HTTP API, version 1.
#[derive(Clone, Copy, Debug, PartialEq, Eq)]
pub enum Code {
    /// What was asked for is told.
    Ok,
    /// The target isn't of the form of a path and a query.
    InvalidUrl,
    /// The service isn't served.
    InvalidService,
    /// The version isn't `v1`.
    InvalidVersion,
    /// An option is unknown, not of its form, or lacking.
    InvalidOptions,
    /// A coordinate isn't of its form, or there are too few.
    InvalidQuery,
    /// A coordinate isn't on the Earth.
    InvalidValue,
    /// There are too many coordinates or results.
    TooBig,
    /// The request asks for a metric of a higher number.
    AheadOfData,
    /// A coordinate has no place, since no segment that may be driven along is of its bearing and in its radius.
    NoSegment,
    /// No permitted walk leads along a leg; or, where all legs are to be one walk, none reaches its end.
    NoRoute,
    /// No trip leads through all places.
    NoTrips,
    /// The line is of no form.
    BadRequest,
}

impl Code {
    /// The code as replies write it.
    pub fn as_str(self) -> &'static str
        ensures { result.now ≡ code_text self }
    {
        match self {
            Code::Ok => "Ok",
            Code::InvalidUrl => "InvalidUrl",
            Code::InvalidService => "InvalidService",
            Code::InvalidVersion => "InvalidVersion",
            Code::InvalidOptions => "InvalidOptions",
            Code::InvalidQuery => "InvalidQuery",
            Code::InvalidValue => "InvalidValue",
            Code::TooBig => "TooBig",
            Code::AheadOfData => "AheadOfData",
            Code::NoSegment => "NoSegment",
            Code::NoRoute => "NoRoute",
            Code::NoTrips => "NoTrips",
            Code::BadRequest => "BadRequest",
        }
    }
}
