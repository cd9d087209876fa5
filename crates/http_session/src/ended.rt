//! How a connection ends.

/// How a connection ended. `specs/Ending` says of each when it comes and what stands in the output then.
#[derive(Clone, Copy, Debug, PartialEq, Eq)]
pub enum Ended {
    /// The input ended between two requests.
    EndOfInput,
    /// The input ended inside a request.
    CutShort,
    /// A reply closed the connection.
    Closed,
    /// Bytes that are no request that is served were answered by `HEAD_BAD`.
    HeadBad,
    /// The input failed between two requests or inside one, and its count of faults rose.
    SourceFault,
    /// The output failed, and its count of faults rose.
    SinkFault,
}
