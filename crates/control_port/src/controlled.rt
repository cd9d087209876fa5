//! What comes of a control request, and what its reply says.

ghost use Rattle.std.specs.Prelude.{◌≡◌, IsTrue};
ghost use Rattle.http_head.specs.Replies.{is_status};
ghost use Rattle.control_port.specs.Telling.{file_text, kind_text, status_of};

use traffic_files::{RowFault, RowKind, TrafficFile};

/// What came of a control request.
#[derive(Clone, Copy, Debug, PartialEq, Eq, Drop)]
pub enum Controlled {
    /// A metric was published under this number; so many rows of its files matched nothing.
    Published { number: u32, unmatched: u64 },
    /// A traffic file has a faulty row; this is the first.
    Refused(RowFault),
    /// The request is none that there is.
    BadRequest,
    /// No number is left behind this one.
    Spent(u32),
    /// A stop is begun.
    Stopping,
}

impl Controlled {
    /// The status of the reply: 200 or 400.
    pub fn status(&self) -> u32
        ensures value { result ≡ status_of self.now }
        ensures is_one { IsTrue (is_status result) }
    {
        match self {
            Controlled::Published { .. } | Controlled::Stopping => 200,
            Controlled::Refused(_) | Controlled::BadRequest | Controlled::Spent(_) => 400,
        }
    }
}

/// The file as a reply names it.
pub fn file_text(file: TrafficFile) -> &'static str
    ensures { result.now ≡ file_text file }
{
    match file {
        TrafficFile::Speeds => "speeds",
        TrafficFile::Turns => "turns",
    }
}

/// The kind of a fault as a reply names it.
pub fn kind_text(kind: RowKind) -> &'static str
    ensures { result.now ≡ kind_text kind }
{
    match kind {
        RowKind::BadCount => "BadCount",
        RowKind::BadId => "BadId",
        RowKind::BadNumber => "BadNumber",
        RowKind::OutOfRange => "OutOfRange",
    }
}
