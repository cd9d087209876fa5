//! What is found of a request head.
ghost use Rattle.std.specs.Prelude.{◌≡◌, ◌≤◌, length, slice_range};

/// The bytes `from..to` of the bytes that were read.
#[derive(Clone, Copy, Debug, PartialEq, Eq)]
pub struct Span {
    pub from: usize,
    pub to: usize,
}

impl Span {
    /// The bytes that the span covers.
    pub fn of(self, bytes: &[u8]) -> &[u8]
        requires ordered { self.from ≤ self.to }
        requires in_range { self.to ≤ length bytes.now }
        ensures { result.now ≡ slice_range bytes.now self.from self.to }
    {
        &bytes[self.from..self.to]
    }
}

/// The head of a request. Spans are places in the bytes that were read.
#[derive(Clone, Copy, Debug, PartialEq, Eq)]
pub struct Head {
    /// The method as it stands, as `GET`.
    pub method: Span,
    /// The target as it stands, still percent-encoded.
    pub target: Span,
    /// The minor version: 0 for HTTP/1.0, 1 for HTTP/1.1.
    pub minor: u8,
    /// The connection closes after the reply: a `Connection` field lists `close`, or the version is
    /// 1.0 and none lists `keep-alive`.
    pub close: bool,
    /// A body is announced: by `Transfer-Encoding`, or by a `Content-Length` that isn't all zeros.
    pub announced: bool,
}

/// What stands at the front of the bytes.
#[derive(Clone, Copy, Debug, PartialEq, Eq)]
pub enum Front {
    /// A whole head, which is `size` bytes long.
    Whole { head: Head, size: usize },
    /// No whole head yet.
    More,
    /// No bytes that may follow make a head of it.
    Bad,
}
