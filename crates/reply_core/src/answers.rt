//! Answers.

ghost use Rattle.std.specs.Prelude.{◌≡◌};

use refusal_texts::Code;
use road_base::{Place, Text};
use road_places::Walk;
use std::alloc::{AllocError, AllocFailed};
use std::marker::Model;

/// Why a line or a target got no answer.
#[derive(Clone, Copy, Debug, PartialEq, Eq)]
pub enum ReplyFault {
    /// Memory ran out.
    Memory,
}

impl From<AllocError> for ReplyFault {
    fn from(_error: AllocError) -> ReplyFault {
        ReplyFault::Memory
    }
}

impl<T: Drop> From<AllocFailed<T>> for ReplyFault {
    fn from(_error: AllocFailed<T>) -> ReplyFault {
        ReplyFault::Memory
    }
}

/// A list of places.
#[derive(Debug)]
pub struct Places {
    inner: Vec<Place>,
}

impl Drop for Places {
    fn drop(self) {
        let Places { inner: _inner } = self;
    }
}

impl Model for Places {
    ghost use Rattle.std.specs.Prelude.{List};
    ghost use Rattle.road_base.specs.declared.segments.Place.{Place};

    ghost Value = { List Place };

    ghost view = { λ places. places.inner.items };
}

impl Places {
    /// The list of these places.
    pub fn of(inner: Vec<Place>) -> Places
        ensures { result ≡ inner.items }
    {
        Places { inner }
    }

    /// The places, in their order.
    pub fn as_slice(&self) -> &[Place]
        ensures { result.now ≡ self.now }
    {
        self.inner.as_slice()
    }
}

/// A list of walks.
pub struct Walks {
    inner: Vec<Walk>,
}

impl Drop for Walks {
    fn drop(self) {
        let Walks { inner: _inner } = self;
    }
}

impl Model for Walks {
    ghost use Rattle.std.specs.Prelude.{ℕ, List};

    ghost Value = { List (List ℕ) };

    ghost view = { λ walks. walks.inner.items };
}

impl Walks {
    /// The list of these walks.
    pub fn of(inner: Vec<Walk>) -> Walks
        ensures { result ≡ inner.items }
    {
        Walks { inner }
    }

    /// The walks, in their order.
    pub fn as_slice(&self) -> &[Walk]
        ensures { result.now ≡ self.now }
    {
        self.inner.as_slice()
    }
}

/// An answer to a target or a line, with its text and what the text tells of.
#[derive(Drop)]
pub struct Answer {
    /// what became of the request, as the text says it
    pub code: Code,
    /// 200 exactly where the code is `Ok`, else 400
    pub status: u32,
    /// where the request's coordinates are snapped to, in their order, or the nearest places of the one
    /// coordinate; empty for a refusal
    pub places: Places,
    /// the vertices of the least route of each leg of a route or a trip, else empty
    pub walks: Walks,
    /// the reply's body, without a newline
    pub text: Text,
}
