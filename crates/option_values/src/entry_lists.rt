//! Lists with one entry for each coordinate of a request, and lists of coordinates.

ghost use Rattle.std.specs.Prelude.{◌≡◌};

use crate::option_types::{Approach, Bearing};
use road_base::Text;
use std::marker::Model;

/// How far from each coordinate a road may be at most, in decimetres, `None` where it may be at any distance.
/// Contracts see a list.
#[derive(Debug)]
pub struct Radiuses {
    inner: Vec<Option<u64>>,
}

impl Drop for Radiuses {
    fn drop(self) {
        let Radiuses { inner: _inner } = self;
    }
}

impl Model for Radiuses {
    ghost use Rattle.std.specs.Prelude.{ℕ, List, Option};

    ghost Value = { List (Option ℕ) };

    ghost view = { λ radiuses. radiuses.inner.items };
}

impl Radiuses {
    /// The list of these.
    pub fn of(inner: Vec<Option<u64>>) -> Radiuses
        ensures { result ≡ inner.items }
    {
        Radiuses { inner }
    }

    /// The radius of each coordinate, in their order.
    pub fn as_slice(&self) -> &[Option<u64>]
        ensures { result.now ≡ self.now }
    {
        &self.inner
    }
}

/// From where each coordinate is to be passed, `None` where from anywhere. Contracts see a list.
#[derive(Debug)]
pub struct Bearings {
    inner: Vec<Option<Bearing>>,
}

impl Drop for Bearings {
    fn drop(self) {
        let Bearings { inner: _inner } = self;
    }
}

impl Model for Bearings {
    ghost use Rattle.std.specs.Prelude.{List, Option};
    ghost use Rattle.option_values.specs.declared.option_types.Bearing.{Bearing};

    ghost Value = { List (Option Bearing) };

    ghost view = { λ bearings. bearings.inner.items };
}

impl Bearings {
    /// The list of these.
    pub fn of(inner: Vec<Option<Bearing>>) -> Bearings
        ensures { result ≡ inner.items }
    {
        Bearings { inner }
    }

    /// The bearing of each coordinate, in their order.
    pub fn as_slice(&self) -> &[Option<Bearing>]
        ensures { result.now ≡ self.now }
    {
        &self.inner
    }
}

/// On which side of the road each coordinate is to be reached, `None` where nothing is asked. Contracts see a
/// list.
#[derive(Debug)]
pub struct Approaches {
    inner: Vec<Option<Approach>>,
}

impl Drop for Approaches {
    fn drop(self) {
        let Approaches { inner: _inner } = self;
    }
}

impl Model for Approaches {
    ghost use Rattle.std.specs.Prelude.{List, Option};
    ghost use Rattle.option_values.specs.declared.option_types.Approach.{Approach};

    ghost Value = { List (Option Approach) };

    ghost view = { λ approaches. approaches.inner.items };
}

impl Approaches {
    /// The list of these.
    pub fn of(inner: Vec<Option<Approach>>) -> Approaches
        ensures { result ≡ inner.items }
    {
        Approaches { inner }
    }

    /// The approach to each coordinate, in their order.
    pub fn as_slice(&self) -> &[Option<Approach>]
        ensures { result.now ≡ self.now }
    {
        &self.inner
    }
}

/// A text for each coordinate, empty where none is given; nothing reads them. Contracts see a list of texts.
#[derive(Debug)]
pub struct Hints {
    inner: Vec<Text>,
}

impl Drop for Hints {
    fn drop(self) {
        let Hints { inner: _inner } = self;
    }
}

impl Model for Hints {
    ghost use Rattle.std.specs.Prelude.{ℕ, List};

    ghost Value = { List (List ℕ) };

    ghost view = { λ hints. hints.inner.items };
}

impl Hints {
    /// The list of these.
    pub fn of(inner: Vec<Text>) -> Hints
        ensures { result ≡ inner.items }
    {
        Hints { inner }
    }

    /// The hint of each coordinate, in their order.
    pub fn as_slice(&self) -> &[Text]
        ensures { result.now ≡ self.now }
    {
        &self.inner
    }
}

/// Numbers of coordinates, from 0, in the order in which they stand. Contracts see a list.
#[derive(Debug)]
pub struct Indexes {
    inner: Vec<u32>,
}

impl Drop for Indexes {
    fn drop(self) {
        let Indexes { inner: _inner } = self;
    }
}

impl Model for Indexes {
    ghost use Rattle.std.specs.Prelude.{ℕ, List};

    ghost Value = { List ℕ };

    ghost view = { λ indexes. indexes.inner.items };
}

impl Indexes {
    /// The list of these.
    pub fn of(inner: Vec<u32>) -> Indexes
        ensures { result ≡ inner.items }
    {
        Indexes { inner }
    }

    /// The numbers, in their order.
    pub fn as_slice(&self) -> &[u32]
        ensures { result.now ≡ self.now }
    {
        &self.inner
    }
}
