//! Lists of the ids of OpenStreetMap objects.

ghost use Rattle.std.specs.Prelude.{◌≡◌};

use std::marker::Model;

/// Ids of OpenStreetMap objects in order, which contracts see as a list.
#[derive(Debug)]
pub struct Ids {
    inner: Vec<i64>,
}

impl Drop for Ids {
    fn drop(self) {
        let Ids { inner: _inner } = self;
    }
}

impl Model for Ids {
    ghost use Rattle.std.specs.Prelude.{ℤ, List};

    ghost Value = { List ℤ };

    ghost view = { λ ids. ids.inner.items };
}

impl Ids {
    /// The list of a `Vec`.
    pub fn of(inner: Vec<i64>) -> Ids
        ensures { result ≡ inner.items }
    {
        Ids { inner }
    }

    /// The ids, in their order.
    pub fn as_slice(&self) -> &[i64]
        ensures { result.now ≡ self.now }
    {
        &self.inner
    }

    /// The list as a `Vec` again.
    pub fn into_vec(self) -> Vec<i64>
        ensures { result.items ≡ self }
    {
        let Ids { inner } = self;
        inner
    }
}
