//! What a table is asked for, and what it has.

ghost use Rattle.std.specs.Prelude.{◌≡◌};

use search_graph::{Start, Target};
use std::marker::Model;

/// Where the walks of a row may begin. Contracts see the list.
pub struct Starts<C> {
    starts: Vec<Start<C>>,
}

impl<C: Drop> Drop for Starts<C> {
    fn drop(self) {
        let Starts { starts: _starts } = self;
    }
}

impl<C> Model for Starts<C> {
    ghost use Rattle.std.specs.Prelude.{List};
    ghost use Rattle.search_graph.specs.declared.ends.Start.{Start};

    ghost Value = { List (Start C) };

    ghost view = { λ s. s.starts.items };
}

impl<C> Starts<C> {
    /// The starts of a vector.
    pub fn of(starts: Vec<Start<C>>) -> Starts<C>
        ensures { result ≡ starts.items }
    {
        Starts { starts }
    }

    /// The starts, in their order.
    pub fn as_slice(&self) -> &[Start<C>]
        ensures { result.now ≡ self.now }
    {
        self.starts.as_slice()
    }
}

/// Where the walks of a column may end. Contracts see the list.
pub struct Targets<C> {
    targets: Vec<Target<C>>,
}

impl<C: Drop> Drop for Targets<C> {
    fn drop(self) {
        let Targets { targets: _targets } = self;
    }
}

impl<C> Model for Targets<C> {
    ghost use Rattle.std.specs.Prelude.{List};
    ghost use Rattle.search_graph.specs.declared.ends.Target.{Target};

    ghost Value = { List (Target C) };

    ghost view = { λ t. t.targets.items };
}

impl<C> Targets<C> {
    /// The targets of a vector.
    pub fn of(targets: Vec<Target<C>>) -> Targets<C>
        ensures { result ≡ targets.items }
    {
        Targets { targets }
    }

    /// The targets, in their order.
    pub fn as_slice(&self) -> &[Target<C>]
        ensures { result.now ≡ self.now }
    {
        self.targets.as_slice()
    }
}

/// A row of a table: a cost for each column, or None. Contracts see the list.
pub struct Row<C> {
    values: Vec<Option<C>>,
}

impl<C: Drop> Drop for Row<C> {
    fn drop(self) {
        let Row { values: _values } = self;
    }
}

impl<C> Model for Row<C> {
    ghost use Rattle.std.specs.Prelude.{List, Option};

    ghost Value = { List (Option C) };

    ghost view = { λ r. r.values.items };
}

impl<C> Row<C> {
    /// The row of these values.
    pub fn of(values: Vec<Option<C>>) -> Row<C>
        ensures { result ≡ values.items }
    {
        Row { values }
    }

    /// The values, in the order of the columns.
    pub fn as_slice(&self) -> &[Option<C>]
        ensures { result.now ≡ self.now }
    {
        self.values.as_slice()
    }
}
