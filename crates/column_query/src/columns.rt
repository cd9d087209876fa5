//! Targets with their columns.

ghost use Rattle.std.specs.Prelude.{◌≡◌, ◌<◌, length, Some};
ghost use Rattle.std.specs.List.{slice_get};

use search_graph::Target;
use std::marker::Model;

/// What a cheapest walk inside a cell costs from each of its entries, in their order, to one vertex, or `None` where there is
/// no such walk. Contracts see the list.
pub struct Column<C> {
    values: Vec<Option<C>>,
}

impl<C: Drop> Drop for Column<C> {
    fn drop(self) {
        let Column { values: _values } = self;
    }
}

impl<C> Model for Column<C> {
    ghost use Rattle.std.specs.Prelude.{List, Option};

    ghost Value = { List (Option C) };

    ghost view = { λ c. c.values.items };
}

impl<C> Column<C> {
    /// The column of these values.
    pub fn of(values: Vec<Option<C>>) -> Column<C>
        ensures { result ≡ values.items }
    {
        Column { values }
    }

    /// The values, in the order of the entries.
    pub fn as_slice(&self) -> &[Option<C>]
        ensures { result.now ≡ self.now }
    {
        self.values.as_slice()
    }
}

/// For each level of a frame, from the lowest, the column of the cell that holds a target. Contracts see the list.
pub struct TargetColumns<C> {
    levels: Vec<Column<C>>,
}

impl<C: Drop> Drop for TargetColumns<C> {
    fn drop(self) {
        let TargetColumns { levels: _levels } = self;
    }
}

impl<C> Model for TargetColumns<C> {
    ghost use Rattle.std.specs.Prelude.{List, Option};

    ghost Value = { List (List (Option C)) };

    ghost view = { λ c. c.levels.items };
}

impl<C> TargetColumns<C> {
    /// Those of each level, from the lowest.
    pub fn of(levels: Vec<Column<C>>) -> TargetColumns<C>
        ensures { result ≡ levels.items }
    {
        TargetColumns { levels }
    }

    // The column at a place, counted from 0 for the lowest level.
    pub(crate) fn at(&self, place: u32) -> &[Option<C>]
        requires { place < length self.now }
        ensures { slice_get self.now place ≡ Some result.now }
    {
        self.levels[place as usize].as_slice()
    }
}

/// A target, and the columns of the cells that hold it.
pub struct TargetPoint<C> {
    /// where walks end, and what is paid there
    pub target: Target<C>,
    /// a column for each level
    pub columns: TargetColumns<C>,
}

impl<C: Drop> Drop for TargetPoint<C> {
    fn drop(self) {
        let TargetPoint {
            target: _target,
            columns: _columns,
        } = self;
    }
}
