//! Tables of costs.

ghost use Rattle.std.specs.Prelude.{◌≡◌, ◌<◌, Some, length};
ghost use Rattle.std.specs.List.{slice_get};

use search_graph::WeightDurLen;
use std::marker::Model;
use table_query::Row;

/// A table of costs: a row for each source, and in it a cost for each destination, or None. Contracts see the
/// list of the rows, each as the list of its values.
pub struct Rows {
    rows: Vec<Row<WeightDurLen>>,
}

impl Drop for Rows {
    fn drop(self) {
        let Rows { rows: _rows } = self;
    }
}

impl Model for Rows {
    ghost use Rattle.std.specs.Prelude.{List, Option};
    ghost use Rattle.search_graph.specs.declared.costs.WeightDurLen.{WeightDurLen};

    ghost Value = { List (List (Option WeightDurLen)) };

    ghost view = { λ r. r.rows.items };
}

impl Rows {
    /// The table of these rows.
    pub fn of(rows: Vec<Row<WeightDurLen>>) -> Rows
        ensures { result ≡ rows.items }
    {
        Rows { rows }
    }

    /// How many rows there are.
    pub fn len(&self) -> usize
        ensures { result ≡ length self.now }
    {
        self.rows.len()
    }

    /// The row of a source, by its number: what the least walks to the destinations cost, in their order.
    pub fn row(&self, source: usize) -> &[Option<WeightDurLen>]
        requires { source < length self.now }
        ensures { slice_get self.now source ≡ Some result.now }
    {
        self.rows[source].as_slice()
    }

    /// The rows, in the order of the sources.
    pub fn as_slice(&self) -> &[Row<WeightDurLen>]
        ensures { result.now ≡ self.now }
    {
        self.rows.as_slice()
    }
}
