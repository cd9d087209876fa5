//! The lesser of two costs.

ghost use Rattle.table_query.specs.LeastCosts.{IsLesserOf};

use search_graph::Cost;

/// Of two costs the lesser, where there are any.
pub fn lesser<C: Cost>(a: Option<C>, b: Option<C>) -> Option<C>
    ensures { IsLesserOf C.ops a b result }
{
    match (a, b) {
        (Some(first), Some(second)) => {
            if second.cmp(&first).is_lt() {
                Some(second)
            } else {
                Some(first)
            }
        }
        (Some(only), None) | (None, Some(only)) => Some(only),
        (None, None) => None,
    }
}
