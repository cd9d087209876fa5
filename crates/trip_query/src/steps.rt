//! Where a trip goes next.

ghost use Rattle.std.specs.Prelude.{◌≡◌, ◌+◌, ◌*◌, ◌^◌, ◌<◌, ◌≤◌, Some, length};
ghost use Rattle.trip_query.specs.Tails.{AreWide, AreWithin, IsSooner, IsStep, IsWithin, via};
ghost use Rattle.trip_query.specs.Trips.{both, lists_of};

use search_graph::Cost;

/// A place to go to next, and what it costs to go there and on to the end.
#[derive(Clone, Copy, Drop)]
pub(crate) struct Step<C> {
    pub place: u32,
    pub cost: C,
}

// Both costs together, where there are both.
fn both<C: Cost>(a: Option<C>, b: Option<C>) -> Option<C>
    requires { (x y : C) → a ≡ Some x → b ≡ Some y → C.ops.units (C.ops.plus x y) (2 ^ 31) }
    ensures { result ≡ both C.ops a b }
{
    match (a, b) {
        (Some(first), Some(second)) => Some(first.plus(second)),
        _ => None,
    }
}

// What it costs to go to a place of the set by a leg of this row, and on from there through the others.
fn via<C: Cost>(tails: &[Vec<Option<C>>], set: usize, row: &[Option<C>], place: usize) -> Option<C>
    requires place { place < length row.now }
    requires few { length row.now ≤ 9 }
    requires filled { set ≤ length tails.now }
    requires wide { AreWide (length row.now) tails.now }
    requires row { IsWithin C.ops (2 ^ 27) row.now }
    requires tails { AreWithin C.ops (10 * 2 ^ 27) (lists_of tails.now) }
    ensures { result ≡ via C.ops (lists_of tails.now) set row.now place }
{
    if (set >> place) & 1 == 1 {
        both(row[place], tails[set - (1 << place)][place])
    } else {
        None
    }
}

// The better of two steps, where there are any: the cheaper one, and of two that cost the same the first.
fn sooner<C: Cost>(best: Option<Step<C>>, place: u32, cost: Option<C>) -> Option<Step<C>>
    ensures { IsSooner C.ops best place cost result }
{
    match (best, cost) {
        (Some(step), Some(cost)) => {
            if cost.cmp(&step.cost).is_lt() {
                Some(Step { place, cost })
            } else {
                best
            }
        }
        (None, Some(cost)) => Some(Step { place, cost }),
        (_, None) => best,
    }
}

/// The best step to a place of the set by a leg of this row: of those behind which the trip goes on for least through
/// the others of the set, by `tails`, the one to the first place. None where no step leads to the end.
pub(crate) fn first_step<C: Cost>(
    tails: &[Vec<Option<C>>],
    set: usize,
    row: &[Option<C>],
) -> Option<Step<C>>
    requires few { length row.now ≤ 9 }
    requires filled { set ≤ length tails.now }
    requires wide { AreWide (length row.now) tails.now }
    requires row { IsWithin C.ops (2 ^ 27) row.now }
    requires tails { AreWithin C.ops (10 * 2 ^ 27) (lists_of tails.now) }
    ensures { IsStep C.ops (via C.ops (lists_of tails.now) set row.now) (length row.now) result }
{
    let mut best = None;
    for place in 0..row.len() {
        let cost = via(tails, set, row, place);
        best = sooner(best, place as u32, cost);
    }
    best
}
