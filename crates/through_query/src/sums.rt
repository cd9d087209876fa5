//! Sums of what legs cost.

ghost use Rattle.std.specs.Prelude.{◌≡◌, ℕ, ◌+◌, ◌^◌, ◌<◌, Some, IfSome};
ghost use Rattle.std.specs.Option.{option_map};
ghost use Rattle.search_graph.specs.RoadCosts.{road_cost_ops};
ghost use Rattle.through_query.specs.Chains.{both};
ghost use Rattle.through_query.specs.Layers.{IsSumWithin, plain};

use search_graph::WeightDurLen;

/// What some legs cost together, in 128 bits: the parts of a `WeightDurLen`, in the same order.
#[derive(Clone, Copy, Debug, PartialEq, Eq, PartialOrd, Ord)]
pub(crate) struct Sum {
    /// tenths of what a reply prints as a weight
    pub weight: u128,
    /// deciseconds
    pub duration: u128,
    /// decimetres
    pub length: u128,
}

impl Sum {
    /// What no legs cost.
    pub fn zero() -> Sum
        ensures value { plain result ≡ road_cost_ops.zero }
        ensures room { IsSumWithin 0 result }
    {
        Sum {
            weight: 0,
            duration: 0,
            length: 0,
        }
    }

    /// What the legs cost with one more.
    pub fn plus(self, leg: WeightDurLen) -> Sum
        requires { (n : ℕ) × (n < 2 ^ 32) × IsSumWithin n self }
        ensures value { plain result ≡ road_cost_ops.plus (plain self) leg }
        ensures room { (n : ℕ) → IsSumWithin n self → IsSumWithin (n + 1) result }
    {
        Sum {
            weight: self.weight + leg.weight as u128,
            duration: self.duration + leg.duration as u128,
            length: self.length + leg.length as u128,
        }
    }
}

/// The sum with one leg more, where there are both.
pub(crate) fn both(sum: Option<Sum>, leg: Option<WeightDurLen>) -> Option<Sum>
    requires { (s : Sum) → sum ≡ Some s → (n : ℕ) × (n < 2 ^ 32) × IsSumWithin n s }
    ensures value { option_map plain result ≡ both (option_map plain sum) leg }
    ensures room { (n : ℕ) → IfSome sum (IsSumWithin n) → IfSome result (IsSumWithin (n + 1)) }
{
    match (sum, leg) {
        (Some(sum), Some(leg)) => Some(sum.plus(leg)),
        _ => None,
    }
}
