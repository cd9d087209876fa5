//! How fast a part of a walk is.

ghost use Rattle.std.specs.Prelude.{◌≡◌};
ghost use Rattle.route_steps.specs.Annotations.{speed_of};

use search_graph::WeightDurLen;

/// The speed of what costs so much, in tenths of metres a second, rounded down: 0 where the duration is 0.
pub fn speed(cost: WeightDurLen) -> u128
    ensures { result ≡ speed_of cost }
{
    if cost.duration == 0 {
        0
    } else {
        10 * u128::from(cost.length) / u128::from(cost.duration)
    }
}
