//! Costs that can be added and compared.

ghost use Rattle.std.specs.Prelude.{◌≡◌, ℕ, ◌+◌, ◌*◌, ◌^◌, ◌<◌, ◌≤◌, Option, Some, refl};
ghost use Rattle.std.proofs.Common.{lit≤};
ghost use Rattle.search_graph.specs.Costs.{CostOps, CostLaws};
ghost use Rattle.search_graph.specs.Ranks.{AreRanks, AreOwnRanks};
ghost use Rattle.search_graph.specs.RoadCosts.{road_cost_ops, road_cost_laws};
ghost use Rattle.search_graph.specs.Shortened.{road_cost_narrowed, road_cost_widened, is_narrow_cost, is_short_cost, road_cost_lossless, road_cost_ranked, road_cost_unranked, road_cost_ranks, road_cost_own_ranks};

use cost_lists::Narrow;

/// What a walk costs. Costs add up, and are in one order, under the laws of `CostLaws`.
///
/// A sum may not pass 2^31 units; how large a unit is, the type says.
pub trait Cost: Narrow + Ord {
    ghost ops: { CostOps Self };

    ghost ZERO: { Self };

    /// The cost of nothing.
    const ZERO: Self;

    ghost RANKS: { ℕ };

    /// A word of `Narrow` below this one is the rank of its cost. It is at most 2^62.
    const RANKS: u64;

    /// Tells a proof that this value is valid. It does nothing.
    fn known(&self)
        ensures { ops.valid self.now };

    /// Both costs together. The sum has to be within 2^31 units.
    fn plus(self, other: Self) -> Self
        requires { ops.units (ops.plus self other) (2 ^ 31) }
        ensures { result ≡ ops.plus self other };

    /// What is left when `part`, a part of this cost, is taken away.
    fn minus(self, part: Self) -> Self
        requires { (rest : Self) × ops.valid rest × (self ≡ ops.plus part rest) }
        ensures valid { ops.valid result }
        ensures rest { self ≡ ops.plus part result };

    ghost ranked: { Self → Option ℕ };

    ghost unranked: { ℕ → Self };

    /// A number below 2^63 that stands for this cost in the order of the costs, if the cost has one. The sum of two such
    /// numbers is to a third as the sum of their costs is to the third's.
    fn rank(self) -> Option<u64>
        ensures { result ≡ ranked self };

    /// The cost of a rank. A number that is no rank gives some cost.
    fn of_rank(rank: u64) -> Self
        ensures { result ≡ unranked rank };

    /// The rank of the sum of two costs, by their ranks, if the sum has one. Numbers that are no ranks give some number or none.
    fn rank_of_sum(rank: u64, other: u64) -> Option<u64>
        requires rank { rank < 2 ^ 63 }
        requires other { other < 2 ^ 63 }
        ensures { (a b : Self) → ranked a ≡ Some rank → ranked b ≡ Some other → ranked (ops.plus a b) ≡ result };

    ghost laws: { CostLaws ops };

    ghost zero_is: { ZERO ≡ ops.zero };

    ghost same_order: { ops.cmp ≡ Self.cmp };

    ghost ranks: { AreRanks ops ranked unranked };

    ghost few_ranks: { RANKS ≤ 2 ^ 62 };

    ghost own_ranks: { AreOwnRanks Self.narrowed ranked RANKS };
}

/// A weight, which says what is cheap, beside the duration in deciseconds and the length in decimetres that it is paid for.
///
/// Of two, the one of less weight is the cheaper, at one weight the one of less duration, and at one duration the shorter. A
/// unit is 2^32 of each part.
#[derive(Clone, Copy, Debug, PartialEq, Eq, PartialOrd, Ord)]
pub struct WeightDurLen {
    /// tenths of what a reply prints as a weight
    pub weight: u64,
    /// deciseconds
    pub duration: u64,
    /// decimetres
    pub length: u64,
}

impl Cost for WeightDurLen {
    ghost ops = { road_cost_ops };

    ghost ZERO = { road_cost_ops.zero };

    const ZERO: WeightDurLen = WeightDurLen {
        weight: 0,
        duration: 0,
        length: 0,
    };

    ghost RANKS = { 4611686018427387904 };

    const RANKS: u64 = 4611686018427387904;

    ghost laws = { road_cost_laws };

    ghost zero_is = { refl };

    ghost same_order = { refl };

    ghost ranked = { road_cost_ranked };

    ghost unranked = { road_cost_unranked };

    ghost ranks = { road_cost_ranks };

    ghost few_ranks = { lit≤ tt };

    ghost own_ranks = { road_cost_own_ranks };

    fn known(&self) {}

    fn plus(self, other: WeightDurLen) -> WeightDurLen {
        WeightDurLen {
            weight: self.weight + other.weight,
            duration: self.duration + other.duration,
            length: self.length + other.length,
        }
    }

    fn minus(self, part: WeightDurLen) -> WeightDurLen {
        WeightDurLen {
            weight: self.weight - part.weight,
            duration: self.duration - part.duration,
            length: self.length - part.length,
        }
    }

    #[inline(always)]
    fn rank(self) -> Option<u64> {
        if self.weight == self.duration && is_short(self) {
            Some(number_of(self))
        } else {
            None
        }
    }

    #[inline(always)]
    fn of_rank(rank: u64) -> WeightDurLen {
        let duration = rank / RANK;
        WeightDurLen {
            weight: duration,
            duration,
            length: rank % RANK,
        }
    }

    #[inline(always)]
    fn rank_of_sum(rank: u64, other: u64) -> Option<u64> {
        let sum = rank + other;
        if sum < RANKS_END && sum % RANK < PART {
            Some(sum)
        } else {
            None
        }
    }
}

// What one decisecond more adds to a word or a rank: twice as much as a length may be, so that the lengths of two ranks add up
// below it.
const RANK: u64 = 4294967296;

// So many lengths a word or a rank may have, and so many durations a rank: 2^31 decimetres, five times round the Earth, and 2^31
// deciseconds, some seven years.
const PART: u64 = 2147483648;

// All ranks are below: 2^63.
const RANKS_END: u64 = 9223372036854775808;

// So many durations a word may have: 2^30 deciseconds, some three years and five months.
const WORD_DURATIONS: u64 = 1073741824;

// What a word has more whose weight is the length: 2^62.
const BY_LENGTH: u64 = 4611686018427387904;

// Whether duration and length fit into a rank.
#[inline(always)]
fn is_short(cost: WeightDurLen) -> bool
    ensures { result ≡ is_short_cost cost }
{
    cost.duration < PART && cost.length < PART
}

// Whether duration and length fit into a word.
#[inline(always)]
fn is_narrow(cost: WeightDurLen) -> bool
    ensures { result ≡ is_narrow_cost cost }
{
    cost.duration < WORD_DURATIONS && cost.length < PART
}

// The duration in front of the length, with a free bit between them.
#[inline(always)]
fn number_of(cost: WeightDurLen) -> u64
    requires duration { cost.duration < 2 ^ 31 }
    requires length { cost.length < 2 ^ 31 }
    ensures { result ≡ cost.duration * 2 ^ 32 + cost.length }
{
    cost.duration * RANK + cost.length
}

/// A duration below 2^30 deciseconds with a length below 2^31 decimetres, where the weight is one of the two. Where it is the
/// duration, the word is the rank.
impl Narrow for WeightDurLen {
    ghost narrowed = { road_cost_narrowed };

    ghost widened = { road_cost_widened };

    ghost lossless = { road_cost_lossless };

    #[inline(always)]
    fn narrow(self) -> Option<u64> {
        if !is_narrow(self) {
            return None;
        }
        if self.weight == self.duration {
            Some(number_of(self))
        } else if self.weight == self.length {
            Some(BY_LENGTH + number_of(self))
        } else {
            None
        }
    }

    #[inline(always)]
    fn widen(word: u64) -> WeightDurLen {
        let duration = word / RANK % WORD_DURATIONS;
        let length = word % PART;
        WeightDurLen {
            weight: if word < BY_LENGTH { duration } else { length },
            duration,
            length,
        }
    }
}
