//! What legs cost.

ghost use Rattle.std.specs.Prelude.{◌≡◌};
ghost use Rattle.through_query.specs.Chains.{leg_cost};

use search_graph::WeightDurLen;

/// What a leg costs from each state in which it may begin to each in which it may end.
#[derive(Drop)]
pub struct LegCosts {
    /// how many states there are in which it may begin
    pub starts: u32,
    /// how many in which it may end
    pub ends: u32,
    /// for each state in which it may begin the costs to those in which it may end, in their order, `None` where there
    /// is no walk; what the list lacks counts as `None`
    pub costs: Vec<Option<WeightDurLen>>,
}

impl LegCosts {
    /// What the leg costs from one state to another; `None` where there is no walk, or no such state.
    pub fn cost(&self, start: u32, end: u32) -> Option<WeightDurLen>
        ensures { result ≡ leg_cost self.now start end }
    {
        if start >= self.starts || end >= self.ends {
            return None;
        }
        let row = start as usize * self.ends as usize;
        match self.costs.get(row + end as usize) {
            Some(cost) => *cost,
            None => None,
        }
    }
}
