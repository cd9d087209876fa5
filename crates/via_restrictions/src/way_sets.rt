//! Sets of ways that have numbers.

ghost use Rattle.std.specs.Prelude.{◌≡◌, ℕ, ℤ, ◌==◌, ◌&&◌, ◌||◌, false, not, OnOk};
ghost use Rattle.std.specs.Ordering.{int_eq};
ghost use Rattle.via_restrictions.specs.WaySets.{has_other, has_way};

use std::alloc::{AllocError, Global};
use std::collections::{HashMap, HashSet};

/// Sets of ways by their numbers: one entry for each way of a set, and one for the set.
#[derive(Drop)]
pub struct WaySets {
    /// the number of each set with each of its ways
    pub ways: HashSet<(usize, i64)>,
    /// by the number of a set, one of its ways, and whether it has others
    pub firsts: HashMap<usize, (i64, bool)>,
}

// Adds a way to a set in the map of one way of each.
fn add_first(
    firsts: &mut HashMap<usize, (i64, bool)>,
    set: usize,
    way: i64,
) -> Result<(), AllocError>
    ensures { OnOk result ((s : ℕ) (w : ℤ) → has_other firsts.new s w ≡ (has_other firsts.old s w || ((set == s) && not (int_eq way w)))) }
{
    let first = match firsts.get(&set) {
        Some(first) => (first.0, first.1 || first.0 != way),
        None => (way, false),
    };
    firsts.insert(set, first)?;
    Ok(())
}

impl WaySets {
    /// No way is in a set.
    pub fn new(alloc: Global) -> WaySets
        ensures ways { (set : ℕ) (way : ℤ) → has_way result.ways set way ≡ false }
        ensures others { (set : ℕ) (way : ℤ) → has_other result.firsts set way ≡ false }
    {
        WaySets {
            ways: HashSet::new(alloc),
            firsts: HashMap::new(alloc),
        }
    }

    /// Adds a way to a set.
    pub fn add(&mut self, set: usize, way: i64) -> Result<(), AllocError>
        ensures ways { OnOk result ((s : ℕ) (w : ℤ) → has_way self.new.ways s w ≡ (has_way self.old.ways s w || ((set == s) && int_eq way w))) }
        ensures others { OnOk result ((s : ℕ) (w : ℤ) → has_other self.new.firsts s w ≡ (has_other self.old.firsts s w || ((set == s) && not (int_eq way w)))) }
    {
        self.ways.insert((set, way))?;
        add_first(&mut self.firsts, set, way)?;
        Ok(())
    }

    /// Whether a set has this way.
    pub fn has(&self, set: usize, way: i64) -> bool
        ensures { result ≡ has_way self.now.ways set way }
    {
        self.ways.contains(&(set, way))
    }

    /// Whether a set has another way than this.
    pub fn has_other(&self, set: usize, way: i64) -> bool
        ensures { result ≡ has_other self.now.firsts set way }
    {
        match self.firsts.get(&set) {
            Some(first) => first.1 || first.0 != way,
            None => false,
        }
    }
}
