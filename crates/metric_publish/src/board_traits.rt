//! What code above asks of a board, whether threads share it or not.
ghost use Rattle.std.specs.Prelude.{◌≡◌, ℕ, List, Option, IfOk};
ghost use Rattle.std.specs.Arc.{arc_value};
ghost use Rattle.metric_publish.specs.declared.entry.Entry.{Entry};
ghost use Rattle.metric_publish.specs.History.{IsRun};
ghost use Rattle.metric_publish.specs.Calls.{EnterGives, IsLastValue, PublishGives};

use crate::entry::Kindred;
use crate::held::{Held, Receipt, Refused};
use std::alloc::AllocError;
use std::sync::Arc;

/// A place that reads.
pub trait Reading<V: Drop> {
    /// The list that it read last, at first the opening one.
    ghost seen: { Self → List (Entry V) };

    /// The longest list that it was told of.
    ghost learned: { Self → List (Entry V) };

    /// The numbers that it read, told by a place whose list others may change.
    ghost reads: { Self → Option (List ℕ) };

    /// What may stand in its board's list.
    ghost kin: { Self → V → Type 0 };

    /// Takes the last publication. It waits for nobody. `AllocError`: no pointer could be
    /// made, and the place may have read or not.
    fn enter(&mut self) -> Result<Held<V>, AllocError>
        ensures gives { EnterGives (seen self.old) (learned self.old) (seen self.new) (reads self.old) (reads self.new) result }
        ensures runs { IsRun (seen self.new) }
        ensures learned { learned self.new ≡ learned self.old }
        ensures kin { IfOk result (λ h. kin self.old h.value) }
        ensures kin_stays { (x : V) → kin self.new x → kin self.old x };
}

/// A place that publishes. `R` is the handle by which it waits for readers, where it does.
pub trait Publishing<V: Kindred, R> {
    /// What was published.
    ghost list: { Self → List (Entry V) };

    /// What may stand in the list.
    ghost kin: { Self → V → Type 0 };

    /// The value of the last publication. It takes no memory, and waits for nobody. What may stand in the list may
    /// stand beside it.
    fn last(&self) -> &Arc<V>
        ensures last { IsLastValue (list self.now) (arc_value result.now) }
        ensures kin { (x : V) → kin self.now x → V.akin (arc_value result.now) x };

    /// Publishes a value whole, in one step, under the next number. A refused value is
    /// handed back, and the list is as it was.
    fn publish(&mut self, rt: &R, value: Arc<V>) -> Result<Receipt, Refused<V>>
        requires { kin self.old (arc_value value) }
        ensures gives { PublishGives (list self.old) (list self.new) (arc_value value) result }
        ensures kin_stays { (x : V) → kin self.old x → kin self.new x };
}
