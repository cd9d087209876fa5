//! What there is to be made.

ghost use Rattle.std.specs.Prelude.{◌≡◌, ℕ, ◌<◌, IfOk};

use std::alloc::{AllocError, Global};
use std::marker::Sync;

/// Work of so many items, each of which can be made without the others.
pub trait Job: Sync {
    /// What a thread uses again from one of its items to the next.
    type Memory: Send + Drop;

    /// What is made.
    type Item: Send + Drop;

    // Holds of a job whose items can be made.
    ghost ready: { Self → Type 0 };

    // How many items there are.
    ghost count: { Self → ℕ };

    // Holds of the item of this number, counted from 0.
    ghost is_item: { Self → ℕ → Self.Item → Type 0 };

    /// How many items there are.
    fn count(&self) -> usize
        ensures { result ≡ count self.now };

    /// The number of the item that is taken when so many others have been. Where it is known which take long these come first, so
    /// that no thread is at work on one of them when all others have ended. An item that no turn names is made all the same.
    fn nth(&self, turn: usize) -> usize
        requires { turn < count self.now }
        ensures { result < count self.now };

    /// Memory for a thread that begins.
    fn memory(&self, alloc: Global) -> Self::Memory;

    /// The item of this number. The memory may be any of this job: nothing is asked of what it holds. It answers the error
    /// where memory runs out.
    fn item(
        &self,
        alloc: Global,
        memory: &mut Self::Memory,
        number: usize,
    ) -> Result<Self::Item, AllocError>
        requires ready { ready self.now }
        requires number { number < count self.now }
        ensures { IfOk result (is_item self.now number) };
}
