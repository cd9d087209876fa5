//! What is published, as the two copies of a shared board hold it.
ghost use Rattle.std.specs.Prelude.{◌≡◌, ◌+◌, ◌<◌, Some, IfOk, MatchOption};
ghost use Rattle.metric_publish.specs.History.{last_of, last_number, entry_of};

use crate::entry::{Entry, Kindred, Put};
use crate::history::{Front, Naming};
use left_right::Absorb;
use std::alloc::AllocError;
use std::collections::LinkedList;
use std::sync::Arc;

/// The last publication, with the list up to it.
#[derive(Drop)]
pub struct Shown<V: Kindred, J: Naming> {
    pub front: Front<V, J>,
    pub put: Put<V>,
    ghost last: { last_of front.token.log ≡ Some (entry_of put) },
}

impl<V: Kindred, J: Naming> Shown<V, J> {
    /// A copy, with a pointer of its own.
    pub fn again(&self) -> Result<Shown<V, J>, AllocError>
        ensures { IfOk result (λ s. s.front.token.log ≡ self.now.front.token.log) }
    {
        let value = Arc::try_clone(&self.put.value)?;
        Ok(Shown {
            front: self.front.again(),
            put: Put {
                number: self.put.number,
                value,
            },
        })
    }

    /// The number of this publication, the last of the list.
    pub fn number(&self) -> u32
        ensures { result ≡ last_number self.now.front.token.log }
    {
        self.put.number
    }

    /// The number of the next publication. `None`: no number is left.
    pub fn next_number(&self) -> Option<u32>
        ensures { MatchOption result (last_number self.now.front.token.log ≡ 4294967295) (λ n. (last_number self.now.front.token.log < 4294967295) × (n ≡ last_number self.now.front.token.log + 1)) }
    {
        self.put.number.checked_add(1)
    }
}

/// An operation is what is shown next: of several that are pending the last one counts.
impl<V: Kindred, J: Naming> Absorb<Shown<V, J>> for Shown<V, J> {
    type State = LinkedList<Entry<V>>;

    ghost state = { λ x. x.front.token.log };

    ghost applied = { λ s x. x.front.token.log };

    fn absorb_first(
        &mut self,
        operation: &Shown<V, J>,
        _other: &Shown<V, J>,
    ) -> Result<(), AllocError> {
        *self = operation.again()?;
        Ok(())
    }

    fn absorb_second(
        &mut self,
        operation: Shown<V, J>,
        _other: &Shown<V, J>,
    ) -> Result<(), Shown<V, J>> {
        *self = operation;
        Ok(())
    }
}
