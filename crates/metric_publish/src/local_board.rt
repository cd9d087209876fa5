//! A board for one thread.
ghost use Rattle.std.specs.Prelude.{◌≡◌, ◌+◌, ◌<◌, ◌∷◌, [], Some, None, length, IfOk, MatchOption};
ghost use Rattle.std.specs.Arc.{arc_value};
ghost use Rattle.metric_publish.specs.History.{IsKin, IsRun, entry, entry_of, head_of, last_of, last_number};
ghost use Rattle.metric_publish.specs.Calls.{IsLast, IsLastValue, PublishGives};

use crate::board_traits::{Publishing, Reading};
use crate::entry::{Kindred, Put};
use crate::held::{Held, Receipt, Refused};
use crate::history::{Head, Opened, Reached, append, check_law};
use std::alloc::{AllocError, Global};
use std::sync::Arc;

/// The last publication, with the list up to it.
#[derive(Drop)]
pub struct Page<V: Kindred> {
    len: u64,
    pub token: Reached<V>,
    pub put: Put<V>,
    ghost sized: { len ≡ length token.log },
    ghost last: { last_of token.log ≡ Some (entry_of put) },
}

impl<V: Kindred> Page<V> {
    /// The number of the next publication. `None`: no number is left.
    pub fn next_number(&self) -> Option<u32>
        ensures { MatchOption result (last_number self.now.token.log ≡ 4294967295) (λ n. (last_number self.now.token.log < 4294967295) × (n ≡ last_number self.now.token.log + 1)) }
    {
        self.put.number.checked_add(1)
    }
}

/// A desk and a seat in one, for a single thread. It keeps its last value and no earlier one.
#[derive(Drop)]
pub struct LocalBoard<V: Kindred> {
    head: Head<V>,
    pub page: Page<V>,
    ghost head_is: { head ≡ head_of page.token.book },
}

impl<V: Kindred> LocalBoard<V> {
    /// A board whose list is one entry, under this number.
    pub fn of(_alloc: Global, first: Arc<V>, number: u32) -> Result<LocalBoard<V>, AllocError>
        ensures { IfOk result (λ b. b.page.token.log ≡ entry number (arc_value first) ∷ []) }
    {
        let Opened { head, seen } = Opened::new();
        let mut token = seen;
        let put = Put {
            number,
            value: first,
        };
        if append(&head, &mut token, 0, &put) != 0 {
            return Err(AllocError);
        }
        let page = Page { len: 1, token, put };
        Ok(LocalBoard { head, page })
    }

    /// Takes the last publication.
    pub fn enter(&self) -> Result<Held<V>, AllocError>
        ensures last { IfOk result (IsLast self.now.page.token.log) }
        ensures runs { IsRun self.now.page.token.log }
        ensures kin { IfOk result (λ h. IsKin V.akin self.now.page.token.log h.value) }
    {
        check_law(&self.page.token);
        let value = Arc::try_clone(&self.page.put.value)?;
        Ok(Held::of(self.page.put.number, value))
    }

    /// The value of the last publication.
    pub fn last(&self) -> &Arc<V>
        ensures last { IsLastValue self.now.page.token.log (arc_value result.now) }
        ensures kin { (x : V) → IsKin V.akin self.now.page.token.log x → V.akin (arc_value result.now) x }
    {
        check_law(&self.page.token);
        &self.page.put.value
    }

    /// Publishes a value under the next number. It waits for nobody. A refused value is handed
    /// back, and the list is as it was.
    pub fn publish(&mut self, value: Arc<V>) -> Result<Receipt, Refused<V>>
        requires { IsKin V.akin self.old.page.token.log (arc_value value) }
        ensures { PublishGives self.old.page.token.log self.new.page.token.log (arc_value value) result }
    {
        let Some(number) = self.page.next_number() else {
            return Err(Refused::Spent(value));
        };
        let len = self.page.len;
        if len >= 1 << 62 {
            return Err(Refused::Memory(value));
        }
        let mut token = self.page.token.again();
        let put = Put { number, value };
        if append(&self.head, &mut token, len, &put) != len {
            return Err(Refused::Memory(put.value));
        }
        self.page = Page {
            len: len + 1,
            token,
            put,
        };
        Ok(Receipt { number })
    }
}

impl<V: Kindred> Reading<V> for LocalBoard<V> {
    ghost seen = { λ b. b.page.token.log };

    ghost learned = { λ b. b.page.token.log };

    ghost reads = { λ b. None };

    ghost kin = { λ b. IsKin V.akin b.page.token.log };

    fn enter(&mut self) -> Result<Held<V>, AllocError> {
        LocalBoard::enter(self)
    }
}

impl<V: Kindred, R> Publishing<V, R> for LocalBoard<V> {
    ghost list = { λ b. b.page.token.log };

    ghost kin = { λ b. IsKin V.akin b.page.token.log };

    fn last(&self) -> &Arc<V>
        ensures last { IsLastValue self.now.page.token.log (arc_value result.now) }
        ensures kin { (x : V) → IsKin V.akin self.now.page.token.log x → V.akin (arc_value result.now) x }
    {
        LocalBoard::last(self)
    }

    fn publish(&mut self, _rt: &R, value: Arc<V>) -> Result<Receipt, Refused<V>>
        requires { IsKin V.akin self.old.page.token.log (arc_value value) }
        ensures gives { PublishGives self.old.page.token.log self.new.page.token.log (arc_value value) result }
        ensures kin_stays { (x : V) → IsKin V.akin self.old.page.token.log x → IsKin V.akin self.new.page.token.log x }
    {
        LocalBoard::publish(self, value)
    }
}
