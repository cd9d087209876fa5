//! The desk publishes.
ghost use Rattle.std.specs.Prelude.{◌≡◌, ◌++◌, ◌∷◌, ◌↔◌, [], IfOk, IsTrue, MatchResult};
ghost use mathlib.Core.List.{IsPrefix};
ghost use Rattle.std.specs.Arc.{arc_value};
ghost use Rattle.left_right.specs.Sides.{view};
ghost use Rattle.metric_publish.specs.History.{IsKin, IsRun, last_number};
ghost use Rattle.metric_publish.specs.Calls.{IsLastValue, PublishGives};
ghost use Rattle.metric_publish.specs.Published.{list_of, published};

use crate::board_traits::Publishing;
use crate::entry::{Kindred, Put, View};
use crate::held::{Receipt, Refused};
use crate::history::{Book, Naming};
use crate::rule::{Adding, Board};
use crate::seat::{Note, Seat};
use crate::shown::Shown;
use core::mem::replace_with;
use crossbeam_utils::rule::Protocol;
use left_right::Absorb;
use left_right::writer::Writer;
use std::alloc::AllocError;
use std::sync::{Arc, Wait};

/// The two copies of what is published, as the desk holds them.
pub type Under<V, J> = Writer<Shown<V, J>, Shown<V, J>, View<V>, Board>;

// Shows the next publication, whose entry stands in the list.
fn show<R: Wait, V: Kindred, J: Naming>(
    rt: &R,
    mut writer: Under<V, J>,
    next: Shown<V, J>,
    kept: Arc<V>,
) -> (Under<V, J>, Result<(), Arc<V>>)
    requires more { IsPrefix (list_of writer) next.front.token.log }
    ensures gives { MatchResult result.1 (λ _. list_of result.0 ≡ next.front.token.log) (λ back. (result.0.desk.shown.value ≡ writer.desk.shown.value) × (arc_value back ≡ arc_value kept)) }
{
    if let Err(back) = writer.append(next) {
        drop(back);
        return (writer, Err(kept));
    }
    let (writer, done) = writer.publish_as::<Adding, R>(rt);
    match done {
        Ok(()) => (writer, Ok(())),
        Err(_) => (writer, Err(kept)),
    }
}

// One publication. Its entry is written into the list first, then the copies change sides.
fn published<R: Wait, V: Kindred, J: Naming>(
    rt: &R,
    mut writer: Under<V, J>,
    book: &Book<V, J>,
    value: Arc<V>,
) -> (Under<V, J>, Result<Receipt, Refused<V>>)
    requires { IsKin V.akin (list_of writer) (arc_value value) }
    ensures { PublishGives (list_of writer) (list_of result.0) (arc_value value) result.1 }
{
    let shown = writer.published();
    let Some(number) = shown.next_number() else {
        return (writer, Err(Refused::Spent(value)));
    };
    let Ok(kept) = Arc::try_clone(&value) else {
        return (writer, Err(Refused::Memory(value)));
    };
    let Ok(same) = shown.again() else {
        return (writer, Err(Refused::Memory(value)));
    };
    let mut front = shown.front.again();
    // The room for an operation, before the list changes: what is shown, once more.
    if let Err(back) = writer.append(same) {
        drop(back);
        return (writer, Err(Refused::Memory(value)));
    }
    let put = Put { number, value };
    if !front.add(book, &put) {
        return (writer, Err(Refused::Memory(kept)));
    }
    let (writer, done) = show(rt, writer, Shown { front, put }, kept);
    match done {
        Ok(()) => (writer, Ok(Receipt { number })),
        Err(back) => (writer, Err(Refused::Memory(back))),
    }
}

/// The one who publishes. It is not `Drop`: end it by `end`.
pub struct Desk<T: Absorb<T> + Drop, V, P: Protocol<T, View<V>>, B> {
    pub writer: Writer<T, T, View<V>, P>,
    pub book: B,
}

/// A desk over the publications of one list.
pub type DeskOf<V, J> = Desk<Shown<V, J>, V, Board, Book<V, J>>;

impl<V: Kindred, J: Naming> Desk<Shown<V, J>, V, Board, Book<V, J>> {
    /// What was published, to be learned by a seat. It needs no memory and waits for nobody.
    pub fn tell(&self) -> Note<V, J>
        ensures { result.front.token.log ≡ published self.now }
    {
        Note {
            front: self.writer.published().front.again(),
        }
    }

    /// The number of the last publication. The numbers run up by one to it.
    pub fn number(&self) -> u32
        ensures number { result ≡ last_number (published self.now) }
        ensures runs { IsRun (published self.now) }
    {
        let shown = self.writer.published();
        shown.front.check_law();
        shown.number()
    }

    /// Whether the seat has seen all that was published.
    pub fn is_caught_up(&self, seat: &Seat<V, J>) -> bool
        ensures { IsTrue result ↔ (seat.now.seen.token.log ≡ published self.now) }
    {
        let front = &self.writer.published().front;
        front.len() == seat.seen.len() && front.begins(&seat.seen)
    }

    /// A seat that has seen what was published, and read nothing. It takes one of the places
    /// that were made room for; `AllocError` where none is left.
    pub fn seat(&self) -> Result<Seat<V, J>, AllocError>
        ensures { IfOk result (λ s. (s.seen.token.log ≡ published self.now) × (s.learned.token.log ≡ published self.now) × ((view s.reader.place).reads ≡ [])) }
    {
        let reader = self.writer.factory().reader()?;
        let seat = Seat::over(reader)?;
        if !self.is_caught_up(&seat) {
            return Err(AllocError);
        }
        Ok(seat)
    }

    /// Ends the board, once nobody reads.
    pub fn end<R: Wait>(self, rt: &R) {
        let Desk {
            writer,
            book: _book,
        } = self;
        let _last = writer.take(rt);
    }
}

impl<V: Kindred, J: Naming, R: Wait> Publishing<V, R> for Desk<Shown<V, J>, V, Board, Book<V, J>> {
    ghost list = { λ d. published d };

    ghost kin = { λ d. IsKin V.akin (published d) };

    fn last(&self) -> &Arc<V>
        ensures last { IsLastValue (published self.now) (arc_value result.now) }
        ensures kin { (x : V) → IsKin V.akin (published self.now) x → V.akin (arc_value result.now) x }
    {
        let shown = self.writer.published();
        shown.front.check_law();
        &shown.put.value
    }

    fn publish(&mut self, rt: &R, value: Arc<V>) -> Result<Receipt, Refused<V>>
        requires { IsKin V.akin (published self.old) (arc_value value) }
        ensures gives { PublishGives (published self.old) (published self.new) (arc_value value) result }
        ensures kin_stays { (x : V) → IsKin V.akin (published self.old) x → IsKin V.akin (published self.new) x }
    {
        replace_with(
            self,
            (rt, value),
            |desk: DeskOf<V, J>, given: (&R, Arc<V>)| -> (DeskOf<V, J>, Result<Receipt, Refused<V>>)
                requires { IsKin V.akin (published desk) (arc_value given.1) }
                ensures { PublishGives (published desk) (published result.0) (arc_value given.entry.1) result.1 }
            {
                let (rt, value) = given;
                let Desk { writer, book } = desk;
                let (writer, done) = published(rt, writer, &book, value);
                (Desk { writer, book }, done)
            },
        )
    }
}
