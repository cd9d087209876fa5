//! Seats read without waiting.
ghost use Rattle.std.specs.Prelude.{◌≡◌, ◌++◌, ◌∷◌, [], true, Some, IfOk};
ghost use mathlib.Core.List.{IsPrefix};
ghost use Rattle.left_right.specs.Sides.{view};
ghost use Rattle.metric_publish.specs.History.{IsKin, IsRun};
ghost use Rattle.metric_publish.specs.Board.{IsFront};
ghost use Rattle.metric_publish.specs.Calls.{LookGives, ReadGives, EnterGives};

use crate::board_traits::Reading;
use crate::entry::{Kindred, View};
use crate::held::Held;
use crate::history::{Front, Naming};
use crate::rule::{Board, Entering, Sitting};
use crate::shown::Shown;
use core::mem::replace_with;
use left_right::reader::Reader;
use std::alloc::AllocError;
use std::sync::Arc;

/// What the desk had published when it told it, to be learned by a seat of the same board.
#[derive(Drop)]
pub struct Note<V: Kindred, J: Naming> {
    pub front: Front<V, J>,
}

/// A place that reads, in a thread of its own. Its reader may have looked at more than it has seen.
#[derive(Drop)]
pub struct Seat<V: Kindred, J: Naming> {
    pub reader: Reader<Shown<V, J>, View<V>, Board>,
    pub seen: Front<V, J>,
    pub learned: Front<V, J>,
    ghost sees: { IsFront seen.token.log (view reader.place).seen },
}

// The list that was read and the pointer, unless memory ran out; or no read.
fn read<V: Kindred, J: Naming>(
    reader: Reader<Shown<V, J>, View<V>, Board>,
) -> (
    Reader<Shown<V, J>, View<V>, Board>,
    Option<(Front<V, J>, Result<Held<V>, AllocError>)>,
)
    ensures { ReadGives (view reader.place) (view result.0.place) (λ p. p.0.token.log) (λ p. p.1) result.1 }
{
    let reading = match reader.enter_as::<Entering>() {
        Ok(reading) => reading,
        Err(reader) => return (reader, None),
    };
    let shown = reading.get();
    let number = shown.put.number;
    let front = shown.front.again();
    let value = Arc::try_clone(&shown.put.value);
    let reader = reading.leave();
    match value {
        Ok(value) => (reader, Some((front, Ok(Held::of(number, value))))),
        Err(_) => (reader, Some((front, Err(AllocError)))),
    }
}

// What is shown now, or nothing. It counts as no read.
fn look<V: Kindred, J: Naming>(
    reader: Reader<Shown<V, J>, View<V>, Board>,
) -> (Reader<Shown<V, J>, View<V>, Board>, Option<Front<V, J>>)
    ensures { LookGives (view reader.place) (view result.0.place) (λ f. f.token.log) result.1 }
{
    match reader.enter_as::<Sitting>() {
        Ok(reading) => {
            let front = reading.get().front.again();
            (reading.leave(), Some(front))
        }
        Err(reader) => (reader, None),
    }
}

// A reader that is at least as far as what was learned, if it can be told to be. By the order of the
// steps what is shown begins with what was learned; no clause of the reader says so, and this
// comparison stands for it.
fn catch_up<V: Kindred, J: Naming>(
    reader: Reader<Shown<V, J>, View<V>, Board>,
    seen: &Front<V, J>,
    learned: &Front<V, J>,
) -> (Reader<Shown<V, J>, View<V>, Board>, bool)
    requires { IsFront seen.now.token.log (view reader.place).seen }
    ensures caught { result.1 ≡ true → IsPrefix learned.now.token.log (view result.0.place).seen }
    ensures later { IsPrefix (view reader.place).seen (view result.0.place).seen }
    ensures reads { (view result.0.place).reads ≡ (view reader.place).reads }
{
    if learned.begins(seen) {
        return (reader, true);
    }
    let (reader, shown) = look(reader);
    let Some(front) = shown else {
        return (reader, false);
    };
    let is_ahead = learned.begins(&front);
    (reader, is_ahead)
}

// One read. A reader that can't catch up with what was learned doesn't read.
fn entered<V: Kindred, J: Naming>(seat: Seat<V, J>) -> (Seat<V, J>, Result<Held<V>, AllocError>)
    ensures gives { EnterGives seat.seen.token.log seat.learned.token.log result.0.seen.token.log (Some (view seat.reader.place).reads) (Some (view result.0.reader.place).reads) result.1 }
    ensures runs { IsRun result.0.seen.token.log }
    ensures learned { result.0.learned.token.log ≡ seat.learned.token.log }
    ensures kin { IfOk result.1 (λ h. IsKin V.akin seat.seen.token.log h.value) }
{
    let Seat {
        reader,
        seen,
        learned,
    } = seat;
    seen.check_law();
    let (reader, is_ahead) = catch_up(reader, &seen, &learned);
    if !is_ahead {
        let seat = Seat {
            reader,
            seen,
            learned,
        };
        return (seat, Err(AllocError));
    }
    let (reader, got) = read(reader);
    let Some((front, held)) = got else {
        let seat = Seat {
            reader,
            seen,
            learned,
        };
        return (seat, Err(AllocError));
    };
    front.check_law();
    let seat = Seat {
        reader,
        seen: front,
        learned,
    };
    (seat, held)
}

impl<V: Kindred, J: Naming> Seat<V, J> {
    /// A seat that has seen what is shown, and read nothing.
    pub fn over(reader: Reader<Shown<V, J>, View<V>, Board>) -> Result<Seat<V, J>, AllocError>
        ensures { IfOk result (λ s. (s.learned.token.log ≡ s.seen.token.log) × ((view s.reader.place).reads ≡ (view reader.place).reads)) }
    {
        let (reader, shown) = look(reader);
        let Some(seen) = shown else {
            return Err(AllocError);
        };
        Ok(Seat {
            reader,
            learned: seen.again(),
            seen,
        })
    }

    /// Takes in what the desk told. From the next read on the seat sees no less.
    pub fn learn(&mut self, note: Note<V, J>)
        ensures learned { IsPrefix self.old.learned.token.log self.new.learned.token.log }
        ensures note { IsPrefix note.front.token.log self.new.learned.token.log }
        ensures same { (self.new.seen ≡ self.old.seen) × (view self.new.reader.place ≡ view self.old.reader.place) }
    {
        self.learned = self.learned.longer(&note.front);
    }
}

impl<V: Kindred, J: Naming> Reading<V> for Seat<V, J> {
    ghost seen = { λ s. s.seen.token.log };

    ghost learned = { λ s. s.learned.token.log };

    ghost reads = { λ s. Some (view s.reader.place).reads };

    ghost kin = { λ s. IsKin V.akin s.seen.token.log };

    fn enter(&mut self) -> Result<Held<V>, AllocError> {
        replace_with(self, (), |seat, _| entered(seat))
    }
}
