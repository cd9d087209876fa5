//! A board is opened.
ghost use Rattle.std.specs.Prelude.{◌≡◌, ◌∷◌, ◌<◌, ◌≤◌, [], IfOk};
ghost use Rattle.std.specs.Arc.{arc_value};
ghost use Rattle.std.specs.Vec.{vec_len};
ghost use Rattle.left_right.specs.Sides.{view};
ghost use Rattle.metric_publish.specs.Calls.{Each};
ghost use Rattle.metric_publish.specs.History.{entry};
ghost use Rattle.metric_publish.specs.Published.{published};

use crate::desk::{Desk, DeskOf, Under};
use crate::entry::{Kindred, Put};
use crate::history::{Naming, Opened};
use crate::seat::Seat;
use crate::shown::Shown;
use left_right::writer::Writer;
use std::alloc::{AllocError, Global};
use std::sync::{Arc, Wait};

// A desk whose list is one entry, with room for so many seats.
fn desk_of<V: Kindred, J: Naming>(
    alloc: Global,
    opened: Opened<V>,
    first: Arc<V>,
    number: u32,
    seats: u32,
) -> Result<DeskOf<V, J>, AllocError>
    requires seats { 0 < seats }
    requires book { opened.seen.book ≡ J.book }
    ensures { IfOk result (λ d. published d ≡ entry number (arc_value first) ∷ []) }
{
    let second = Arc::try_clone(&first)?;
    let (book, mut front) = opened.named::<J>();
    let put = Put {
        number,
        value: first,
    };
    if !front.add(&book, &put) {
        return Err(AllocError);
    }
    let spare = Shown {
        front: front.again(),
        put: Put {
            number,
            value: second,
        },
    };
    let writer: Under<V, J> = Writer::new(alloc, Shown { front, put }, spare, seats as usize)?;
    Ok(Desk { writer, book })
}

// So many seats.
fn seats_at<V: Kindred, J: Naming>(
    alloc: Global,
    desk: &DeskOf<V, J>,
    seats: u32,
) -> Result<Vec<Seat<V, J>>, AllocError>
    ensures { IfOk result (λ all. (vec_len all ≡ seats) × Each all.items (λ s. (s.seen.token.log ≡ published desk.now) × (s.learned.token.log ≡ published desk.now) × ((view s.reader.place).reads ≡ []))) }
{
    let mut all = Vec::with_capacity(alloc, seats as usize)?;
    for _ in 0..seats {
        all.push(desk.seat()?)?;
    }
    Ok(all)
}

/// Opens a board whose list is one entry, under this number, with so many seats, each of which
/// has seen that entry and read nothing. `AllocError`: memory ran out, also where a place was
/// refused; the handle is there to end the desk again then.
pub fn open<V: Kindred, J: Naming, R: Wait>(
    rt: &R,
    alloc: Global,
    opened: Opened<V>,
    first: Arc<V>,
    number: u32,
    seats: u32,
) -> Result<(DeskOf<V, J>, Vec<Seat<V, J>>), AllocError>
    requires seats { 0 < seats }
    requires book { opened.seen.book ≡ J.book }
    ensures list { IfOk result (λ o. published o.0 ≡ entry number (arc_value first) ∷ []) }
    ensures count { IfOk result (λ o. vec_len o.1 ≡ seats) }
    ensures seats { IfOk result (λ o. Each o.1.items (λ s. (s.seen.token.log ≡ entry number (arc_value first) ∷ []) × (s.learned.token.log ≡ entry number (arc_value first) ∷ []) × ((view s.reader.place).reads ≡ []))) }
{
    let desk = desk_of::<V, J>(alloc, opened, first, number, seats)?;
    match seats_at(alloc, &desk, seats) {
        Ok(all) => Ok((desk, all)),
        Err(_) => {
            desk.end(rt);
            Err(AllocError)
        }
    }
}
