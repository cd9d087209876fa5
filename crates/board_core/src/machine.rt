//! A board as a small state: its last entry, and what each seat knows.
ghost use Rattle.std.specs.Prelude.{◌≡◌, ◌<◌, ◌≤◌, List, [], ◌∷◌, ◌++◌, length, slice_index, IfOk, OnOk, OnErr};
ghost use Rattle.board_core.specs.State.{State, IsKept, state, entry};

use crate::event::{Event, Outcome};
use std::alloc::{AllocError, Global};
use std::marker::Model;
use thiserror::Error;

/// Why a call of the machine gave nothing.
#[derive(Debug, Drop, Error)]
pub enum MachineError {
    /// Memory ran out. The machine is as it was.
    #[error("out of memory")]
    Memory(#[from(alloc)] AllocError),
}

/// A board that takes one event at a time.
///
/// It keeps its last entry, and for each seat the greatest number that the seat was
/// entered with or has learned: four bytes a seat, however much is published.
#[derive(Drop)]
pub struct Machine {
    number: u32,
    tag: u64,
    known: Vec<u32>,
}

impl Model for Machine {
    ghost Value = { State };

    ghost view = { λ m. state (entry m.number m.tag) m.known.items };

    ghost invariant = { λ m. IsKept (state (entry m.number m.tag) m.known.items) };
}

impl Machine {
    ghost use Rattle.board_core.specs.State.{opened};
    ghost use Rattle.board_core.specs.History.{list_at, outcome, outcomes};
    ghost use Rattle.board_core.specs.Transcript.{IsAfter, IsHistory, Takes};
    ghost use Rattle.std.specs.List.{zip};

    /// A board of `seats` seats, numbered from 0, whose opening entry has the number
    /// `first`. Each seat knows the opening entry.
    pub fn of(alloc: Global, seats: u32, first: u32, tag: u64) -> Result<Machine, MachineError>
        requires { 1 ≤ seats }
        ensures { IfOk result (λ m. m ≡ opened seats first tag) }
    {
        let known = vec![in alloc; first; seats as usize]?;
        Ok(Machine {
            number: first,
            tag,
            known,
        })
    }

    /// The greatest number that this seat was entered with or has learned, at first
    /// the opening entry's.
    pub fn known(&self, seat: u32) -> u32
        requires { seat < length self.now.known }
        ensures value { result ≡ slice_index self.now.known seat }
        ensures kept { IsKept self.now }
    {
        self.known[seat as usize]
    }

    /// Takes one event. It needs no memory, and what comes to nothing (`Spent`,
    /// `NotTold`, `NoSeat`) leaves the board as it was.
    pub fn step(&mut self, event: Event) -> Outcome
        ensures outcome { result ≡ outcome self.old (list_at self.old.last []) event }
        ensures after { IsAfter self.old (event ∷ []) self.new }

        // What follows is what would have followed in one list of events.
        ensures joins { (later : List Event) → outcomes self.old (event ∷ later) ≡ result ∷ outcomes self.new later }
        ensures kept { IsKept self.old }
    {
        match event {
            Event::Publish(tag) => self.publish(tag),
            Event::Enter(seat) => self.enter(seat),
            Event::Learn(seat, note) => self.learn(seat, note),
            Event::Tell => self.tell(),
        }
    }

    /// Takes the events in order, and gives the outcome of each.
    ///
    /// An `Entered` carries the last entry that was published before it, and its number
    /// is at least all that this seat was entered with or has learned. Numbers rise by
    /// one from the opening entry's. The room for the outcomes is taken first, so want
    /// of memory leaves the board as it was.
    pub fn run(&mut self, alloc: Global, events: &[Event]) -> Result<Vec<Outcome>, MachineError>
        ensures outcomes { IfOk result (λ answers. answers.items ≡ outcomes self.old events.now) }
        ensures history { IfOk result (λ answers. IsHistory self.old (zip events.now answers.items) (list_at self.old.last events.now)) }
        ensures after { OnOk result (IsAfter self.old events.now self.new) }
        ensures memory { OnErr result (self.new ≡ self.old) }

        // What follows is what would have followed in one list of events.
        ensures joins { (later : List Event) → OnOk result (outcomes self.old (events.now ++ later) ≡ outcomes self.old events.now ++ outcomes self.new later) }
    {
        // Every board keeps this from the start, and what follows rests on it.
        let _kept = &self.number;
        let mut answers = Vec::with_capacity(alloc, events.len())?;
        for event in events {
            answers.push(self.step(*event)).unwrap();
        }
        Ok(answers)
    }

    fn publish(&mut self, tag: u64) -> Outcome
        ensures { Takes self.old (Event.Publish tag) result self.new }
    {
        if self.number == u32::MAX {
            return Outcome::Spent;
        }
        self.number += 1;
        self.tag = tag;
        Outcome::Published(self.number)
    }

    fn enter(&mut self, seat: u32) -> Outcome
        ensures { Takes self.old (Event.Enter seat) result self.new }
    {
        let seat = seat as usize;
        if seat >= self.known.len() {
            return Outcome::NoSeat;
        }
        self.known[seat] = self.number;
        Outcome::Entered(self.number, self.tag)
    }

    fn learn(&mut self, seat: u32, note: u32) -> Outcome
        ensures { Takes self.old (Event.Learn seat note) result self.new }
    {
        let seat = seat as usize;
        if seat >= self.known.len() {
            return Outcome::NoSeat;
        }
        if note > self.number {
            return Outcome::NotTold;
        }
        self.known[seat] = self.known[seat].max(note);
        Outcome::Learned
    }

    fn tell(&self) -> Outcome
        ensures { Takes self.now Event.Tell result self.now }
    {
        Outcome::Told(self.number)
    }
}
