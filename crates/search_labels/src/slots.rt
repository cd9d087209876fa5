//! Slots by vertex: they stand one behind the other in one list, in the order in which their vertices were first given one,
//! and a table says where that of each vertex stands.

ghost use Rattle.std.specs.Prelude.{◌≡◌, ◌⊎◌, ℕ, true, None, ◌<◌, ◌≤◌, [], length, IfSome, IfNone, OnOk, OnErr};
ghost use Rattle.std.specs.Vec.{vec_len, vec_capacity};
ghost use Rattle.search_labels.specs.Labelled.{label_in, settled_in, changed};
ghost use Rattle.search_labels.specs.Slotted.{unmade, place_of, slot_at, slot_in, IsSlotted};
ghost use Rattle.search_labels.specs.declared.labels.Slot.TheVariants.{Untouched, Labelled, Settled};

use crate::labels::{Label, Slot};
use std::alloc::{AllocError, Global};
use std::marker::Model;

/// In place of the place of a slot that isn't made.
const UNMADE: u32 = u32::MAX;

/// As many nodes can be named. Where this is added to a slot's node, the slot is settled.
const SETTLED: u32 = 2147483648;

/// A slot that is made: its vertex, and the label that it has.
#[derive(Clone, Copy, Drop)]
struct Made<C> {
    vertex: u32,
    // with `SETTLED` where the vertex is settled
    node: u32,
    cost: C,
}

const _: () = prove!(size_of::<Made<u64>>() == 16);

/// The slots by vertex.
pub struct Slots<C> {
    // the place of each vertex's slot among those that are made
    table: Vec<u32>,
    // the slots that are made
    made: Vec<Made<C>>,
}

impl<C: Drop> Drop for Slots<C> {
    fn drop(self) {
        let Slots {
            table: _table,
            made: _made,
        } = self;
    }
}

impl<C> Model for Slots<C> {
    ghost use Rattle.std.specs.Prelude.{List};
    ghost use Rattle.search_labels.specs.declared.labels.Slot.{Slot};
    ghost use Rattle.search_labels.specs.Slotted.{IsSlotted, slots_in, slots_of};

    ghost Value = { List (Slot C) };

    ghost view = { λ s. slots_of s.table.items (slots_in s.made.items) };

    ghost invariant = { λ s. IsSlotted s.table.items s.made.items };
}

impl<C: Copy> Slots<C> {
    /// No slot is made.
    pub fn new(alloc: Global) -> Slots<C>
        ensures { result ≡ [] }
    {
        Slots {
            table: Vec::new(alloc),
            made: Vec::new(alloc),
        }
    }

    /// The slot of `v`.
    #[inline(always)]
    pub fn read(&self, v: u32) -> Slot<C>
        ensures { result ≡ slot_at self.now v }
    {
        match self.made.get(place_in(self.table.as_slice(), v)) {
            Some(made) => slot_of(*made),
            None => Slot::Untouched,
        }
    }

    /// Gives `v` this label in place of the one that it had, if any. A node past 2^31 - 1 is answered by the error, and
    /// a slot past the 2^32 - 1 that can be made, as where memory runs out; then nothing has changed.
    #[inline(always)]
    pub fn put(&mut self, v: u32, label: Label<C>) -> Result<(), AllocError>
        ensures put { OnOk result (slot_at self.new ≡ changed (slot_at self.old) v (Labelled label.node label.cost)) }
        ensures same { OnErr result (slot_at self.new ≡ slot_at self.old) }
    {
        if label.node >= SETTLED as usize {
            return Err(AllocError);
        }
        let made = Made {
            vertex: v,
            node: label.node as u32,
            cost: label.cost,
        };
        let place = place_in(self.table.as_slice(), v);
        if place < self.made.len() {
            self.made[place] = made;
            return Ok(());
        }
        self.append(made)
    }

    // Puts a slot behind the others.
    #[inline(always)]
    fn append(&mut self, made: Made<C>) -> Result<(), AllocError>
        ensures put { OnOk result (slot_at self.new ≡ changed (slot_at self.old) made.vertex (slot_in made)) }
        ensures same { OnErr result (slot_at self.new ≡ slot_at self.old) }
    {
        let place = self.made.len() as u32;
        if place == UNMADE {
            return Err(AllocError);
        }
        make_room(&mut self.table, &mut self.made, made.vertex)?;
        self.made.push_reserved(made);
        self.table[made.vertex as usize] = place;
        Ok(())
    }

    /// Settles the slot of `v` where it has a label and isn't settled, and gives the label. Else it
    /// changes nothing.
    #[inline(always)]
    pub fn settle(&mut self, v: u32) -> Option<Label<C>>
        ensures some { IfSome result (λ l. (slot_at self.old v ≡ Labelled l.node l.cost) × (slot_at self.new ≡ changed (slot_at self.old) v (Settled l.node l.cost))) }
        ensures none { IfNone result ((slot_at self.new ≡ slot_at self.old) × ((settled_in (slot_at self.old v) ≡ true) ⊎ (label_in (slot_at self.old v) ≡ None))) }
    {
        let place = place_in(self.table.as_slice(), v);
        let made = *self.made.get(place)?;
        if made.node >= SETTLED {
            return None;
        }
        self.made[place] = Made {
            vertex: made.vertex,
            node: made.node + SETTLED,
            cost: made.cost,
        };
        Some(Label {
            cost: made.cost,
            node: made.node as usize,
        })
    }

    /// Takes all slots away, in time for those that are made, and keeps their memory.
    pub fn clear(&mut self)
        ensures { (v : ℕ) → slot_at self.new v ≡ Untouched }
    {
        clear_places(self.table.as_mut_slice(), self.made.as_slice());
        self.made.clear();
    }
}

// What a slot that is made says of its vertex.
#[inline(always)]
fn slot_of<C: Copy>(made: Made<C>) -> Slot<C>
    ensures { result ≡ slot_in made }
{
    let cost = made.cost;
    if made.node < SETTLED {
        return Slot::Labelled {
            node: made.node,
            cost,
        };
    }
    Slot::Settled {
        node: made.node - SETTLED,
        cost,
    }
}

// Where the slot of `v` stands among those that are made: past them all where it has none.
#[inline(always)]
fn place_in(table: &[u32], v: u32) -> usize
    ensures { result ≡ place_of table.now v }
{
    match table.get(v as usize) {
        Some(place) => *place as usize,
        None => UNMADE as usize,
    }
}

// Makes room for the slot of `v` in the table, and behind those that are made.
#[inline(always)]
fn make_room<C: Copy>(
    table: &mut Vec<u32>,
    made: &mut Vec<Made<C>>,
    v: u32,
) -> Result<(), AllocError>
    ensures reached { OnOk result (v < length table.new.items) }
    ensures room { OnOk result (vec_len made.new < vec_capacity made.new) }
    ensures same { (u : ℕ) → place_of table.new.items u ≡ place_of table.old.items u }
    ensures longer { length table.old.items ≤ length table.new.items }
    ensures made { made.new.items ≡ made.old.items }
{
    if (v as usize) < table.len() && made.len() < made.capacity() {
        return Ok(());
    }
    lay(table, made, v)
}

// The part of it that asks for memory, apart so that the test is inlined.
#[inline(never)]
fn lay<C: Copy>(table: &mut Vec<u32>, made: &mut Vec<Made<C>>, v: u32) -> Result<(), AllocError>
    ensures reached { OnOk result (v < length table.new.items) }
    ensures room { OnOk result (vec_len made.new < vec_capacity made.new) }
    ensures same { (u : ℕ) → place_of table.new.items u ≡ place_of table.old.items u }
    ensures longer { length table.old.items ≤ length table.new.items }
    ensures made { made.new.items ≡ made.old.items }
{
    if table.len() <= v as usize {
        table.resize(v as usize + 1, UNMADE)?;
    }
    made.reserve(1)
}

// Forgets the places of these slots.
fn clear_places<C: Copy>(table: &mut [u32], made: &[Made<C>])
    requires { IsSlotted table.old made.now }
    ensures { (v : ℕ) → place_of table.new v ≡ unmade }
{
    for slot in made {
        table[slot.vertex as usize] = UNMADE;
    }
}
