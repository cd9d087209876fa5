//! Numbers of one's own for some vertices, in the order in which they come.

ghost use Rattle.std.specs.Prelude.{◌≡◌, ℕ, ◌<◌, ◌^◌, ◌++◌, List, [], length, Some, IfSome, IfNone, IfOk, OnOk};
ghost use Rattle.std.specs.List.{slice_get};
ghost use Rattle.cell_customize.specs.Numbers.{Keeps, Adds};

use std::alloc::{AllocError, Global};
use std::marker::Model;

/// Vertices, of which each has its place as its number. None stands twice.
///
/// It costs four bytes for each vertex, and four for each of all vertices once there is room for them.
pub struct Numbering {
    names: Vec<u32>,
    // at each vertex that has a number, that number; at others anything
    table: Vec<u32>,
}

impl Drop for Numbering {
    fn drop(self) {
        let Numbering {
            names: _names,
            table: _table,
        } = self;
    }
}

impl Model for Numbering {
    ghost use Rattle.std.specs.Prelude.{ℕ, List};
    ghost use Rattle.cell_customize.specs.Numbers.{IsNumbered};

    ghost Value = { List ℕ };

    ghost view = { λ s. s.names.items };

    ghost invariant = { λ s. IsNumbered s.names.items s.table.items };
}

impl Numbering {
    /// No vertices.
    pub fn new(alloc: Global) -> Numbering
        ensures { result ≡ [] }
    {
        Numbering {
            names: Vec::new(alloc),
            table: Vec::new(alloc),
        }
    }

    /// Takes all numbers away, and keeps the memory.
    pub fn clear(&mut self)
        ensures { self.new ≡ [] }
    {
        self.names.clear();
    }

    /// Makes room for the vertices below `count` at once.
    pub fn room(&mut self, count: u32) -> Result<(), AllocError>
        ensures { self.new ≡ self.old }
    {
        lengthen(&mut self.table, count as usize / 2)
    }

    /// How many vertices have numbers.
    pub fn len(&self) -> usize
        ensures count { result ≡ length self.now }
        ensures few { result < 2 ^ 32 }
    {
        self.names.len()
    }

    /// Tells a proof that no vertex has two numbers. It does nothing.
    pub fn known(&self)
        ensures { (a b v : ℕ) → slice_get self.now a ≡ Some v → slice_get self.now b ≡ Some v → a ≡ b }
    {
        let _ = &self.names;
    }

    /// The vertex of a number.
    #[inline(always)]
    pub fn name(&self, a: u32) -> u32
        requires { a < length self.now }
        ensures { slice_get self.now a ≡ Some result }
    {
        self.names[a as usize]
    }

    /// The number of a vertex, if it has one.
    pub fn number(&self, v: u32) -> Option<u32>
        ensures some { IfSome result (λ a. slice_get self.now a ≡ Some v) }
        ensures none { IfNone result ((a : ℕ) → ¬ (slice_get self.now a ≡ Some v)) }
    {
        match self.table.get(v as usize) {
            None => None,
            Some(a) => self.checked(*a, v),
        }
    }

    /// The number of a vertex, which it gets if it has none.
    pub fn add(&mut self, v: u32) -> Result<u32, AllocError>
        ensures number { IfOk result (λ a. slice_get self.new a ≡ Some v) }
        ensures adds { OnOk result (Adds self.old self.new v) }
    {
        if let Some(a) = self.number(v) {
            return Ok(a);
        }
        self.push(v)
    }

    // The number, if the vertex has it.
    fn checked(&self, a: u32, v: u32) -> Option<u32>
        ensures some { IfSome result (λ b. slice_get self.now b ≡ Some v) }
        ensures none { IfNone result (¬ (slice_get self.now a ≡ Some v)) }
    {
        match self.names.get(a as usize) {
            None => None,
            Some(name) => if_same(*name, v, a),
        }
    }

    // Gives a number to a vertex that has none.
    fn push(&mut self, v: u32) -> Result<u32, AllocError>
        requires { (a : ℕ) → ¬ (slice_get self.old a ≡ Some v) }
        ensures number { IfOk result (λ a. slice_get self.new a ≡ Some v) }
        ensures adds { OnOk result (Adds self.old self.new v) }
    {
        let a = self.names.len();
        if a >= u32::MAX as usize {
            return Err(AllocError);
        }
        lengthen(&mut self.table, v as usize)?;
        self.names.push(v)?;
        self.table[v as usize] = a as u32;
        Ok(a as u32)
    }
}

// Makes the table as long as this place wants, and as long again.
fn lengthen(table: &mut Vec<u32>, place: usize) -> Result<(), AllocError>
    requires { place < 2 ^ 32 }
    ensures longer { (more : List ℕ) × (table.new.items ≡ table.old.items ++ more) }
    ensures long { OnOk result (place < length table.new.items) }
{
    if place >= table.len() {
        table.resize((place + 1) * 2, 0)?;
    }
    Ok(())
}

// The number, where the two vertices are one.
fn if_same(name: u32, v: u32, a: u32) -> Option<u32>
    ensures some { IfSome result (λ b. (b ≡ a) × (name ≡ v)) }
    ensures none { IfNone result (¬ (name ≡ v)) }
{
    if name == v { Some(a) } else { None }
}
