//! Where the blocks of the rows stand, by the rows' names.

ghost use Rattle.std.specs.Prelude.{◌≡◌, ◌≢◌, ◌≤◌, ℕ, [], length, OnOk, OnErr};
ghost use Rattle.row_labels.specs.Rowed.{no_span, span_on, spans_of, span_of};
ghost use Rattle.row_labels.specs.Blocks.{AreTouched};

use std::alloc::{AllocError, Global};
use std::marker::Model;

/// Where a row's values stand: at so many places from the first on.
#[derive(Clone, Copy, Drop)]
pub struct Span {
    pub first: u32,
    pub count: u32,
}

// The span of a row without a block.
const NO_SPAN: Span = Span { first: 0, count: 0 };

/// The spans of a level, by the numbers of its rows.
pub struct Level {
    spans: Vec<Span>,
}

impl Drop for Level {
    fn drop(self) {
        let Level { spans: _spans } = self;
    }
}

impl Model for Level {
    ghost use Rattle.std.specs.Prelude.{List};
    ghost use Rattle.row_labels.specs.declared.blocks.Span.{Span};

    ghost Value = { List Span };

    ghost view = { λ l. l.spans.items };
}

/// The spans of all levels.
pub struct Blocks {
    alloc: Global,
    levels: Vec<Level>,
    // the names of the rows that have a block; a name comes before its block
    touched: Vec<(u32, u32)>,
}

impl Drop for Blocks {
    fn drop(self) {
        let Blocks {
            alloc: _alloc,
            levels: _levels,
            touched: _touched,
        } = self;
    }
}

impl Model for Blocks {
    ghost use Rattle.std.specs.Prelude.{List};
    ghost use Rattle.row_labels.specs.declared.blocks.Span.{Span};
    ghost use Rattle.row_labels.specs.Blocks.{AreTouched};

    ghost Value = { List (List Span) };

    ghost view = { λ b. b.levels.items };

    ghost invariant = { λ b. AreTouched b.levels.items b.touched.items };
}

impl Level {
    // A level whose rows have no block.
    fn new(alloc: Global) -> Level
        ensures { result ≡ [] }
    {
        Level {
            spans: Vec::new(alloc),
        }
    }

    // The span of a row.
    #[inline(always)]
    fn span(&self, number: u32) -> Span
        ensures { result ≡ span_on self.now number }
    {
        match self.spans.get(number as usize) {
            Some(span) => *span,
            None => NO_SPAN,
        }
    }

    // Gives a row a span.
    fn put(&mut self, number: u32, span: Span) -> Result<(), AllocError>
        ensures here { OnOk result (span_on self.new number ≡ span) }
        ensures others { (n : ℕ) → n ≢ number → span_on self.new n ≡ span_on self.old n }
        ensures err { OnErr result ((n : ℕ) → span_on self.new n ≡ span_on self.old n) }
    {
        if self.spans.len() <= number as usize {
            self.spans.resize(number as usize + 1, NO_SPAN)?;
        }
        self.spans[number as usize] = span;
        Ok(())
    }

    // Takes the span of a row away.
    fn clear(&mut self, number: u32)
        ensures here { span_on self.new number ≡ no_span }
        ensures empty { (n : ℕ) → span_on self.old n ≡ no_span → span_on self.new n ≡ no_span }
    {
        if (number as usize) < self.spans.len() {
            self.spans[number as usize] = NO_SPAN;
        }
    }
}

impl Blocks {
    /// No row has a block.
    pub fn new(alloc: Global) -> Blocks
        ensures { (row : ℕ × ℕ) → span_of result row ≡ no_span }
    {
        Blocks {
            alloc,
            levels: Vec::new(alloc),
            touched: Vec::new(alloc),
        }
    }

    /// The span of the row of a name.
    #[inline(always)]
    pub fn span(&self, name: (u32, u32)) -> Span
        ensures { result ≡ span_of self.now name }
    {
        match self.levels.get(name.0 as usize) {
            Some(level) => level.span(name.1),
            None => NO_SPAN,
        }
    }

    /// Gives the row of a name a span.
    pub fn put(&mut self, name: (u32, u32), span: Span) -> Result<(), AllocError>
        ensures here { OnOk result (span_of self.new name ≡ span) }
        ensures others { (row : ℕ × ℕ) → row ≢ name → span_of self.new row ≡ span_of self.old row }
        ensures err { OnErr result ((row : ℕ × ℕ) → span_of self.new row ≡ span_of self.old row) }
    {
        let level = name.0 as usize;
        lengthen_levels(self.alloc, &mut self.levels, level + 1)?;
        self.touched.push(name)?;
        self.levels[level].put(name.1, span)
    }

    /// Takes the spans of all rows away, in time for the rows that have one, and keeps the memory.
    pub fn clear(&mut self)
        ensures { (row : ℕ × ℕ) → span_of self.new row ≡ no_span }
    {
        clear_spans(&mut self.levels, &mut self.touched);
    }
}

// Goes on to `count` levels; the rows of those that come have no block.
fn lengthen_levels(alloc: Global, levels: &mut Vec<Level>, count: usize) -> Result<(), AllocError>
    ensures same { (l : ℕ) → spans_of levels.new.items l ≡ spans_of levels.old.items l }
    ensures long { OnOk result (count ≤ length levels.new.items) }
{
    while levels.len() < count {
        levels.push(Level::new(alloc))?;
    }
    Ok(())
}

// Takes the spans of all rows away.
fn clear_spans(levels: &mut Vec<Level>, touched: &mut Vec<(u32, u32)>)
    requires { AreTouched levels.old.items touched.old.items }
    ensures spans { (l n : ℕ) → span_on (spans_of levels.new.items l) n ≡ no_span }
    ensures touched { touched.new.items ≡ [] }
{
    while let Some((level, number)) = touched.pop() {
        clear_span(levels, level as usize, number);
    }
}

// Takes the span of one row away.
fn clear_span(levels: &mut Vec<Level>, level: usize, number: u32)
    ensures here { span_on (spans_of levels.new.items level) number ≡ no_span }
    ensures empty { (l n : ℕ) → span_on (spans_of levels.old.items l) n ≡ no_span → span_on (spans_of levels.new.items l) n ≡ no_span }
{
    if level < levels.len() {
        levels[level].clear(number);
    }
}
