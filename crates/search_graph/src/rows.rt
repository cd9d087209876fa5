//! The arcs that leave a vertex.

ghost use Rattle.std.specs.Prelude.{◌≡◌, ◌+◌, ◌^◌, ◌<◌, ◌≤◌, ◌↔◌, [], length, IsTrue, Some};
ghost use Rattle.std.specs.List.{slice_get, range_with_len};

use std::marker::Model;

/// The numbers of the arcs that leave a vertex, to be read by place from 0.
///
/// Where arcs stand side by side they are not listed, and no memory is read for them.
#[derive(Drop)]
pub struct ArcRow<'a> {
    // not empty: these; empty: `count` numbers from `from` on
    listed: &'a [u32],
    from: u32,
    count: u32,
}

impl<'a> Model for ArcRow<'a> {
    ghost use Rattle.std.specs.Prelude.{◌+◌, ◌^◌, ◌≤◌, ℕ, List};
    ghost use Rattle.search_graph.specs.Indexed.{listed_or_range};

    ghost Value = { List ℕ };

    ghost view = { λ r. listed_or_range r.from r.count r.listed.now };

    ghost invariant = { λ r. r.from + r.count ≤ 2 ^ 32 };
}

impl<'a> ArcRow<'a> {
    /// These numbers.
    #[inline(always)]
    pub fn listed(numbers: &'a [u32]) -> ArcRow<'a>
        ensures { result ≡ numbers.now }
    {
        ArcRow {
            listed: numbers,
            from: 0,
            count: 0,
        }
    }

    /// The numbers from `from` on, `count` of them.
    #[inline(always)]
    pub fn range(from: u32, count: u32) -> ArcRow<'a>
        requires { from + count ≤ 2 ^ 32 }
        ensures { result ≡ range_with_len from count }
    {
        ArcRow {
            listed: &[],
            from,
            count,
        }
    }

    /// How many arcs there are.
    #[inline(always)]
    pub fn len(&self) -> usize
        ensures { result ≡ length self.now }
    {
        if self.listed.is_empty() {
            self.count as usize
        } else {
            self.listed.len()
        }
    }

    /// Whether there are none.
    #[inline(always)]
    pub fn is_empty(&self) -> bool
        ensures { IsTrue result ↔ (self.now ≡ []) }
    {
        self.len() == 0
    }

    /// The number of the arc at `place`.
    #[inline(always)]
    pub fn get(&self, place: usize) -> u32
        requires { place < length self.now }
        ensures { slice_get self.now place ≡ Some result }
    {
        let listed = self.listed;
        if listed.is_empty() {
            self.from + place as u32
        } else {
            listed[place]
        }
    }
}
