//! Bytes that are given in pieces.

ghost use Rattle.std.specs.Prelude.{◌≡◌, ◌<◌, ◌≤◌, ◌++◌, [], length, take};

use std::marker::Model;

/// Bytes that are given from the front, in pieces of these sizes at most: the sizes come round again
/// when they are used up, none is no limit, and a size of 0 counts as 1.
#[derive(Debug)]
pub struct PieceReader {
    bytes: Vec<u8>,
    at: usize,
    sizes: Vec<usize>,
    next_size: usize,
}

impl Drop for PieceReader {
    fn drop(self) {
        let PieceReader {
            bytes: _bytes,
            at: _at,
            sizes: _sizes,
            next_size: _next_size,
        } = self;
    }
}

impl Model for PieceReader {
    ghost use Rattle.std.specs.Prelude.{◌≤◌, length, drop};
    ghost use Rattle.road_io.specs.MemoryStates.{ReaderState};

    ghost Value = { ReaderState };

    ghost view = { λ r. record { all = r.bytes.items; left = drop r.at r.bytes.items } };

    ghost invariant = { λ r. r.at ≤ length r.bytes.items };
}

impl PieceReader {
    /// A reader of these bytes from the first on.
    pub fn of(bytes: Vec<u8>, sizes: Vec<usize>) -> PieceReader
        ensures { result ≡ record { all = bytes.items; left = bytes.items } }
    {
        PieceReader {
            bytes,
            at: 0,
            sizes,
            next_size: 0,
        }
    }

    /// Gives the next piece into the front of `into`, and answers its length.
    pub fn give(&mut self, into: &mut [u8]) -> usize
        ensures bound { result ≤ length into.new }
        ensures bytes { self.old.left ≡ take result into.new ++ self.new.left }
        ensures end { result ≡ 0 → 0 < length into.new → self.new.left ≡ [] }
        ensures all { self.new.all ≡ self.old.all }
    {
        let size = size_at(&self.sizes, self.next_size);
        let count = copy_piece(&self.bytes[self.at..], into, size);
        self.at += count;
        self.next_size = following(self.next_size, self.sizes.len());
        count
    }
}

// The place after this one, round a list of this length.
fn following(place: usize, length: usize) -> usize {
    if place < length && place + 1 < length {
        place + 1
    } else {
        0
    }
}

// The size at this place, at least 1, or no limit where there is none.
fn size_at(sizes: &[usize], place: usize) -> usize
    ensures { 0 < result }
{
    match sizes.get(place) {
        Some(size) => (*size).max(1),
        None => usize::MAX,
    }
}

/// Copies the front of `bytes` to that of `into`, as much as both have room for and `size` at most, and
/// answers how much.
fn copy_piece(bytes: &[u8], into: &mut [u8], size: usize) -> usize
    ensures bound { result ≤ length into.new }
    ensures within { result ≤ length bytes.now }
    ensures bytes { take result into.new ≡ take result bytes.now }
    ensures some { result ≡ 0 → 0 < size → 0 < length into.new → length bytes.now ≡ 0 }
{
    let count = size.min(bytes.len()).min(into.len());
    into[..count].copy_from_slice(&bytes[..count]);
    count
}
