//! Connections in memory whose input comes in pieces, and of whose calls one may fail.

use road_io::{MemConn, MemSink, MemSource};
use std::alloc::{AllocError, Global};

/// How much output a test has room for, where it is not about that.
pub const ROOM: usize = 100000;

// A source of this input, in pieces of this size at most, whose take of this number fails; calls count from 1.
fn source(
    alloc: Global,
    input: &[u8],
    piece: usize,
    failing: u64,
) -> Result<MemSource, AllocError> {
    let pieces = Vec::from_slice(alloc, [piece].as_slice())?;
    let failing = Vec::from_slice(alloc, [failing].as_slice())?;
    let input = Vec::from_slice(alloc, input)?;
    Ok(MemSource::of(input, pieces, failing))
}

/// A connection with this input, which comes in pieces of this size at most, and room for so much output. It
/// stands in a box, which a proof drops in one step.
pub fn in_pieces(
    alloc: Global,
    input: &[u8],
    piece: usize,
    room: usize,
) -> Result<Box<MemConn>, AllocError> {
    let sink = MemSink::of(alloc, room, Vec::new(alloc))?;
    let source = source(alloc, input, piece, 0)?;
    Ok(Box::new(alloc, MemConn::of(source, sink))?)
}

/// A connection with this input, which comes byte by byte, whose take of the one number fails and whose put of the
/// other; there is no call 0. It stands in a box too.
pub fn failing(
    alloc: Global,
    input: &[u8],
    take: u64,
    put: u64,
) -> Result<Box<MemConn>, AllocError> {
    let puts = Vec::from_slice(alloc, [put].as_slice())?;
    let sink = MemSink::of(alloc, ROOM, puts)?;
    let source = source(alloc, input, 1, take)?;
    Ok(Box::new(alloc, MemConn::of(source, sink))?)
}

/// How many bytes of these replies an output is a front of; 18446744073709551615 where it is none.
pub fn front_of(output: &[u8], replies: &[u8]) -> usize {
    if replies.starts_with(output) {
        output.len()
    } else {
        usize::MAX
    }
}
