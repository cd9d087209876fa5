//! The cells of a level side by side, in as many threads as there are processors.

ghost use Rattle.std.specs.Prelude.{◌≡◌, ◌-◌, ◌<◌, ◌≤◌, length, IfOk};
ghost use Rattle.cell_partition.specs.Partition.{level_at};
ghost use Rattle.cell_frame.specs.Cliqued.{AreExact};
ghost use Rattle.search_graph.specs.Weighted.{AreSmall};
ghost use Rattle.cell_customize.specs.Levels.{ArePieces, IsExactLevel, IsPiece, cut_at, piece_count};
ghost use Rattle.cell_customize.specs.Ready.{IsReady};

use crate::pieces::{Piece, cliques_of};
use crate::scratch::Scratch;
use crate::turns::Turns;
use cell_frame::{Cliques, Frame, LevelCliques};
use search_graph::{Cost, Weights};
use self_scheduling::{Job, items_in_threads};
use std::alloc::{AllocError, Global};
use std::thread::Threads;

/// How many pieces the cells of a level are cut into.
// Many more than processors, since pieces take unlike time and each is taken by itself.
pub const PIECES: u32 = 256;

/// At which cell a piece of a level begins, of as many cells.
pub fn cut(count: u32, place: u32) -> u32
    requires { place ≤ piece_count }
    ensures { result ≡ cut_at count place }
{
    (u64::from(place) * u64::from(count) / u64::from(PIECES)) as u32
}

// The cliques of the cells of one piece of a level, by those of the levels below it.
fn piece<C: Cost>(
    alloc: Global,
    frame: &Frame,
    weights: &Weights<C>,
    cliques: &Cliques<C>,
    level: u32,
    place: u32,
    scratch: &mut Scratch<C>,
) -> Result<Piece<C>, AllocError>
    requires ready { IsReady C.ops frame.now weights.now cliques.now level }
    requires place { place < piece_count }
    ensures { IfOk result (IsPiece C.ops frame.now weights.now level place) }
{
    let count = frame.count(level);
    let from = cut(count, place);
    let to = cut(count, place + 1);
    cliques_of(alloc, frame, weights, cliques, level, from, to, scratch)
}

// The pieces of a level, of which each thread takes one after another, with one scratch for all that it takes.
#[derive(Drop)]
struct LevelPieces<'a, C: Cost> {
    frame: &'a Frame,
    weights: &'a Weights<C>,
    cliques: &'a Cliques<C>,
    level: u32,
    turns: &'a Turns,
}

impl<'a, C: Cost + Send + Sync> Job for LevelPieces<'a, C> {
    type Memory = Scratch<C>;

    type Item = Piece<C>;

    ghost ready = { λ l. IsReady C.ops l.frame.now l.weights.now l.cliques.now l.level };

    ghost count = { λ _. piece_count };

    ghost is_item = { λ l place rows. IsPiece C.ops l.frame.now l.weights.now l.level place rows };

    fn count(&self) -> usize {
        PIECES as usize
    }

    fn nth(&self, turn: usize) -> usize {
        self.turns.place(turn)
    }

    fn memory(&self, alloc: Global) -> Scratch<C> {
        Scratch::new(alloc)
    }

    fn item(
        &self,
        alloc: Global,
        memory: &mut Scratch<C>,
        number: usize,
    ) -> Result<Piece<C>, AllocError> {
        let place = number as u32;
        piece(
            alloc,
            self.frame,
            self.weights,
            self.cliques,
            self.level,
            place,
            memory,
        )
    }
}

// The pieces of a level, in order.
fn pieces<C: Cost + Send + Sync>(
    rt: &(impl Threads + Sync),
    alloc: Global,
    frame: &Frame,
    weights: &Weights<C>,
    cliques: &Cliques<C>,
    level: u32,
) -> Result<Vec<Piece<C>>, AllocError>
    requires ready { IsReady C.ops frame.now weights.now cliques.now level }
    ensures { IfOk result (λ made. ArePieces C.ops frame.now weights.now level made.items) }
{
    let turns = Turns::of(alloc, frame, level)?;
    let job = LevelPieces {
        frame,
        weights,
        cliques,
        level,
        turns: &turns,
    };
    items_in_threads(rt, alloc, &job)
}

/// The cliques of a level, of its pieces in their order. It answers the error where memory runs out.
pub fn level_of<C: Cost>(
    alloc: Global,
    frame: &Frame,
    weights: &Weights<C>,
    level: u32,
    pieces: &[Piece<C>],
) -> Result<LevelCliques<C>, AllocError>
    requires { ArePieces C.ops frame.now weights.now level pieces.now }
    ensures { IfOk result (λ rows. IsExactLevel C.ops frame.now weights.now rows level) }
{
    let _ = frame;
    let _ = weights;
    let _ = level;
    let mut all = Piece::with_room(alloc, pieces)?;
    for piece in pieces {
        all.append(piece)?;
    }
    Ok(all.into_level())
}

// The cliques of a level, by those of the levels below it.
fn level_in_threads<C: Cost + Send + Sync>(
    rt: &(impl Threads + Sync),
    alloc: Global,
    frame: &Frame,
    weights: &Weights<C>,
    cliques: &Cliques<C>,
    level: u32,
) -> Result<LevelCliques<C>, AllocError>
    requires above { 1 ≤ level }
    requires below { level ≤ length frame.now.cells.levels }
    requires weights { AreSmall C.ops frame.now.graph weights.now }
    requires cliques { AreExact C.ops frame.now weights.now cliques.now (level - 1) }
    ensures { IfOk result (λ rows. IsExactLevel C.ops frame.now weights.now rows level) }
{
    let pieces = pieces(rt, alloc, frame, weights, cliques, level)?;
    level_of(alloc, frame, weights, level, pieces.as_slice())
}

/// As `customize`, with the cells of a level side by side in threads.
pub fn customize_in_threads<C: Cost + Send + Sync>(
    rt: &(impl Threads + Sync),
    alloc: Global,
    frame: &Frame,
    weights: &Weights<C>,
) -> Result<Cliques<C>, AllocError>
    requires weights { AreSmall C.ops frame.now.graph weights.now }
    ensures { IfOk result (λ cliques. AreExact C.ops frame.now weights.now cliques (length frame.now.cells.levels)) }
{
    let mut cliques = Cliques::new(alloc, frame, weights)?;
    for below in 0..frame.levels() {
        let level = level_in_threads(rt, alloc, frame, weights, &cliques, below + 1)?;
        cliques.push(level)?;
    }
    Ok(cliques)
}
