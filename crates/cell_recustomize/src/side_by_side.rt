//! The cells of a level side by side, in as many threads as there are processors.

ghost use Rattle.std.specs.Prelude.{◌<◌, length, All, IfOk};
ghost use Rattle.search_graph.specs.Weighted.{AreSmall};
ghost use Rattle.cell_frame.specs.Cliqued.{AreExact};
ghost use Rattle.cell_customize.specs.Levels.{ArePieces, IsExactLevel, IsPiece, piece_count};
ghost use Rattle.cell_recustomize.specs.Making.{IsPrepared};
ghost use Rattle.cell_recustomize.specs.Touched.{WereExact, IsTouchedCount};

use crate::counting::entries_of;
use crate::marking::{Changes, marks_of};
use crate::pieces::cliques_of;
use crate::recustomizing::Recustomized;
use cell_customize::{PIECES, Piece, Scratch, Turns, cut, level_of};
use cell_frame::{Cliques, Frame, LevelCliques};
use search_graph::{Cost, Weights};
use self_scheduling::{Job, items_in_threads};
use std::alloc::{AllocError, Global};
use std::thread::Threads;

// The cliques of the cells of one piece of a level.
fn piece<C: Cost>(
    alloc: Global,
    frame: &Frame,
    weights: &Weights<C>,
    old: &Cliques<C>,
    cliques: &Cliques<C>,
    marks: &[bool],
    level: u32,
    place: u32,
    scratch: &mut Scratch<C>,
) -> Result<Piece<C>, AllocError>
    requires prepared { IsPrepared C.ops frame.now weights.now old.now cliques.now marks.now level }
    requires place { place < piece_count }
    ensures { IfOk result (IsPiece C.ops frame.now weights.now level place) }
{
    let count = frame.count(level);
    let from = cut(count, place);
    let to = cut(count, place + 1);
    cliques_of(
        alloc, frame, weights, old, cliques, marks, level, from, to, scratch,
    )
}

// The pieces of a level, of which each thread takes one after another, with one scratch for all that it takes.
#[derive(Drop)]
struct LevelPieces<'a, C: Cost> {
    frame: &'a Frame,
    weights: &'a Weights<C>,
    old: &'a Cliques<C>,
    cliques: &'a Cliques<C>,
    marks: &'a [bool],
    level: u32,
    turns: &'a Turns,
}

impl<'a, C: Cost + Send + Sync> Job for LevelPieces<'a, C> {
    type Memory = Scratch<C>;

    type Item = Piece<C>;

    ghost ready = { λ l. IsPrepared C.ops l.frame.now l.weights.now l.old.now l.cliques.now l.marks.now l.level };

    ghost count = { λ _. piece_count };

    ghost is_item = { λ l place rows. IsPiece C.ops l.frame.now l.weights.now l.level place rows };

    fn count(&self) -> usize {
        PIECES as usize
    }

    fn nth(&self, turn: usize) -> usize {
        self.turns.place(turn)
    }

    fn memory(&self, alloc: Global) -> Scratch<C> {
        Scratch::new(alloc)
    }

    fn item(
        &self,
        alloc: Global,
        memory: &mut Scratch<C>,
        number: usize,
    ) -> Result<Piece<C>, AllocError> {
        let place = number as u32;
        piece(
            alloc,
            self.frame,
            self.weights,
            self.old,
            self.cliques,
            self.marks,
            self.level,
            place,
            memory,
        )
    }
}

// The pieces of a level, in order.
fn pieces<C: Cost + Send + Sync>(
    rt: &(impl Threads + Sync),
    alloc: Global,
    frame: &Frame,
    weights: &Weights<C>,
    old: &Cliques<C>,
    cliques: &Cliques<C>,
    marks: &[bool],
    level: u32,
) -> Result<Vec<Piece<C>>, AllocError>
    requires { IsPrepared C.ops frame.now weights.now old.now cliques.now marks.now level }
    ensures { IfOk result (λ made. ArePieces C.ops frame.now weights.now level made.items) }
{
    let turns = Turns::of(alloc, frame, level)?;
    let job = LevelPieces {
        frame,
        weights,
        old,
        cliques,
        marks,
        level,
        turns: &turns,
    };
    items_in_threads(rt, alloc, &job)
}

// The cliques of a level, by the new ones of the levels below it and the old ones.
fn level_in_threads<C: Cost + Send + Sync>(
    rt: &(impl Threads + Sync),
    alloc: Global,
    frame: &Frame,
    weights: &Weights<C>,
    old: &Cliques<C>,
    cliques: &Cliques<C>,
    marks: &[bool],
    level: u32,
) -> Result<LevelCliques<C>, AllocError>
    requires prepared { IsPrepared C.ops frame.now weights.now old.now cliques.now marks.now level }
    ensures { IfOk result (λ rows. IsExactLevel C.ops frame.now weights.now rows level) }
{
    let pieces = pieces(rt, alloc, frame, weights, old, cliques, marks, level)?;
    level_of(alloc, frame, weights, level, pieces.as_slice())
}

/// As `recustomize`, with the cells of a level side by side in threads.
pub fn recustomize_in_threads<C: Cost + Send + Sync>(
    rt: &(impl Threads + Sync),
    alloc: Global,
    frame: &Frame,
    weights: &Weights<C>,
    old: &Cliques<C>,
    vertices: &[u32],
    arcs: &[u32],
) -> Result<Recustomized<C>, AllocError>
    requires weights { AreSmall C.ops frame.now.graph weights.now }
    requires vertices { All (λ v. v < frame.now.graph.vertices) vertices.now }
    requires arcs { All (λ i. i < length frame.now.graph.arcs) arcs.now }
    requires old { WereExact C.ops frame.now weights.now old.now vertices.now arcs.now }
    ensures cliques { IfOk result (λ made. AreExact C.ops frame.now weights.now made.cliques (length frame.now.cells.levels)) }
    ensures searches { IfOk result (λ made. IsTouchedCount frame.now vertices.now arcs.now made.searches) }
{
    let changes = Changes { vertices, arcs };
    let mut cliques = Cliques::new(alloc, frame, weights)?;
    let mut searches = 0;
    for below in 0..frame.levels() {
        let level = below + 1;
        let marked = marks_of(alloc, frame, level, changes)?;
        let marks = marked.as_slice();
        let rows = level_in_threads(rt, alloc, frame, weights, old, &cliques, marks, level)?;
        cliques.push(rows)?;
        searches += entries_of(frame, level, marks);
    }
    Ok(Recustomized { cliques, searches })
}
