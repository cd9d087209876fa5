//! The metric that was published last.

ghost use Rattle.std.specs.Prelude.{◌≡◌, IfOk, OnErr};
ghost use Rattle.edge_graph.specs.NetworkView.{NetworkView};
ghost use Rattle.line_session.specs.Leading.{IsTrafficReply};
ghost use Rattle.line_session.specs.Publication.{IsReplyLine, opening};

use control_port::{BodyRoom, publish_files};
use customized::{Metric, Roads};
use edge_graph::Network;
use metric_publish::LocalBoard;
use reply_core::{ReplyFault, line_answer};
use road_base::Text;
use snap_index::Grid;
use std::alloc::{AllocError, Global};
use std::marker::Model;
use std::sync::Arc;
use std::thread::Threads;

/// A board with the metrics of one road network, of which the last is published, and where its segments
/// lie. Contracts see the last publication.
#[derive(Drop)]
pub struct Published {
    roads: Roads,
    board: LocalBoard<Metric>,
    grid: Grid,
}

impl Model for Published {
    ghost use Rattle.line_session.specs.Publication.{Publication, publication_of};

    ghost Value = { Publication };

    ghost use Rattle.std.specs.Arc.{arc_value};
    ghost use Rattle.metric_publish.specs.History.{entry_of};
    ghost use Rattle.line_session.specs.Parts.{AreParts};

    ghost view = { λ p. publication_of (entry_of p.board.page.put) };

    ghost invariant = { λ p. AreParts p.roads p.board.page.token.log (arc_value p.board.page.put.value) p.grid };
}

impl Published {
    /// The board of a network on which the metric by its profile alone is published, under number 0. The
    /// network is cut into cells by the server's limits, and these are customized in threads. It answers an
    /// error only where memory runs out.
    pub fn opening(
        rt: &(impl Threads + Sync),
        alloc: Global,
        network: Network,
    ) -> Result<Published, AllocError>
        ensures { IfOk result (λ p. p ≡ opening network) }
    {
        let roads = Roads::for_server(alloc, network)?;
        let base = roads.base().copy()?;
        let grid = Grid::of(alloc, roads.network())?;
        let metric = Metric::make(rt, alloc, &roads, base)?;
        let board = LocalBoard::of(alloc, Arc::new(alloc, metric)?, 0)?;
        Ok(Published { roads, board, grid })
    }

    /// The reply to a line that is not empty, with a newline behind it. The rows of a table are made in threads. It
    /// answers an error only where memory runs out.
    pub fn reply_line(
        &self,
        rt: &(impl Threads + Sync),
        alloc: Global,
        line: &[u8],
    ) -> Result<Text, ReplyFault>
        ensures { IfOk result (λ text. IsReplyLine self.now line.now text) }
    {
        let held = self.board.enter()?;
        let answer = line_answer(rt, alloc, &held, &self.grid, line)?;
        let mut text = answer.text.into_string();
        text.push('\n')?;
        Ok(Text::of(text))
    }

    /// Publishes the metric of the bytes of two traffic files, and answers the reply to them, with a newline
    /// behind it. The cells of the metric are customized in threads. It answers an error only where memory
    /// runs out, and then nothing was published: the room for the reply is taken first.
    pub fn publish<R: Threads + Sync>(
        &mut self,
        rt: &R,
        alloc: Global,
        speeds: &[u8],
        turns: &[u8],
    ) -> Result<Text, AllocError>
        ensures reply { IfOk result (λ text. IsTrafficReply self.old speeds.now turns.now text self.new) }
        ensures stays { OnErr result (self.new ≡ self.old) }
    {
        let room = BodyRoom::new(alloc)?;
        let answer = publish_files(rt, alloc, &mut self.board, &self.roads, speeds, turns)?;
        let mut text = room.body(&answer);
        text.push('\n').unwrap();
        Ok(Text::of(text))
    }
}
