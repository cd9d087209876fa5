//! Query connections over the metrics of one road network.

ghost use Rattle.std.specs.Prelude.{◌≡◌};
ghost use Rattle.road_io.specs.Views.{IsFreshConn};
ghost use Rattle.customized.specs.Exact.{Customized};
ghost use Rattle.snap_index.specs.Ends.{all_ends};
ghost use Rattle.route_server.specs.RouteSessions.{IsRouteSession, IsRouteTranscript};
ghost use Rattle.route_server.specs.Seats.{seat_state};

use crate::answering::{Answering, Said};
use crate::serving::serve_with;
use customized::Metric;
use http_session::Ended;
use metric_publish::{Held, Reading};
use reply_core::answer;
use road_io::{Conn, Gate};
use snap_index::Grid;
use std::alloc::{AllocError, Global};
use std::thread::Threads;

/// The answers of `reply_core`, by the grid of a road network, with threads of this handle.
#[derive(Clone, Copy)]
struct Replier<'a, R> {
    rt: &'a R,
    grid: &'a Grid,
}

impl<'a, R: Threads + Sync> Answering<Metric> for Replier<'a, R> {
    ghost use Rattle.std.specs.Prelude.{◌≡◌};
    ghost use Rattle.std.specs.Thread.{IsSync};
    ghost use Rattle.snap_index.specs.Ends.{all_ends};
    ghost use Rattle.route_server.specs.RouteSessions.{IsSaid};

    ghost fits = { λ replier metric. (replier.grid.now ≡ all_ends metric.road.network.segments) × IsSync R.row };

    ghost says = { IsSaid };

    fn answer(
        &self,
        alloc: Global,
        held: &Held<Metric>,
        target: &[u8],
    ) -> Result<Said, AllocError> {
        match answer(self.rt, alloc, held, self.grid, target) {
            Ok(answer) => Ok(Said {
                status: answer.status,
                body: answer.text,
            }),
            Err(_) => Err(AllocError),
        }
    }
}

/// Serves a query connection to its end, as [`serve_with`] does, with the answers of `reply_core` under the
/// metrics that the seat enters. The grid is that of the network which all these metrics share. The rows of a table are
/// made in threads of the handle.
///
/// [`serve_with`]: crate::serve_with
pub fn serve_connection<R: Threads + Sync, S: Reading<Metric>, G: Gate, C: Conn>(
    rt: &R,
    alloc: Global,
    id: u32,
    seat: &mut S,
    gate: &G,
    grid: &Grid,
    conn: &mut C,
) -> Ended
    requires fits { (metric : Customized) → S.kin seat.old metric → grid.now ≡ all_ends metric.road.network.segments }
    ensures session { IsRouteSession (seat_state (S.seen seat.old) (S.learned seat.old) (S.reads seat.old)) (seat_state (S.seen seat.new) (S.learned seat.new) (S.reads seat.new)) (C.state conn.old) (C.state conn.new) result }
    ensures transcript { IsFreshConn (C.state conn.old) → IsRouteTranscript (S.seen seat.new) (C.state conn.new) result }
    ensures kin_stays { (metric : Customized) → S.kin seat.new metric → S.kin seat.old metric }
{
    serve_with(alloc, id, seat, gate, &Replier { rt, grid }, conn)
}
