//! The sessions of query doors and of the control door.

use customized::{Metric, Roads};
use door_workers::{Controlling, Querying, Then};
use metric_publish::{Publishing, Reading};
use road_io::{Conn, Gate};
use route_server::{ControlEnded, serve_connection, serve_control};
use snap_index::Grid;
use std::alloc::Global;
use std::sync::Wait;
use std::thread::Threads;

/// Answers the requests of query connections by the grid of a road network.
#[derive(Clone, Copy)]
pub struct Queries<'a, G> {
    pub alloc: Global,
    pub gate: &'a G,
    pub grid: &'a Grid,
}

impl<'a, G: Gate> Querying<Metric> for Queries<'a, G> {
    ghost use Rattle.std.specs.Prelude.{◌≡◌};
    ghost use Rattle.snap_index.specs.Ends.{all_ends};
    ghost use Rattle.route_doors.specs.RoadDoors.{IsQueried};
    ghost use Rattle.route_doors.specs.QueriedLaws.{queried_widens};

    ghost rule = { λ s list t. IsQueried list t };

    ghost longer = { λ s xs ys t more queried. queried_widens xs ys t more queried };

    ghost fits = { λ s metric. s.grid.now ≡ all_ends metric.road.network.segments };

    fn answer<S: Reading<Metric>, C: Conn, R: Threads + Sync>(
        &self,
        rt: &R,
        id: u32,
        seat: &mut S,
        conn: &mut C,
    ) {
        let _ended = serve_connection(rt, self.alloc, id, seat, self.gate, self.grid, conn);
    }
}

/// Carries out the requests of control connections, over metrics of these roads.
#[derive(Clone, Copy)]
pub struct Controls<'a> {
    pub alloc: Global,
    pub roads: &'a Roads,
}

impl<'a> Controlling<Metric> for Controls<'a> {
    ghost use Rattle.control_port.specs.Controlling.{IsOn};
    ghost use Rattle.route_doors.specs.RoadDoors.{IsControlling};

    ghost rule = { λ s before t after then. IsControlling s.roads.now before t after then };

    ghost makes = { λ s metric. IsOn s.roads.now metric };

    fn control<P: Publishing<Metric, R>, C: Conn, R: Threads + Wait + Sync>(
        &self,
        rt: &R,
        desk: &mut P,
        conn: &mut C,
    ) -> Then {
        match serve_control(rt, self.alloc, desk, self.roads, conn) {
            ControlEnded::Stopped => Then::Stop,
            ControlEnded::Other(_) => Then::GoOn,
        }
    }
}
