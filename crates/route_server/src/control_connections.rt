//! Control connections over the metrics of one road network.

ghost use Rattle.std.specs.Prelude.{◌≡◌};
ghost use Rattle.road_io.specs.Views.{IsFreshConn};
ghost use Rattle.customized.specs.Exact.{Customized};
ghost use Rattle.control_port.specs.Controlling.{IsOn};
ghost use Rattle.route_server.specs.RoadControls.{IsRoadSession, IsRoadTranscript};

use crate::control_serving::{ControlEnded, control_with};
use crate::controlling::Controlling;
use control_port::{ControlHead, ReplyRoom, control};
use customized::{Metric, Roads};
use metric_publish::Publishing;
use road_io::Conn;
use std::alloc::{AllocError, Global};
use std::thread::Threads;

/// The metrics of one road network, made from traffic files.
#[derive(Clone, Copy)]
struct Roadside<'a> {
    roads: &'a Roads,
}

impl<'a> Controlling<Metric> for Roadside<'a> {
    ghost use Rattle.control_port.specs.Controlling.{IsOn};
    ghost use Rattle.route_server.specs.RoadControls.{IsControlSaid};

    ghost controls = { λ roadside. IsControlSaid roadside.roads.now };

    ghost makes = { λ roadside metric. IsOn roadside.roads.now metric };

    fn control<R: Threads + Sync, P: Publishing<Metric, R>>(
        &self,
        rt: &R,
        alloc: Global,
        desk: &mut P,
        request: ControlHead,
        body: &[u8],
        close: bool,
    ) -> Result<Vec<u8>, AllocError> {
        let room = ReplyRoom::new(alloc)?;
        let answer = control(rt, alloc, desk, self.roads, request, body)?;
        Ok(room.reply(&answer, close))
    }
}

/// Serves a control connection to its end, as [`control_with`] does: its requests are carried out by `control` of
/// `control_port` on a desk of metrics of these roads.
///
/// [`control_with`]: crate::control_with
pub fn serve_control<R: Threads + Sync, P: Publishing<Metric, R>, C: Conn>(
    rt: &R,
    alloc: Global,
    desk: &mut P,
    roads: &Roads,
    conn: &mut C,
) -> ControlEnded
    requires kin { (metric : Customized) → IsOn roads.now metric → P.kin desk.old metric }
    ensures session { IsRoadSession roads.now (P.list desk.old) (P.list desk.new) (C.state conn.old) (C.state conn.new) result }
    ensures transcript { IsFreshConn (C.state conn.old) → IsRoadTranscript roads.now (P.list desk.old) (P.list desk.new) (C.state conn.new) result }
    ensures kin_stays { (metric : Customized) → P.kin desk.old metric → P.kin desk.new metric }
{
    control_with(rt, alloc, desk, &Roadside { roads }, conn)
}
