//! Does what control requests ask for.

ghost use Rattle.std.specs.Prelude.{◌≡◌, IfOk, OnErr};
ghost use Rattle.control_port.specs.Asking.{IsBodyOf};
ghost use Rattle.control_port.specs.Controlling.{FilesGive, IsControlled, IsOn, on_board};
ghost use Rattle.control_port.specs.Judging.{BaseGives};
ghost use Rattle.customized.specs.Exact.{Customized, customized_on};
ghost use Rattle.metric_make.specs.MetricOf.{IsMetricOn};

use crate::asking::ControlHead;
use crate::controlled::Controlled;
use crate::rows::base_of_files;
use customized::{Metric, Roads};
use metric_make::BaseMetric;
use metric_publish::{Publishing, Refused};
use std::alloc::{AllocError, Global};
use std::sync::Arc;
use std::thread::Threads;
use traffic_files::TrafficFault;

/// Does what a control request with its body asks for.
///
/// Of a metric both traffic files of the body are read, the speeds file first. `Refused` tells their first faulty
/// row. Else the metric of their rows, made from the profile whatever was published before, is published on the
/// desk under the next number: `Published` tells that number and how many rows matched nothing, and the list is one
/// metric longer; `Spent` tells that no number is left. A stop is `Stopping`, what is no request `BadRequest`. But
/// after `Published` the list is as before; so it is after an error, which comes only where memory runs out. The
/// cells that the change from the last metric touches are customized side by side in threads.
pub fn control<R: Threads + Sync, P: Publishing<Metric, R>>(
    rt: &R,
    alloc: Global,
    desk: &mut P,
    roads: &Roads,
    request: ControlHead,
    body: &[u8],
) -> Result<Controlled, AllocError>
    requires body { IsBodyOf request body.now }
    requires kin { (x : Customized) → IsOn roads.now x → P.kin desk.old x }
    ensures controlled { IfOk result (λ answer. IsControlled roads.now (P.list desk.old) request body.now answer (P.list desk.new)) }
    ensures busy { OnErr result (P.list desk.new ≡ P.list desk.old) }
    ensures kin_stays { (x : Customized) → P.kin desk.old x → P.kin desk.new x }
{
    match request {
        ControlHead::Metric { speeds, length: _ } => {
            publish_files(rt, alloc, desk, roads, &body[..speeds], &body[speeds..])
        }
        ControlHead::Stop => Ok(Controlled::Stopping),
        ControlHead::Bad => Ok(Controlled::BadRequest),
    }
}

/// Publishes the metric of two traffic files on a desk, or tells why not, as [`control`] does it of a body in which they
/// stand one behind the other.
pub fn publish_files<R: Threads + Sync, P: Publishing<Metric, R>>(
    rt: &R,
    alloc: Global,
    desk: &mut P,
    roads: &Roads,
    speeds: &[u8],
    turns: &[u8],
) -> Result<Controlled, AllocError>
    requires kin { (x : Customized) → IsOn roads.now x → P.kin desk.old x }
    ensures controlled { IfOk result (λ answer. FilesGive (on_board roads.now (P.list desk.old)) speeds.now turns.now answer (P.list desk.new)) }
    ensures busy { OnErr result (P.list desk.new ≡ P.list desk.old) }
    ensures kin_stays { (x : Customized) → P.kin desk.old x → P.kin desk.new x }
{
    match base_of_files(alloc, roads, speeds, turns) {
        Ok(base) => publish_base(rt, alloc, desk, roads, base),
        Err(TrafficFault::Row(fault)) => Ok(Controlled::Refused(fault)),
        Err(TrafficFault::Memory) => Err(AllocError),
    }
}

// The metric of roads under these costs, made from the last that was published: only the cells that the change touches
// are customized.
fn remade<R: Threads + Sync, P: Publishing<Metric, R>>(
    rt: &R,
    alloc: Global,
    desk: &P,
    roads: &Roads,
    base: BaseMetric,
) -> Result<Metric, AllocError>
    requires on { IsMetricOn roads.now.network base.weights }
    requires kin { (x : Customized) → IsOn roads.now x → P.kin desk.now x }
    ensures { IfOk result (λ metric. metric ≡ customized_on roads.now base) }
{
    let _ = roads;
    let remade = Metric::remake(rt, alloc, desk.last(), base)?;
    Ok(remade.metric)
}

// Publishes the metric of roads under these costs.
fn publish_base<R: Threads + Sync, P: Publishing<Metric, R>>(
    rt: &R,
    alloc: Global,
    desk: &mut P,
    roads: &Roads,
    base: BaseMetric,
) -> Result<Controlled, AllocError>
    requires on { IsMetricOn roads.now.network base.weights }
    requires kin { (x : Customized) → IsOn roads.now x → P.kin desk.old x }
    ensures controlled { IfOk result (λ answer. BaseGives roads.now (P.list desk.old) base answer (P.list desk.new)) }
    ensures busy { OnErr result (P.list desk.new ≡ P.list desk.old) }
    ensures kin_stays { (x : Customized) → P.kin desk.old x → P.kin desk.new x }
{
    let unmatched = base.unmatched();
    let metric = remade(rt, alloc, desk, roads, base)?;
    let shared = Arc::new(alloc, metric)?;
    match desk.publish(rt, shared) {
        Ok(receipt) => Ok(Controlled::Published {
            number: receipt.number,
            unmatched,
        }),
        Err(Refused::Spent(_)) => Ok(Controlled::Spent(u32::MAX)),
        Err(Refused::Memory(_)) => Err(AllocError),
    }
}
