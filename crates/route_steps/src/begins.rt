//! Where the steps of a walk begin.

ghost use Rattle.std.specs.Prelude.{◌≡◌, ◌*◌, ◌<◌, All, IfOk, length};
ghost use Rattle.route_steps.specs.Steps.{begins_along};

use crate::maneuvers::ManeuverKind;
use crate::roundabouts::exit_at;
use crate::turnings::turn_told;
use edge_graph::Network;
use road_base::Modifier;
use std::alloc::{AllocError, Global};

/// Where a step begins: at the vertex of this place in the walk, with what the driver is told there.
#[derive(Clone, Copy)]
pub(crate) struct Begin {
    pub(crate) place: usize,
    pub(crate) kind: ManeuverKind,
    pub(crate) modifier: Option<Modifier>,
    pub(crate) exit: Option<u32>,
}

/// Where the steps of a walk begin: at its first vertex, and at each turn of which the driver is told. It answers an
/// error only where memory runs out.
pub(crate) fn begins_along(
    alloc: Global,
    network: &Network,
    walk: &[u32],
) -> Result<Vec<Begin>, AllocError>
    requires some { 0 < length walk.now }
    requires in_range { All (λ v. v < 2 * length network.now.segments) walk.now }
    ensures { IfOk result (λ begins. begins.items ≡ begins_along network.now walk.now) }
{
    let mut begins = Vec::new(alloc);
    begins.push(Begin {
        place: 0,
        kind: ManeuverKind::Depart,
        modifier: None,
        exit: None,
    })?;
    for place in 1..walk.len() {
        if let Some((kind, bend)) = turn_told(network, walk[place - 1], walk[place]) {
            let modifier = Some(bend);
            let exit = exit_at(network, walk, place);
            begins.push(Begin {
                place,
                kind,
                modifier,
                exit,
            })?;
        }
    }
    Ok(begins)
}
