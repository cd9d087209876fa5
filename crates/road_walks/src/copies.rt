//! Targets at the copies of vertices: a walk to a vertex may end in the searched graph at any copy of it.

ghost use Rattle.std.specs.Prelude.{◌≡◌, ◌++◌, OnOk};
ghost use Rattle.road_walks.specs.Searched.{all_at_copies, targets_at_copies};

use edge_graph::Network;
use search_graph::{Target, WeightDurLen};
use std::alloc::AllocError;

// Adds a target at each copy of this one's vertex, at its cost.
fn add_copies_of(
    network: &Network,
    target: Target<WeightDurLen>,
    targets: &mut Vec<Target<WeightDurLen>>,
) -> Result<(), AllocError>
    ensures { OnOk result (targets.new.items ≡ targets.old.items ++ targets_at_copies network.now target) }
{
    let copies = network.copies(target.vertex);
    for vertex in copies {
        targets.push(Target {
            vertex: *vertex,
            cost: target.cost,
        })?;
    }
    Ok(())
}

/// Adds to the targets one at each copy of each one's vertex, at its cost. On a network without copies it adds none.
pub(crate) fn add_copies(
    network: &Network,
    targets: &mut Vec<Target<WeightDurLen>>,
) -> Result<(), AllocError>
    ensures { OnOk result (targets.new.items ≡ targets.old.items ++ all_at_copies network.now targets.old.items) }
{
    for number in 0..targets.len() {
        let target = targets[number];
        add_copies_of(network, target, targets)?;
    }
    Ok(())
}
