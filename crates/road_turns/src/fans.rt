//! The permitted vertices that leave each node, by the nodes' numbers in the order of their ids.

ghost use Rattle.std.specs.Prelude.{◌≡◌, ◌-◌, ◌*◌, ◌^◌, ◌<◌, ◌≤◌, ◌++◌, [], ◌∷◌, IfOk, OnOk, filter, length, set};
ghost use Rattle.road_turns.specs.DepartureParts.{AreDepartures};
ghost use Rattle.road_turns.specs.Fans.{AreFans, AreRestricted, is_permitted};
ghost use Rattle.road_turns.specs.RestrictionParts.{has_via};
ghost use Rattle.road_segments.specs.Vertex.{vertices};

use crate::departures::Departures;
use crate::restrictions::Restrictions;
use road_segments::Roads;
use std::alloc::{AllocError, Global};

/// The permitted vertices that leave the nodes. Each node that a vertex leaves has a number, by the
/// ascending order of the nodes' ids.
pub struct Fans {
    /// the permitted vertices, by the nodes that they leave, and at one node in ascending order
    pub leaving: Vec<u32>,
    /// where those of each node begin, and where the last end
    pub begins: Vec<u32>,
    /// whether a restriction applies at each node
    pub restricted: Vec<bool>,
    /// the number of the node that each vertex leaves
    pub nodes: Vec<u32>,
}

impl Drop for Fans {
    fn drop(self) {
        let Fans {
            leaving: _leaving,
            begins: _begins,
            restricted: _restricted,
            nodes: _nodes,
        } = self;
    }
}

// No fans yet.
fn no_fans(alloc: Global, count: u32) -> Result<Fans, AllocError>
    ensures leaving { IfOk result (λ f. f.leaving.items ≡ []) }
    ensures begins { IfOk result (λ f. f.begins.items ≡ []) }
    ensures restricted { IfOk result (λ f. f.restricted.items ≡ []) }
    ensures nodes { IfOk result (λ f. length f.nodes.items ≡ count) }
{
    Ok(Fans {
        leaving: Vec::with_capacity(alloc, count as usize)?,
        begins: Vec::new(alloc),
        restricted: Vec::new(alloc),
        nodes: vec![in alloc; 0; count as usize]?,
    })
}

// Begins the next node.
fn begin(fans: &mut Fans, restrictions: &Restrictions, node: i64) -> Result<(), AllocError>
    requires { length fans.old.leaving.items < 2 ^ 32 }
    ensures leaving { OnOk result (fans.new.leaving.items ≡ fans.old.leaving.items) }
    ensures begins { OnOk result (fans.new.begins.items ≡ fans.old.begins.items ++ length fans.old.leaving.items ∷ []) }
    ensures restricted { OnOk result (fans.new.restricted.items ≡ fans.old.restricted.items ++ has_via restrictions.now.kept node ∷ []) }
    ensures nodes { OnOk result (fans.new.nodes.items ≡ fans.old.nodes.items) }
{
    fans.begins.push(fans.leaving.len() as u32)?;
    fans.restricted.push(restrictions.any_at(node))?;
    Ok(())
}

// Adds a vertex that leaves the last node.
fn add(fans: &mut Fans, roads: &Roads, v: u32) -> Result<(), AllocError>
    requires vertex { v < 2 * length roads.now }
    requires nodes { v < length fans.old.nodes.items }
    requires some { 1 ≤ length fans.old.restricted.items }
    requires few { length fans.old.restricted.items < 2 ^ 32 }
    ensures leaving { OnOk result (fans.new.leaving.items ≡ fans.old.leaving.items ++ filter (is_permitted (vertices roads.now)) (v ∷ [])) }
    ensures begins { OnOk result (fans.new.begins.items ≡ fans.old.begins.items) }
    ensures restricted { OnOk result (fans.new.restricted.items ≡ fans.old.restricted.items) }
    ensures nodes { OnOk result (fans.new.nodes.items ≡ set fans.old.nodes.items v (length fans.old.restricted.items - 1)) }
{
    fans.nodes[v as usize] = fans.restricted.len() as u32 - 1;
    if roads.permitted(v) {
        fans.leaving.push(v)?;
    }
    Ok(())
}

impl Fans {
    /// The fans of a network.
    pub fn of(
        alloc: Global,
        roads: &Roads,
        departures: &Departures,
        restrictions: &Restrictions,
    ) -> Result<Fans, AllocError>
        requires { AreDepartures (vertices roads.now) departures.now.order.items }
        ensures fans { IfOk result (λ f. AreFans (vertices roads.now) f.leaving.items f.begins.items f.restricted.items f.nodes.items) }
        ensures restricted { IfOk result (λ f. AreRestricted (vertices roads.now) restrictions.now.kept f.restricted.items f.nodes.items) }
    {
        let mut fans = no_fans(alloc, 2 * roads.len())?;
        let mut node = 0;
        for i in 0..departures.order.len() {
            let v = departures.order[i];
            let tail = roads.tail(v);
            if i == 0 || tail != node {
                begin(&mut fans, restrictions, tail)?;
                node = tail;
            }
            add(&mut fans, roads, v)?;
        }
        fans.begins.push(fans.leaving.len() as u32)?;
        Ok(fans)
    }
}
