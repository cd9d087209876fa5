//! Roundabouts on a walk.

ghost use Rattle.std.specs.Prelude.{◌≡◌, ◌*◌, ◌<◌, ◌≤◌, All, cond, length};
ghost use Rattle.std.specs.List.{list_any};
ghost use Rattle.route_steps.specs.Roundabouts.{exit_ahead, exit_at, exit_behind, exit_number, has_exit, is_round, leads_off, run_up_to};

use edge_graph::Network;

/// Whether a vertex is a piece of a roundabout.
pub(crate) fn is_round(network: &Network, v: u32) -> bool
    requires { v < 2 * length network.now.segments }
    ensures { result ≡ is_round network.now v }
{
    network.round(v)
}

// Whether a vertex leads off a roundabout, if it begins at one.
fn leads_off(network: &Network, v: u32) -> bool
    requires { v < 2 * length network.now.segments }
    ensures { result ≡ leads_off network.now v }
{
    let (permitted, round) = (network.permitted(v), network.round(v));
    permitted && !round
}

// Whether one of these vertices leads off.
fn any_leads_off(network: &Network, vertices: &[u32]) -> bool
    requires { All (λ v. v < 2 * length network.now.segments) vertices.now }
    ensures { result ≡ list_any (leads_off network.now) vertices.now }
{
    for v in vertices {
        if leads_off(network, *v) {
            return true;
        }
    }
    false
}

// Whether a vertex leads off where vertex `v` ends.
fn has_exit(network: &Network, v: u32) -> bool
    requires { v < 2 * length network.now.segments }
    ensures { result ≡ has_exit network.now v }
{
    any_leads_off(network, network.leaving(network.head(v)))
}

// What a vertex adds to the number of an exit.
fn added_by(network: &Network, v: u32) -> usize
    requires { v < 2 * length network.now.segments }
    ensures { result ≡ cond (has_exit network.now v) 1 0 }
{
    if has_exit(network, v) { 1 } else { 0 }
}

// The number of an exit, by how many vertices of a run have one.
fn exit_number(count: usize) -> u32
    ensures { result ≡ exit_number count }
{
    count.min(u32::MAX as usize) as u32
}

// The exit of the run that begins at a place of a walk, or None where the walk ends in it.
fn exit_ahead(network: &Network, walk: &[u32], place: usize) -> Option<u32>
    requires in_range { All (λ v. v < 2 * length network.now.segments) walk.now }
    requires place { place ≤ length walk.now }
    ensures { result ≡ exit_ahead network.now walk.now place }
{
    let mut count = 0;
    for k in place..walk.len() {
        if !is_round(network, walk[k]) {
            return Some(exit_number(count));
        }
        count += added_by(network, walk[k]);
    }
    None
}

// The exit of the run that leads up to a place of a walk.
fn exit_behind(network: &Network, walk: &[u32], place: usize) -> u32
    requires in_range { All (λ v. v < 2 * length network.now.segments) walk.now }
    requires place { place ≤ length walk.now }
    ensures { result ≡ exit_behind network.now (run_up_to network.now walk.now place) }
{
    let mut count = 0;
    for k in (0..place).rev() {
        if !is_round(network, walk[k]) {
            return exit_number(count);
        }
        count += added_by(network, walk[k]);
    }
    exit_number(count)
}

/// The exit of which a driver is told at a place of a walk behind its first vertex: of the run of round vertices that the
/// walk enters there, or of the one that it leaves. It takes time in proportion to that run.
pub(crate) fn exit_at(network: &Network, walk: &[u32], place: usize) -> Option<u32>
    requires in_range { All (λ v. v < 2 * length network.now.segments) walk.now }
    requires behind { 0 < place }
    requires within { place < length walk.now }
    ensures { result ≡ exit_at network.now walk.now place }
{
    let before = is_round(network, walk[place - 1]);
    let behind = is_round(network, walk[place]);
    match (before, behind) {
        (false, true) => exit_ahead(network, walk, place),
        (true, false) => Some(exit_behind(network, walk, place)),
        (true, true) | (false, false) => None,
    }
}
