//! Counts what is in a map, and in its network.

ghost use Rattle.std.specs.Prelude.{◌≡◌, IfOk, OnOk, count_by, string_bytes};
ghost use Rattle.map_loading.specs.Counting.{check_text, counts_of, counts_text, is_of, permitted_in, with_line, with_sets};

use edge_graph::Network;
use road_base::{Kind, Object};
use std::alloc::{AllocError, Global};

/// How many objects of each kind a map has.
#[derive(Clone, Copy)]
pub struct Counts {
    pub nodes: usize,
    pub ways: usize,
    pub relations: usize,
}

// Whether an object is of this kind.
fn is_of(kind: Kind, object: &Object) -> bool
    ensures { result ≡ is_of kind object.now }
{
    match object {
        Object::Node(_) => kind == Kind::Node,
        Object::Way(_) => kind == Kind::Way,
        Object::Relation(_) => kind == Kind::Relation,
    }
}

// How many objects of this kind there are.
fn count_of(objects: &[Object], kind: Kind) -> usize
    ensures { result ≡ count_by (is_of kind) objects.now }
{
    let mut count = 0;
    for object in objects {
        count += usize::from(is_of(kind, object));
    }
    count
}

/// How many objects of each kind there are.
pub fn counts_of(objects: &[Object]) -> Counts
    ensures { result ≡ counts_of objects.now }
{
    Counts {
        nodes: count_of(objects, Kind::Node),
        ways: count_of(objects, Kind::Way),
        relations: count_of(objects, Kind::Relation),
    }
}

// How many vertices of a network its vehicle may use.
fn permitted_in(network: &Network) -> u32
    ensures { result ≡ permitted_in network.now }
{
    let mut count = 0;
    for v in 0..2 * network.segments() {
        count += u32::from(network.permitted(v));
    }
    count
}

// Adds a line with a word and its number.
fn push_line(alloc: Global, text: &mut String, word: &str, count: u64) -> Result<(), AllocError>
    ensures { OnOk result (string_bytes text.new ≡ with_line (string_bytes text.old) word.now count) }
{
    let line = format!(in alloc; "{word} {count}\n")?;
    text.push_str(&line)
}

// Adds the lines of the sets of classes that a request may exclude, where the settings have some.
fn push_sets(alloc: Global, text: &mut String, network: &Network) -> Result<(), AllocError>
    ensures { OnOk result (string_bytes text.new ≡ with_sets (string_bytes text.old) network.now) }
{
    let sets = network.profile().excludable().len();
    if sets == 0 {
        return Ok(());
    }
    push_line(alloc, text, "excludable", sets as u64)?;
    // two vertices, of 8 bytes each
    push_line(alloc, text, "set_bytes", 16 * u64::from(network.segments()))
}

// What there is in a map with so many objects, and in its network: eight lines.
#[tactic(auto, unfolding(crate::specs::Counting::counts_text))]
fn counts_text(alloc: Global, objects: Counts, network: &Network) -> Result<String, AllocError>
    ensures { IfOk result (λ text. string_bytes text ≡ counts_text objects network.now) }
{
    let mut text = String::new(alloc);
    push_line(alloc, &mut text, "nodes", objects.nodes as u64)?;
    push_line(alloc, &mut text, "ways", objects.ways as u64)?;
    push_line(alloc, &mut text, "relations", objects.relations as u64)?;
    push_line(alloc, &mut text, "segments", u64::from(network.segments()))?;
    push_line(
        alloc,
        &mut text,
        "vertices",
        u64::from(permitted_in(network)),
    )?;
    push_line(alloc, &mut text, "turns", u64::from(network.turns()))?;
    push_line(alloc, &mut text, "restrictions", network.applied())?;
    push_line(alloc, &mut text, "ignored", network.ignored())?;
    Ok(text)
}

/// What `check` prints of a map with so many objects and of its network: eight lines, and two more where the settings
/// have sets of classes that a request may exclude.
#[tactic(auto, unfolding(crate::specs::Counting::check_text))]
pub fn check_text(alloc: Global, objects: Counts, network: &Network) -> Result<String, AllocError>
    ensures { IfOk result (λ text. string_bytes text ≡ check_text objects network.now) }
{
    let mut text = counts_text(alloc, objects, network)?;
    push_sets(alloc, &mut text, network)?;
    Ok(text)
}
