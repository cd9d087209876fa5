//! The nodes along steps.

ghost use Rattle.std.specs.Prelude.{◌≡◌, OnOk, map};
ghost use Rattle.json_text.specs.Drafts.{TakesKey, TakesValue, with_value};
ghost use Rattle.json_text.specs.Wholes.{array_of, with_members};
ghost use Rattle.step_texts.specs.Intersections.{bearings_value, entries_value, index_member, intersection_value};

use json_text::Json;
use route_steps::Intersection;
use std::alloc::AllocError;

// Bearings, in whole degrees.
fn push_bearings(json: &mut Json, bearings: &[u32]) -> Result<(), AllocError>
    requires { TakesValue json.old }
    ensures { OnOk result (json.new ≡ with_value (bearings_value bearings.now) json.old) }
{
    json.begin_list()?;
    for bearing in bearings {
        json.count(u128::from(*bearing))?;
    }
    json.end_list()?;
    Ok(())
}

// Which of them may be entered.
fn push_entries(json: &mut Json, entries: &[bool]) -> Result<(), AllocError>
    requires { TakesValue json.old }
    ensures { OnOk result (json.new ≡ with_value (entries_value entries.now) json.old) }
{
    json.begin_list()?;
    for entry in entries {
        json.boolean(*entry)?;
    }
    json.end_list()?;
    Ok(())
}

// Which of the bearings it is, where there is one.
fn push_index(json: &mut Json, name: &str, index: Option<u32>) -> Result<(), AllocError>
    requires { TakesKey json.old }
    ensures ok { OnOk result (json.new ≡ with_members (index_member name.now index) json.old) }
    ensures more { OnOk result (TakesKey json.new) }
{
    match index {
        Some(index) => json.count_member(name, u128::from(index)),
        None => Ok(()),
    }
}

// A node, and what leaves it.
fn push_intersection(json: &mut Json, node: &Intersection) -> Result<(), AllocError>
    requires { TakesValue json.old }
    ensures { OnOk result (json.new ≡ with_value (intersection_value node.now) json.old) }
{
    json.begin_object()?;
    json.key("location")?;
    json.degrees(node.location)?;
    json.key("bearings")?;
    push_bearings(json, node.bearings.as_slice())?;
    json.key("entry")?;
    push_entries(json, node.entry.as_slice())?;
    push_index(json, "in", node.enter)?;
    push_index(json, "out", node.leave)?;
    json.end_object()?;
    Ok(())
}

// The nodes along a step, in its order.
pub(crate) fn push_intersections(json: &mut Json, nodes: &[Intersection]) -> Result<(), AllocError>
    requires { TakesValue json.old }
    ensures { OnOk result (json.new ≡ with_value (array_of (map intersection_value nodes.now)) json.old) }
{
    json.begin_list()?;
    for node in nodes {
        push_intersection(json, node)?;
    }
    json.end_list()?;
    Ok(())
}
