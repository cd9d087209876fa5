//! What is paid of each vertex of a walk, and the nodes that these join.

ghost use Rattle.std.specs.Prelude.{◌≡◌, OnOk, codes};
ghost use Rattle.json_text.specs.Drafts.{TakesKey, TakesValue, with_value};
ghost use Rattle.json_text.specs.Wholes.{with_members};
ghost use Rattle.reply_texts.specs.Costs.{costs_value};
ghost use Rattle.reply_texts.specs.Legs.{annotation_value, is_annotated, nodes_value};
ghost use Rattle.reply_texts.specs.Optional.{member_if};

use crate::cost_parts::{CostPart, push_costs};
use json_text::Json;
use search_graph::WeightDurLen;
use std::alloc::AllocError;
use url_read::RouteAnnotations;

// Whether some annotation is asked for.
pub(crate) fn is_annotated(asked: RouteAnnotations) -> bool
    ensures { result ≡ is_annotated asked }
{
    asked.distance || asked.duration || asked.weight || asked.nodes || asked.speed
}

// The ids of nodes.
fn push_nodes(json: &mut Json, nodes: &[i64]) -> Result<(), AllocError>
    requires { TakesValue json.old }
    ensures { OnOk result (json.new ≡ with_value (nodes_value nodes.now) json.old) }
{
    json.begin_list()?;
    for node in nodes {
        json.whole(*node)?;
    }
    json.end_list()?;
    Ok(())
}

// A list of one part of costs as a member, where it is asked for.
fn push_costs_member(
    json: &mut Json,
    asked: bool,
    name: &str,
    part: CostPart,
    costs: &[WeightDurLen],
) -> Result<(), AllocError>
    requires { TakesKey json.old }
    ensures ok { OnOk result (json.new ≡ with_members (member_if asked name.now (costs_value part costs.now)) json.old) }
    ensures more { OnOk result (TakesKey json.new) }
{
    if !asked {
        return Ok(());
    }
    json.key(name)?;
    push_costs(json, part, costs)?;
    Ok(())
}

// The ids of nodes as a member, where they are asked for.
fn push_nodes_member(json: &mut Json, asked: bool, nodes: &[i64]) -> Result<(), AllocError>
    requires { TakesKey json.old }
    ensures ok { OnOk result (json.new ≡ with_members (member_if asked (codes "nodes") (nodes_value nodes.now)) json.old) }
    ensures more { OnOk result (TakesKey json.new) }
{
    if !asked {
        return Ok(());
    }
    json.key("nodes")?;
    push_nodes(json, nodes)?;
    Ok(())
}

// The annotations that are asked for.
pub(crate) fn push_annotation(
    json: &mut Json,
    asked: RouteAnnotations,
    paid: &[WeightDurLen],
    nodes: &[i64],
) -> Result<(), AllocError>
    requires { TakesValue json.old }
    ensures { OnOk result (json.new ≡ with_value (annotation_value asked paid.now nodes.now) json.old) }
{
    json.begin_object()?;
    push_costs_member(json, asked.distance, "distance", CostPart::Length, paid)?;
    push_costs_member(json, asked.duration, "duration", CostPart::Duration, paid)?;
    push_costs_member(json, asked.weight, "weight", CostPart::Weight, paid)?;
    push_nodes_member(json, asked.nodes, nodes)?;
    push_costs_member(json, asked.speed, "speed", CostPart::Speed, paid)?;
    json.end_object()?;
    Ok(())
}
