//! Replies with a table of costs.

ghost use Rattle.std.specs.Prelude.{◌≡◌, ◌^◌, ◌<◌, IfOk, OnOk, length, string_bytes};
ghost use Rattle.json_text.specs.Values.{compact_text};
ghost use Rattle.json_text.specs.Drafts.{TakesKey};
ghost use Rattle.json_text.specs.Wholes.{with_members};
ghost use Rattle.road_places.specs.Places.{ArePlacesOn};
ghost use Rattle.reply_texts.specs.Costs.{rows_value};
ghost use Rattle.reply_texts.specs.Optional.{member_if};
ghost use Rattle.reply_texts.specs.Replies.{table_reply};
ghost use Rattle.reply_texts.specs.Waypoints.{waypoints_of};

use crate::cost_parts::{CostPart, push_rows};
use crate::waypoints::{Stops, push_waypoints_member};
use edge_graph::Network;
use json_text::Json;
use refusal_texts::{Code, begin_version_reply};
use road_base::Place;
use search_graph::WeightDurLen;
use std::alloc::{AllocError, Global};
use table_query::Row;
use url_read::{Request, TableAnnotations};

// One part of the costs, where it is asked for.
fn push_rows_member(
    json: &mut Json,
    asked: bool,
    name: &str,
    part: CostPart,
    rows: &[Row<WeightDurLen>],
) -> Result<(), AllocError>
    requires { TakesKey json.old }
    ensures ok { OnOk result (json.new ≡ with_members (member_if asked name.now (rows_value part rows.now)) json.old) }
    ensures more { OnOk result (TakesKey json.new) }
{
    if !asked {
        return Ok(());
    }
    json.key(name)?;
    push_rows(json, part, rows)?;
    Ok(())
}

/// The reply with a table under a metric of this number, which has a row for each source and in it a cell for
/// each destination; `None` is told as `null`. An `Err` is want of memory.
pub fn table_text(
    alloc: Global,
    network: &Network,
    number: u32,
    request: &Request,
    asked: TableAnnotations,
    rows: &[Row<WeightDurLen>],
    sources: &Stops<'_>,
    destinations: &Stops<'_>,
) -> Result<String, AllocError>
    requires few { length network.now.segments < 2 ^ 30 }
    requires sources { length sources.now.places.now ≡ length sources.now.coordinates.now }
    requires sources_placed { ArePlacesOn network.now sources.now.places.now }
    requires destinations { length destinations.now.places.now ≡ length destinations.now.coordinates.now }
    requires destinations_placed { ArePlacesOn network.now destinations.now.places.now }
    ensures { IfOk result (λ text. string_bytes text ≡ compact_text (table_reply number request.now.skip_waypoints asked rows.now (waypoints_of network.now.segments sources.now.coordinates.now sources.now.places.now) (waypoints_of network.now.segments destinations.now.coordinates.now destinations.now.places.now))) }
{
    let skip = request.skip_waypoints;
    let mut json = Json::new(alloc);
    begin_version_reply(&mut json, Code::Ok, number)?;
    push_rows_member(
        &mut json,
        asked.duration,
        "durations",
        CostPart::Duration,
        rows,
    )?;
    push_rows_member(
        &mut json,
        asked.distance,
        "distances",
        CostPart::Length,
        rows,
    )?;
    push_waypoints_member(&mut json, network, skip, "sources", sources)?;
    push_waypoints_member(&mut json, network, skip, "destinations", destinations)?;
    json.end_object()?;
    Ok(json.into_text())
}
