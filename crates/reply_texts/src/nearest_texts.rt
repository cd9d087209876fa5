//! Replies with the places next to a coordinate.

ghost use Rattle.std.specs.Prelude.{◌≡◌, ◌^◌, ◌<◌, IfOk, length, string_bytes};
ghost use Rattle.json_text.specs.Values.{compact_text};
ghost use Rattle.road_places.specs.Places.{ArePlacesOn};
ghost use Rattle.reply_texts.specs.Replies.{nearest_reply};

use crate::waypoints::push_neighbours;
use edge_graph::Network;
use json_text::Json;
use refusal_texts::{Code, begin_version_reply};
use road_base::{Place, Point};
use std::alloc::{AllocError, Global};

/// The reply with these places next to a coordinate, under a metric of this number. An `Err` is want of memory.
pub fn nearest_text(
    alloc: Global,
    network: &Network,
    number: u32,
    coordinate: Point,
    places: &[Place],
) -> Result<String, AllocError>
    requires few { length network.now.segments < 2 ^ 30 }
    requires placed { ArePlacesOn network.now places.now }
    ensures { IfOk result (λ text. string_bytes text ≡ compact_text (nearest_reply number network.now.segments coordinate places.now)) }
{
    let mut json = Json::new(alloc);
    begin_version_reply(&mut json, Code::Ok, number)?;
    json.key("waypoints")?;
    push_neighbours(&mut json, network, coordinate, places)?;
    json.end_object()?;
    Ok(json.into_text())
}
