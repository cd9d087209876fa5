//! The steps of legs.

ghost use Rattle.std.specs.Prelude.{◌≡◌, OnOk, codes, map, option_map, pos};
ghost use Rattle.json_text.specs.Values.{text, whole};
ghost use Rattle.json_text.specs.Drafts.{TakesKey, TakesValue, with_value};
ghost use Rattle.json_text.specs.Wholes.{array_of, optional_member, with_members};
ghost use Rattle.step_texts.specs.Steps.{kind_text, maneuver_value, modifier_text, step_value};

use crate::driving_sides::DrivingSide;
use crate::intersections::push_intersections;
use crate::lines::push_geometry;
use crate::totals::{leg_totals, push_totals};
use json_text::Json;
use option_values::Geometries;
use road_base::Modifier;
use route_steps::{Maneuver, ManeuverKind, Step};
use std::alloc::{AllocError, Global};

// What a driver is to do, in the words of replies.
fn kind_text(kind: ManeuverKind) -> &'static str
    ensures { result.now ≡ kind_text kind }
{
    match kind {
        ManeuverKind::Depart => "depart",
        ManeuverKind::Arrive => "arrive",
        ManeuverKind::Turn => "turn",
        ManeuverKind::Continue => "continue",
        ManeuverKind::NewName => "new name",
        ManeuverKind::Roundabout => "roundabout",
        ManeuverKind::ExitRoundabout => "exit roundabout",
    }
}

// How a turn bends, in the words of replies.
fn modifier_text(bend: Modifier) -> &'static str
    ensures { result.now ≡ modifier_text bend }
{
    match bend {
        Modifier::Straight => "straight",
        Modifier::SlightRight => "slight right",
        Modifier::Right => "right",
        Modifier::SharpRight => "sharp right",
        Modifier::Uturn => "uturn",
        Modifier::SharpLeft => "sharp left",
        Modifier::Left => "left",
        Modifier::SlightLeft => "slight left",
    }
}

// How a turn bends, where there is one.
fn push_modifier(json: &mut Json, bend: Option<Modifier>) -> Result<(), AllocError>
    requires { TakesKey json.old }
    ensures ok { OnOk result (json.new ≡ with_members (optional_member (codes "modifier") (option_map (λ bend. text (modifier_text bend)) bend)) json.old) }
    ensures more { OnOk result (TakesKey json.new) }
{
    match bend {
        Some(bend) => json.text_member("modifier", modifier_text(bend)),
        None => Ok(()),
    }
}

// By which exit a roundabout is left, where that is told.
fn push_exit(json: &mut Json, exit: Option<u32>) -> Result<(), AllocError>
    requires { TakesKey json.old }
    ensures ok { OnOk result (json.new ≡ with_members (optional_member (codes "exit") (option_map (λ number. whole (pos number)) exit)) json.old) }
    ensures more { OnOk result (TakesKey json.new) }
{
    match exit {
        Some(number) => json.count_member("exit", u128::from(number)),
        None => Ok(()),
    }
}

// What a driver is told where a step begins.
fn push_maneuver(json: &mut Json, maneuver: &Maneuver) -> Result<(), AllocError>
    requires { TakesValue json.old }
    ensures { OnOk result (json.new ≡ with_value (maneuver_value maneuver.now) json.old) }
{
    json.begin_object()?;
    json.key("location")?;
    json.degrees(maneuver.location)?;
    json.count_member("bearing_before", u128::from(maneuver.before))?;
    json.count_member("bearing_after", u128::from(maneuver.after))?;
    json.text_member("type", kind_text(maneuver.kind))?;
    push_modifier(json, maneuver.modifier)?;
    push_exit(json, maneuver.exit)?;
    json.end_object()?;
    Ok(())
}

// A step of a vehicle that drives on this side, with its line in the form that is asked for.
fn push_step(
    alloc: Global,
    json: &mut Json,
    form: Geometries,
    side: DrivingSide,
    step: &Step,
) -> Result<(), AllocError>
    requires { TakesValue json.old }
    ensures { OnOk result (json.new ≡ with_value (step_value form side step.now) json.old) }
{
    json.begin_object()?;
    push_totals(json, leg_totals(step.cost))?;
    push_geometry(alloc, json, form, step.points.as_slice())?;
    json.text_member("name", step.name.as_str())?;
    json.text_member("mode", "driving")?;
    json.text_member("driving_side", side.text())?;
    json.key("maneuver")?;
    push_maneuver(json, &step.maneuver)?;
    json.key("intersections")?;
    push_intersections(json, step.intersections.as_slice())?;
    json.end_object()?;
    Ok(())
}

/// The steps of a leg, in their order, of a vehicle that drives on this side, each with its line in the form that is
/// asked for. An `Err` is want of memory.
pub fn push_steps(
    alloc: Global,
    json: &mut Json,
    form: Geometries,
    side: DrivingSide,
    steps: &[Step],
) -> Result<(), AllocError>
    requires { TakesValue json.old }
    ensures { OnOk result (json.new ≡ with_value (array_of (map (step_value form side) steps.now)) json.old) }
{
    json.begin_list()?;
    for step in steps {
        push_step(alloc, json, form, side, step)?;
    }
    json.end_list()?;
    Ok(())
}
