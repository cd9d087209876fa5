//! What a driver is told at roundabouts. What is said is worked out from the rules by hand.

use crate::cases::{Case, assert_ends, case_of};
use crate::towns::{Asked, ask};
use reply_core::ReplyFault;
use std::alloc::Global;
use std::process::Abort;
use std::thread::Threads;

// A whole answer: the way through a roundabout, past its first exit.
const THROUGH: &str =
    "roundabout|/route/v1/car/-0.001,0;0.002,0.001?steps=true|{\"code\":\"Ok\",\"data_version\":\"7\",\"routes\":[{\"distance\":444.4,\"duration\":39.6,\"weight\":39.6,\"weight_name\":\"duration\",\"geometry\":\"?fE?oKgE??gE\",\
\"legs\":[{\"distance\":444.4,\"duration\":39.6,\"weight\":39.6,\"summary\":\"\",\"steps\":[{\"distance\":111.1,\"duration\":9.9,\"weight\":9.9,\"geometry\":\"?fE?gE\",\"name\":\"\",\"mode\":\"driving\",\"driving_side\":\"right\",\
\"maneuver\":{\"location\":[-0.001000,0.000000],\"bearing_before\":0,\"bearing_after\":90,\"type\":\"depart\"},\"intersections\":[{\"location\":[-0.001000,0.000000],\"bearings\":[90],\"entry\":[true],\"out\":0}]},{\"distance\":222.2,\
\"duration\":19.8,\"weight\":19.8,\"geometry\":\"???gEgE?\",\"name\":\"\",\"mode\":\"driving\",\"driving_side\":\"right\",\"maneuver\":{\"location\":[0.000000,0.000000],\"bearing_before\":90,\"bearing_after\":90,\"type\":\"roundabout\",\
\"modifier\":\"straight\",\"exit\":2},\"intersections\":[{\"location\":[0.000000,0.000000],\"bearings\":[0,90,270],\"entry\":[false,true,false],\"in\":2,\"out\":1},{\"location\":[0.001000,0.000000],\"bearings\":[0,90,270],\"entry\":[true,\
true,false],\"in\":2,\"out\":0}]},{\"distance\":111.1,\"duration\":9.9,\"weight\":9.9,\"geometry\":\"gEgE?gE\",\"name\":\"\",\"mode\":\"driving\",\"driving_side\":\"right\",\"maneuver\":{\"location\":[0.001000,0.001000],\
\"bearing_before\":0,\"bearing_after\":90,\"type\":\"exit roundabout\",\"modifier\":\"right\",\"exit\":2},\"intersections\":[{\"location\":[0.001000,0.001000],\"bearings\":[90,180,270],\"entry\":[true,false,true],\"in\":1,\"out\":0}]},\
{\"distance\":0.0,\"duration\":0.0,\"weight\":0.0,\"geometry\":\"gEoK??\",\"name\":\"\",\"mode\":\"driving\",\"driving_side\":\"right\",\"maneuver\":{\"location\":[0.002000,0.001000],\"bearing_before\":90,\"bearing_after\":0,\
\"type\":\"arrive\"},\"intersections\":[{\"location\":[0.002000,0.001000],\"bearings\":[270],\"entry\":[true],\"in\":0}]}]}]}],\"waypoints\":[{\"distance\":0.0,\"name\":\"\",\"location\":[-0.001000,0.000000]},{\"distance\":0.0,\
\"name\":\"\",\"location\":[0.002000,0.001000]}]}";

// What is told on the way from the west, and where a way begins in the roundabout.
const TOLD: &str =
    "roundabout|/route/v1/car/-0.001,0;0.001,0.0005?steps=true|\"type\":\"roundabout\",\"modifier\":\"straight\"}
roundabout|/route/v1/car/-0.001,0;0.002,0?steps=true|\"type\":\"roundabout\",\"modifier\":\"straight\",\"exit\":1}
roundabout|/route/v1/car/-0.001,0;0.002,0?steps=true|\"type\":\"exit roundabout\",\"modifier\":\"straight\",\"exit\":1}
roundabout|/route/v1/car/0.0005,0;0.002,0.001?steps=true|\"type\":\"exit roundabout\",\"modifier\":\"right\",\"exit\":2}
roundabout|/route/v1/car/0.001,0.0005;0.002,0.001?steps=true|\"type\":\"exit roundabout\",\"modifier\":\"right\",\"exit\":1}
joined roundabout|/route/v1/car/-0.001,0;0.002,0.001?steps=true|\"type\":\"roundabout\",\"modifier\":\"straight\",\"exit\":1}
joined roundabout|/route/v1/car/-0.001,0;0.002,0.001?steps=true|\"type\":\"exit roundabout\",\"modifier\":\"right\",\"exit\":1}";

// What isn't told: of a roundabout that a way doesn't leave, or doesn't enter.
const UNTOLD: &str = "roundabout|/route/v1/car/-0.001,0;0.001,0.0005?steps=true|\"exit\"
roundabout|/route/v1/car/0.0005,0;0.002,0.001?steps=true|\"type\":\"roundabout\"
roundabout|/route/v1/car/0.0005,0;0.001,0.0005?steps=true|\"modifier\"";

// Asserts whether the text of the answer to a case has these words.
fn assert_has(
    rt: &(impl Threads + Abort + Sync),
    alloc: Global,
    case: Case<'_>,
    want: bool,
) -> Result<(), ReplyFault> {
    let answer = ask(rt, alloc, case.town, Asked::Target(case.target))?;
    let has = answer.text.as_str().contains(case.told);
    assert!(rt; has == want, "{}", case.told);
    Ok(())
}

#[test]
fn the_exits_of_a_roundabout_are_counted(rt: HostRuntime) -> Result<(), ReplyFault> {
    assert_ends(&rt, rt.alloc(), case_of(&rt, THROUGH))
}

// A street that only leads to the roundabout is no exit; where a way begins in it the exits before aren't counted.
#[test]
fn a_roundabout_is_told_where_it_is_entered_and_left(rt: HostRuntime) -> Result<(), ReplyFault> {
    for row in TOLD.split('\n') {
        assert_has(&rt, rt.alloc(), case_of(&rt, row), true)?;
    }
    Ok(())
}

#[test]
fn inside_a_roundabout_nothing_is_told(rt: HostRuntime) -> Result<(), ReplyFault> {
    for row in UNTOLD.split('\n') {
        assert_has(&rt, rt.alloc(), case_of(&rt, row), false)?;
    }
    Ok(())
}
