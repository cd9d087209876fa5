//! Whole answers with steps. What they say is worked out from the rules by hand.

use crate::cases::{assert_ends, case_of};
use crate::towns::{Asked, CORNER, CROSSING, ask};
use reply_core::ReplyFault;
use std::alloc::Global;
use std::process::Abort;
use std::thread::Threads;

// The whole text of each answer, or what it ends in.
const STEPS: &str =
    "crossing|/route/v1/car/0.001,0;0,0.001?overview=false&steps=true|{\"code\":\"Ok\",\"data_version\":\"7\",\"routes\":[{\"distance\":222.2,\"duration\":19.8,\"weight\":19.8,\"weight_name\":\"duration\",\"legs\":[{\"distance\":222.2,\
\"duration\":19.8,\"weight\":19.8,\"summary\":\"\",\"steps\":[{\"distance\":111.1,\"duration\":9.9,\"weight\":9.9,\"geometry\":\"?gEgE?\",\"name\":\"South\",\"mode\":\"driving\",\"driving_side\":\"right\",\
\"maneuver\":{\"location\":[0.001000,0.000000],\"bearing_before\":0,\"bearing_after\":0,\"type\":\"depart\"},\"intersections\":[{\"location\":[0.001000,0.000000],\"bearings\":[0],\"entry\":[true],\"out\":0}]},{\"distance\":111.1,\
\"duration\":9.9,\"weight\":9.9,\"geometry\":\"gEgE?fE\",\"name\":\"West\",\"mode\":\"driving\",\"driving_side\":\"right\",\"maneuver\":{\"location\":[0.001000,0.001000],\"bearing_before\":0,\"bearing_after\":270,\"type\":\"turn\",\
\"modifier\":\"left\"},\"intersections\":[{\"location\":[0.001000,0.001000],\"bearings\":[0,90,180,270],\"entry\":[true,true,false,true],\"in\":2,\"out\":3}]},{\"distance\":0.0,\"duration\":0.0,\"weight\":0.0,\"geometry\":\"gE???\",\
\"name\":\"West\",\"mode\":\"driving\",\"driving_side\":\"right\",\"maneuver\":{\"location\":[0.000000,0.001000],\"bearing_before\":270,\"bearing_after\":0,\"type\":\"arrive\"},\"intersections\":[{\"location\":[0.000000,0.001000],\
\"bearings\":[90],\"entry\":[true],\"in\":0}]}]}]}],\"waypoints\":[{\"distance\":0.0,\"name\":\"South\",\"location\":[0.001000,0.000000]},{\"distance\":0.0,\"name\":\"West\",\"location\":[0.000000,0.001000]}]}
left crossing|/route/v1/car/0.001,0;0,0.001?overview=false&steps=true&skip_waypoints=true|\"steps\":[{\"distance\":111.1,\"duration\":9.9,\"weight\":9.9,\"geometry\":\"?gEgE?\",\"name\":\"South\",\"mode\":\"driving\",\
\"driving_side\":\"left\",\"maneuver\":{\"location\":[0.001000,0.000000],\"bearing_before\":0,\"bearing_after\":0,\"type\":\"depart\"},\"intersections\":[{\"location\":[0.001000,0.000000],\"bearings\":[0],\"entry\":[true],\"out\":0}]},\
{\"distance\":111.1,\"duration\":9.9,\"weight\":9.9,\"geometry\":\"gEgE?fE\",\"name\":\"West\",\"mode\":\"driving\",\"driving_side\":\"left\",\"maneuver\":{\"location\":[0.001000,0.001000],\"bearing_before\":0,\"bearing_after\":270,\
\"type\":\"turn\",\"modifier\":\"left\"},\"intersections\":[{\"location\":[0.001000,0.001000],\"bearings\":[0,90,180,270],\"entry\":[true,true,false,true],\"in\":2,\"out\":3}]},{\"distance\":0.0,\"duration\":0.0,\"weight\":0.0,\
\"geometry\":\"gE???\",\"name\":\"West\",\"mode\":\"driving\",\"driving_side\":\"left\",\"maneuver\":{\"location\":[0.000000,0.001000],\"bearing_before\":270,\"bearing_after\":0,\"type\":\"arrive\"},\
\"intersections\":[{\"location\":[0.000000,0.001000],\"bearings\":[90],\"entry\":[true],\"in\":0}]}]}]}]}
corner|/route/v1/car/0,0;0.001,0.001?steps=true&overview=full&annotations=true&skip_waypoints=true|\"geometry\":\"??gE??gE\",\"legs\":[{\"distance\":222.2,\"duration\":19.8,\"weight\":19.8,\"summary\":\"\",\"steps\":[{\"distance\":222.2,\
\"duration\":19.8,\"weight\":19.8,\"geometry\":\"??gE??gE\",\"name\":\"\",\"mode\":\"driving\",\"driving_side\":\"right\",\"maneuver\":{\"location\":[0.000000,0.000000],\"bearing_before\":0,\"bearing_after\":0,\"type\":\"depart\"},\
\"intersections\":[{\"location\":[0.000000,0.000000],\"bearings\":[0],\"entry\":[true],\"out\":0},{\"location\":[0.000000,0.001000],\"bearings\":[90,180],\"entry\":[true,false],\"in\":1,\"out\":0}]},{\"distance\":0.0,\"duration\":0.0,\
\"weight\":0.0,\"geometry\":\"gEgE??\",\"name\":\"\",\"mode\":\"driving\",\"driving_side\":\"right\",\"maneuver\":{\"location\":[0.001000,0.001000],\"bearing_before\":90,\"bearing_after\":0,\"type\":\"arrive\"},\
\"intersections\":[{\"location\":[0.001000,0.001000],\"bearings\":[270],\"entry\":[true],\"in\":0}]}],\"annotation\":{\"distance\":[111.1,111.1],\"duration\":[9.9,9.9],\"weight\":[9.9,9.9],\"nodes\":[1,2,3],\"speed\":[11.2,11.2]}}]}]}";

#[test]
fn steps_are_told_where_they_are_asked_for(rt: HostRuntime) -> Result<(), ReplyFault> {
    for row in STEPS.split('\n') {
        assert_ends(&rt, rt.alloc(), case_of(&rt, row))?;
    }
    Ok(())
}

// Both directions of the street are as near, so either may be taken; but the driver arrives by the one that he
// departed by.
#[test]
fn a_route_to_its_own_begin_has_two_steps(rt: HostRuntime) -> Result<(), ReplyFault> {
    let target = Asked::Target(
        "/route/v1/car/0.0005,0.001;0.0005,0.001?steps=true&skip_waypoints=true",
    );
    let answer = ask(&rt, rt.alloc(), CORNER, target)?;
    let east =
        "{\"code\":\"Ok\",\"data_version\":\"7\",\"routes\":[{\"distance\":0.0,\"duration\":0.0,\"weight\":0.0,\"weight_name\":\"duration\",\"geometry\":\"gEcB??\",\"legs\":[{\"distance\":0.0,\"duration\":0.0,\"weight\":0.0,\"summary\":\"\",\
\"steps\":[{\"distance\":0.0,\"duration\":0.0,\"weight\":0.0,\"geometry\":\"gEcB??\",\"name\":\"\",\"mode\":\"driving\",\"driving_side\":\"right\",\"maneuver\":{\"location\":[0.000500,0.001000],\"bearing_before\":0,\"bearing_after\":90,\
\"type\":\"depart\"},\"intersections\":[{\"location\":[0.000500,0.001000],\"bearings\":[90],\"entry\":[true],\"out\":0}]},{\"distance\":0.0,\"duration\":0.0,\"weight\":0.0,\"geometry\":\"gEcB??\",\"name\":\"\",\"mode\":\"driving\",\
\"driving_side\":\"right\",\"maneuver\":{\"location\":[0.000500,0.001000],\"bearing_before\":90,\"bearing_after\":0,\"type\":\"arrive\"},\"intersections\":[{\"location\":[0.000500,0.001000],\"bearings\":[270],\"entry\":[true],\
\"in\":0}]}]}]}]}";
    let west =
        "{\"code\":\"Ok\",\"data_version\":\"7\",\"routes\":[{\"distance\":0.0,\"duration\":0.0,\"weight\":0.0,\"weight_name\":\"duration\",\"geometry\":\"gEcB??\",\"legs\":[{\"distance\":0.0,\"duration\":0.0,\"weight\":0.0,\"summary\":\"\",\
\"steps\":[{\"distance\":0.0,\"duration\":0.0,\"weight\":0.0,\"geometry\":\"gEcB??\",\"name\":\"\",\"mode\":\"driving\",\"driving_side\":\"right\",\"maneuver\":{\"location\":[0.000500,0.001000],\"bearing_before\":0,\"bearing_after\":270,\
\"type\":\"depart\"},\"intersections\":[{\"location\":[0.000500,0.001000],\"bearings\":[270],\"entry\":[true],\"out\":0}]},{\"distance\":0.0,\"duration\":0.0,\"weight\":0.0,\"geometry\":\"gEcB??\",\"name\":\"\",\"mode\":\"driving\",\
\"driving_side\":\"right\",\"maneuver\":{\"location\":[0.000500,0.001000],\"bearing_before\":270,\"bearing_after\":0,\"type\":\"arrive\"},\"intersections\":[{\"location\":[0.000500,0.001000],\"bearings\":[90],\"entry\":[true],\
\"in\":0}]}]}]}]}";
    assert!(rt; answer.text.as_str() == east || answer.text.as_str() == west);
    Ok(())
}

// Forms of lines, each with the lines of three steps in it.
const FORMS: &str =
    "polyline6|\"geometry\":\"?o}@o}@?\",\"name\":\"South\"|\"geometry\":\"o}@o}@?n}@\",\"name\":\"West\"|\"geometry\":\"o}@???\",\"name\":\"West\"
geojson|\"geometry\":{\"coordinates\":[[0.001000,0.000000],[0.001000,0.001000]],\"type\":\"LineString\"},\"name\":\"South\"|\"geometry\":{\"coordinates\":[[0.001000,0.001000],[0.000000,0.001000]],\"type\":\"LineString\"},\"name\":\"West\"|\"geometry\":{\"coordinates\":[[0.000000,0.001000],[0.000000,0.001000]],\"type\":\"LineString\"},\"name\":\"West\"";

// Asserts that an answer tells these lines, where they are asked for in this form.
fn assert_lines(
    rt: &(impl Threads + Abort + Sync),
    alloc: Global,
    form: &str,
    lines: [&str; 3],
) -> Result<(), ReplyFault> {
    let target = format!(in alloc;
        "/route/v1/car/0.001,0;0,0.001?overview=false&steps=true&geometries={form}"
    )?;
    let answer = ask(rt, alloc, CROSSING, Asked::Target(target.as_str()))?;
    for line in lines {
        assert!(rt; answer.text.as_str().contains(line), "{form}");
    }
    Ok(())
}

// The lines of the steps are those that the leg's line is cut to.
#[test]
fn steps_have_their_lines_in_the_form_that_is_asked_for(rt: HostRuntime) -> Result<(), ReplyFault> {
    for row in FORMS.split('\n') {
        let mut parts = row.split('|');
        match (parts.next(), parts.next(), parts.next(), parts.next()) {
            (Some(form), Some(first), Some(second), Some(third)) => {
                assert_lines(&rt, rt.alloc(), form, [first, second, third])?;
            }
            _ => panic!(rt; "a row of four"),
        }
    }
    Ok(())
}
