//! Routes with steps, by a run over worked maps.

use run_cases::{Case, SETTINGS, shows};
use std::alloc::{AllocError, Global};
use std::net::{Net, TcpListener, TcpStream};
use std::process::Abort;
use std::sync::Wait;
use std::thread::Threads;

const LEFT_SIDE: &[u8] =
    b"name = \"car\"\nvehicle = \"motorcar\"\nu_turn_penalty = 200\ndriving_side = \"left\"\n[speeds]\nresidential = 40\n";

// Four streets that meet at a crossing, two of which have a name.
const CROSSING: &[u8] =
    b"n1 x0.001 y0\nn2 x0.002 y0.001\nn3 x0.001 y0.002\nn4 x0 y0.001\nn5 x0.001 y0.001\nw1 Thighway=residential,name=South Nn1,n5\nw2 Thighway=residential Nn5,n2\nw3 Thighway=residential Nn5,n3\nw4 Thighway=residential,name=West Nn4,n5\n";

// From the south to the west, but for the side that is driven on, for which dollar signs stand.
const SOUTH_TO_WEST: &str =
    "\"steps\":[{\"distance\":111.1,\"duration\":9.9,\"weight\":9.9,\"geometry\":\"?gEgE?\",\"name\":\"South\",\
\"mode\":\"driving\",\"driving_side\":\"$\",\"maneuver\":{\"location\":[0.001000,0.000000],\"bearing_before\":0,\
\"bearing_after\":0,\"type\":\"depart\"},\"intersections\":[{\"location\":[0.001000,0.000000],\"bearings\":[0],\
\"entry\":[true],\"out\":0}]},{\"distance\":111.1,\"duration\":9.9,\"weight\":9.9,\"geometry\":\"gEgE?fE\",\
\"name\":\"West\",\"mode\":\"driving\",\"driving_side\":\"$\",\"maneuver\":{\"location\":[0.001000,0.001000],\
\"bearing_before\":0,\"bearing_after\":270,\"type\":\"turn\",\"modifier\":\"left\"},\
\"intersections\":[{\"location\":[0.001000,0.001000],\"bearings\":[0,90,180,270],\"entry\":[true,true,false,true],\
\"in\":2,\"out\":3}]},{\"distance\":0.0,\"duration\":0.0,\"weight\":0.0,\"geometry\":\"gE???\",\"name\":\"West\",\
\"mode\":\"driving\",\"driving_side\":\"$\",\"maneuver\":{\"location\":[0.000000,0.001000],\"bearing_before\":270,\
\"bearing_after\":0,\"type\":\"arrive\"},\"intersections\":[{\"location\":[0.000000,0.001000],\"bearings\":[90],\
\"entry\":[true],\"in\":0}]}]";

// On one street, from a place to itself, but for the bearing, for which dollar signs stand.
const TO_ITSELF: &str =
    "\"steps\":[{\"distance\":0.0,\"duration\":0.0,\"weight\":0.0,\"geometry\":\"gEcB??\",\"name\":\"\",\
\"mode\":\"driving\",\"driving_side\":\"right\",\"maneuver\":{\"location\":[0.000500,0.001000],\"bearing_before\":0,\
\"bearing_after\":$,\"type\":\"depart\"},\"intersections\":[{\"location\":[0.000500,0.001000],\"bearings\":[$],\
\"entry\":[true],\"out\":0}]},{\"distance\":0.0,\"duration\":0.0,\"weight\":0.0,\"geometry\":\"gEcB??\",\
\"name\":\"\",\"mode\":\"driving\",\"driving_side\":\"right\",\"maneuver\":{\"location\":[0.000500,0.001000],\
\"bearing_before\":$,\"bearing_after\":0,\"type\":\"arrive\"},\"intersections\":[{\"location\":[0.000500,0.001000],\
\"bearings\":[";

const ROUND_THE_CORNER: &str =
    "\"geometry\":\"??gE??gE\",\"legs\":[{\"distance\":222.2,\"duration\":19.8,\"weight\":19.8,\"summary\":\"\",\
\"steps\":[{\"distance\":222.2,\"duration\":19.8,\"weight\":19.8,\"geometry\":\"??gE??gE\",\"name\":\"\",\
\"mode\":\"driving\",\"driving_side\":\"right\",\"maneuver\":{\"location\":[0.000000,0.000000],\"bearing_before\":0,\
\"bearing_after\":0,\"type\":\"depart\"},\"intersections\":[{\"location\":[0.000000,0.000000],\"bearings\":[0],\
\"entry\":[true],\"out\":0},{\"location\":[0.000000,0.001000],\"bearings\":[90,180],\"entry\":[true,false],\"in\":1,\
\"out\":0}]},{\"distance\":0.0,\"duration\":0.0,\"weight\":0.0,\"geometry\":\"gEgE??\",\"name\":\"\",\
\"mode\":\"driving\",\"driving_side\":\"right\",\"maneuver\":{\"location\":[0.001000,0.001000],\
\"bearing_before\":90,\"bearing_after\":0,\"type\":\"arrive\"},\"intersections\":[{\"location\":[0.001000,0.001000],\
\"bearings\":[270],\"entry\":[true],\"in\":0}]}],\"annotation\":{\"distance\":[111.1,111.1],\"duration\":[9.9,9.9],\
\"weight\":[9.9,9.9],\"nodes\":[1,2,3],\"speed\":[11.2,11.2]}}]}]}\n";

// The text, with this in the place of each dollar sign.
fn filled(alloc: Global, text: &str, between: &str) -> Result<String, AllocError> {
    let mut filled = String::new(alloc);
    let mut first = true;
    for part in text.split('$') {
        if !first {
            filled.push_str(between)?;
        }
        first = false;
        filled.push_str(part)?;
    }
    Ok(filled)
}

// Asserts that steps over the crossing tell this side, under these settings.
fn assert_side(
    rt: &(impl Abort + Threads + Wait + Net<Listener = TcpListener, Stream = TcpStream> + Sync),
    alloc: Global,
    settings: &[u8],
    side: &str,
) -> Result<(), AllocError> {
    let case = Case {
        map: CROSSING,
        settings,
        ..Case::over_town(b"GET /route/v1/car/0.001,0;0,0.001?overview=false&steps=true\n")
    };
    let steps = filled(alloc, SOUTH_TO_WEST, side)?;
    assert!(rt; shows(rt, alloc, case, steps.as_str())?, "{side}");
    Ok(())
}

#[test]
fn steps_are_told_on_either_side(rt: HostRuntime) -> Result<(), AllocError> {
    assert_side(&rt, rt.alloc(), SETTINGS, "right")?;
    assert_side(&rt, rt.alloc(), LEFT_SIDE, "left")
}

#[test]
fn steps_stand_beside_the_line_and_annotations(rt: HostRuntime) -> Result<(), AllocError> {
    let case = Case::over_town(
        b"GET /route/v1/car/0,0;0.001,0.001?steps=true&overview=full&annotations=true&skip_waypoints=true\n",
    );
    assert!(rt; shows(&rt, rt.alloc(), case, ROUND_THE_CORNER)?);
    Ok(())
}

// Both directions of the street are as near, so either may be taken; but the driver arrives by the one that he
// departed by.
#[test]
fn a_route_to_its_own_begin_has_two_steps(rt: HostRuntime) -> Result<(), AllocError> {
    let case = Case::over_town(
        b"GET /route/v1/car/0.0005,0.001;0.0005,0.001?steps=true&skip_waypoints=true\n",
    );
    let east = filled(rt.alloc(), TO_ITSELF, "90")?;
    let west = filled(rt.alloc(), TO_ITSELF, "270")?;
    assert!(rt;
        shows(&rt, rt.alloc(), case, east.as_str())? || shows(&rt, rt.alloc(), case, west.as_str())?
    );
    Ok(())
}
