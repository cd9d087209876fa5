//! Runs under traffic whose rows have rates, and under settings that weigh ways by their length: routes, tables and trips of
//! least weight, at the duration that these take.

use road_base::Status;
use run_cases::{Case, LINE, ends};
use std::alloc::AllocError;

// A metre of the first street counts as much as a second.
const BY_RATE: &[u8] = b"{\"code\":\"Ok\",\"data_version\":\"1\",\"unmatched\":0}\n\
{\"code\":\"Ok\",\"data_version\":\"1\",\"routes\":[{\"distance\":222.2,\"duration\":19.8,\"weight\":121.0,\
\"weight_name\":\"duration\",\"legs\":[{\"distance\":222.2,\"duration\":19.8,\"weight\":121.0,\"summary\":\"\",\
\"steps\":[]}]}],\"waypoints\":[{\"distance\":0.0,\"name\":\"\",\"location\":[0.000000,0.000000]},{\"distance\":0.0,\
\"name\":\"\",\"location\":[0.001000,0.001000]}]}\n";

// Runs over the town with this traffic and then its route.
const ROUTE: &[u8] = b"TRAFFIC speeds.csv -\nGET /route/v1/car/0,0;0.001,0.001?overview=false\n";

#[test]
fn a_rate_weighs_and_leaves_the_duration(rt: HostRuntime) -> Result<(), AllocError> {
    let case = Case {
        rows: b"1,2,40,1\n",
        ..Case::over_town(ROUTE)
    };
    assert!(rt; ends(&rt, rt.alloc(), case, Status::Ok, BY_RATE)?);
    Ok(())
}

// The last row of a street decides, and one without a rate has none.
#[test]
fn the_last_row_has_the_rate(rt: HostRuntime) -> Result<(), AllocError> {
    let case = Case {
        rows: b"1,2,40,7\n1,2,40,1\n2,3,40,1\n2,3,40\n",
        ..Case::over_town(ROUTE)
    };
    assert!(rt; ends(&rt, rt.alloc(), case, Status::Ok, BY_RATE)?);
    Ok(())
}

// Steps, annotations and a way there and back.
const TOLD: &[u8] =
    b"TRAFFIC speeds.csv -\nGET /route/v1/car/0,0;0.001,0.001?overview=false&annotations=weight,duration&steps=true\nGET /trip/v1/car/0,0;0.001,0.001?overview=false&skip_waypoints=true\n";

const TOLD_BY_RATE: &[u8] = b"{\"code\":\"Ok\",\"data_version\":\"1\",\"unmatched\":0}\n\
{\"code\":\"Ok\",\"data_version\":\"1\",\"routes\":[{\"distance\":222.2,\"duration\":19.8,\"weight\":121.0,\
\"weight_name\":\"duration\",\"legs\":[{\"distance\":222.2,\"duration\":19.8,\"weight\":121.0,\"summary\":\"\",\
\"steps\":[{\"distance\":222.2,\"duration\":19.8,\"weight\":121.0,\"geometry\":\"??gE??gE\",\"name\":\"\",\
\"mode\":\"driving\",\"driving_side\":\"right\",\"maneuver\":{\"location\":[0.000000,0.000000],\"bearing_before\":0,\
\"bearing_after\":0,\"type\":\"depart\"},\"intersections\":[{\"location\":[0.000000,0.000000],\"bearings\":[0],\
\"entry\":[true],\"out\":0},{\"location\":[0.000000,0.001000],\"bearings\":[90,180],\"entry\":[true,false],\"in\":1,\
\"out\":0}]},{\"distance\":0.0,\"duration\":0.0,\"weight\":0.0,\"geometry\":\"gEgE??\",\"name\":\"\",\
\"mode\":\"driving\",\"driving_side\":\"right\",\"maneuver\":{\"location\":[0.001000,0.001000],\
\"bearing_before\":90,\"bearing_after\":0,\"type\":\"arrive\"},\"intersections\":[{\"location\":[0.001000,0.001000],\
\"bearings\":[270],\"entry\":[true],\"in\":0}]}],\"annotation\":{\"duration\":[9.9,9.9],\"weight\":[111.1,9.9]}}]}],\
\"waypoints\":[{\"distance\":0.0,\"name\":\"\",\"location\":[0.000000,0.000000]},{\"distance\":0.0,\"name\":\"\",\
\"location\":[0.001000,0.001000]}]}\n\
{\"code\":\"Ok\",\"data_version\":\"1\",\"trips\":[{\"distance\":444.4,\"duration\":39.6,\"weight\":140.8,\
\"weight_name\":\"duration\",\"legs\":[{\"distance\":222.2,\"duration\":19.8,\"weight\":121.0,\"summary\":\"\",\
\"steps\":[]},{\"distance\":222.2,\"duration\":19.8,\"weight\":19.8,\"summary\":\"\",\"steps\":[]}]}]}\n";

#[test]
fn steps_annotations_and_trips_tell_the_weight(rt: HostRuntime) -> Result<(), AllocError> {
    let case = Case {
        rows: b"1,2,40,1\n",
        ..Case::over_town(TOLD)
    };
    assert!(rt; ends(&rt, rt.alloc(), case, Status::Ok, TOLD_BY_RATE)?);
    Ok(())
}

// A block with two ways round it, both as long.
const BLOCK: &[u8] =
    b"n1 x0 y0\nn2 x0.001 y0\nn3 x0.001 y0.001\nn4 x0 y0.001\nw20 Thighway=residential Nn1,n2,n3,n4,n1\n";

// The way by node 2 is slower, and weighs next to nothing on its first half.
const ROUND_THE_BLOCK: &[u8] =
    b"TRAFFIC speeds.csv -\nGET /route/v1/car/0,0;0.001,0.001?overview=full&geometries=geojson\nGET /table/v1/car/0,0;0.001,0.001?skip_waypoints=true\n";

const BY_THE_LIGHTER_WAY: &[u8] = b"{\"code\":\"Ok\",\"data_version\":\"1\",\"unmatched\":0}\n\
{\"code\":\"Ok\",\"data_version\":\"1\",\"routes\":[{\"distance\":222.2,\"duration\":29.8,\"weight\":10.0,\
\"weight_name\":\"duration\",\
\"geometry\":{\"coordinates\":[[0.000000,0.000000],[0.001000,0.000000],[0.001000,0.001000]],\"type\":\"LineString\"},\"legs\":[{\"distance\":222.2,\"duration\":29.8,\"weight\":10.0,\
\"summary\":\"\",\"steps\":[]}]}],\"waypoints\":[{\"distance\":0.0,\"name\":\"\",\"location\":[0.000000,0.000000]},\
{\"distance\":0.0,\"name\":\"\",\"location\":[0.001000,0.001000]}]}\n\
{\"code\":\"Ok\",\"data_version\":\"1\",\"durations\":[[0.0,29.8],[19.8,0.0]]}\n";

#[test]
fn the_lighter_way_is_taken_though_it_lasts_longer(rt: HostRuntime) -> Result<(), AllocError> {
    let case = Case {
        map: BLOCK,
        rows: b"1,2,20,1000\n",
        ..Case::over_town(ROUND_THE_BLOCK)
    };
    assert!(rt; ends(&rt, rt.alloc(), case, Status::Ok, BY_THE_LIGHTER_WAY)?);
    Ok(())
}

const SETTINGS_BY_DISTANCE: &[u8] =
    b"name = \"car\"\nvehicle = \"motorcar\"\nweight_name = \"distance\"\nu_turn_penalty = 200\n\n[speeds]\nresidential = 40\n";

const BY_DISTANCE: &[u8] =
    b"{\"code\":\"Ok\",\"data_version\":\"0\",\"routes\":[{\"distance\":222.2,\"duration\":19.8,\"weight\":222.2,\"weight_name\":\"distance\",\"legs\":[{\"distance\":222.2,\"duration\":19.8,\"weight\":222.2,\"summary\":\"\",\"steps\":[]}]}],\"waypoints\":[{\"distance\":0.0,\"name\":\"\",\"location\":[0.000000,0.000000]},{\"distance\":0.0,\"name\":\"\",\"location\":[0.001000,0.001000]}]}\n";

#[test]
fn settings_weigh_by_distance(rt: HostRuntime) -> Result<(), AllocError> {
    let case = Case {
        settings: SETTINGS_BY_DISTANCE,
        ..Case::over_town(LINE)
    };
    assert!(rt; ends(&rt, rt.alloc(), case, Status::Ok, BY_DISTANCE)?);
    Ok(())
}
