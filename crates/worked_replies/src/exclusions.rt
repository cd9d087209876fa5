//! Requests that exclude classes of ways, and settings of the second version.

use crate::cases::{assert_ends, assert_refused, case_of};
use crate::towns::{Asked, TOLL, ask_paying};
use reply_core::ReplyFault;
use std::alloc::Global;
use std::process::Abort;
use std::thread::Threads;

// A speeds file, the number of its metric, a target over the block with the toll road, and the whole text of the answer.
const PAYING: &str =
    "1,2,80|1|/route/v1/car/0,0;0.001,0.001?overview=false&skip_waypoints=true|{\"code\":\"Ok\",\"data_version\":\"1\",\"routes\":[{\"distance\":222.2,\"duration\":14.8,\"weight\":14.8,\"weight_name\":\"duration\",\"legs\":[{\"distance\":222.2,\"duration\":14.8,\"weight\":14.8,\"summary\":\"\",\"steps\":[]}]}]}
1,2,80|1|/route/v1/car/0,0;0.001,0.001?overview=false&skip_waypoints=true&exclude=toll|{\"code\":\"Ok\",\"data_version\":\"1\",\"routes\":[{\"distance\":222.2,\"duration\":19.8,\"weight\":19.8,\"weight_name\":\"duration\",\"legs\":[{\"distance\":222.2,\"duration\":19.8,\"weight\":19.8,\"summary\":\"\",\"steps\":[]}]}]}
1,2,80|1|/route/v1/car/0,0;0.001,0.001?overview=false&skip_waypoints=true&exclude=toll,toll|{\"code\":\"Ok\",\"data_version\":\"1\",\"routes\":[{\"distance\":222.2,\"duration\":19.8,\"weight\":19.8,\"weight_name\":\"duration\",\"legs\":[{\"distance\":222.2,\"duration\":19.8,\"weight\":19.8,\"summary\":\"\",\"steps\":[]}]}]}
4,3,20|2|/route/v1/car/0,0;0.001,0.001?overview=false&skip_waypoints=true|{\"code\":\"Ok\",\"data_version\":\"2\",\"routes\":[{\"distance\":222.2,\"duration\":19.8,\"weight\":19.8,\"weight_name\":\"duration\",\"legs\":[{\"distance\":222.2,\"duration\":19.8,\"weight\":19.8,\"summary\":\"\",\"steps\":[]}]}]}
4,3,20|2|/route/v1/car/0,0;0.001,0.001?overview=false&skip_waypoints=true&exclude=toll|{\"code\":\"Ok\",\"data_version\":\"2\",\"routes\":[{\"distance\":222.2,\"duration\":29.8,\"weight\":29.8,\"weight_name\":\"duration\",\"legs\":[{\"distance\":222.2,\"duration\":29.8,\"weight\":29.8,\"summary\":\"\",\"steps\":[]}]}]}";

// Asserts what a row says.
fn assert_paying(
    rt: &(impl Threads + Abort + Sync),
    alloc: Global,
    row: &str,
) -> Result<(), ReplyFault> {
    let mut parts = row.split('|');
    let (Some(speeds), Some(number), Some(target), Some(told)) = (
        parts.next(),
        parts.next(),
        parts.next(),
        parts.next(),
    ) else {
        panic!(rt; "a row of four");
    };
    let Ok(number) = number.parse::<u32>() else {
        panic!(rt; "a number");
    };
    let asked = Asked::Target(target);
    let answer = ask_paying(rt, alloc, TOLL, speeds.as_bytes(), number, asked)?;
    assert_eq!(rt; answer.text.as_str(), told, "{target}");
    Ok(())
}

#[test]
fn a_toll_road_is_avoided_where_it_is_asked_for(rt: HostRuntime) -> Result<(), ReplyFault> {
    for row in PAYING.split('\n') {
        assert_paying(&rt, rt.alloc(), row)?;
    }
    Ok(())
}

// The whole text of each answer, or what it ends in.
const AVOIDING: &str =
    "toll|/nearest/v1/car/0.0005,0?number=9|{\"code\":\"Ok\",\"data_version\":\"7\",\"waypoints\":[{\"nodes\":[1,2],\"distance\":0.0,\"name\":\"\",\"location\":[0.000500,0.000000]},{\"nodes\":[2,3],\"distance\":55.5,\"name\":\"\",\
\"location\":[0.001000,0.000000]},{\"nodes\":[4,1],\"distance\":55.5,\"name\":\"\",\"location\":[0.000000,0.000000]},{\"nodes\":[3,4],\"distance\":111.1,\"name\":\"\",\"location\":[0.000500,0.001000]}]}
toll|/nearest/v1/car/0.0005,0?number=9&exclude=toll|{\"code\":\"Ok\",\"data_version\":\"7\",\"waypoints\":[{\"nodes\":[4,1],\"distance\":55.5,\"name\":\"\",\"location\":[0.000000,0.000000]},{\"nodes\":[3,4],\"distance\":111.1,\"name\":\"\",\"location\":[0.000500,0.001000]}]}
toll|/table/v1/car/0,0;0.001,0?skip_waypoints=true|{\"code\":\"Ok\",\"data_version\":\"7\",\"durations\":[[0.0,9.9],[9.9,0.0]]}
toll|/table/v1/car/0,0;0.001,0.0009?exclude=toll&skip_waypoints=true|{\"code\":\"Ok\",\"data_version\":\"7\",\"durations\":[[0.0,19.8],[19.8,0.0]]}
toll|/trip/v1/car/0,0;0.001,0.0004?overview=false&exclude=toll&skip_waypoints=true&roundtrip=false|\"trips\":[{\"distance\":222.2,\"duration\":19.8,\"weight\":19.8,\"weight_name\":\"duration\",\"legs\":[{\"distance\":222.2,\"duration\":19.8,\"weight\":19.8,\"summary\":\"\",\"steps\":[]}]}]}";

#[test]
fn each_service_avoids_what_is_excluded(rt: HostRuntime) -> Result<(), ReplyFault> {
    for row in AVOIDING.split('\n') {
        assert_ends(&rt, rt.alloc(), case_of(&rt, row))?;
    }
    Ok(())
}

// The whole text of each answer: no such set comes behind what is wrong with a target, and before all that depends on a
// metric.
const NO_SET: &str =
    "toll|/route/v1/car/0,0;0.001,0.001?exclude=ferry|{\"code\":\"InvalidValue\",\"message\":\"exclude\"}
toll|/table/v1/car/0,0;0.001,0.001?exclude=toll,ferry|{\"code\":\"InvalidValue\",\"message\":\"exclude\"}
toll|/trip/v1/car/0,0;0.001,0.001?exclude=Toll|{\"code\":\"InvalidValue\",\"message\":\"exclude\"}
toll|/nearest/v1/car/0,0?exclude=ferry&exclude=toll,toll&exclude=ferry|{\"code\":\"InvalidValue\",\"message\":\"exclude\"}
corner|/route/v1/car/0,0;0.001,0.001?exclude=toll|{\"code\":\"InvalidValue\",\"message\":\"exclude\"}
toll|/route/v1/car/0,0;0.001,0.001?exclude=ferry&since=8|{\"code\":\"InvalidValue\",\"message\":\"exclude\"}
toll|/route/v1/car/0,0;0.001,0.001?exclude=toll&since=8|{\"code\":\"AheadOfData\",\"data_version\":\"7\",\"message\":\"since 8\"}
desert|/route/v1/car/0,0;0.001,0.001?exclude=ferry|{\"code\":\"InvalidValue\",\"message\":\"exclude\"}
toll|/nearest/v1/car/0,0?exclude=ferry&number=101|{\"code\":\"TooBig\",\"message\":\"101 results, at most 100\"}
toll|/nearest/v1/car/0.001,0?exclude=toll&radiuses=9|{\"code\":\"NoSegment\",\"data_version\":\"7\",\"message\":\"coordinate 0\"}";

#[test]
fn no_such_set_is_told_in_its_place(rt: HostRuntime) -> Result<(), ReplyFault> {
    for row in NO_SET.split('\n') {
        assert_refused(&rt, rt.alloc(), case_of(&rt, row))?;
    }
    Ok(())
}

// What each answer ends in.
const LIMITED: &str =
    "limited|/route/v1/car/0,0;0.001,0.001?overview=false&skip_waypoints=true|\"legs\":[{\"distance\":222.2,\"duration\":16.4,\"weight\":16.4,\"summary\":\"\",\"steps\":[]}]}]}
gravel|/route/v1/car/0,0;0.001,0.001?overview=false&skip_waypoints=true|\"legs\":[{\"distance\":222.2,\"duration\":39.8,\"weight\":39.8,\"summary\":\"\",\"steps\":[]}]}]}
limited gravel|/route/v1/car/0,0;0.001,0.001?overview=false&skip_waypoints=true|\"legs\":[{\"distance\":222.2,\"duration\":33.0,\"weight\":33.0,\"summary\":\"\",\"steps\":[]}]}]}
unheeded|/route/v1/car/0,0;0.001,0.001?overview=false&skip_waypoints=true|\"legs\":[{\"distance\":222.2,\"duration\":19.8,\"weight\":19.8,\"summary\":\"\",\"steps\":[]}]}]}";

#[test]
fn limits_and_surfaces_are_heeded_where_the_settings_say_so(
    rt: HostRuntime,
) -> Result<(), ReplyFault> {
    for row in LIMITED.split('\n') {
        assert_ends(&rt, rt.alloc(), case_of(&rt, row))?;
    }
    Ok(())
}
