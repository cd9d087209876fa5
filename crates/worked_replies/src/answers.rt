//! Whole answers over small towns.

ghost use Rattle.std.specs.Prelude.{◌≤◌, All};
ghost use Rattle.std.specs.List.Sorted.{IsStrictlyIncreasing};

use crate::cases::{Case, assert_ends, assert_refused, case_of};
use crate::towns::{Asked, BLOCK, CORNER, DESERT, LANE, Town, ask, ask_at, ask_over};
use customized::SERVER_LIMITS;
use refusal_texts::Code;
use reply_core::{Answer, ReplyFault};
use std::alloc::{AllocError, Global};
use std::process::Abort;
use std::thread::Threads;

const FIRST_ROUTE: &str =
    "{\"code\":\"Ok\",\"data_version\":\"7\",\"routes\":[{\"distance\":222.2,\"duration\":19.8,\"weight\":19.8,\"weight_name\":\"duration\",\"legs\":[{\"distance\":222.2,\"duration\":19.8,\"weight\":19.8,\"summary\":\"\",\"steps\":[]}]}],\"waypoints\":[{\"distance\":0.0,\"name\":\"\",\"location\":[0.000000,0.000000]},{\"distance\":0.0,\"name\":\"\",\"location\":[0.001000,0.001000]}]}";

// Asserts that the first route is found over cells of these limits.
fn assert_first_route(
    rt: &(impl Threads + Abort + Sync),
    alloc: Global,
    limits: &[u32],
) -> Result<(), ReplyFault>
    requires ascending { IsStrictlyIncreasing limits.now }
    requires some { All (λ limit. 1 ≤ limit) limits.now }
{
    let target = Asked::Target("/route/v1/car/0,0;0.001,0.001?overview=false");
    let answer = ask_over(rt, alloc, CORNER, limits, target)?;
    assert_eq!(rt; answer.code, Code::Ok);
    assert_eq!(rt; answer.status, 200);
    assert_eq!(rt; answer.text.as_str(), FIRST_ROUTE);
    Ok(())
}

// The cells are found by all limits of a server, street by street, and by both; and there are none.
#[test]
fn the_first_route(rt: HostRuntime) -> Result<(), ReplyFault> {
    assert_first_route(&rt, rt.alloc(), &SERVER_LIMITS)?;
    assert_first_route(&rt, rt.alloc(), &[2])?;
    assert_first_route(&rt, rt.alloc(), &[2, 4])?;
    assert_first_route(&rt, rt.alloc(), &[])
}

// Asserts what the way round the block is.
fn assert_round(rt: &impl Abort, alloc: Global, answer: &Answer) -> Result<(), AllocError> {
    assert_eq!(rt; answer.code, Code::Ok);
    assert!(rt;
        answer.text.as_str().contains(
            "\"distance\":388.8,\"duration\":34.6,\"weight\":34.6,\"weight_name\""
        )
    );
    assert_eq!(rt; answer.walks.as_slice().len(), 1);
    for walk in answer.walks.as_slice() {
        let vertices = format!(in alloc; "{:?}", walk.as_slice())?;
        assert_eq!(rt; vertices.as_str(), "[0, 2, 4, 6, 0]");
    }
    Ok(())
}

// Each segment of the block is a cell of level 2, each vertex one of level 1.
#[test]
fn round_a_oneway_block(rt: HostRuntime) -> Result<(), ReplyFault> {
    let target = Asked::Target("/route/v1/car/0.00075,0;0.00025,0?overview=false");
    let answer = ask(&rt, rt.alloc(), BLOCK, target)?;
    assert_round(&rt, rt.alloc(), &answer)?;
    let by_segment = ask_over(&rt, rt.alloc(), BLOCK, &[1, 2], target)?;
    assert_eq!(rt; by_segment.text.as_str(), answer.text.as_str());
    Ok(())
}

#[test]
fn a_route_through_three_coordinates(rt: HostRuntime) -> Result<(), ReplyFault> {
    let target = Asked::Target("/route/v1/car/0,0;0.00001,0.0005;0.001,0.001?overview=false");
    let answer = ask(&rt, rt.alloc(), CORNER, target)?;
    assert_eq!(rt;
        answer.text.as_str(),
        "{\"code\":\"Ok\",\"data_version\":\"7\",\"routes\":[{\"distance\":222.2,\"duration\":19.8,\"weight\":19.8,\"weight_name\":\"duration\",\"legs\":[{\"distance\":55.5,\"duration\":4.9,\"weight\":4.9,\"summary\":\"\",\"steps\":[]},\
{\"distance\":166.7,\"duration\":14.9,\"weight\":14.9,\"summary\":\"\",\"steps\":[]}]}],\"waypoints\":[{\"distance\":0.0,\"name\":\"\",\"location\":[0.000000,0.000000]},{\"distance\":1.1,\"name\":\"\",\"location\":[0.000000,0.000500]},\
{\"distance\":0.0,\"name\":\"\",\"location\":[0.001000,0.001000]}]}"
    );
    Ok(())
}

// The whole text of each answer.
const FAILING: &str =
    "lane|/route/v1/car/0.00075,0;0.00025,0?overview=false|{\"code\":\"NoRoute\",\"data_version\":\"7\",\"message\":\"leg 0\"}
lane|/route/v1/car/0,0;0.001,0;0,0?overview=false|{\"code\":\"NoRoute\",\"data_version\":\"7\",\"message\":\"leg 1\"}
desert|/route/v1/car/0,0;0,0?overview=false|{\"code\":\"NoSegment\",\"data_version\":\"7\",\"message\":\"coordinate 0\"}";

#[test]
fn the_first_place_or_leg_that_fails_is_told(rt: HostRuntime) -> Result<(), ReplyFault> {
    for row in FAILING.split('\n') {
        assert_refused(&rt, rt.alloc(), case_of(&rt, row))?;
    }
    Ok(())
}

// The code of each answer.
const FILTERS: &str =
    "corner|/route/v1/car/0.0001,0;0.001,0.001?overview=false&radiuses=0;unlimited|NoSegment
corner|/route/v1/car/0.0001,0;0.001,0.001?overview=false&radiuses=11.0;unlimited|NoSegment
corner|/route/v1/car/0.0001,0;0.001,0.001?overview=false&radiuses=11.1;unlimited|Ok
corner|/route/v1/car/0,0;0.001,0.001?overview=false&radiuses=0;unlimited|Ok
corner|/route/v1/car/0,0;0.001,0.001?overview=false&bearings=45,10;|NoSegment
corner|/route/v1/car/0,0;0.001,0.001?overview=false&bearings=350,10;|Ok
corner|/route/v1/car/0,0;0.001,0.001?overview=false&bearings=351,10;100,10|Ok
corner|/route/v1/car/0,0;0.001,0.001?overview=false&bearings=349,10;|NoSegment
corner|/route/v1/car/0,0;0.001,0.001?overview=false&bearings=180,0;270,0|Ok
corner|/route/v1/car/0,0;0.001,0.001?overview=false&radiuses=0;&bearings=180,0;|Ok
corner|/route/v1/car/0.0001,0;0.001,0.001?overview=false&radiuses=11.1;&bearings=180,0;|Ok";

// Asserts that a text tells that the first coordinate has no place.
fn assert_no_first(rt: &impl Abort, text: &str) {
    assert_eq!(rt;
        text,
        "{\"code\":\"NoSegment\",\"data_version\":\"7\",\"message\":\"coordinate 0\"}"
    );
}

// Asserts that the answer to a case has its code, and the text that tells of the first coordinate where that has no place.
fn assert_code(
    rt: &(impl Threads + Abort + Sync),
    alloc: Global,
    case: Case<'_>,
) -> Result<(), ReplyFault> {
    let answer = ask(rt, alloc, case.town, Asked::Target(case.target))?;
    let code = format!(in alloc; "{:?}", answer.code)?;
    assert!(rt; code.as_str() == case.told, "{}", case.target);
    if answer.code == Code::NoSegment {
        assert_no_first(rt, answer.text.as_str());
    }
    Ok(())
}

#[test]
fn a_radius_and_a_bearing_choose_segments(rt: HostRuntime) -> Result<(), ReplyFault> {
    for row in FILTERS.split('\n') {
        assert_code(&rt, rt.alloc(), case_of(&rt, row))?;
    }
    Ok(())
}

// The segments of an answer's places, each with a blank behind it.
fn segments_told(alloc: Global, answer: &Answer) -> Result<String, AllocError> {
    let mut text = String::new(alloc);
    for place in answer.places.as_slice() {
        text.push_str(format!(in alloc; "{} ", place.segment)?.as_str())?;
    }
    Ok(text)
}

// Asserts that a route to the corner with these options has its places on these segments.
fn assert_segments(
    rt: &(impl Threads + Abort + Sync),
    alloc: Global,
    options: &str,
    segments: &str,
) -> Result<(), ReplyFault> {
    let target = format!(in alloc; "/route/v1/car/0,0;0,0.001?overview=false&{options}")?;
    let answer = ask(rt, alloc, CORNER, Asked::Target(target.as_str()))?;
    assert_eq!(rt; segments_told(alloc, &answer)?.as_str(), segments);
    let corner = "\"distance\":0.0,\"name\":\"\",\"location\":[0.000000,0.001000]}]";
    assert!(rt; answer.text.as_str().contains(corner));
    Ok(())
}

// The corner lies on both streets, and the second one alone leads east.
#[test]
fn each_coordinate_has_a_filter_of_its_own(rt: HostRuntime) -> Result<(), ReplyFault> {
    assert_segments(&rt, rt.alloc(), "bearings=;90,0", "0 1 ")?;
    assert_segments(&rt, rt.alloc(), "bearings=;0,0", "0 0 ")?;
    let refused = Case {
        town: CORNER,
        target: "/route/v1/car/0,0;0.0001,0?overview=false&radiuses=;0",
        told: "{\"code\":\"NoSegment\",\"data_version\":\"7\",\"message\":\"coordinate 1\"}",
    };
    assert_refused(&rt, rt.alloc(), refused)
}

#[test]
fn options_without_effect(rt: HostRuntime) -> Result<(), ReplyFault> {
    let plain = ask(
        &rt,
        rt.alloc(),
        CORNER,
        Asked::Target("/route/v1/car/0,0;0.001,0.001?overview=false"),
    )?;
    let hinted = ask(
        &rt,
        rt.alloc(),
        CORNER,
        Asked::Target("/route/v1/car/0,0;0.001,0.001?overview=false&hints=;"),
    )?;
    assert_eq!(rt; hinted.text.as_str(), plain.text.as_str());
    Ok(())
}

#[test]
fn waypoints_are_skipped_where_it_is_asked_for(rt: HostRuntime) -> Result<(), ReplyFault> {
    let target = Asked::Target("/route/v1/car/0,0;0.001,0.001?overview=false&skip_waypoints=true");
    let answer = ask(&rt, rt.alloc(), CORNER, target)?;
    assert_eq!(rt; answer.places.as_slice().len(), 2);
    assert_eq!(rt;
        answer.text.as_str(),
        "{\"code\":\"Ok\",\"data_version\":\"7\",\"routes\":[{\"distance\":222.2,\"duration\":19.8,\"weight\":19.8,\"weight_name\":\"duration\",\"legs\":[{\"distance\":222.2,\"duration\":19.8,\"weight\":19.8,\"summary\":\"\",\"steps\":[]}]}]}"
    );
    Ok(())
}

// The status and the code of the answer under the metric of a number, and its text where it is refused.
fn told_at(
    rt: &(impl Threads + Sync),
    alloc: Global,
    town: Town<'_>,
    number: u32,
) -> Result<String, ReplyFault> {
    let target = Asked::Target("/route/v1/car/0,0;0.001,0.001?overview=false&since=5");
    let answer = ask_at(rt, alloc, town, number, target)?;
    if answer.code == Code::Ok {
        return Ok(format!(in alloc; "{} Ok", answer.status)?);
    }
    let text = answer.text.as_str();
    Ok(format!(in alloc; "{} {:?} {text}", answer.status, answer.code)?)
}

const AHEAD: &str =
    "400 AheadOfData {\"code\":\"AheadOfData\",\"data_version\":\"4\",\"message\":\"since 5\"}";

#[test]
fn a_request_ahead_of_the_metric_is_told_so(rt: HostRuntime) -> Result<(), ReplyFault> {
    let early = told_at(&rt, rt.alloc(), CORNER, 4)?;
    assert_eq!(rt; early.as_str(), AHEAD);
    let due = told_at(&rt, rt.alloc(), CORNER, 5)?;
    assert_eq!(rt; due.as_str(), "200 Ok");
    // it comes before a coordinate without a place
    let nowhere = told_at(&rt, rt.alloc(), DESERT, 4)?;
    assert_eq!(rt; nowhere.as_str(), AHEAD);
    Ok(())
}

// A target of so many coordinates.
fn target_of(alloc: Global, count: usize) -> Result<String, AllocError> {
    let mut target = String::from_str(alloc, "/route/v1/car/0,0")?;
    for _ in 1..count {
        target.push_str(";0,0")?;
    }
    target.push_str("?overview=false")?;
    Ok(target)
}

#[test]
fn a_route_has_500_coordinates_at_most(rt: HostRuntime) -> Result<(), ReplyFault> {
    for (count, code) in [(500, Code::Ok), (501, Code::TooBig)] {
        let target = target_of(rt.alloc(), count)?;
        let answer = ask(&rt, rt.alloc(), CORNER, Asked::Target(target.as_str()))?;
        assert_eq!(rt; answer.code, code);
    }
    Ok(())
}

// The whole text of each answer.
const REFUSED: &str =
    "lane|/route/v1/car/0,0;0,0/?overview=false|{\"code\":\"InvalidUrl\",\"message\":\"path\"}
lane|/match/v1/car/0,0;0,0?overview=false|{\"code\":\"InvalidService\",\"message\":\"service match\"}
lane|/route/v2/car/0,0;0,0?foo=1|{\"code\":\"InvalidVersion\",\"message\":\"version v2\"}
lane|/route/v1/car/0,0;0,0?steps=on|{\"code\":\"InvalidOptions\",\"message\":\"option steps\"}
lane|/route/v1/car/polyline(??g)|{\"code\":\"InvalidQuery\",\"message\":\"polyline byte 3\"}
lane|/route/v1/car/0,0;0,0?a\"b=1|{\"code\":\"InvalidOptions\",\"message\":\"option a\\\"b\"}
lane|/route/v1/car/0,0;x,0?overview=false|{\"code\":\"InvalidQuery\",\"message\":\"coordinate 1\"}
lane|/route/v1/car/200,0;0,0?overview=false|{\"code\":\"InvalidValue\",\"message\":\"coordinate 0\"}";

#[test]
fn a_refused_target_gets_its_code_and_message(rt: HostRuntime) -> Result<(), ReplyFault> {
    for row in REFUSED.split('\n') {
        assert_refused(&rt, rt.alloc(), case_of(&rt, row))?;
    }
    let many = target_of(rt.alloc(), 501)?;
    let refused = Case {
        town: LANE,
        target: many.as_str(),
        told: "{\"code\":\"TooBig\",\"message\":\"501 coordinates, at most 500\"}",
    };
    assert_refused(&rt, rt.alloc(), refused)
}

// Lines, each with the code of its answer.
const LINES: &[u8] = b"GET /route/v1/car/0,0;0.001,0?overview=false|Ok
GET  /route/v1/car/0,0;0.001,0?overview=false|InvalidUrl
get /route/v1/car/0,0;0.001,0?overview=false|BadRequest
GET|BadRequest
GET \xff|BadRequest";

// Asserts that the answer to a line over a lane has the code of this name.
fn assert_line(
    rt: &(impl Threads + Abort + Sync),
    alloc: Global,
    line: &[u8],
    want: &[u8],
) -> Result<(), ReplyFault> {
    let answer = ask(rt, alloc, LANE, Asked::Line(line))?;
    let code = format!(in alloc; "{:?}", answer.code)?;
    assert_eq!(rt; code.as_bytes(), want);
    Ok(())
}

#[test]
fn a_line_is_get_one_blank_and_a_target(rt: HostRuntime) -> Result<(), ReplyFault> {
    for row in LINES.split(|byte| *byte == b'\n') {
        let mut parts = row.split(|byte| *byte == b'|');
        match (parts.next(), parts.next()) {
            (Some(line), Some(code)) => assert_line(&rt, rt.alloc(), line, code)?,
            _ => panic!(rt; "a row of two"),
        }
    }
    let mut long = String::from_str(rt.alloc(), "GET ")?;
    for _ in 0..8188 {
        long.push_str("/")?;
    }
    assert_line(&rt, rt.alloc(), long.as_bytes(), b"InvalidUrl")?;
    long.push_str("/")?;
    assert_line(&rt, rt.alloc(), long.as_bytes(), b"BadRequest")?;
    let answer = ask(&rt, rt.alloc(), LANE, Asked::Line(b"TRAFFIC - -"))?;
    assert_eq!(rt; answer.status, 400);
    assert_eq!(rt; answer.text.as_str(), "{\"code\":\"BadRequest\"}");
    Ok(())
}

// The whole text of each answer, or what it ends in.
const SERVICES: &str =
    "corner|/route/v1/car/0.0005,0.001;0.0005,0.001?skip_waypoints=true|\"geometry\":\"gEcB??\",\"legs\":[{\"distance\":0.0,\"duration\":0.0,\"weight\":0.0,\"summary\":\"\",\"steps\":[]}]}]}
corner|/route/v1/car/0,0;0.001,0.001?overview=full&annotations=true&skip_waypoints=true|\"geometry\":\"??gE??gE\",\"legs\":[{\"distance\":222.2,\"duration\":19.8,\"weight\":19.8,\"summary\":\"\",\"steps\":[],\"annotation\":{\"distance\":[111.1,111.1],\"duration\":[9.9,9.9],\"weight\":[9.9,9.9],\"nodes\":[1,2,3],\"speed\":[11.2,11.2]}}]}]}
corner|/route/v1/car/0,0;0.001,0.001?overview=full&geometries=geojson&skip_waypoints=true|\"geometry\":{\"coordinates\":[[0.000000,0.000000],[0.000000,0.001000],[0.001000,0.001000]],\"type\":\"LineString\"},\"legs\":[{\"distance\":222.2,\"duration\":19.8,\"weight\":19.8,\"summary\":\"\",\"steps\":[]}]}]}
corner|/route/v1/car/0,0;0.001,0.001?geometries=polyline6&skip_waypoints=true|\"geometry\":\"??o}@??o}@\",\"legs\":[{\"distance\":222.2,\"duration\":19.8,\"weight\":19.8,\"summary\":\"\",\"steps\":[]}]}]}
corner|/route/v1/car/0,0;0.001,0.001?overview=full&geometries=polyline6&skip_waypoints=true|\"geometry\":\"??o}@??o}@\",\"legs\":[{\"distance\":222.2,\"duration\":19.8,\"weight\":19.8,\"summary\":\"\",\"steps\":[]}]}]}
corner|/route/v1/car/0,0;0.001,0.001?skip_waypoints=true|\"geometry\":\"??gE??gE\",\"legs\":[{\"distance\":222.2,\"duration\":19.8,\"weight\":19.8,\"summary\":\"\",\"steps\":[]}]}]}
square|/route/v1/car/0,0;0.001,0.001?overview=false&skip_waypoints=true|\"routes\":[{\"distance\":222.2,\"duration\":19.8,\"weight\":19.8,\"weight_name\":\"duration\",\"legs\":[{\"distance\":222.2,\"duration\":19.8,\"weight\":19.8,\"summary\":\"\",\"steps\":[]}]}]}
square|/table/v1/car/0,0;0.001,0.001?skip_waypoints=true|{\"code\":\"Ok\",\"data_version\":\"7\",\"durations\":[[0.0,19.8],[19.8,0.0]]}
lane|/table/v1/car/0.00075,0;0.00025,0?annotations=duration,distance&skip_waypoints=true|{\"code\":\"Ok\",\"data_version\":\"7\",\"durations\":[[0.0,null],[5.0,0.0]],\"distances\":[[0.0,null],[55.6,0.0]]}
lane|/table/v1/car/0,0;0.0005,0;0.001,0?sources=2;0&destinations=2;1&annotations=duration,distance&skip_waypoints=true|{\"code\":\"Ok\",\"data_version\":\"7\",\"durations\":[[0.0,null],[9.9,4.9]],\"distances\":[[0.0,null],[111.1,55.5]]}
lane|/table/v1/car/0.00075,0;0.00025,0?sources=1&destinations=0;1;0|\"durations\":[[5.0,0.0,5.0]],\"sources\":[{\"distance\":0.0,\"name\":\"\",\"location\":[0.000250,0.000000]}],\"destinations\":[{\"distance\":0.0,\"name\":\"\",\"location\":[0.000750,0.000000]},{\"distance\":0.0,\"name\":\"\",\"location\":[0.000250,0.000000]},{\"distance\":0.0,\"name\":\"\",\"location\":[0.000750,0.000000]}]}
corner|/nearest/v1/car/0,0.001?number=2|{\"code\":\"Ok\",\"data_version\":\"7\",\"waypoints\":[{\"nodes\":[1,2],\"distance\":0.0,\"name\":\"\",\"location\":[0.000000,0.001000]},{\"nodes\":[2,3],\"distance\":0.0,\"name\":\"\",\"location\":[0.000000,0.001000]}]}
corner|/nearest/v1/car/0,0?number=5&skip_waypoints=true|\"waypoints\":[{\"nodes\":[1,2],\"distance\":0.0,\"name\":\"\",\"location\":[0.000000,0.000000]},{\"nodes\":[2,3],\"distance\":111.1,\"name\":\"\",\"location\":[0.000000,0.001000]}]}
desert|/nearest/v1/car/0,0|{\"code\":\"NoSegment\",\"data_version\":\"7\",\"message\":\"coordinate 0\"}
desert|/table/v1/car/0,0?since=8|{\"code\":\"AheadOfData\",\"data_version\":\"7\",\"message\":\"since 8\"}";

#[test]
fn each_service_is_answered(rt: HostRuntime) -> Result<(), ReplyFault> {
    let first = Case {
        town: CORNER,
        target: "/route/v1/car/polyline(??gEgE).json?overview=false",
        told: FIRST_ROUTE,
    };
    assert_ends(&rt, rt.alloc(), first)?;
    for row in SERVICES.split('\n') {
        assert_ends(&rt, rt.alloc(), case_of(&rt, row))?;
    }
    Ok(())
}

// The steps of an encoded line, latitude and longitude in turn, as Google's page reads them: five bits a
// character, the lowest first, the lowest bit of a number for its sign.
fn steps_of(alloc: Global, line: &[u8]) -> Result<Vec<i64>, AllocError> {
    let mut steps = Vec::new(alloc);
    let mut number = 0_u32;
    let mut weight = 1_u32;
    for character in line {
        let bits = u32::from(character.wrapping_sub(63));
        number = number.wrapping_add((bits % 32).wrapping_mul(weight));
        weight = weight.wrapping_mul(32);
        if bits < 32 {
            let half = i64::from(number / 2);
            steps.push(if number % 2 == 1 { !half } else { half })?;
            number = 0;
            weight = 1;
        }
    }
    Ok(steps)
}

// Forms of lines, each with the line in it and the steps of that.
const ENCODED: &str = "polyline6|??o}@??o}@|[0, 0, 1000, 0, 0, 1000]
polyline|??gE??gE|[0, 0, 100, 0, 0, 100]";

// Asserts that the line of a route has this form.
fn assert_encoded(
    rt: &(impl Threads + Abort + Sync),
    alloc: Global,
    form: &str,
    line: &str,
    want: &str,
) -> Result<(), ReplyFault> {
    let target = format!(in alloc; "/route/v1/car/0,0;0.001,0.001?geometries={form}")?;
    let answer = ask(rt, alloc, CORNER, Asked::Target(target.as_str()))?;
    assert!(rt; answer.text.as_str().contains(line));
    let steps = steps_of(alloc, line.as_bytes())?;
    let told = format!(in alloc; "{:?}", steps.as_slice())?;
    assert_eq!(rt; told.as_str(), want);
    Ok(())
}

#[test]
fn an_encoded_line_is_read_by_another_decoder(rt: HostRuntime) -> Result<(), ReplyFault> {
    for row in ENCODED.split('\n') {
        let mut parts = row.split('|');
        match (parts.next(), parts.next(), parts.next()) {
            (Some(form), Some(line), Some(steps)) => {
                assert_encoded(&rt, rt.alloc(), form, line, steps)?;
            }
            _ => panic!(rt; "a row of three"),
        }
    }
    Ok(())
}
