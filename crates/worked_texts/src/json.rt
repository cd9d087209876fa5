//! Worked JSON texts; expected values are from RFC 8259 and this project's rules.

ghost use Rattle.std.specs.Prelude.{◌≡◌, ◌∷◌, [], IfOk, OnOk, codes};
ghost use Rattle.json_text.specs.Values.{text, tenths, location};
ghost use Rattle.json_text.specs.Drafts.{TakesValue, IsFinished, with_value};
ghost use Rattle.json_text.specs.Wholes.{array_of, object_of};
ghost use Rattle.worked_texts.specs.Replies.{two_nodes, place, row};

use crate::polylines::{given, number};
use json_text::Json;
use road_base::Point;
use std::alloc::{AllocError, Global};

fn degrees_of(alloc: Global, lon: i64, lat: i64) -> Result<Json, AllocError> {
    let mut json = Json::new(alloc);
    if let Some(point) = Point::of(lon, lat) {
        json.degrees(point)?;
    }
    Ok(json)
}

// Longitudes and latitudes in microdegrees, each two with the text of their point. A table is one text, since a proof
// takes time for each value of a list.
const POINTS: &str = "0 0 [0.000000,0.000000]
1000 1000 [0.001000,0.001000]
-1 -1 [-0.000001,-0.000001]
-500000 500000 [-0.500000,0.500000]
-1000001 10000000 [-1.000001,10.000000]
180000000 -90000000 [180.000000,-90.000000]
-126453000 43252000 [-126.453000,43.252000]";

#[test]
fn points_have_six_decimals_and_a_sign(rt: HostRuntime) -> Result<(), AllocError> {
    for row in POINTS.split('\n') {
        let mut parts = row.split(' ');
        let lon = number(&rt, parts.next());
        let lat = number(&rt, parts.next());
        let want = given(&rt, parts.next());
        assert_eq!(rt; degrees_of(rt.alloc(), lon, lat)?.as_str(), want);
    }
    Ok(())
}

// Tenths, each with their text.
const TENTHS: &str = "0 0.0
1 0.1
10 1.0
198 19.8
2222 222.2
1000005 100000.5
340282366920938463463374607431768211455 34028236692093846346337460743176821145.5";

fn tenths_of(alloc: Global, n: u128) -> Result<Json, AllocError> {
    let mut json = Json::new(alloc);
    json.tenths(n)?;
    Ok(json)
}

#[test]
fn tenths_have_one_decimal(rt: HostRuntime) -> Result<(), AllocError> {
    for row in TENTHS.split('\n') {
        let mut parts = row.split(' ');
        let Ok(n) = given(&rt, parts.next()).parse::<u128>() else {
            panic!(rt; "a number");
        };
        let want = given(&rt, parts.next());
        assert_eq!(rt; tenths_of(rt.alloc(), n)?.as_str(), want);
    }
    Ok(())
}

// Whole numbers, each with its text.
const WHOLES: &str = "0 0
-7 -7
9223372036854775807 9223372036854775807
-9223372036854775808 -9223372036854775808";

// Texts, each with how JSON has it. A bar stands behind a text, and a dollar sign between each two rows.
const TEXTS: &str = "|\"\"$\
Main Street\r|\"Main Street\\r\"$\
a\"b\\c/d|\"a\\\"b\\\\c/d\"$\
\u{8}\u{c}\n\t|\"\\b\\f\\n\\t\"$\
\u{0}\u{1f}\u{7f}|\"\\u0000\\u001f\u{7f}\"$\
Stra\u{df}e \u{1f6a6}|\"Stra\u{df}e \u{1f6a6}\"";

fn whole_of(alloc: Global, n: i64) -> Result<Json, AllocError> {
    let mut json = Json::new(alloc);
    json.whole(n)?;
    Ok(json)
}

#[test]
fn whole_numbers_stand_as_json_has_them(rt: HostRuntime) -> Result<(), AllocError> {
    for row in WHOLES.split('\n') {
        let mut parts = row.split(' ');
        let n = number(&rt, parts.next());
        let want = given(&rt, parts.next());
        assert_eq!(rt; whole_of(rt.alloc(), n)?.as_str(), want);
    }
    Ok(())
}

fn text_of(alloc: Global, value: &str) -> Result<Json, AllocError> {
    let mut json = Json::new(alloc);
    json.text(value)?;
    Ok(json)
}

#[test]
fn texts_stand_as_json_has_them(rt: HostRuntime) -> Result<(), AllocError> {
    for row in TEXTS.split('$') {
        let mut parts = row.split('|');
        let value = given(&rt, parts.next());
        let want = given(&rt, parts.next());
        assert_eq!(rt; text_of(rt.alloc(), value)?.as_str(), want);
    }
    Ok(())
}

/// A caller that writes an object says which value it is.
fn waypoint(json: &mut Json, distance: u128, name: &str, p: Point) -> Result<(), AllocError>
    requires { TakesValue json.old }
    ensures { OnOk result (json.new ≡ with_value (object_of ((codes "distance", tenths distance) ∷ (codes "name", text name.now) ∷ (codes "location", location p.lon p.lat) ∷ [])) json.old) }
{
    json.begin_object()?;
    json.key("distance")?;
    json.tenths(distance)?;
    json.key("name")?;
    json.text(name)?;
    json.key("location")?;
    json.degrees(p)?;
    json.end_object()?;
    Ok(())
}

// The text of a waypoint.
fn waypoint_of(alloc: Global, point: Point) -> Result<Json, AllocError>
    ensures { IfOk result IsFinished }
{
    let mut json = Json::new(alloc);
    waypoint(&mut json, 15, "Stra\u{df}e", point)?;
    Ok(json)
}

// A list of a text that was written before, true, false and the greatest count.
fn list_of(alloc: Global, part: &Json) -> Result<Json, AllocError>
    requires { IsFinished part.now }
{
    let mut list = Json::new(alloc);
    push_list(&mut list, part)?;
    Ok(list)
}

fn push_list(list: &mut Json, part: &Json) -> Result<(), AllocError>
    requires first { TakesValue list.old }
    requires whole { IsFinished part.now }
{
    list.begin_list()?;
    list.part(part)?;
    list.boolean(true)?;
    list.boolean(false)?;
    list.count(u128::MAX)?;
    list.end_list()?;
    Ok(())
}

fn list_of_a_waypoint(alloc: Global, point: Point) -> Result<Json, AllocError> {
    let part = waypoint_of(alloc, point)?;
    list_of(alloc, &part)
}

const LIST: &str =
    "[{\"distance\":1.5,\"name\":\"Stra\u{df}e\",\"location\":[-0.000001,0.000002]},true,false,340282366920938463463374607431768211455]";

#[test]
fn text_is_handed_out(rt: HostRuntime) -> Result<(), AllocError> {
    let Some(point) = Point::of(-1, 2) else {
        panic!(rt; "a point on the Earth");
    };
    let list = list_of_a_waypoint(rt.alloc(), point)?;
    assert_eq!(rt; list.as_str(), LIST);
    assert_eq!(rt; list.into_text().as_str(), LIST);
    Ok(())
}

fn push_two_nodes(json: &mut Json) -> Result<(), AllocError>
    requires { TakesValue json.old }
    ensures { OnOk result (json.new ≡ with_value two_nodes json.old) }
{
    json.begin_list()?;
    json.whole(1)?;
    json.whole(2)?;
    json.end_list()?;
    Ok(())
}

fn push_place(json: &mut Json) -> Result<(), AllocError>
    requires { TakesValue json.old }
    ensures { OnOk result (json.new ≡ with_value place json.old) }
{
    json.begin_object()?;
    json.key("nodes")?;
    push_two_nodes(json)?;
    json.key("distance")?;
    json.tenths(0)?;
    json.end_object()?;
    Ok(())
}

fn push_nothing(json: &mut Json) -> Result<(), AllocError>
    requires { TakesValue json.old }
    ensures { OnOk result (json.new ≡ with_value (object_of []) json.old) }
{
    json.begin_object()?;
    json.end_object()?;
    Ok(())
}

fn push_places(json: &mut Json) -> Result<(), AllocError>
    requires { TakesValue json.old }
    ensures { OnOk result (json.new ≡ with_value (array_of (place ∷ object_of [] ∷ [])) json.old) }
{
    json.begin_list()?;
    push_place(json)?;
    push_nothing(json)?;
    json.end_list()?;
    Ok(())
}

fn push_row(json: &mut Json) -> Result<(), AllocError>
    requires { TakesValue json.old }
    ensures { OnOk result (json.new ≡ with_value row json.old) }
{
    json.begin_list()?;
    json.tenths(0)?;
    json.null()?;
    json.end_list()?;
    Ok(())
}

fn push_no_row(json: &mut Json) -> Result<(), AllocError>
    requires { TakesValue json.old }
    ensures { OnOk result (json.new ≡ with_value (array_of []) json.old) }
{
    json.begin_list()?;
    json.end_list()?;
    Ok(())
}

fn push_rows(json: &mut Json) -> Result<(), AllocError>
    requires { TakesValue json.old }
    ensures { OnOk result (json.new ≡ with_value (array_of (row ∷ array_of [] ∷ [])) json.old) }
{
    json.begin_list()?;
    push_row(json)?;
    push_no_row(json)?;
    json.end_list()?;
    Ok(())
}

/// The reply to a nearest request, and a table's row with a cell without a walk.
fn push_reply(json: &mut Json) -> Result<(), AllocError>
    requires { TakesValue json.old }
{
    json.begin_object()?;
    json.key("code")?;
    json.text("Ok")?;
    json.key("waypoints")?;
    push_places(json)?;
    json.key("durations")?;
    push_rows(json)?;
    json.end_object()?;
    Ok(())
}

fn reply(alloc: Global) -> Result<Json, AllocError> {
    let mut json = Json::new(alloc);
    push_reply(&mut json)?;
    Ok(json)
}

const REPLY: &str =
    "{\"code\":\"Ok\",\"waypoints\":[{\"nodes\":[1,2],\"distance\":0.0},{}],\"durations\":[[0.0,null],[]]}";

#[test]
fn commas_stand_between_values_and_nowhere_else(rt: HostRuntime) -> Result<(), AllocError> {
    let json = reply(rt.alloc())?;
    assert_eq!(rt; json.bytes(), REPLY.as_bytes());
    Ok(())
}
