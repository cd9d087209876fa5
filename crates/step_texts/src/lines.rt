//! The lines of routes.

ghost use Rattle.std.specs.Prelude.{◌≡◌, IsTrue, OnOk, codes, map};
ghost use Rattle.json_text.specs.Values.{text};
ghost use Rattle.json_text.specs.Drafts.{TakesKey, TakesValue, with_value};
ghost use Rattle.json_text.specs.Wholes.{array_of, optional_member, with_member, with_members};
ghost use Rattle.polyline_text.specs.Answers.{is_digits};
ghost use Rattle.polyline_text.specs.Encoding.{encoded};
ghost use Rattle.step_texts.specs.Lines.{geojson_value, line_value, overview_line, point_value};

use json_text::Json;
use line_simplify::{simplify, tolerance_of};
use option_values::{Geometries, Overview};
use polyline_text::encode;
use road_base::Point;
use std::alloc::{AllocError, Global};

// Points, each longitude first.
fn push_points(json: &mut Json, points: &[Point]) -> Result<(), AllocError>
    requires { TakesValue json.old }
    ensures { OnOk result (json.new ≡ with_value (array_of (map point_value points.now)) json.old) }
{
    json.begin_list()?;
    for point in points {
        json.degrees(*point)?;
    }
    json.end_list()?;
    Ok(())
}

// A line as a GeoJSON object.
fn push_geojson(json: &mut Json, points: &[Point]) -> Result<(), AllocError>
    requires { TakesValue json.old }
    ensures { OnOk result (json.new ≡ with_value (geojson_value points.now) json.old) }
{
    json.begin_object()?;
    json.key("coordinates")?;
    push_points(json, points)?;
    json.text_member("type", "LineString")?;
    json.end_object()?;
    Ok(())
}

// A line as an encoded polyline of 5 or 6 digits.
fn push_polyline(
    alloc: Global,
    json: &mut Json,
    points: &[Point],
    digits: u32,
) -> Result<(), AllocError>
    requires takes { TakesValue json.old }
    requires digits { IsTrue (is_digits digits) }
    ensures { OnOk result (json.new ≡ with_value (text (encoded digits points.now)) json.old) }
{
    let line = encode(alloc, points, digits)?;
    json.text(line.as_str())?;
    Ok(())
}

// A line in the form that is asked for.
fn push_line(
    alloc: Global,
    json: &mut Json,
    form: Geometries,
    points: &[Point],
) -> Result<(), AllocError>
    requires { TakesValue json.old }
    ensures { OnOk result (json.new ≡ with_value (line_value form points.now) json.old) }
{
    match form {
        Geometries::Polyline => push_polyline(alloc, json, points, 5),
        Geometries::Polyline6 => push_polyline(alloc, json, points, 6),
        Geometries::Geojson => push_geojson(json, points),
    }
}

// A line that is told, as a member.
pub(crate) fn push_geometry(
    alloc: Global,
    json: &mut Json,
    form: Geometries,
    points: &[Point],
) -> Result<(), AllocError>
    requires { TakesKey json.old }
    ensures ok { OnOk result (json.new ≡ with_member (codes "geometry") (line_value form points.now) json.old) }
    ensures more { OnOk result (TakesKey json.new) }
{
    json.key("geometry")?;
    push_line(alloc, json, form, points)?;
    Ok(())
}

/// As much of a line as is asked for, in the form that is asked for, as a member of an object. An `Err` is want of
/// memory.
pub fn push_overview(
    alloc: Global,
    json: &mut Json,
    overview: Overview,
    form: Geometries,
    points: &[Point],
) -> Result<(), AllocError>
    requires { TakesKey json.old }
    ensures ok { OnOk result (json.new ≡ with_members (optional_member (codes "geometry") (overview_line overview form points.now)) json.old) }
    ensures more { OnOk result (TakesKey json.new) }
{
    match overview {
        Overview::Off => Ok(()),
        Overview::Full => push_geometry(alloc, json, form, points),
        Overview::Simplified => {
            let kept = simplify(alloc, points, tolerance_of(points))?;
            push_geometry(alloc, json, form, kept.as_slice())
        }
    }
}
