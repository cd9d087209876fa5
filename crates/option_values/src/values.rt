//! What the values of options stand for.

ghost use Rattle.std.specs.Prelude.{◌≡◌, ◌≤◌, IfSome};
ghost use Rattle.std.specs.List.{list_all};
ghost use Rattle.option_values.specs.Values.{truth_of, snapping_of, since_of, number_of, alternatives_of, geometries_of, overview_of, continue_straight_of, source_of, destination_of, table_annotations_of, route_annotations_of, is_annotation, has, names_of, every_annotation, annotations_named};

use crate::option_types::{
    Alternatives, ContinueStraight, Destination, Geometries, Overview, RouteAnnotations, Snapping,
    Source, TableAnnotations,
};
use crate::whole_numbers::{number_up_to, short_number_of};

/// `true` or `false`.
pub fn truth_of(text: &str) -> Option<bool>
    ensures { result ≡ truth_of text.now }
{
    match text {
        "true" => Some(true),
        "false" => Some(false),
        _ => None,
    }
}

/// `default`.
pub fn snapping_of(text: &str) -> Option<Snapping>
    ensures { result ≡ snapping_of text.now }
{
    match text {
        "default" => Some(Snapping::Default),
        _ => None,
    }
}

/// The least number of a metric: digits, at most 4,294,967,295.
pub fn since_of(text: &str) -> Option<u32>
    ensures { result ≡ since_of text.now }
{
    number_up_to(u32::MAX, text)
}

/// How many places are asked for: one to nine digits, not 0.
pub fn number_of(text: &str) -> Option<u32>
    ensures number { result ≡ number_of text.now }
    ensures some { IfSome result (λ number. 1 ≤ number) }
{
    match short_number_of(text) {
        Some(0) => None,
        number => number,
    }
}

/// `true`, `false`, or one to nine digits.
pub fn alternatives_of(text: &str) -> Option<Alternatives>
    ensures { result ≡ alternatives_of text.now }
{
    match text {
        "true" => Some(Alternatives::On),
        "false" => Some(Alternatives::Off),
        _ => short_number_of(text).map(Alternatives::UpTo),
    }
}

/// `polyline`, `polyline6` or `geojson`.
pub fn geometries_of(text: &str) -> Option<Geometries>
    ensures { result ≡ geometries_of text.now }
{
    match text {
        "polyline" => Some(Geometries::Polyline),
        "polyline6" => Some(Geometries::Polyline6),
        "geojson" => Some(Geometries::Geojson),
        _ => None,
    }
}

/// `simplified`, `full` or `false`.
pub fn overview_of(text: &str) -> Option<Overview>
    ensures { result ≡ overview_of text.now }
{
    match text {
        "simplified" => Some(Overview::Simplified),
        "full" => Some(Overview::Full),
        "false" => Some(Overview::Off),
        _ => None,
    }
}

/// `default`, `true` or `false`.
pub fn continue_straight_of(text: &str) -> Option<ContinueStraight>
    ensures { result ≡ continue_straight_of text.now }
{
    match text {
        "default" => Some(ContinueStraight::Default),
        "true" => Some(ContinueStraight::On),
        "false" => Some(ContinueStraight::Off),
        _ => None,
    }
}

/// `any` or `first`.
pub fn source_of(text: &str) -> Option<Source>
    ensures { result ≡ source_of text.now }
{
    match text {
        "any" => Some(Source::Any),
        "first" => Some(Source::First),
        _ => None,
    }
}

/// `any` or `last`.
pub fn destination_of(text: &str) -> Option<Destination>
    ensures { result ≡ destination_of text.now }
{
    match text {
        "any" => Some(Destination::Any),
        "last" => Some(Destination::Last),
        _ => None,
    }
}

/// `duration`, `distance`, or both in either order with a comma between.
pub fn table_annotations_of(text: &str) -> Option<TableAnnotations>
    ensures { result ≡ table_annotations_of text.now }
{
    let (duration, distance) = match text {
        "duration" => (true, false),
        "distance" => (false, true),
        "duration,distance" | "distance,duration" => (true, true),
        _ => return None,
    };
    Some(TableAnnotations { duration, distance })
}

/// `true`, `false`, or names of annotations with commas between.
pub fn route_annotations_of(text: &str) -> Option<RouteAnnotations>
    ensures { result ≡ route_annotations_of text.now }
{
    match text {
        "true" => Some(every_annotation(true)),
        "false" => Some(every_annotation(false)),
        _ if are_annotations(text) => Some(annotations_in(text)),
        _ => None,
    }
}

/// All five annotations, or none.
pub fn every_annotation(given: bool) -> RouteAnnotations
    ensures { result ≡ every_annotation given }
{
    RouteAnnotations {
        distance: given,
        duration: given,
        weight: given,
        nodes: given,
        speed: given,
    }
}

// The annotations that a value names.
fn annotations_in(text: &str) -> RouteAnnotations
    ensures { result ≡ annotations_named (names_of text.now) }
{
    RouteAnnotations {
        distance: has(text, "distance"),
        duration: has(text, "duration"),
        weight: has(text, "weight"),
        nodes: has(text, "nodes"),
        speed: has(text, "speed"),
    }
}

// Whether each name of a value is that of an annotation.
fn are_annotations(text: &str) -> bool
    ensures { result ≡ list_all is_annotation (names_of text.now) }
{
    text.split(',').all(|name| is_annotation(name))
}

fn is_annotation(name: &str) -> bool
    ensures { result ≡ is_annotation name.now }
{
    matches!(name, "distance" | "duration" | "weight" | "nodes" | "speed")
}

// Whether a name is among those of a value.
fn has(text: &str, wanted: &str) -> bool
    ensures { result ≡ has (names_of text.now) wanted.now }
{
    text.split(',').any(|name| name == wanted)
}
