//! Worked values; expected ones are from OSRM's API and this project's rules. Which texts are refused stands in the
//! tests of the crate above, over whole targets.

use option_values::{
    Alternatives, Approach, Bearing, ContinueStraight, Destination, Geometries, Overview, Snapping,
    Source, alternatives_of, are_read, chosen_among, continue_straight_of, cut, destination_of,
    every_annotation, excluded_of, geometries_of, hints_each, is_chosen, is_exclusion, number_of,
    one_each, overview_of, route_annotations_of, since_of, snapping_of, source_of,
    table_annotations_of, truth_of,
};
use std::alloc::{AllocError, Global};

#[test]
fn each_name_is_read(rt: HostRuntime) {
    assert!(rt; matches!(truth_of("true"), Some(true)));
    assert!(rt; matches!(snapping_of("default"), Some(Snapping::Default)));
    assert!(rt; matches!(geometries_of("polyline6"), Some(Geometries::Polyline6)));
    assert!(rt; matches!(overview_of("false"), Some(Overview::Off)));
    assert!(rt;
        matches!(
            continue_straight_of("default"),
            Some(ContinueStraight::Default)
        )
    );
    assert!(rt; matches!(continue_straight_of("true"), Some(ContinueStraight::On)));
}

#[test]
fn the_ends_of_a_trip_are_read(rt: HostRuntime) {
    assert!(rt; matches!(source_of("any"), Some(Source::Any)));
    assert!(rt; matches!(source_of("first"), Some(Source::First)));
    assert!(rt; source_of("last").is_none());
    assert!(rt; matches!(destination_of("any"), Some(Destination::Any)));
    assert!(rt; matches!(destination_of("last"), Some(Destination::Last)));
    assert!(rt; destination_of("first").is_none());
}

#[test]
fn each_number_is_read(rt: HostRuntime) {
    assert!(rt; matches!(since_of("4294967295"), Some(4_294_967_295)));
    assert!(rt; matches!(number_of("099"), Some(99)));
    assert!(rt; matches!(alternatives_of("2"), Some(Alternatives::UpTo(2))));
}

#[test]
fn annotations_are_read(rt: HostRuntime) {
    let Some(annotations) = route_annotations_of("true") else {
        panic!(rt; "annotations");
    };
    assert!(rt; annotations == every_annotation(true));
    assert!(rt; table_annotations_of("distance,duration").is_some());
}

#[test]
fn a_text_is_cut_at_its_first_separator(rt: HostRuntime) {
    let Some((name, value)) = cut("a=b=c", '=') else {
        panic!(rt; "two parts");
    };
    assert_eq!(rt; name, "a");
    assert_eq!(rt; value, "b=c");
}

// The names of the classes that are not to be used.
fn excluded_told(alloc: Global, value: &str) -> Result<String, AllocError> {
    let names = excluded_of(alloc, value)?;
    format!(in alloc; "{names:?}")
}

const EXCLUDED_TOLD: &str =
    "Some(Words { inner: [Text { inner: \"toll\" }, Text { inner: \"a ferry\" }] })";

#[test]
fn names_of_classes_are_read(rt: HostRuntime) -> Result<(), AllocError> {
    let told = excluded_told(rt.alloc(), "toll,a ferry")?;
    assert_eq!(rt; told.as_str(), EXCLUDED_TOLD);
    assert!(rt; is_exclusion("toll,a ferry") && !is_exclusion("toll,"));
    Ok(())
}

// The radiuses of so many coordinates.
fn radiuses_told(alloc: Global, count: usize, value: &str) -> Result<String, AllocError> {
    let radiuses = one_each::<Option<u64>>(alloc, None, count, Some(value))?;
    format!(in alloc; "{radiuses:?}")
}

// The bearings of so many coordinates where none are given.
fn bearings_told(alloc: Global, count: usize) -> Result<String, AllocError> {
    let bearings = one_each::<Option<Bearing>>(alloc, None, count, None)?;
    format!(in alloc; "{bearings:?}")
}

// The hints of so many coordinates.
fn hints_told(alloc: Global, count: usize, value: &str) -> Result<String, AllocError> {
    let hints = hints_each(alloc, count, Some(value))?;
    format!(in alloc; "{hints:?}")
}

// Which of so many coordinates are chosen.
fn chosen_told(alloc: Global, count: usize, value: &str) -> Result<String, AllocError> {
    let chosen = chosen_among(alloc, count, Some(value))?;
    format!(in alloc; "{chosen:?}")
}

const HINTS_TOLD: &str = "Some([Text { inner: \"a\" }, Text { inner: \"\" }])";

#[test]
fn lists_have_an_entry_for_each_coordinate(rt: HostRuntime) -> Result<(), AllocError> {
    let alloc = rt.alloc();
    let radiuses = radiuses_told(alloc, 2, "12.39;")?;
    assert_eq!(rt; radiuses.as_str(), "Some([Some(123), None])");
    assert_eq!(rt; bearings_told(alloc, 1)?.as_str(), "Some([None])");
    assert!(rt; are_read::<Option<Approach>>("unrestricted;") && are_read::<u32>("0;1"));
    assert_eq!(rt; hints_told(alloc, 2, "a;")?.as_str(), HINTS_TOLD);
    assert!(rt; is_chosen("all") && is_chosen("1;0"));
    let chosen = chosen_told(alloc, 2, "1;0;1")?;
    assert_eq!(rt; chosen.as_str(), "Some(Only(Indexes { inner: [1, 0, 1] }))");
    assert_eq!(rt; chosen_told(alloc, 2, "2")?.as_str(), "None");
    Ok(())
}
