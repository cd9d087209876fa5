//! One option, its name and its value.

ghost use Rattle.std.specs.Prelude.{◌≡◌, option_copied};
ghost use Rattle.url_read.specs.Options.{name_of, value_named, is_common, is_of_telling, is_of_route, is_of_table, is_of_nearest, is_of_trip, is_of};

use crate::service_names::ServiceName;
use option_values::{
    Approach, Bearing, alternatives_of, are_read, continue_straight_of, cut, destination_of,
    geometries_of, is_chosen, is_exclusion, number_of, overview_of, route_annotations_of, since_of,
    snapping_of, source_of, table_annotations_of, truth_of,
};

// The value of an option of this name, None where it has another.
pub(crate) fn value_named<'a>(name: &str, option: &'a str) -> Option<&'a str>
    ensures { option_copied result ≡ value_named name.now option.now }
{
    match cut(option, '=') {
        Some((its_name, value)) if its_name == name => Some(value),
        None if option == name => Some(""),
        _ => None,
    }
}

// What stands before the first `=`, or all.
pub(crate) fn name_of(option: &str) -> &str
    ensures { result.now ≡ name_of option.now }
{
    match cut(option, '=') {
        Some((name, _)) => name,
        None => option,
    }
}

// Whether a service has an option of this name, and the value is of its grammar.
pub(crate) fn is_of(service: ServiceName, name: &str, value: &str) -> bool
    ensures { result ≡ is_of service name.now value.now }
{
    is_common(name, value)
        || match service {
            ServiceName::Route => is_of_route(name, value),
            ServiceName::Table => is_of_table(name, value),
            ServiceName::Nearest => is_of_nearest(name, value),
            ServiceName::Trip => is_of_trip(name, value),
        }
}

fn is_common(name: &str, value: &str) -> bool
    ensures { result ≡ is_common name.now value.now }
{
    match name {
        "radiuses" => are_read::<Option<u64>>(value),
        "bearings" => are_read::<Option<Bearing>>(value),
        "approaches" => are_read::<Option<Approach>>(value),
        "hints" => true,
        "generate_hints" | "skip_waypoints" => truth_of(value).is_some(),
        "snapping" => snapping_of(value).is_some(),
        "since" => since_of(value).is_some(),
        "exclude" => is_exclusion(value),
        _ => false,
    }
}

// Whether it says what a reply tells of its routes.
fn is_of_telling(name: &str, value: &str) -> bool
    ensures { result ≡ is_of_telling name.now value.now }
{
    match name {
        "steps" => truth_of(value).is_some(),
        "annotations" => route_annotations_of(value).is_some(),
        "geometries" => geometries_of(value).is_some(),
        "overview" => overview_of(value).is_some(),
        _ => false,
    }
}

fn is_of_route(name: &str, value: &str) -> bool
    ensures { result ≡ is_of_route name.now value.now }
{
    match name {
        "alternatives" => alternatives_of(value).is_some(),
        "continue_straight" => continue_straight_of(value).is_some(),
        _ => is_of_telling(name, value),
    }
}

fn is_of_table(name: &str, value: &str) -> bool
    ensures { result ≡ is_of_table name.now value.now }
{
    match name {
        "sources" | "destinations" => is_chosen(value),
        "annotations" => table_annotations_of(value).is_some(),
        _ => false,
    }
}

fn is_of_nearest(name: &str, value: &str) -> bool
    ensures { result ≡ is_of_nearest name.now value.now }
{
    match name {
        "number" => number_of(value).is_some(),
        _ => false,
    }
}

fn is_of_trip(name: &str, value: &str) -> bool
    ensures { result ≡ is_of_trip name.now value.now }
{
    match name {
        "roundtrip" => truth_of(value).is_some(),
        "source" => source_of(value).is_some(),
        "destination" => destination_of(value).is_some(),
        _ => is_of_telling(name, value),
    }
}
