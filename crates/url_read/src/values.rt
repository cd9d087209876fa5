//! The values of all options of a request.

ghost use Rattle.std.specs.Prelude.{◌≡◌, ◌≤◌, Ok, IfOk, IfErr, codes, false, length, option_and_then};
ghost use Rattle.url_read.specs.Judging.{hints_for, radiuses_for, bearings_for, approaches_for, chosen_for, telling_of, route_options, trip_options, table_annotations, table_options, nearest_options, service_for, values_for};
ghost use Rattle.url_read.specs.Options.{last_value_of, options_of, read_or};
ghost use Rattle.option_values.specs.Values.{truth_of, snapping_of, since_of, excluded_of, alternatives_of, route_annotations_of, every_annotation, geometries_of, overview_of, continue_straight_of, source_of, destination_of};
ghost use Rattle.option_values.specs.declared.option_types.Alternatives.TheVariants as alternatives;
ghost use Rattle.option_values.specs.declared.option_types.Geometries.TheVariants.{Polyline};
ghost use Rattle.option_values.specs.declared.option_types.Snapping.TheVariants as snapping;
ghost use Rattle.option_values.specs.declared.option_types.Overview.TheVariants as overview;
ghost use Rattle.option_values.specs.declared.option_types.ContinueStraight.TheVariants as straight;
ghost use Rattle.option_values.specs.declared.option_types.Source.TheVariants as source;
ghost use Rattle.option_values.specs.declared.option_types.Destination.TheVariants as destination;
ghost use Rattle.url_read.specs.Refusals.{IsFaultOf};
ghost use Rattle.option_values.specs.Entries.{AreThere};
ghost use Rattle.url_read.specs.Request.{name_of_service, AreOwn, HasEach};

use crate::last_values::last_value_of;
use crate::messages::bad_option;
use crate::refusals::RequestFault;
use crate::requests::{
    NearestOptions, OptionValues, RouteOptions, Service, TableOptions, Telling, TripOptions,
};
use crate::service_names::ServiceName;
use option_values::{
    Alternatives, Approaches, Bearings, Chosen, ContinueStraight, Destination, Geometries, Hints,
    Overview, Radiuses, RouteAnnotations, Snapping, Source, TableAnnotations, alternatives_of,
    chosen_among, continue_straight_of, destination_of, every_annotation, excluded_of,
    geometries_of, hints_each, number_of, one_each, overview_of, route_annotations_of, since_of,
    snapping_of, source_of, table_annotations_of, truth_of,
};
use road_base::Words;
use std::alloc::{AllocError, Global};

// What a table tells where it isn't asked.
const DURATION: TableAnnotations = TableAnnotations {
    duration: true,
    distance: false,
};

// The values of all options over so many coordinates, or the first list that does not fit.
pub(crate) fn values_for(
    alloc: Global,
    service: ServiceName,
    count: usize,
    query: &str,
) -> Result<OptionValues, RequestFault>
    ensures values { IfOk result (λ values. values_for service count (options_of query.now) ≡ Ok values) }
    ensures name { IfOk result (λ values. name_of_service values.service ≡ service) }
    ensures each { IfOk result (HasEach count) }
    ensures refusal { IfErr result (IsFaultOf (values_for service count (options_of query.now))) }
{
    let hints = hints_for(alloc, count, query)?;
    let radiuses = radiuses_for(alloc, count, query)?;
    let bearings = bearings_for(alloc, count, query)?;
    let approaches = approaches_for(alloc, count, query)?;
    let service = service_for(alloc, service, count, query)?;
    Ok(OptionValues {
        service,
        radiuses,
        bearings,
        approaches,
        hints,
        generate_hints: truth_or(true, "generate_hints", query),
        skip_waypoints: truth_or(false, "skip_waypoints", query),
        snapping: snapping_in(query),
        since: since_in(query),
        exclude: excluded_in(alloc, query)?,
    })
}

// What the last value of a name stands for, or the default where there is none.
fn truth_or(default: bool, name: &str, query: &str) -> bool
    ensures { result ≡ read_or default truth_of name.now (options_of query.now) }
{
    last_value_of(name, query)
        .and_then(|value| truth_of(value))
        .unwrap_or(default)
}

fn snapping_in(query: &str) -> Snapping
    ensures { result ≡ read_or snapping.Default snapping_of (codes "snapping") (options_of query.now) }
{
    last_value_of("snapping", query)
        .and_then(|value| snapping_of(value))
        .unwrap_or(Snapping::Default)
}

fn since_in(query: &str) -> u32
    ensures { result ≡ read_or 0 since_of (codes "since") (options_of query.now) }
{
    last_value_of("since", query)
        .and_then(|value| since_of(value))
        .unwrap_or(0)
}

// The names of the classes that are not to be used, None where no class is named.
fn excluded_in(alloc: Global, query: &str) -> Result<Option<Words>, AllocError>
    ensures { IfOk result (λ excluded. excluded ≡ option_and_then excluded_of (last_value_of (codes "exclude") (options_of query.now))) }
{
    match last_value_of("exclude", query) {
        Some(value) => excluded_of(alloc, value),
        None => Ok(None),
    }
}

fn hints_for(alloc: Global, count: usize, query: &str) -> Result<Hints, RequestFault>
    ensures hints { IfOk result (λ hints. hints_for count (options_of query.now) ≡ Ok hints) }
    ensures count { IfOk result (λ hints. length hints ≡ count) }
    ensures refusal { IfErr result (IsFaultOf (hints_for count (options_of query.now))) }
{
    match hints_each(alloc, count, last_value_of("hints", query))? {
        Some(hints) => Ok(Hints::of(hints)),
        None => Err(RequestFault::Refused(bad_option(alloc, "hints")?)),
    }
}

fn radiuses_for(alloc: Global, count: usize, query: &str) -> Result<Radiuses, RequestFault>
    ensures radiuses { IfOk result (λ radiuses. radiuses_for count (options_of query.now) ≡ Ok radiuses) }
    ensures count { IfOk result (λ radiuses. length radiuses ≡ count) }
    ensures refusal { IfErr result (IsFaultOf (radiuses_for count (options_of query.now))) }
{
    match one_each(alloc, None, count, last_value_of("radiuses", query))? {
        Some(radiuses) => Ok(Radiuses::of(radiuses)),
        None => Err(RequestFault::Refused(bad_option(alloc, "radiuses")?)),
    }
}

fn bearings_for(alloc: Global, count: usize, query: &str) -> Result<Bearings, RequestFault>
    ensures bearings { IfOk result (λ bearings. bearings_for count (options_of query.now) ≡ Ok bearings) }
    ensures count { IfOk result (λ bearings. length bearings ≡ count) }
    ensures refusal { IfErr result (IsFaultOf (bearings_for count (options_of query.now))) }
{
    match one_each(alloc, None, count, last_value_of("bearings", query))? {
        Some(bearings) => Ok(Bearings::of(bearings)),
        None => Err(RequestFault::Refused(bad_option(alloc, "bearings")?)),
    }
}

fn approaches_for(alloc: Global, count: usize, query: &str) -> Result<Approaches, RequestFault>
    ensures approaches { IfOk result (λ approaches. approaches_for count (options_of query.now) ≡ Ok approaches) }
    ensures count { IfOk result (λ approaches. length approaches ≡ count) }
    ensures refusal { IfErr result (IsFaultOf (approaches_for count (options_of query.now))) }
{
    match one_each(alloc, None, count, last_value_of("approaches", query))? {
        Some(approaches) => Ok(Approaches::of(approaches)),
        None => Err(RequestFault::Refused(bad_option(alloc, "approaches")?)),
    }
}

// A service with its own options, over so many coordinates.
fn service_for(
    alloc: Global,
    service: ServiceName,
    count: usize,
    query: &str,
) -> Result<Service, RequestFault>
    ensures own { IfOk result (λ own. service_for service count (options_of query.now) ≡ Ok own) }
    ensures there { IfOk result (AreOwn count) }
    ensures name { IfOk result (λ own. name_of_service own ≡ service) }
    ensures refusal { IfErr result (IsFaultOf (service_for service count (options_of query.now))) }
{
    match service {
        ServiceName::Route => Ok(Service::Route(route_options(query))),
        ServiceName::Table => Ok(Service::Table(table_options(alloc, count, query)?)),
        ServiceName::Nearest => Ok(Service::Nearest(nearest_options(query))),
        ServiceName::Trip => Ok(Service::Trip(trip_options(query))),
    }
}

// What a reply tells of its routes.
fn telling_of(query: &str) -> Telling
    ensures { result ≡ telling_of (options_of query.now) }
{
    Telling {
        steps: truth_or(false, "steps", query),
        annotations: route_annotations_in(query),
        geometries: geometries_in(query),
        overview: overview_in(query),
    }
}

fn route_options(query: &str) -> RouteOptions
    ensures { result ≡ route_options (options_of query.now) }
{
    RouteOptions {
        alternatives: alternatives_in(query),
        telling: telling_of(query),
        continue_straight: continue_straight_in(query),
    }
}

fn trip_options(query: &str) -> TripOptions
    ensures { result ≡ trip_options (options_of query.now) }
{
    TripOptions {
        telling: telling_of(query),
        roundtrip: truth_or(true, "roundtrip", query),
        source: source_in(query),
        destination: destination_in(query),
    }
}

fn alternatives_in(query: &str) -> Alternatives
    ensures { result ≡ read_or alternatives.Off alternatives_of (codes "alternatives") (options_of query.now) }
{
    last_value_of("alternatives", query)
        .and_then(|value| alternatives_of(value))
        .unwrap_or(Alternatives::Off)
}

fn route_annotations_in(query: &str) -> RouteAnnotations
    ensures { result ≡ read_or (every_annotation false) route_annotations_of (codes "annotations") (options_of query.now) }
{
    last_value_of("annotations", query)
        .and_then(|value| route_annotations_of(value))
        .unwrap_or(every_annotation(false))
}

fn geometries_in(query: &str) -> Geometries
    ensures { result ≡ read_or Polyline geometries_of (codes "geometries") (options_of query.now) }
{
    last_value_of("geometries", query)
        .and_then(|value| geometries_of(value))
        .unwrap_or(Geometries::Polyline)
}

fn overview_in(query: &str) -> Overview
    ensures { result ≡ read_or overview.Simplified overview_of (codes "overview") (options_of query.now) }
{
    last_value_of("overview", query)
        .and_then(|value| overview_of(value))
        .unwrap_or(Overview::Simplified)
}

fn continue_straight_in(query: &str) -> ContinueStraight
    ensures { result ≡ read_or straight.Default continue_straight_of (codes "continue_straight") (options_of query.now) }
{
    last_value_of("continue_straight", query)
        .and_then(|value| continue_straight_of(value))
        .unwrap_or(ContinueStraight::Default)
}

fn source_in(query: &str) -> Source
    ensures { result ≡ read_or source.Any source_of (codes "source") (options_of query.now) }
{
    last_value_of("source", query)
        .and_then(|value| source_of(value))
        .unwrap_or(Source::Any)
}

fn destination_in(query: &str) -> Destination
    ensures { result ≡ read_or destination.Any destination_of (codes "destination") (options_of query.now) }
{
    last_value_of("destination", query)
        .and_then(|value| destination_of(value))
        .unwrap_or(Destination::Any)
}

fn table_options(alloc: Global, count: usize, query: &str) -> Result<TableOptions, RequestFault>
    ensures own { IfOk result (λ own. table_options count (options_of query.now) ≡ Ok own) }
    ensures there { IfOk result (λ own. AreThere count own.sources × AreThere count own.destinations) }
    ensures refusal { IfErr result (IsFaultOf (table_options count (options_of query.now))) }
{
    let sources = chosen_for(alloc, count, "sources", query)?;
    let destinations = chosen_for(alloc, count, "destinations", query)?;
    Ok(TableOptions {
        sources,
        destinations,
        annotations: table_annotations_in(query),
    })
}

fn table_annotations_in(query: &str) -> TableAnnotations
    ensures { result ≡ table_annotations (options_of query.now) }
{
    last_value_of("annotations", query)
        .and_then(|value| table_annotations_of(value))
        .unwrap_or(DURATION)
}

// The sources or the destinations of a table.
fn chosen_for(alloc: Global, count: usize, name: &str, query: &str) -> Result<Chosen, RequestFault>
    ensures chosen { IfOk result (λ chosen. chosen_for count name.now (options_of query.now) ≡ Ok chosen) }
    ensures there { IfOk result (AreThere count) }
    ensures refusal { IfErr result (IsFaultOf (chosen_for count name.now (options_of query.now))) }
{
    match chosen_among(alloc, count, last_value_of(name, query))? {
        Some(chosen) => Ok(chosen),
        None => Err(RequestFault::Refused(bad_option(alloc, name)?)),
    }
}

fn nearest_options(query: &str) -> NearestOptions
    ensures own { result ≡ nearest_options (options_of query.now) }
    ensures some { 1 ≤ result.number }
{
    let number = last_value_of("number", query)
        .and_then(|value| number_of(value))
        .unwrap_or(1);
    NearestOptions { number }
}
