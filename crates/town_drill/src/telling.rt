//! What is told of the trips under a metric.

ghost use Rattle.std.specs.Prelude.{◌≡◌, ◌≤◌, ◌<◌, IfOk, count_by, length, string_bytes, sum_by};
ghost use Rattle.town_drill.specs.Drill.{counts_text, deciseconds_of, duration_text, is_arrival, is_cut_off, line_text};

use crate::trips::Trip;
use std::alloc::{AllocError, Global};

// Whether a trip arrives.
fn is_arrival(trip: Trip) -> bool
    ensures { result ≡ is_arrival trip }
{
    matches!(trip, Trip::Arrives(_))
}

// Whether no route leads to its end.
fn is_cut_off(trip: Trip) -> bool
    ensures { result ≡ is_cut_off trip }
{
    matches!(trip, Trip::NoRoute)
}

// How many deciseconds a trip takes, if it arrives.
fn deciseconds_of(trip: Trip) -> u64
    ensures { result ≡ deciseconds_of trip }
{
    match trip {
        Trip::Arrives(deciseconds) => deciseconds,
        Trip::NoRoute | Trip::NoPlace => 0,
    }
}

// How many trips arrive.
fn arrivals(trips: &[Trip]) -> usize
    ensures { result ≡ count_by is_arrival trips.now }
{
    trips.iter().filter(|trip| is_arrival(**trip)).count()
}

// To how many no route leads.
fn cut_off(trips: &[Trip]) -> usize
    ensures { result ≡ count_by is_cut_off trips.now }
{
    trips.iter().filter(|trip| is_cut_off(**trip)).count()
}

// How many deciseconds all trips take together.
fn deciseconds(trips: &[Trip]) -> u128
    requires { length trips.now ≤ 16 }
    ensures { result ≡ sum_by deciseconds_of trips.now }
{
    let mut sum = 0;
    for trip in trips {
        sum += u128::from(deciseconds_of(*trip));
    }
    sum
}

// The first part of a line: how many trips arrive, and how many have no route.
#[tactic(auto, unfolding(crate::specs::Drill::counts_text))]
fn counts_text(alloc: Global, metric: u32, ok: usize, none: usize) -> Result<String, AllocError>
    ensures { IfOk result (λ text. string_bytes text ≡ counts_text metric ok none) }
{
    format!(in alloc; "metric {metric} ok {ok} none {none}")
}

// The rest of it: how long those that arrive take together.
#[tactic(auto, unfolding(crate::specs::Drill::duration_text))]
fn duration_text(alloc: Global, deciseconds: u128) -> Result<String, AllocError>
    ensures { IfOk result (λ text. string_bytes text ≡ duration_text deciseconds) }
{
    let (whole, tenth) = (deciseconds / 10, deciseconds % 10);
    format!(in alloc; " duration {whole}.{tenth}\n")
}

/// The line on the trips under the metric of this number. It answers an error only where memory runs out.
#[tactic(auto, unfolding(crate::specs::Drill::line_text))]
pub(crate) fn line(alloc: Global, metric: u32, trips: &[Trip]) -> Result<String, AllocError>
    requires { length trips.now ≤ 16 }
    ensures { IfOk result (λ line. string_bytes line ≡ line_text metric trips.now) }
{
    let mut line = counts_text(alloc, metric, arrivals(trips), cut_off(trips))?;
    let rest = duration_text(alloc, deciseconds(trips))?;
    line.push_str(&rest)?;
    Ok(line)
}
