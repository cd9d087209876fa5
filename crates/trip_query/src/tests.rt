//! What no clause says: that trips are found where memory is ample, with these very orders and costs; and that what
//! is stated is what a reader of the rule expects, by small tables and all of their orders, one by one.
//!
//! A table is a text with a row a line, of entries `weight/duration/length` with a blank between each two, and `-` where
//! there is no leg. In most the legs of less weight take longer, so that other trips are the quickest. A rule is the words
//! of what it asks: `round`, `first`, `last`. A trip is told by its places and what it costs.

ghost use Rattle.std.specs.Prelude.{◌≡◌, ◌^◌, ◌≤◌, length, All, IfOk};
ghost use Rattle.std.specs.Option.{ForSome};
ghost use Rattle.search_graph.specs.RoadCosts.{road_cost_ops};

use crate::{Destination, Rule, Source, Trip, best};
use search_graph::WeightDurLen;
use std::alloc::{AllocError, Global};
use std::process::Abort;

// The number that a text is.
fn number(rt: &impl Abort, text: Option<&str>) -> u32 {
    let Some(Ok(number)) = text.map(|text| text.parse::<u32>()) else {
        panic!(rt; "a number");
    };
    number
}

// What a leg costs.
fn leg(rt: &impl Abort, text: &str) -> Option<WeightDurLen>
    ensures { ForSome result (λ cost. road_cost_ops.units cost (2 ^ 27)) }
{
    if text == "-" {
        return None;
    }
    let mut parts = text.split('/');
    let weight = u64::from(number(rt, parts.next()));
    let duration = u64::from(number(rt, parts.next()));
    let length = u64::from(number(rt, parts.next()));
    Some(WeightDurLen {
        weight,
        duration,
        length,
    })
}

// The row of a line, for so many places.
fn row(
    rt: &impl Abort,
    alloc: Global,
    places: usize,
    line: &str,
) -> Result<Vec<Option<WeightDurLen>>, AllocError>
    ensures wide { IfOk result (λ row. length row.items ≡ places) }
    ensures units { IfOk result (λ row. All (λ leg. ForSome leg (λ cost. road_cost_ops.units cost (2 ^ 27))) row.items) }
{
    let mut row = Vec::new(alloc);
    for text in line.split(' ') {
        row.push(leg(rt, text))?;
    }
    assert!(rt; row.len() == places);
    Ok(row)
}

// The rows of a text, for so many places.
fn rows(
    rt: &impl Abort,
    alloc: Global,
    places: usize,
    text: &str,
) -> Result<Vec<Vec<Option<WeightDurLen>>>, AllocError>
    ensures each { IfOk result (λ rows. length rows.items ≡ places) }
    ensures square { IfOk result (λ rows. All (λ row. length row.items ≡ places) rows.items) }
    ensures units { IfOk result (λ rows. All (λ row. All (λ leg. ForSome leg (λ cost. road_cost_ops.units cost (2 ^ 27))) row.items) rows.items) }
{
    let mut rows = Vec::new(alloc);
    for line in text.split('\n') {
        rows.push(row(rt, alloc, places, line)?)?;
    }
    assert!(rt; rows.len() == places);
    Ok(rows)
}

// The rule of its words.
fn rule(words: &str) -> Rule {
    Rule {
        roundtrip: words.contains("round"),
        source: if words.contains("first") {
            Source::First
        } else {
            Source::Any
        },
        destination: if words.contains("last") {
            Destination::Last
        } else {
            Destination::Any
        },
    }
}

// A trip of this order and cost as a text.
fn trip_told(alloc: Global, order: &str, cost: WeightDurLen) -> Result<String, AllocError> {
    let WeightDurLen {
        weight,
        duration,
        length,
    } = cost;
    format!(in alloc; "{order} {weight}/{duration}/{length}")
}

// A trip as a text, `-` for none.
fn told(alloc: Global, trip: &Option<Trip<WeightDurLen>>) -> Result<String, AllocError> {
    let Some(trip) = trip else {
        return String::from_str(alloc, "-");
    };
    let mut text = String::new(alloc);
    for place in trip.order.as_slice() {
        text.push_str(format!(in alloc; "{place}")?.as_str())?;
    }
    trip_told(alloc, text.as_str(), trip.cost)
}

// The best trip through so many places.
fn best_told(
    rt: &impl Abort,
    alloc: Global,
    places: usize,
    table: &str,
    words: &str,
) -> Result<String, AllocError> {
    assert!(rt; 2 <= places && places <= 9);
    let rows = rows(rt, alloc, places, table)?;
    let trip = best(alloc, &rows, rule(words))?;
    told(alloc, &trip)
}

// Asserts which trips are the best by rules, of which each stands before a bar and its trip.
fn assert_told(
    rt: &impl Abort,
    alloc: Global,
    places: usize,
    table: &str,
    cases: &str,
) -> Result<(), AllocError> {
    for case in cases.split(';') {
        let Some((words, want)) = case.split_once('|') else {
            panic!(rt; "a rule and its trip");
        };
        let told = best_told(rt, alloc, places, table, words)?;
        assert_eq!(rt; told.as_str(), want, "by the rule {words:?}");
    }
    Ok(())
}

const TWO: &str = "- 7/1/3
5/8/9 -";

#[test]
fn two_places_have_two_orders(rt: HostRuntime) -> Result<(), AllocError> {
    let cases =
        "|10 5/8/9;first|01 7/1/3;last|01 7/1/3;first last|01 7/1/3;round|01 12/9/12;round last|01 12/9/12";
    assert_told(&rt, rt.alloc(), 2, TWO, cases)
}

/// Three corners of a block of one-way streets: the first, the one across from it, and the one between. The street from the
/// one between to the one across weighs 300, and the two streets back from there 20 together.
const BLOCK: &str = "- 310/198/2222 10/99/1111
20/198/2222 - 30/297/3333
320/297/3333 300/99/1111 -";

const IN_THE_BLOCK: &str = "round|021 330/396/4444;first last|012 340/495/5555;|102 30/297/3333;\
    last|102 30/297/3333;round last|102 330/396/4444;round first last|012 660/792/8888";

#[test]
fn a_trip_goes_round_with_the_one_way_streets(rt: HostRuntime) -> Result<(), AllocError> {
    assert_told(&rt, rt.alloc(), 3, BLOCK, IN_THE_BLOCK)
}

/// Two places on a one-way street.
const STREET: &str = "- 62/50/556
- -";

#[test]
fn where_no_leg_leads_back_no_trip_returns(rt: HostRuntime) -> Result<(), AllocError> {
    let cases =
        "|01 62/50/556;first last|01 62/50/556;round|-;round first|-;round last|-;round first last|-";
    assert_told(&rt, rt.alloc(), 2, STREET, cases)
}

/// Nine places on a street, which stand along it as 4, 7, 1, 8, 0, 5, 2, 6, 3. A leg weighs what it is long.
const ALONG_A_STREET: &str = "- 2/7/2 2/7/2 4/5/4 4/5/4 1/8/1 3/6/3 3/6/3 1/8/1
2/7/2 - 4/5/4 6/3/6 2/7/2 3/6/3 5/4/5 1/8/1 1/8/1
2/7/2 4/5/4 - 2/7/2 6/3/6 1/8/1 1/8/1 5/4/5 3/6/3
4/5/4 6/3/6 2/7/2 - 8/1/8 3/6/3 1/8/1 7/2/7 5/4/5
4/5/4 2/7/2 6/3/6 8/1/8 - 5/4/5 7/2/7 1/8/1 3/6/3
1/8/1 3/6/3 1/8/1 3/6/3 5/4/5 - 2/7/2 4/5/4 2/7/2
3/6/3 5/4/5 1/8/1 1/8/1 7/2/7 2/7/2 - 6/3/6 4/5/4
3/6/3 1/8/1 5/4/5 7/2/7 1/8/1 4/5/4 6/3/6 - 2/7/2
1/8/1 1/8/1 3/6/3 5/4/5 3/6/3 2/7/2 4/5/4 2/7/2 -";

const ALONG: &str = "|362508174 8/64/8;first|014785263 12/60/12;last|362501478 11/61/11;\
    first last|023651478 15/57/15;round|014782365 16/65/16;round first|014782365 16/65/16;\
    round last|023651478 16/65/16;round first last|023651478 16/65/16";

// A place may be passed by and visited on the way back at the same cost.
#[test]
fn of_equal_trips_through_nine_places_the_first_is_taken(
    rt: HostRuntime,
) -> Result<(), AllocError> {
    assert_told(&rt, rt.alloc(), 9, ALONG_A_STREET, ALONG)
}

// The orders of four places, as in a dictionary.
const ORDERS: &str = "0123 0132 0213 0231 0312 0321 1023 1032 1203 1230 1302 1320 \
    2013 2031 2103 2130 2301 2310 3012 3021 3102 3120 3201 3210";

// Whether a rule admits an order of four places.
fn admits(words: &str, order: &str) -> bool {
    let (round, first, last) = (
        words.contains("round"),
        words.contains("first"),
        words.contains("last"),
    );
    (order.starts_with('0') || !first && (!round || last)) && (order.ends_with('3') || !last)
}

// The leg between two places, each as its digit.
fn leg_between(rows: &[Vec<Option<WeightDurLen>>], from: u8, to: u8) -> Option<WeightDurLen> {
    let row = rows.get(from.saturating_sub(48) as usize)?;
    *row.get(to.saturating_sub(48) as usize)?
}

// What the legs of an order cost together, and that of the way back.
fn cost_along(
    rows: &[Vec<Option<WeightDurLen>>],
    order: &str,
    round: bool,
) -> Option<WeightDurLen> {
    let (mut weight, mut duration, mut length) = (0u64, 0u64, 0u64);
    let mut from = if round { order.bytes().last() } else { None };
    for to in order.bytes() {
        if let Some(from) = from {
            let leg = leg_between(rows, from, to)?;
            weight = weight.saturating_add(leg.weight);
            duration = duration.saturating_add(leg.duration);
            length = length.saturating_add(leg.length);
        }
        from = Some(to);
    }
    Some(WeightDurLen {
        weight,
        duration,
        length,
    })
}

// The first of the cheapest of all orders that the rule admits, counted through one by one.
fn counted_told(
    rt: &impl Abort,
    alloc: Global,
    table: &str,
    words: &str,
) -> Result<String, AllocError> {
    let rows = rows(rt, alloc, 4, table)?;
    let mut least = None;
    for order in ORDERS.split(' ').filter(|order| admits(words, order)) {
        if let Some(cost) = cost_along(&rows, order, words.contains("round")) {
            least = match least {
                Some((first, so_far)) if so_far <= cost => Some((first, so_far)),
                _ => Some((order, cost)),
            };
        }
    }
    match least {
        Some((order, cost)) => trip_told(alloc, order, cost),
        None => String::from_str(alloc, "-"),
    }
}

const RULES: &str = "|first|last|first last|round|round first|round last|round first last";

// Tables of four places, with a semicolon between each two: no two trips alike; all alike; all of one weight; some alike;
// legs that are lacking; a place that nothing leads to; one that nothing leaves; and one where the nearest place next is dear
// in the end.
const TABLES: &str =
    "- 31/29/1 17/43/2 59/1/3\n23/37/4 - 41/19/5 13/47/6\n37/23/7 19/41/8 - 29/31/9\n11/49/1 53/7/2 43/17/3 -;\
    - 7/2/1 7/2/1 7/2/1\n7/2/1 - 7/2/1 7/2/1\n7/2/1 7/2/1 - 7/2/1\n7/2/1 7/2/1 7/2/1 -;\
    - 4/3/1 4/1/9 4/2/5\n4/2/8 - 4/3/2 4/1/6\n4/1/7 4/2/4 - 4/3/3\n4/3/2 4/1/5 4/2/1 -;\
    - 2/1/1 2/1/1 2/1/1\n2/1/1 - 2/1/1 1/2/1\n2/1/1 1/2/1 - 2/1/1\n2/1/1 2/1/1 1/2/1 -;\
    - 5/4/5 - 4/5/4\n- - 3/6/3 -\n2/7/2 - - 6/3/6\n7/2/7 8/1/8 - -;\
    - - 4/5/4 1/8/1\n3/6/3 - 2/7/2 5/4/5\n6/3/6 - - 1/8/1\n2/7/2 - 3/6/3 -;\
    - 4/5/4 6/3/6 1/8/1\n- - - -\n3/6/3 2/7/2 - 5/4/5\n1/8/1 6/3/6 2/7/2 -;\
    - 1/99/1 5/95/5 5/95/5\n9/91/9 - 1/99/1 9/91/9\n9/91/9 9/91/9 - 99/1/1\n2/98/1 9/91/9 4/96/4 -";

#[test]
fn each_rule_takes_the_first_of_the_cheapest_of_all_orders(
    rt: HostRuntime,
) -> Result<(), AllocError> {
    for table in TABLES.split(';') {
        for words in RULES.split('|') {
            let told = best_told(&rt, rt.alloc(), 4, table, words)?;
            let counted = counted_told(&rt, rt.alloc(), table, words)?;
            assert_eq!(rt; told.as_str(), counted.as_str(), "{table} {words:?}");
        }
    }
    Ok(())
}
