//! What no clause says: that chains are found where memory is ample, with these very states; and that what is stated is
//! what a reader of the rule expects, by small tables and all of their chains, one by one.
//!
//! A leg is a text of words: how many states it begins and ends in, as `2x3`, and then its costs, row by row:
//! `weight/duration/length`, one number where all three are alike, or `-` where there is no walk. Between each two legs
//! stands a bar. A chain is told by its states.

use crate::{Chain, LegCosts, least_chain};
use search_graph::WeightDurLen;
use std::alloc::{AllocError, Global};
use std::process::Abort;

// The number that a text is.
fn number(rt: &impl Abort, text: &str) -> u64 {
    let Ok(number) = text.parse::<u64>() else {
        panic!(rt; "a number");
    };
    number
}

// How many states a text says.
fn states(rt: &impl Abort, text: &str) -> u32 {
    let Ok(states) = text.parse::<u32>() else {
        panic!(rt; "a number of states");
    };
    states
}

// A part of a cost; one that is left out is as the one given.
fn part(rt: &impl Abort, text: Option<&str>, other: u64) -> u64 {
    match text {
        Some(text) => number(rt, text),
        None => other,
    }
}

// What a walk costs.
fn cost(rt: &impl Abort, text: &str) -> Option<WeightDurLen> {
    if text == "-" {
        return None;
    }
    let mut parts = text.split('/');
    let weight = part(rt, parts.next(), 0);
    let duration = part(rt, parts.next(), weight);
    let length = part(rt, parts.next(), weight);
    Some(WeightDurLen {
        weight,
        duration,
        length,
    })
}

// The leg of a text.
fn leg(rt: &impl Abort, alloc: Global, text: &str) -> Result<LegCosts, AllocError> {
    let Some((size, rest)) = text.split_once(' ') else {
        panic!(rt; "a leg");
    };
    let Some((starts, ends)) = size.split_once('x') else {
        panic!(rt; "a leg's size");
    };
    let mut costs = Vec::new(alloc);
    for text in rest.split(' ') {
        costs.push(cost(rt, text))?;
    }
    Ok(LegCosts {
        starts: states(rt, starts),
        ends: states(rt, ends),
        costs,
    })
}

// The legs of a text.
fn legs(rt: &impl Abort, alloc: Global, text: &str) -> Result<Vec<LegCosts>, AllocError> {
    let mut legs = Vec::new(alloc);
    for text in text.split('|') {
        legs.push(leg(rt, alloc, text)?)?;
    }
    Ok(legs)
}

// The least chain through some legs, as a text.
fn least_told(rt: &impl Abort, alloc: Global, legs: &[LegCosts]) -> Result<String, AllocError> {
    assert!(rt; 0 < legs.len() && legs.len() < 1000);
    let states = match least_chain(alloc, legs)? {
        Chain::States(states) => states,
        Chain::Broken(leg) => return format!(in alloc; "broken at {leg}"),
    };
    let mut text = String::new(alloc);
    for state in states.as_slice() {
        text.push_str(format!(in alloc; "{state}")?.as_str())?;
    }
    Ok(text)
}

// Asserts which chains are the least, each a line: the legs, an arrow and the chain.
fn assert_told(rt: &impl Abort, alloc: Global, cases: &str) -> Result<(), AllocError> {
    for case in cases.split('\n') {
        let Some((text, want)) = case.split_once(" -> ") else {
            panic!(rt; "legs and their chain");
        };
        let legs = legs(rt, alloc, text)?;
        let told = least_told(rt, alloc, legs.as_slice())?;
        assert_eq!(rt; told.as_str(), want, "through {text}");
    }
    Ok(())
}

#[test]
fn the_best_state_of_one_leg_may_be_the_wrong_one(rt: HostRuntime) -> Result<(), AllocError> {
    let cases = "1x2 1 2|2x1 9 1 -> 010\n\
        1x3 1 2 3|3x3 9 9 9 9 9 4 2 9 9|3x2 7 8 9 9 9 1 -> 0121\n\
        2x2 5 3 4 6|2x1 2 5 -> 100";
    assert_told(&rt, rt.alloc(), cases)
}

#[test]
fn one_leg_has_its_least_cost(rt: HostRuntime) -> Result<(), AllocError> {
    let cases = "1x1 7 -> 00\n1x3 3 2 4 -> 01\n3x1 5 4 6 -> 10\n2x2 9 - - 8 -> 11";
    assert_told(&rt, rt.alloc(), cases)
}

#[test]
fn of_equal_chains_the_one_to_the_first_state_is_taken(rt: HostRuntime) -> Result<(), AllocError> {
    let cases = "2x2 1 1 1 1|2x2 1 1 1 1 -> 000\n2x2 2 1 1 2|2x1 1 1 -> 100";
    assert_told(&rt, rt.alloc(), cases)
}

#[test]
fn a_weight_counts_before_a_duration_and_that_before_a_length(
    rt: HostRuntime,
) -> Result<(), AllocError> {
    let cases = "1x2 1/9/9 2/0/0 -> 00\n1x3 5/4/1 5/3/9 5/3/8 -> 02\n\
        1x2 1/5/5 1/4/9|2x1 1/1/1 1/2/0 -> 000\n1x2 1/5/5 1/4/5|2x1 1/1/1 1/2/0 -> 010";
    assert_told(&rt, rt.alloc(), cases)
}

#[test]
fn no_chain_goes_through_a_state_that_leads_nowhere(rt: HostRuntime) -> Result<(), AllocError> {
    let cases = "1x2 1 5|2x1 - 1 -> 010\n1x2 1 5|2x2 1 - - 1|2x1 - 9 -> 0110";
    assert_told(&rt, rt.alloc(), cases)
}

#[test]
fn legs_break_at_the_first_behind_which_nothing_reaches(rt: HostRuntime) -> Result<(), AllocError> {
    let cases = "1x1 -|1x1 1|1x1 - -> broken at 0\n\
        1x1 1|1x1 -|1x1 1|1x1 - -> broken at 1\n\
        1x1 1|1x1 1|1x1 - -> broken at 2\n\
        1x2 1 -|2x1 - 1 -> broken at 1\n\
        1x2 1 -|2x2 - 1 1 -|2x1 1 - -> broken at 2";
    assert_told(&rt, rt.alloc(), cases)
}

// Where a place has no state no leg leads to it; where a leg begins in fewer states than the one before ends in, none
// leads on from the others.
#[test]
fn what_a_table_lacks_is_no_walk(rt: HostRuntime) -> Result<(), AllocError> {
    let cases = "0x1 1|1x1 1 -> broken at 0\n1x0 1|0x1 1 -> broken at 0\n\
        1x2 9 1|1x1 1 -> 000\n2x2 1|2x1 9 1 -> 000";
    assert_told(&rt, rt.alloc(), cases)
}

// 2^64 - 1 and more: in 64 bits the first sum would be 1, and the second the lesser of two that are cut off.
#[test]
fn sums_go_beyond_64_bits(rt: HostRuntime) -> Result<(), AllocError> {
    let cases = "1x2 18446744073709551615 18446744073709551615|2x1 2 0 -> 010\n\
        1x2 18446744073709551615 18446744073709551614|\
        2x2 18446744073709551615 - - 18446744073709551615|2x1 1 1 -> 0110";
    assert_told(&rt, rt.alloc(), cases)
}

#[test]
fn a_legs_costs_are_read_row_by_row(rt: HostRuntime) -> Result<(), AllocError> {
    let leg = leg(&rt, rt.alloc(), "2x3 1 2 3 4 - 6")?;
    assert!(rt; leg.cost(1, 0).is_some_and(|cost| cost.weight == 4));
    assert!(rt; leg.cost(0, 2).is_some_and(|cost| cost.weight == 3));
    assert!(rt; leg.cost(1, 1).is_none() && leg.cost(2, 0).is_none() && leg.cost(0, 3).is_none());
    Ok(())
}

// The next of some drawn numbers (Knuth's multiplier).
fn drawn(seed: u64) -> u64 {
    seed.wrapping_mul(6364136223846793005)
        .wrapping_add(1442695040888963407)
}

// A leg between three states and three, of costs below 8, of which a few are lacking.
fn drawn_leg(alloc: Global, seed: u64) -> Result<LegCosts, AllocError> {
    let mut costs = Vec::new(alloc);
    let mut seed = seed;
    for _ in 0..9 {
        seed = drawn(seed);
        let weight = (seed >> 33) % 10;
        let cost = WeightDurLen {
            weight,
            duration: weight,
            length: weight,
        };
        costs.push(if weight < 8 { Some(cost) } else { None })?;
    }
    Ok(LegCosts {
        starts: 3,
        ends: 3,
        costs,
    })
}

// The weight of a chain.
fn weight_along(legs: &[LegCosts], states: &[u32]) -> Option<u64> {
    let mut weight = 0u64;
    for (leg, pair) in legs.iter().zip(states.windows(2)) {
        let cost = leg.cost(*pair.first()?, *pair.last()?)?;
        weight = weight.saturating_add(cost.weight);
    }
    Some(weight)
}

// The chain of this number among those of three states at each of five places.
fn numbered(number: u32) -> [u32; 5] {
    [
        number % 3,
        number / 3 % 3,
        number / 9 % 3,
        number / 27 % 3,
        number / 81 % 3,
    ]
}

// The lesser of two weights, where there are any.
fn lesser(one: Option<u64>, other: Option<u64>) -> Option<u64> {
    match (one, other) {
        (Some(a), Some(b)) => Some(if a <= b { a } else { b }),
        (Some(a), None) => Some(a),
        (None, Some(b)) => Some(b),
        (None, None) => None,
    }
}

// The least weight of all chains, tried one by one.
fn least_weight(legs: &[LegCosts]) -> Option<u64> {
    let mut least = None;
    for number in 0..243 {
        least = lesser(least, weight_along(legs, &numbered(number)));
    }
    least
}

#[test]
fn drawn_tables_have_no_lesser_chain(rt: HostRuntime) -> Result<(), AllocError> {
    for table in 0..40u64 {
        let mut legs = Vec::new(rt.alloc());
        for number in 0..4u64 {
            legs.push(drawn_leg(rt.alloc(), drawn(table * 4 + number))?)?;
        }
        assert!(rt; 0 < legs.len() && legs.len() < 1000);
        let weight = match least_chain(rt.alloc(), &legs)? {
            Chain::States(states) => weight_along(&legs, states.as_slice()),
            Chain::Broken(_) => None,
        };
        assert!(rt; weight == least_weight(&legs), "table {table}");
    }
    Ok(())
}
