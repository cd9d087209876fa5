//! What no clause says: that the calls succeed, and that the definitions say what was meant.

use case_tables::{count, pair};
use opl_read::read;
use std::alloc::{AllocError, Global};
use std::process::Abort;
use turn_rules::{Rules, ViaRestriction, rules};

// The rules for a car of a map in OPL.
fn rules_of(rt: &impl Abort, alloc: Global, map: &[u8]) -> Result<Rules, AllocError> {
    match read(alloc, map) {
        Ok(objects) => rules(alloc, &objects, "motorcar"),
        Err(_fault) => panic!(rt; "a good text"),
    }
}

// How many restrictions are kept and ignored, and whether the first forbids the turns from way 1 to ways
// 4 and 3.
fn told(alloc: Global, rules: &Rules) -> Result<String, AllocError> {
    let ignored = rules.ignored();
    if rules.count() == 0 {
        return format!(in alloc; "0 {ignored} false false");
    }
    let count = rules.count();
    let to_four = rules.forbids(0, 1, 4, false);
    let to_three = rules.forbids(0, 1, 3, false);
    format!(in alloc; "{count} {ignored} {to_four} {to_three}")
}

// What the rules of a map tell.
fn map_told(rt: &impl Abort, alloc: Global, map: &[u8]) -> Result<String, AllocError> {
    let rules = rules_of(rt, alloc, map)?;
    told(alloc, &rules)
}

// Asserts that the rules of each map of a table tell what its row says: the map, which is one restriction, and what is told.
fn assert_told(rt: &impl Abort, alloc: Global, table: &[u8]) -> Result<(), AllocError> {
    for number in 0..count(table) {
        let (map, want) = pair(table, number).expect(rt, "a row of two");
        assert_eq!(rt; map_told(rt, alloc, map)?.as_bytes(), want, "row {number}");
    }
    Ok(())
}

const SENSES: &[u8] =
    b"r1 Ttype=restriction,restriction=no_left_turn,except=bus Mw4@to,w1@from,n7@location_hint,n5@via|1 0 true false$\
r1 Ttype=restriction,restriction=no_right_turn,except=bus Mw4@to,w1@from,n7@location_hint,n5@via|1 0 true false$\
r1 Ttype=restriction,restriction=no_straight_on,except=bus Mw4@to,w1@from,n7@location_hint,n5@via|1 0 true false$\
r1 Ttype=restriction,restriction=no_u_turn,except=bus Mw4@to,w1@from,n7@location_hint,n5@via|1 0 true false$\
r1 Ttype=restriction,restriction=no_entry,except=bus Mw4@to,w1@from,n7@location_hint,n5@via|1 0 true false$\
r1 Ttype=restriction,restriction=no_exit,except=bus Mw4@to,w1@from,n7@location_hint,n5@via|1 0 true false$\
r1 Ttype=restriction,restriction=only_left_turn,except=bus Mw4@to,w1@from,n7@location_hint,n5@via|1 0 false true$\
r1 Ttype=restriction,restriction=only_right_turn,except=bus Mw4@to,w1@from,n7@location_hint,n5@via|1 0 false true$\
r1 Ttype=restriction,restriction=only_straight_on,except=bus Mw4@to,w1@from,n7@location_hint,n5@via|1 0 false true";

#[test]
fn each_value_forbids_the_turns_of_its_sense(rt: HostRuntime) -> Result<(), AllocError> {
    assert_told(&rt, rt.alloc(), SENSES)
}

// Restrictions without a way to, which are faulty.
const EXCEPTED: &[u8] =
    b"r1 Ttype=restriction,restriction=no_left_turn,except=motorcar Mw1@from,n5@via|0 0 false false$\
r1 Ttype=restriction,restriction=no_left_turn,except=bus;%20%%9%motorcar%20%;taxi Mw1@from,n5@via|0 0 false false$\
r1 Ttype=restriction,restriction=no_left_turn,except=bus Mw1@from,n5@via|0 1 false false$\
r1 Ttype=restriction,restriction=no_left_turn,except=motor%20%car;bus%2c%motorcar Mw1@from,n5@via|0 1 false false";

#[test]
fn an_excepted_vehicle_has_no_restriction(rt: HostRuntime) -> Result<(), AllocError> {
    assert_told(&rt, rt.alloc(), EXCEPTED)
}

const MEMBERS: &[u8] =
    b"r1 Ttype=restriction,restriction=no_turn,except=bus Mw1@from,n5@via,w4@to,n7@location_hint|0 1 false false$\
r1 Ttype=restriction,restriction=no_left_turn,except=bus Mw1@from,w2@from,n5@via,w4@to|0 1 false false$\
r1 Ttype=restriction,restriction=no_left_turn,except=bus Mw1@from,n5@via,n5@via,w4@to|0 1 false false$\
r1 Ttype=restriction,restriction=no_left_turn,except=bus Mw1@from,w5@via,w4@to,n7@location_hint|0 0 false false$\
r1 Ttype=restriction,restriction=no_left_turn,except=bus Mw1@from,n5@via,n7@location_hint,n7@location_hint|0 1 false false$\
r1 Ttype=restriction,restriction=no_exit,except=bus Mw1@from,w2@from,n5@via,w4@to|0 1 false false$\
r1 Ttype=restriction,restriction=no_entry,except=bus Mw1@from,w2@from,n5@via,w4@to|1 0 true false$\
r1 Ttype=restriction,restriction=no_exit,except=bus Mw1@from,n5@via,w3@to,w4@to|1 0 true true";

#[test]
fn members_are_counted_by_their_roles(rt: HostRuntime) -> Result<(), AllocError> {
    assert_told(&rt, rt.alloc(), MEMBERS)
}

const TURN_BACK: &[u8] =
    b"r1 Ttype=restriction,restriction=no_u_turn,except= Mw1@from,n5@via,w1@to";

// What the rules tell of a turn back: how many there are, the node and the number of ways of the first, and whether it forbids
// to turn back, and to go on by the same way.
fn turn_back_told(alloc: Global, kept: &Rules) -> Result<String, AllocError> {
    if kept.count() != 1 {
        return format!(in alloc; "{}", kept.count());
    }
    let back = kept.forbids(0, 1, 1, true);
    let on = kept.forbids(0, 1, 1, false);
    format!(in alloc; "1 {} {} {back} {on}", kept.via(0), kept.ways(0).len())
}

#[test]
fn a_turn_back_is_forbidden_on_its_own_way(rt: HostRuntime) -> Result<(), AllocError> {
    let kept = rules_of(&rt, rt.alloc(), TURN_BACK)?;
    assert_eq!(rt;
        turn_back_told(rt.alloc(), &kept)?.as_str(),
        "1 5 2 true false"
    );
    Ok(())
}

// A restriction over via ways: its way from, its first and last via way and how many there are, its way to, and whether it
// forbids all other ways.
fn way_on_told(
    rt: &impl Abort,
    alloc: Global,
    restriction: &ViaRestriction,
) -> Result<String, AllocError> {
    let (Some(first), Some(last)) = (restriction.via().first(), restriction.via().last()) else {
        panic!(rt; "a via way");
    };
    let from = restriction.from();
    let count = restriction.via().len();
    let to = restriction.to();
    let only = restriction.only();
    format!(in alloc; " {from} {first} {last} {count} {to} {only}")
}

// How many restrictions over nodes and over via ways are kept and how many are ignored, and those over via ways.
fn ways_on_told(rt: &impl Abort, alloc: Global, map: &[u8]) -> Result<String, AllocError> {
    let rules = rules_of(rt, alloc, map)?;
    let count = rules.count();
    let along = rules.along().len();
    let ignored = rules.ignored();
    let mut text = format!(in alloc; "{count} {along} {ignored}")?;
    for restriction in rules.along() {
        text.push_str(way_on_told(rt, alloc, restriction)?.as_str())?;
    }
    Ok(text)
}

// Asserts the same as `assert_told`, of what is told of via ways.
fn assert_ways_on(rt: &impl Abort, alloc: Global, table: &[u8]) -> Result<(), AllocError> {
    for number in 0..count(table) {
        let (map, want) = pair(table, number).expect(rt, "a row of two");
        assert_eq!(rt;
            ways_on_told(rt, alloc, map)?.as_bytes(),
            want,
            "row {number}"
        );
    }
    Ok(())
}

const OVER_WAYS: &[u8] =
    b"r1 Ttype=restriction,restriction=no_left_turn Mw4@to,w1@from,n7@location_hint,w2@via|0 1 0 1 2 2 1 4 false$\
r1 Ttype=restriction,restriction=no_right_turn Mw1@from,w2@via,w4@to|0 1 0 1 2 2 1 4 false$\
r1 Ttype=restriction,restriction=no_straight_on Mw1@from,w2@via,w4@to|0 1 0 1 2 2 1 4 false$\
r1 Ttype=restriction,restriction=no_u_turn Mw1@from,w2@via,w1@to|0 1 0 1 2 2 1 1 false$\
r1 Ttype=restriction,restriction=only_left_turn Mw1@from,w2@via,w4@to|0 1 0 1 2 2 1 4 true$\
r1 Ttype=restriction,restriction=only_right_turn Mw1@from,w2@via,w4@to|0 1 0 1 2 2 1 4 true$\
r1 Ttype=restriction,restriction=only_straight_on Mw1@from,w2@via,w4@to|0 1 0 1 2 2 1 4 true$\
r1 Ttype=restriction,restriction=no_entry Mw1@from,w2@via,w4@to|0 0 1$\
r1 Ttype=restriction,restriction=no_exit Mw1@from,w2@via,w4@to|0 0 1$\
r1 Ttype=restriction,restriction=no_turn Mw1@from,w2@via,w4@to|0 0 1$\
r1 Ttype=restriction Mw1@from,w2@via,w4@to|0 0 1";

#[test]
fn over_ways_a_value_forbids_one_way_on_or_all_others(rt: HostRuntime) -> Result<(), AllocError> {
    assert_ways_on(&rt, rt.alloc(), OVER_WAYS)
}

const VIA_MEMBERS: &[u8] =
    b"r1 Ttype=restriction,restriction=no_left_turn Mw1@from,n5@via,w4@to|1 0 0$\
r1 Ttype=restriction,restriction=no_left_turn Mw9@via,w4@to,w6@via,w1@from,w7@via,w3@via|0 1 0 1 9 3 4 4 false$\
r1 Ttype=restriction,restriction=no_left_turn Mw1@from,w2@via,w2@via,w4@to|0 1 0 1 2 2 2 4 false$\
r1 Ttype=restriction,restriction=no_left_turn Mw1@from,w2@via,w3@via,w5@via,w6@via,w7@via,w4@to|0 0 1$\
r1 Ttype=restriction,restriction=no_left_turn Mw1@from,n5@via,w2@via,w4@to|0 0 1$\
r1 Ttype=restriction,restriction=no_left_turn Mw1@from,w2@via,n5@via,w4@to|0 0 1$\
r1 Ttype=restriction,restriction=no_left_turn Mw1@from,w2@via,r5@via,w4@to|0 0 1$\
r1 Ttype=restriction,restriction=no_left_turn Mw1@from,r5@via,w4@to|0 0 1$\
r1 Ttype=restriction,restriction=no_left_turn Mw1@from,w4@to|0 0 1$\
r1 Ttype=restriction,restriction=no_left_turn Mw1@from,w6@from,w2@via,w4@to|0 0 1$\
r1 Ttype=restriction,restriction=no_left_turn Mw1@from,w2@via,w4@to,w6@to|0 0 1$\
r1 Ttype=restriction,restriction=no_left_turn Mn1@from,w2@via,w4@to|0 0 1$\
r1 Ttype=restriction,restriction=no_left_turn Mw1@from,w2@via|0 0 1$\
r1 Ttype=restriction,restriction=no_left_turn,except=motorcar Mw1@from,w2@via,w4@to|0 0 0$\
r1 Ttype=restriction,restriction=no_entry,except=motorcar Mw1@from,w2@via,w4@to|0 0 0$\
r1 Ttype=restriction,restriction=no_left_turn,except=bus Mw1@from,w2@via,w4@to|0 1 0 1 2 2 1 4 false";

#[test]
fn via_ways_are_one_to_four_in_their_order(rt: HostRuntime) -> Result<(), AllocError> {
    assert_ways_on(&rt, rt.alloc(), VIA_MEMBERS)
}

const SEVERAL: &[u8] = b"r1 Ttype=restriction,restriction=no_left_turn Mw1@from,w2@via,w4@to\n\
r2 Ttype=restriction,restriction=no_left_turn Mw1@from,n5@via,w4@to\n\
r3 Ttype=restriction,restriction=no_entry Mw1@from,w2@via,w4@to\n\
r4 Ttype=restriction,restriction=only_left_turn Mw6@from,w7@via,w8@via,w9@to";

#[test]
fn restrictions_of_both_kinds_keep_their_order(rt: HostRuntime) -> Result<(), AllocError> {
    let told = ways_on_told(&rt, rt.alloc(), SEVERAL)?;
    assert_eq!(rt; told.as_str(), "1 2 1 1 2 2 1 4 false 6 7 8 2 9 true");
    Ok(())
}
