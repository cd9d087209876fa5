//! Small towns, written out, and what is in one that has forbidden turns.

use std::alloc::AllocError;
use std::process::Abort;
use town_text::town;

const TOWN_2: &str = "n1 x0.000000 y0.000000
n2 x0.001000 y0.000000
n3 x0.000000 y0.001000
n4 x0.001000 y0.001000
w1 Thighway=primary,name=Row%20%0 Nn1,n2
w2 Thighway=residential,name=Row%20%1 Nn3,n4
w3 Thighway=residential,name=Column%20%0 Nn1,n3
w4 Thighway=residential,name=Column%20%1,oneway=yes Nn2,n4
";

#[test]
fn the_least_town(rt: HostRuntime) -> Result<(), AllocError> {
    assert_eq!(rt; town(rt.alloc(), 2)?.as_str(), TOWN_2);
    Ok(())
}

// Asserts that the line of this number begins so.
fn assert_line(rt: &impl Abort, town: &str, number: usize, begin: &str) {
    let Some(line) = town.split('\n').nth(number) else {
        panic!(rt; "a line");
    };
    assert!(rt; line.starts_with(begin), "{line}");
}

fn assert_lines(rt: &impl Abort, town: &str) {
    assert_line(rt, town, 195, "n196 x0.013000 y0.013000");
    assert_line(
        rt,
        town,
        210,
        "w15 Thighway=residential,name=Column%20%0 Nn1,n15,n29,n43,",
    );
    assert_line(
        rt,
        town,
        213,
        "w18 Thighway=residential,name=Column%20%3,oneway=-1 Nn4,n18,",
    );
    assert_line(
        rt,
        town,
        224,
        "r19 Ttype=restriction,restriction=no_left_turn Mw2@from,n19@via,w19@to",
    );
    let forbidden = town.split('\n').filter(|line| line.starts_with('r'));
    assert_eq!(rt; forbidden.count(), 12);
}

#[test]
fn a_town_with_forbidden_turns(rt: HostRuntime) -> Result<(), AllocError> {
    let text = town(rt.alloc(), 14)?;
    assert_lines(&rt, text.as_str());
    Ok(())
}
