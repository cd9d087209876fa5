//! Lists of costs.

ghost use Rattle.std.specs.Prelude.{◌≤◌, length};

use cost_lists::CostList;
use cost_texts::{cost_told, row_told};
use search_graph::WeightDurLen;
use small_graphs::parts_of;
use std::alloc::{AllocError, Global};
use std::process::Abort;

/// The last that are short, the first that aren't, one of the weight of its length, one of its own, and none.
const COSTS: &str =
    "7/7/12 - 1073741823/1073741823/2147483647 1073741824/1073741824/0 0/0/2147483648 12/7/12 9/7/12 18446744073709551615/18446744073709551615/18446744073709551615 0/0/0";

// The cost that a text tells, None for `-`.
fn cost(text: &str) -> Result<Option<WeightDurLen>, AllocError> {
    if text == "-" {
        return Ok(None);
    }
    Ok(Some(parts_of(text)?))
}

// Puts costs at the end of a list.
fn push_all(list: &mut CostList<WeightDurLen>, costs: &str) -> Result<(), AllocError> {
    for text in costs.split(' ') {
        list.push(cost(text)?)?;
    }
    Ok(())
}

// How many costs there are, and which, each with a blank behind it.
fn list_told(alloc: Global, list: &CostList<WeightDurLen>) -> Result<String, AllocError> {
    let mut text = format!(in alloc; "{}: ", list.len())?;
    for i in 0..list.len() {
        text.push_str(cost_told(alloc, list.get(i))?.as_str())?;
    }
    Ok(text)
}

// A list of these costs.
fn list_of(alloc: Global, costs: &str) -> Result<CostList<WeightDurLen>, AllocError> {
    let mut list = CostList::new(alloc);
    push_all(&mut list, costs)?;
    Ok(list)
}

// The costs that a list of these gives back.
fn given_back(alloc: Global, costs: &str) -> Result<String, AllocError> {
    let list = list_of(alloc, costs)?;
    list_told(alloc, &list)
}

#[test]
fn a_list_gives_back_what_was_put_in(rt: HostRuntime) -> Result<(), AllocError> {
    let told = given_back(rt.alloc(), COSTS)?;
    let want = format!(in rt.alloc(); "9: {COSTS} ")?;
    assert_eq!(rt; told.as_str(), want.as_str());
    Ok(())
}

// The places of a list from one on and below another.
fn part_told(
    alloc: Global,
    list: &CostList<WeightDurLen>,
    from: usize,
    to: usize,
) -> Result<String, AllocError>
    requires from { from ≤ to }
    requires to { to ≤ length list.now }
{
    let row = list.row(from, to);
    if row.is_empty() {
        return String::from_str(alloc, "none");
    }
    let mut text = format!(in alloc; "{}: ", row.len())?;
    text.push_str(row_told(alloc, &row)?.as_str())?;
    Ok(text)
}

// Asserts what the places from 3 on are, in a list of nine.
fn assert_parts(
    rt: &impl Abort,
    alloc: Global,
    list: &CostList<WeightDurLen>,
) -> Result<(), AllocError> {
    assert!(rt; list.len() == 9);
    let want =
        "5: 1073741824/1073741824/0 0/0/2147483648 12/7/12 9/7/12 18446744073709551615/18446744073709551615/18446744073709551615 ";
    let told = part_told(alloc, list, 3, 8)?;
    assert_eq!(rt; told.as_str(), want);
    let none = part_told(alloc, list, 3, 3)?;
    assert_eq!(rt; none.as_str(), "none");
    Ok(())
}

#[test]
fn a_row_has_its_places(rt: HostRuntime) -> Result<(), AllocError> {
    let mut list = CostList::with_capacity(rt.alloc(), 9)?;
    push_all(&mut list, COSTS)?;
    assert_parts(&rt, rt.alloc(), &list)
}

// Asserts what a list is once another stands behind it, and then with another first cost.
fn assert_put_together(
    rt: &impl Abort,
    alloc: Global,
    one: &mut CostList<WeightDurLen>,
    other: &CostList<WeightDurLen>,
) -> Result<(), AllocError> {
    one.append(other)?;
    let told = list_told(alloc, one)?;
    assert_eq!(rt;
        told.as_str(),
        "3: 2147483648/2147483648/1 - 1/1/2147483648 "
    );
    assert!(rt; one.len() == 3);
    one.set(0, cost("5/6")?)?;
    let told = list_told(alloc, one)?;
    assert_eq!(rt; told.as_str(), "3: 5/5/6 - 1/1/2147483648 ");
    Ok(())
}

#[test]
fn lists_are_put_together_and_changed(rt: HostRuntime) -> Result<(), AllocError> {
    let mut one = list_of(rt.alloc(), "2147483648/1")?;
    let other = list_of(rt.alloc(), "- 1/2147483648")?;
    assert_put_together(&rt, rt.alloc(), &mut one, &other)
}

// What a list is once all places but the first of another stand behind it.
fn extended(rt: &impl Abort, alloc: Global, costs: &str, more: &str) -> Result<String, AllocError> {
    let mut list = list_of(alloc, costs)?;
    let other = list_of(alloc, more)?;
    let end = other.len();
    assert!(rt; end > 0);
    let row = other.row(1, end);
    list.extend_from_row(&row)?;
    list_told(alloc, &list)
}

// Asserts that a list with all places but the first of another behind it has these costs.
fn assert_extended(
    rt: &impl Abort,
    alloc: Global,
    costs: &str,
    more: &str,
    want: &str,
) -> Result<(), AllocError> {
    let told = extended(rt, alloc, costs, more)?;
    assert_eq!(rt; told.as_str(), want);
    Ok(())
}

#[test]
fn a_row_is_put_behind_a_list(rt: HostRuntime) -> Result<(), AllocError> {
    let alloc = rt.alloc();
    assert_extended(&rt, alloc, "7/12", "1/1 - 5/6", "3: 7/7/12 - 5/5/6 ")?;
    assert_extended(&rt, alloc, "-", "1/1", "1: - ")?;
    assert_extended(
        &rt,
        alloc,
        "2147483648/1 -",
        "1/1 5/6 -",
        "4: 2147483648/2147483648/1 - 5/5/6 - ",
    )?;
    assert_extended(
        &rt,
        alloc,
        "7/12",
        "1/1 - 2147483648/1 5/6",
        "4: 7/7/12 - 2147483648/2147483648/1 5/5/6 ",
    )?;
    assert_extended(
        &rt,
        alloc,
        "2147483648/1 2147483649/1",
        "2147483650/1 2147483651/1 - 2147483652/1",
        "5: 2147483648/2147483648/1 2147483649/2147483649/1 2147483651/2147483651/1 - 2147483652/2147483652/1 ",
    )
}
