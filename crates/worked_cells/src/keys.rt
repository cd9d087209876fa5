//! The least of the keys of items, each of which falls.

use std::alloc::{AllocError, Global};
use std::test::Fail;
use tournament_tree::TournamentTree;

// Keys of items and the items, from the least on, each taken in its turn.
fn taken(alloc: Global, tree: &mut TournamentTree) -> Result<String, AllocError> {
    let mut text = String::new(alloc);
    for _ in 0..100 {
        let Some((key, item)) = tree.pop() else {
            return Ok(text);
        };
        text.push_str(format!(in alloc; "{key} of {item}, ")?.as_str())?;
    }
    Ok(text)
}

#[test]
fn keys_of_any_number_of_items_come_from_the_least_on(rt: HostRuntime) -> Result<(), Fail> {
    let alloc = rt.alloc();
    let mut tree = TournamentTree::new(alloc);
    for count in 1..20 {
        tree.restart(count)?;
        for item in 0..count {
            assert!(&rt; tree.lower(item, 100 + (7 * item as u64) % 20));
        }
        let mut last = 0;
        for _ in 0..count {
            let (key, item) = tree.pop().expect(&rt, "an item has a key");
            assert!(&rt; last < key);
            assert_eq!(&rt; key, 100 + (7 * item as u64) % 20);
            last = key;
        }
        assert!(&rt; tree.pop().is_none());
    }
    Ok(())
}

#[test]
fn an_item_has_one_key_which_only_falls(rt: HostRuntime) -> Result<(), Fail> {
    let alloc = rt.alloc();
    let mut tree = TournamentTree::new(alloc);
    tree.restart(6)?;
    assert!(&rt; tree.lower(5, 30));
    assert!(&rt; tree.lower(2, 40));
    assert!(&rt; tree.lower(2, 20));
    assert!(&rt; !tree.lower(5, 30));
    assert!(&rt; !tree.lower(5, 31));
    assert!(&rt; !tree.lower(6, 1));
    assert_eq!(&rt; tree.least(), Some(20));
    assert_eq!(&rt; taken(alloc, &mut tree)?.as_str(), "20 of 2, 30 of 5, ");
    Ok(())
}

#[test]
fn an_item_without_a_key_is_never_taken(rt: HostRuntime) -> Result<(), Fail> {
    let alloc = rt.alloc();
    let mut tree = TournamentTree::new(alloc);
    assert_eq!(&rt; tree.least(), None);
    assert!(&rt; !tree.lower(0, 0));
    tree.restart(3)?;
    assert!(&rt; tree.pop().is_none());
    assert!(&rt; tree.lower(1, 18446744073709551614));
    tree.restart(3)?;
    assert_eq!(&rt; tree.least(), None);
    assert!(&rt; !tree.lower(1, 18446744073709551615));
    assert_eq!(&rt; taken(alloc, &mut tree)?.as_str(), "");
    Ok(())
}
