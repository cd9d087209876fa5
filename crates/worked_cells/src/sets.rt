//! Which of several sets of names is asked for.

ghost use Rattle.std.specs.Prelude.{◌<◌, length, IfOk};

use class_sets::find;
use road_base::{Text, Words};
use std::alloc::{AllocError, Global};
use std::process::Abort;

// The words of a text, which commas part.
fn words(alloc: Global, text: &str) -> Result<Words, AllocError> {
    let mut words = Vec::new(alloc);
    for word in text.split(',') {
        words.push(Text::copy_of(alloc, word)?)?;
    }
    Ok(Words::of(words))
}

// The sets of a text, which blanks part.
fn sets_of(rt: &impl Abort, alloc: Global, text: &str) -> Result<Vec<Words>, AllocError>
    ensures { IfOk result (λ sets. length sets.items < 1000) }
{
    let mut sets = Vec::new(alloc);
    for set in text.split(' ') {
        sets.push(words(alloc, set)?)?;
    }
    assert!(rt; sets.len() < 1000);
    Ok(sets)
}

#[test]
fn a_set_is_found_in_any_order_and_the_first_counts(rt: HostRuntime) -> Result<(), AllocError> {
    let alloc = rt.alloc();
    let sets = sets_of(
        &rt,
        alloc,
        "toll motorway,ferry ferry,motorway,ferry tunnel,toll",
    )?;
    let cases = [
        ("toll", Some(0)),
        ("toll,toll", Some(0)),
        ("ferry,motorway", Some(1)),
        ("motorway,motorway,ferry", Some(1)),
        ("toll,tunnel", Some(3)),
        ("motorway", None),
        ("toll,ferry", None),
        ("tol", None),
    ];
    for (names, wanted) in cases {
        let names = words(alloc, names)?;
        assert_eq!(rt; find(&sets, &names), wanted);
    }
    let none = Words::of(Vec::new(alloc));
    assert_eq!(rt; find(&sets, &none), None);
    assert_eq!(rt; find(&[], &none), None);
    Ok(())
}
