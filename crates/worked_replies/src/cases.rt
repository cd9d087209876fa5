//! Cases: what is asked for over a town, and what its answer tells. A table of cases is one text, with a row for each, since a
//! proof takes time for each value of a list.

use crate::towns::{Asked, Town, ask, town_named};
use reply_core::ReplyFault;
use std::alloc::Global;
use std::process::Abort;
use std::thread::Threads;

/// A target that is asked for over a town, and what is told.
#[derive(Clone, Copy)]
pub(crate) struct Case<'a> {
    pub(crate) town: Town<'a>,
    pub(crate) target: &'a str,
    pub(crate) told: &'a str,
}

/// The case of a row: the town's name, the target and what is told, with a bar between them.
pub(crate) fn case_of<'a>(rt: &impl Abort, row: &'a str) -> Case<'a> {
    let mut parts = row.split('|');
    match (parts.next(), parts.next(), parts.next()) {
        (Some(name), Some(target), Some(told)) => Case {
            town: town_named(rt, name),
            target,
            told,
        },
        _ => panic!(rt; "a row of three"),
    }
}

/// Asserts that the text of the answer to a case ends in what is told.
pub(crate) fn assert_ends(
    rt: &(impl Threads + Abort + Sync),
    alloc: Global,
    case: Case<'_>,
) -> Result<(), ReplyFault> {
    let answer = ask(rt, alloc, case.town, Asked::Target(case.target))?;
    assert!(rt;
        answer.text.as_str().ends_with(case.told),
        "{}",
        case.target
    );
    Ok(())
}

/// Asserts that a case is refused, with the text that is told.
pub(crate) fn assert_refused(
    rt: &(impl Threads + Abort + Sync),
    alloc: Global,
    case: Case<'_>,
) -> Result<(), ReplyFault> {
    let answer = ask(rt, alloc, case.town, Asked::Target(case.target))?;
    assert_eq!(rt; answer.status, 400);
    assert_eq!(rt; answer.text.as_str(), case.told);
    assert_eq!(rt; answer.places.as_slice().len(), 0);
    Ok(())
}
