//! One fault at each place of connections in memory over a town: one take after the other fails, and one put after the
//! other. Expected outcomes are this project's rules.

use crate::connections::failing;
use crate::control_connections::told_failing;
use crate::route_connections::{NEAREST_TWICE, told_with_next};
use std::alloc::{AllocError, Global};
use std::process::Abort;
use std::thread::Threads;

/// More calls than one of these connections takes or puts by.
const MOST: u64 = 1000;

// What is told of the query connection, or of the control connection, whose take of the one number fails and whose put
// of the other.
fn told(
    rt: &(impl Threads + Sync),
    alloc: Global,
    port: &str,
    take: u64,
    put: u64,
) -> Result<String, AllocError> {
    if port == "control" {
        return told_failing(rt, alloc, take, put);
    }
    let mut conn = failing(alloc, NEAREST_TWICE, take, put)?;
    told_with_next(rt, alloc, &mut conn)
}

// What is told of it where its call of this kind and number fails.
fn outcome(
    rt: &(impl Threads + Sync),
    alloc: Global,
    port: &str,
    kind: &str,
    number: u64,
) -> Result<String, AllocError> {
    if kind == "take" {
        told(rt, alloc, port, number, 0)
    } else {
        told(rt, alloc, port, 0, number)
    }
}

// Puts what is told behind the rest, unless it stands there already.
fn push_new(all: &mut String, told: &str) -> Result<(), AllocError> {
    if all.as_str().ends_with(told) {
        return Ok(());
    }
    all.push_str(told)
}

// What is told where the first call of this kind fails, then the second, and so on to the first run in which none does.
// What is told several times in a row stands once.
fn outcomes(
    rt: &(impl Threads + Sync),
    alloc: Global,
    port: &str,
    kind: &str,
) -> Result<String, AllocError> {
    let mut all = String::new(alloc);
    for number in 1..MOST {
        let told = outcome(rt, alloc, port, kind, number)?;
        push_new(&mut all, told.as_str())?;
        if !told.as_str().contains("Fault") {
            break;
        }
    }
    Ok(all)
}

// Asserts what is told of the connection to a port, for each kind of call, which stands before a bar. A dollar sign
// stands between each two of them: one text, since a proof takes time for each value of a list.
fn assert_outcomes(
    rt: &(impl Threads + Abort + Sync),
    alloc: Global,
    port: &str,
    table: &str,
) -> Result<(), AllocError> {
    for row in table.split('$') {
        let Some((kind, want)) = row.split_once('|') else {
            panic!(rt; "a row of two");
        };
        assert_eq!(rt; outcomes(rt, alloc, port, kind)?.as_str(), want, "{kind}");
    }
    Ok(())
}

// A reply stands whole once its head was taken, and the seat's next connection is answered whole.
const QUERY: &str =
    "take|SourceFault 0/458;SourceFault 229/458;SourceFault 458/458;EndOfInput 458/458;$\
put|SinkFault 0/458;SinkFault 229/458;EndOfInput 458/458;";

#[test]
fn a_fault_at_each_place_of_a_query_connection(rt: HostRuntime) -> Result<(), AllocError> {
    assert_outcomes(&rt, rt.alloc(), "query", QUERY)
}

// A metric is published whole, before its reply is put, or not at all. What comes behind a stop is not taken.
const CONTROL: &str =
    "take|Other(SourceFault) 0/0;Other(SourceFault) 180/0;Other(SourceFault) 336/1;Stopped 470/1;$\
put|Other(SinkFault) 0/0;Other(SinkFault) 180/1;Other(SinkFault) 336/1;Stopped 470/1;";

#[test]
fn a_fault_at_each_place_of_a_control_connection(rt: HostRuntime) -> Result<(), AllocError> {
    assert_outcomes(&rt, rt.alloc(), "control", CONTROL)
}
