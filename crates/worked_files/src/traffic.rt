//! Rows by hand, from what the formats of OSRM's traffic files and this project's rules say.

use case_tables::{count, pair};
use std::alloc::{AllocError, Global};
use std::process::Abort;
use std::test::Fail;
use traffic_files::{SpeedRow, TrafficFault, TurnRow, read_speeds, read_turns};

// Rows of speeds as a text, a line each: from, to, speed and rate.
fn speeds_told(alloc: Global, rows: &[SpeedRow]) -> Result<String, AllocError> {
    let mut text = String::new(alloc);
    for row in rows {
        let line = format!(in alloc; "{} {} {} {:?}\n", row.from, row.to, row.speed, row.rate)?;
        text.push_str(line.as_str())?;
    }
    Ok(text)
}

const SPEEDS: &[u8] = b"1,2,20\r\n\n 3 ,-4, 0.9999 ,1\n5,6,0.0004\n\"7\",8,1000.0009,2.5\n9,10,0";

const SPEEDS_TOLD: &str = "1 2 20000 None
3 -4 1000 Some(1000)
5 6 0 None
7 8 1000000 Some(2500)
9 10 0 None
";

#[test]
fn speeds_are_read(rt: HostRuntime) -> Result<(), Fail> {
    let rows = read_speeds(rt.alloc(), SPEEDS)?;
    let told = speeds_told(rt.alloc(), rows.as_slice())?;
    assert_eq!(rt; told.as_str(), SPEEDS_TOLD);
    Ok(())
}

// Rows of turns as a text, a line each: from, via, to, penalty and weight.
fn turns_told(alloc: Global, rows: &[TurnRow]) -> Result<String, AllocError> {
    let mut text = String::new(alloc);
    for row in rows {
        let TurnRow {
            from,
            via,
            to,
            penalty,
            weight,
        } = *row;
        let line = format!(in alloc; "{from} {via} {to} {penalty} {weight:?}\n")?;
        text.push_str(line.as_str())?;
    }
    Ok(text)
}

const TURNS: &[u8] = b"1,2,3,12\n1,2,3,4.59,1\n1,2,-3,-0.5\n1,2,3,-0.1\n1,2,3,100000.09";

const TURNS_TOLD: &str = "1 2 3 120 None
1 2 3 45 Some(10)
1 2 -3 0 None
1 2 3 0 None
1 2 3 1000000 None
";

#[test]
fn turns_are_read(rt: HostRuntime) -> Result<(), Fail> {
    let rows = read_turns(rt.alloc(), TURNS)?;
    let told = turns_told(rt.alloc(), rows.as_slice())?;
    assert_eq!(rt; told.as_str(), TURNS_TOLD);
    Ok(())
}

// What a fault tells: its file, its row and its kind.
fn told(alloc: Global, fault: TrafficFault) -> Result<String, AllocError> {
    match fault {
        TrafficFault::Row(fault) => {
            format!(in alloc; "{:?} {} {:?}", fault.file, fault.row, fault.kind)
        }
        TrafficFault::Memory => Err(AllocError),
    }
}

// Files of speeds, each with what its first faulty row tells.
const FAULTY_SPEEDS: &[u8] = b"1,2,20\n2,3,30\n3,2,abc|Speeds 3 BadNumber$\
1,2|Speeds 1 BadCount$\
1,2,20\n1,2,20,1,1|Speeds 2 BadCount$\
a,2,20|Speeds 1 BadId$\
1,9223372036854775808,x|Speeds 1 BadId$\
1 2,3,20|Speeds 1 BadId$\
\t1,3,20|Speeds 1 BadId$\
1,2,+1|Speeds 1 BadNumber$\
1,2,1e3|Speeds 1 BadNumber$\
1,2,-0.5|Speeds 1 BadNumber$\
1,2,\xff|Speeds 1 BadNumber$\
1,2,2000,x|Speeds 1 BadNumber$\
1,2,x,0|Speeds 1 BadNumber$\
a,2,2000,0|Speeds 1 BadId$\
1,2,2000,0|Speeds 1 OutOfRange$\
1,2,1000.001|Speeds 1 OutOfRange$\
1,2,1000000000000000000000|Speeds 1 OutOfRange";

// The fault of a file of speeds.
fn speed_fault(rt: &impl Abort, alloc: Global, text: &[u8]) -> TrafficFault {
    match read_speeds(alloc, text) {
        Err(fault) => fault,
        Ok(_rows) => panic!(rt; "a faulty row"),
    }
}

#[test]
fn the_first_faulty_speed_is_told(rt: HostRuntime) -> Result<(), AllocError> {
    for number in 0..count(FAULTY_SPEEDS) {
        let (text, want) = pair(FAULTY_SPEEDS, number).expect(&rt, "a row of two");
        let found = told(rt.alloc(), speed_fault(&rt, rt.alloc(), text))?;
        assert_eq!(rt; found.as_bytes(), want, "row {number}");
    }
    Ok(())
}

// Files of turns in the same form.
const FAULTY_TURNS: &[u8] = b"1,2,3|Turns 1 BadCount$\
1,2,3,4,5,6|Turns 1 BadCount$\
1,2,3,4\n1,2,x,y|Turns 2 BadId$\
1,2,3,--1|Turns 1 BadNumber$\
1,2,3,100000.1,x|Turns 1 BadNumber$\
1,2,3,x,100000.1|Turns 1 BadNumber$\
1,x,3,4,100000.1|Turns 1 BadId$\
1,2,3,100000.1|Turns 1 OutOfRange$\
1,2,3,100000.1,100000.1|Turns 1 OutOfRange";

// The fault of a file of turns.
fn turn_fault(rt: &impl Abort, alloc: Global, text: &[u8]) -> TrafficFault {
    match read_turns(alloc, text) {
        Err(fault) => fault,
        Ok(_rows) => panic!(rt; "a faulty row"),
    }
}

#[test]
fn the_first_faulty_turn_is_told(rt: HostRuntime) -> Result<(), AllocError> {
    for number in 0..count(FAULTY_TURNS) {
        let (text, want) = pair(FAULTY_TURNS, number).expect(&rt, "a row of two");
        let found = told(rt.alloc(), turn_fault(&rt, rt.alloc(), text))?;
        assert_eq!(rt; found.as_bytes(), want, "row {number}");
    }
    Ok(())
}

// Rows of speeds, each with its rate in thousandths, or its fault.
const RATES: &[u8] = b"1,2,20|None$\
1,2,20,1|Some(1000)$\
1,2,0,1|Some(1000)$\
1,2,20,0.001|Some(278)$\
1,2,20,0.277|Some(278)$\
1,2,20,0.2779|Some(278)$\
1,2,20,0.278|Some(278)$\
1,2,20, 0.2799 |Some(279)$\
1,2,20,1000|Some(1000000)$\
1,2,20,1000.0009|Some(1000000)$\
1,2,20,1000.001|Speeds 1 OutOfRange$\
1,2,20,1000000000000000000000|Speeds 1 OutOfRange$\
1,2,20,0|Speeds 1 OutOfRange$\
1,2,20,0.0009|Speeds 1 OutOfRange$\
1,2,20,-0|Speeds 1 OutOfRange$\
1,2,20,-1|Speeds 1 OutOfRange$\
1,2,0,-1|Speeds 1 OutOfRange$\
1,2,20,|Speeds 1 BadNumber$\
1,2,20,abc|Speeds 1 BadNumber$\
1,2,20,-|Speeds 1 BadNumber$\
1,2,20,+1|Speeds 1 BadNumber$\
1,2,20,1.|Speeds 1 BadNumber";

// The rate of the first row of a file of speeds.
fn first_rate(rt: &impl Abort, rows: &[SpeedRow]) -> Option<u32> {
    match rows.first() {
        Some(row) => row.rate,
        None => panic!(rt; "a row"),
    }
}

#[test]
fn rates_are_read(rt: HostRuntime) -> Result<(), AllocError> {
    for number in 0..count(RATES) {
        let (text, want) = pair(RATES, number).expect(&rt, "a row of two");
        let found = match read_speeds(rt.alloc(), text) {
            Ok(rows) => format!(in rt.alloc(); "{:?}", first_rate(&rt, rows.as_slice()))?,
            Err(fault) => told(rt.alloc(), fault)?,
        };
        assert_eq!(rt; found.as_bytes(), want, "row {number}");
    }
    Ok(())
}

// Rows of turns, each with its weight in tenths, or its fault.
const WEIGHTS: &[u8] = b"1,2,3,4|None$\
1,2,3,4,1|Some(10)$\
1,2,3,4,0.19|Some(1)$\
1,2,3,4,0.09|Some(0)$\
1,2,3,4,-3|Some(0)$\
1,2,3,4,-100000.1|Some(0)$\
1,2,3,4,100000|Some(1000000)$\
1,2,3,4,100000.09|Some(1000000)$\
1,2,3,4,100000.1|Turns 1 OutOfRange$\
1,2,3,4,|Turns 1 BadNumber$\
1,2,3,4,x|Turns 1 BadNumber$\
1,2,3,4,--1|Turns 1 BadNumber";

// The weight of the first row of a file of turns.
fn first_weight(rt: &impl Abort, rows: &[TurnRow]) -> Option<u32> {
    match rows.first() {
        Some(row) => row.weight,
        None => panic!(rt; "a row"),
    }
}

#[test]
fn weights_are_read(rt: HostRuntime) -> Result<(), AllocError> {
    for number in 0..count(WEIGHTS) {
        let (text, want) = pair(WEIGHTS, number).expect(&rt, "a row of two");
        let found = match read_turns(rt.alloc(), text) {
            Ok(rows) => format!(in rt.alloc(); "{:?}", first_weight(&rt, rows.as_slice()))?,
            Err(fault) => told(rt.alloc(), fault)?,
        };
        assert_eq!(rt; found.as_bytes(), want, "row {number}");
    }
    Ok(())
}
