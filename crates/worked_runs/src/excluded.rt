//! Runs under settings with classes of ways: routes that leave out a class, under one metric and the next, and what
//! `check` tells.

use road_base::Status;
use road_io::MemFiles;
use run_cases::{Case, ends, files_of, named, run_over};
use std::alloc::{AllocError, Global};
use std::net::{Net, TcpListener, TcpStream};
use std::sync::Wait;
use std::thread::Threads;

// A block of two streets, of which the first one takes toll.
const TOWN_WITH_TOLL: &[u8] =
    b"n1 x0 y0\nn2 x0.001 y0\nn3 x0.001 y0.001\nn4 x0 y0.001\nw1 Thighway=residential,toll=yes Nn1,n2,n3\nw2 Thighway=residential Nn3,n4,n1\n";

const SETTINGS_WITH_TOLL: &[u8] =
    b"version = 2\nname = \"car\"\nvehicle = \"motorcar\"\nu_turn_penalty = 200\nexcludable = [[\"toll\"]]\n\n[speeds]\nresidential = 40\n\n[classes]\ntoll = [\"toll=yes\"]\n";

// A run of `ask` over the block, with these lines and two files of speeds.
fn told(
    rt: &(impl Threads + Wait + Net<Listener = TcpListener, Stream = TcpStream> + Sync),
    alloc: Global,
    input: &[u8],
) -> Result<String, AllocError> {
    let case = Case {
        map: TOWN_WITH_TOLL,
        settings: SETTINGS_WITH_TOLL,
        ..Case::over_town(input)
    };
    let mut list = files_of(alloc, case)?;
    list.push(named(alloc, "fast.csv", b"1,2,80\n")?)?;
    list.push(named(alloc, "slow.csv", b"4,3,20\n")?)?;
    let mut files = MemFiles::of(alloc, list, Vec::new(alloc));
    let (status, output) = run_over(rt, alloc, case, &mut files)?;
    if status != Status::Ok {
        return Ok(String::new(alloc));
    }
    String::from_str(alloc, std::str::from_utf8(output.as_bytes()).unwrap_or(""))
}

// Whether the lines of a text begin with these in turn.
fn are_told(text: &str, fronts: &str) -> bool {
    let mut lines = text.split('\n');
    for front in fronts.split('\n') {
        match lines.next() {
            Some(line) if line.starts_with(front) => (),
            _ => return false,
        }
    }
    lines.next() == Some("") && lines.next().is_none()
}

const LINES: &[u8] = b"TRAFFIC fast.csv -\nGET /route/v1/car/0,0;0.001,0.001?overview=false\n\
GET /route/v1/car/0,0;0.001,0.001?overview=false&exclude=toll\nGET /table/v1/car/0,0;0.001,0.001?exclude=toll,toll\n\
TRAFFIC slow.csv -\nGET /route/v1/car/0,0;0.001,0.001?overview=false\n\
GET /route/v1/car/0,0;0.001,0.001?overview=false&exclude=toll\n\
GET /route/v1/car/0,0;0.001,0.001?exclude=ferry&since=9\nGET /nearest/v1/car/0.001,0?exclude=\n";

// On the street with toll and its own row 4.9 and 9.9 seconds, on the other one twice 9.9, and 19.9 where its row counts.
const FRONTS: &str = "{\"code\":\"Ok\",\"data_version\":\"1\",\"unmatched\":0}\n\
{\"code\":\"Ok\",\"data_version\":\"1\",\"routes\":[{\"distance\":222.2,\"duration\":14.8,\n\
{\"code\":\"Ok\",\"data_version\":\"1\",\"routes\":[{\"distance\":222.2,\"duration\":19.8,\n\
{\"code\":\"Ok\",\"data_version\":\"1\",\"durations\":[[0.0,19.8],[19.8,0.0]],\n\
{\"code\":\"Ok\",\"data_version\":\"2\",\"unmatched\":0}\n\
{\"code\":\"Ok\",\"data_version\":\"2\",\"routes\":[{\"distance\":222.2,\"duration\":19.8,\n\
{\"code\":\"Ok\",\"data_version\":\"2\",\"routes\":[{\"distance\":222.2,\"duration\":29.8,\n\
{\"code\":\"InvalidValue\",\"message\":\"exclude\"}\n{\"code\":\"InvalidOptions\",\"message\":\"option exclude\"}";

#[test]
fn a_class_is_left_out_under_each_metric(rt: HostRuntime) -> Result<(), AllocError> {
    let text = told(&rt, rt.alloc(), LINES)?;
    assert!(rt; are_told(&text, FRONTS), "{text}");
    Ok(())
}

#[test]
fn check_tells_of_the_sets(rt: HostRuntime) -> Result<(), AllocError> {
    let case = Case {
        words: "check town.opl settings.toml",
        map: TOWN_WITH_TOLL,
        settings: SETTINGS_WITH_TOLL,
        ..Case::over_town(b"")
    };
    let lines: &[u8] =
        b"nodes 4\nways 2\nrelations 0\nsegments 4\nvertices 8\nturns 8\nrestrictions 0\nignored 0\nexcludable 1\nset_bytes 64\n";
    assert!(rt; ends(&rt, rt.alloc(), case, Status::Ok, lines)?);
    Ok(())
}
