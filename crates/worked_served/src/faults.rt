//! One fault at each place of whole runs: of `ask` over a traffic line and a route before and behind it, and of `serve`
//! over doors in memory. Expected outcomes are this project's rules.

use crate::served::{ONE_WORKER, REPLIES, one_door, over_doors, served};
use memory_doors::MemDoors;
use road_base::Status;
use road_io::{MemConn, OpenGate};
use run_cases::{Case, Fault, REPLY, run_case};
use std::alloc::{AllocError, Global};
use std::net::{Net, TcpListener, TcpStream};
use std::process::Abort;
use std::sync::Wait;
use std::thread::Threads;

// More calls of one kind than one of these runs makes.
const MOST: u64 = 1000;

const LINES: &[u8] =
    b"GET /route/v1/car/0,0;0.001,0.001?overview=false\nTRAFFIC speeds.csv turns.csv\nGET /route/v1/car/0,0;0.001,0.001?overview=false\n";

// The reply to the traffic line, and to the route behind it.
const PUBLISHED: &str = "{\"code\":\"Ok\",\"data_version\":\"1\",\"unmatched\":0}\n";

const SLOWER: &str =
    "{\"code\":\"Ok\",\"data_version\":\"1\",\"routes\":[{\"distance\":222.2,\"duration\":29.8,\"weight\":29.8,\"weight_name\":\"duration\",\"legs\":[{\"distance\":222.2,\"duration\":29.8,\"weight\":29.8,\"summary\":\"\",\"steps\":[]}]}],\"waypoints\":[{\"distance\":0.0,\"name\":\"\",\"location\":[0.000000,0.000000]},{\"distance\":0.0,\"name\":\"\",\"location\":[0.001000,0.001000]}]}\n";

// How many bytes of this an output is a front of; 18446744073709551615 where it is none.
fn front_of(output: &[u8], whole: &[u8]) -> usize {
    if whole.starts_with(output) {
        output.len()
    } else {
        usize::MAX
    }
}

// How many bytes of the replies to the lines this is a front of.
fn front_of_replies(alloc: Global, output: &str) -> Result<usize, AllocError> {
    let (reply, published, slower) = (REPLY, PUBLISHED, SLOWER);
    let replies = format!(in alloc; "{reply}{published}{slower}")?;
    Ok(front_of(output.as_bytes(), replies.as_bytes()))
}

// How a run of `ask` ended, how many bytes of the replies it put, and the name of the file that it could not read.
fn told_asked(alloc: Global, status: Status, output: &str) -> Result<String, AllocError> {
    let (replies, name) = match output.split_once("cannot read ") {
        Some((replies, name)) => (replies, name),
        None => (output, ""),
    };
    let size = front_of_replies(alloc, replies)?;
    format!(in alloc; "{status:?} {size} {name};")
}

// What is told of a run of `ask` over the lines, which come byte by byte.
fn asked(
    rt: &(impl Threads + Wait + Net<Listener = TcpListener, Stream = TcpStream> + Sync),
    alloc: Global,
    fault: Fault<'_>,
) -> Result<String, AllocError> {
    let case = Case {
        rows: b"1,2,20",
        piece: 1,
        fault,
        ..Case::over_town(LINES)
    };
    let (status, output) = run_case(rt, alloc, case)?;
    told_asked(
        alloc,
        status,
        std::str::from_utf8(output.as_bytes()).unwrap_or(""),
    )
}

// The output of the one connection at the one door for queries, where it came back.
fn output_of_one(doors: &MemDoors<MemConn>) -> Option<&[u8]> {
    let set = doors.returned().first()?;
    let door = set.queries().first()?;
    let conn = door.finished().first()?;
    Some(conn.output())
}

// How many bytes of the replies it is a front of; 0 where none came back.
fn replied(doors: &MemDoors<MemConn>) -> usize {
    match output_of_one(doors) {
        Some(output) => front_of(output, REPLIES),
        None => 0,
    }
}

// What is told of a run to serve one connection: how many bytes of the replies it put there, how it ended, and what it
// put.
fn served_one(
    rt: &(impl Threads + Wait + Net<Listener = TcpListener, Stream = TcpStream> + Sync),
    alloc: Global,
    fault: Fault<'_>,
) -> Result<String, AllocError> {
    let mut doors = one_door(alloc, fault)?;
    let case = Case {
        fault,
        ..over_doors(ONE_WORKER)
    };
    let told = served(rt, alloc, case, &mut *doors, &OpenGate)?;
    let size = replied(&doors);
    format!(in alloc; "{size} {told};")
}

// What is told of a run of this command.
fn outcome(
    rt: &(impl Threads + Wait + Net<Listener = TcpListener, Stream = TcpStream> + Sync),
    alloc: Global,
    command: &str,
    fault: Fault<'_>,
) -> Result<String, AllocError> {
    if command == "ask" {
        asked(rt, alloc, fault)
    } else {
        served_one(rt, alloc, fault)
    }
}

// Whether this is told of a run that meets no fault.
fn is_whole(told: &str) -> bool {
    told == "Ok 707 ;" || told == "458 Ok ready\nconnections 1\nmetric 0\n;"
}

// Puts what is told behind the rest, unless it stands there already.
fn push_new(all: &mut String, told: &str) -> Result<(), AllocError> {
    if all.as_str().ends_with(told) {
        return Ok(());
    }
    all.push_str(told)
}

// What is told where the first call of this kind fails, then the second, and so on to the first run of which the same is
// told as of one without a fault. What is told several times in a row stands once.
fn outcomes(
    rt: &(impl Threads + Wait + Net<Listener = TcpListener, Stream = TcpStream> + Sync),
    alloc: Global,
    command: &str,
    kind: &str,
) -> Result<String, AllocError> {
    let mut all = String::new(alloc);
    for number in 1..MOST {
        let told = outcome(rt, alloc, command, Fault { kind, number })?;
        if is_whole(told.as_str()) {
            all.push_str("whole")?;
            break;
        }
        push_new(&mut all, told.as_str())?;
    }
    Ok(all)
}

// Asserts what is told of runs of a command, for each kind of call, which stands before a bar. A dollar sign stands
// between each two of them.
fn assert_outcomes(
    rt: &(impl Abort + Threads + Wait + Net<Listener = TcpListener, Stream = TcpStream> + Sync),
    alloc: Global,
    command: &str,
    table: &str,
) -> Result<(), AllocError> {
    for row in table.split('$') {
        let (kind, want) = row.split_once('|').expect(rt, "a row of two");
        assert_eq!(rt;
            outcomes(rt, alloc, command, kind)?.as_str(),
            want,
            "{kind}"
        );
    }
    Ok(())
}

// The replies before the fault are put whole, and behind them a line that names a file.
const ASK: &str =
    "read|Outside 0 town.opl\n;Outside 0 settings.toml\n;Outside 330 speeds.csv\n;Outside 330 turns.csv\n;whole$\
take|Outside 0 ;Outside 330 ;Outside 377 ;Outside 707 ;whole$\
put|Outside 0 ;Outside 330 ;Outside 377 ;whole";

#[test]
fn a_fault_at_each_place_of_a_run_to_ask(rt: HostRuntime) -> Result<(), AllocError> {
    assert_outcomes(&rt, rt.alloc(), "ask", ASK)
}

// A door that fails is told with both last lines. A connection that fails ends alone.
const SERVE: &str =
    "read|0 Outside cannot read town.opl\n;0 Outside cannot read settings.toml\n;0 Outside cannot read speeds.csv\n;whole$\
open|0 Outside ;whole$\
accept|0 Outside ready\nconnections 0\nmetric 0\n;458 Outside ready\nconnections 1\nmetric 0\n;whole$\
control|458 Outside ready\nconnections 1\nmetric 0\n;whole$\
put|0 Outside ;458 Outside ready\n;458 Outside ready\nconnections ;458 Outside ready\nconnections 1;458 Outside ready\nconnections 1\n;458 Outside ready\nconnections 1\nmetric ;458 Outside ready\nconnections 1\nmetric 0;whole$\
take|0 Ok ready\nconnections 1\nmetric 0\n;whole$\
reply|0 Ok ready\nconnections 1\nmetric 0\n;229 Ok ready\nconnections 1\nmetric 0\n;whole";

#[test]
fn a_fault_at_each_place_of_a_run_to_serve(rt: HostRuntime) -> Result<(), AllocError> {
    assert_outcomes(&rt, rt.alloc(), "serve", SERVE)
}
