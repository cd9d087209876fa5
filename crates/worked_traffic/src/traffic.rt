//! Traffic lines over worked towns: what is told of them, and of the routes behind them.

use road_base::Status;
use road_io::MemFiles;
use run_cases::{Case, LINE, REPLY, TOWN, files_of, named, run_over, star};
use std::alloc::{AllocError, Global};
use std::net::{Net, TcpListener, TcpStream};
use std::process::Abort;
use std::sync::Wait;
use std::thread::Threads;

// The names of traffic files, each with its rows.
const TRAFFIC: &str = "slow.csv|1,2,20\n$\
closed.csv|1,2,0\n$\
nowhere.csv|1,9,20\n$\
crawl.csv|1,2,0.5\n$\
fast.csv|1,2,1000.001\n$\
faulty.csv|1,2,20\n2,3,30\n3,2,abc\n$\
left.csv|1,5,4,10\n$\
dear_turn.csv|1,2,3,10\n$\
left_and_nowhere.csv|1,5,4,10\n1,5,9,10\n";

// The files of a case, and those of traffic.
fn with_traffic(rt: &impl Abort, alloc: Global, case: Case<'_>) -> Result<MemFiles, AllocError> {
    let mut list = files_of(alloc, case)?;
    for row in TRAFFIC.split('$') {
        let (name, rows) = row.split_once('|').expect(rt, "a row of two");
        list.push(named(alloc, name, rows.as_bytes())?)?;
    }
    Ok(MemFiles::of(alloc, list, Vec::new(alloc)))
}

// What a run over a map with this input puts, if it is done.
fn told<'a>(
    rt: &(impl Abort + Threads + Wait + Net<Listener = TcpListener, Stream = TcpStream> + Sync),
    alloc: Global,
    map: &'a [u8],
    input: &'a [u8],
) -> Result<String, AllocError> {
    let case = Case {
        map,
        ..Case::over_town(input)
    };
    let mut files = with_traffic(rt, alloc, case)?;
    let (status, output) = run_over(rt, alloc, case, &mut files)?;
    if status != Status::Ok {
        return Ok(String::new(alloc));
    }
    let told = std::str::from_utf8(output.as_bytes()).unwrap_or("");
    String::from_str(alloc, told)
}

// What a run over the town puts, and then how many files it read and how many of these it could not, if it ends for the
// outside.
fn told_outside(
    rt: &(impl Abort + Threads + Wait + Net<Listener = TcpListener, Stream = TcpStream> + Sync),
    alloc: Global,
    input: &[u8],
) -> Result<String, AllocError> {
    let case = Case::over_town(input);
    let mut files = with_traffic(rt, alloc, case)?;
    let (status, output) = run_over(rt, alloc, case, &mut files)?;
    if status != Status::Outside {
        return Ok(String::new(alloc));
    }
    let told = std::str::from_utf8(output.as_bytes()).unwrap_or("");
    format!(in alloc;
        "{told}{} {}",
        files.reads().len(),
        files.failed_names().len()
    )
}

// Traffic lines, each with its reply and with what a route's reply behind it begins with.
const FOLLOWED: &str =
    "TRAFFIC - -|{\"code\":\"Ok\",\"data_version\":\"1\",\"unmatched\":0}\n{\"code\":\"Ok\",\"data_version\":\"1\",\"routes\":[{\"distance\":222.2,\"duration\":19.8,$\
TRAFFIC slow.csv -|{\"code\":\"Ok\",\"data_version\":\"1\",\"unmatched\":0}\n{\"code\":\"Ok\",\"data_version\":\"1\",\"routes\":[{\"distance\":222.2,\"duration\":29.8,$\
TRAFFIC - dear_turn.csv|{\"code\":\"Ok\",\"data_version\":\"1\",\"unmatched\":0}\n{\"code\":\"Ok\",\"data_version\":\"1\",\"routes\":[{\"distance\":222.2,\"duration\":29.8,$\
TRAFFIC closed.csv -|{\"code\":\"Ok\",\"data_version\":\"1\",\"unmatched\":0}\n{\"code\":\"NoRoute\",\"data_version\":\"1\",\"message\":\"leg 0\"}$\
TRAFFIC nowhere.csv -|{\"code\":\"Ok\",\"data_version\":\"1\",\"unmatched\":1}\n{\"code\":\"Ok\",\"data_version\":\"1\",$\
TRAFFIC crawl.csv -|{\"code\":\"Ok\",\"data_version\":\"1\",\"unmatched\":0}\n{\"code\":\"Ok\",\"data_version\":\"1\",\"routes\":[{\"distance\":222.2,\"duration\":409.8,$\
TRAFFIC fast.csv -|{\"code\":\"Refused\",\"file\":\"speeds\",\"row\":1,\"kind\":\"OutOfRange\"}\n{\"code\":\"Ok\",\"data_version\":\"0\",\"routes\":[{\"distance\":222.2,\"duration\":19.8,$\
TRAFFIC faulty.csv -|{\"code\":\"Refused\",\"file\":\"speeds\",\"row\":3,\"kind\":\"BadNumber\"}\n{\"code\":\"Ok\",\"data_version\":\"0\",\"routes\":[{\"distance\":222.2,\"duration\":19.8,$\
TRAFFIC slow.csv closed.csv|{\"code\":\"Refused\",\"file\":\"turns\",\"row\":1,\"kind\":\"BadCount\"}\n{\"code\":\"Ok\",\"data_version\":\"0\",\"routes\":[{\"distance\":222.2,\"duration\":19.8,";

// Whether what follows a traffic line and the route's line over the town begins with this.
fn follows(
    rt: &(impl Abort + Threads + Wait + Net<Listener = TcpListener, Stream = TcpStream> + Sync),
    alloc: Global,
    traffic: &str,
    front: &str,
) -> Result<bool, AllocError> {
    let input = format!(in alloc; "{traffic}\nGET /route/v1/car/0,0;0.001,0.001?overview=false\n")?;
    Ok(
        told(rt, alloc, TOWN, input.as_bytes())?
            .as_str()
            .starts_with(front),
    )
}

#[test]
fn routes_follow_the_traffic(rt: HostRuntime) -> Result<(), AllocError> {
    for row in FOLLOWED.split('$') {
        let (traffic, front) = row.split_once('|').expect(&rt, "a row of two");
        assert!(rt; follows(&rt, rt.alloc(), traffic, front)?, "{row}");
    }
    Ok(())
}

// The same, with a carriage return behind the traffic line, and a route that is the other way round.
#[test]
fn a_route_back_follows_the_traffic(rt: HostRuntime) -> Result<(), AllocError> {
    let input = b"TRAFFIC slow.csv -\r\nGET /route/v1/car/0.001,0.001;0,0?overview=false";
    let front =
        "{\"code\":\"Ok\",\"data_version\":\"1\",\"unmatched\":0}\n{\"code\":\"Ok\",\"data_version\":\"1\",\"routes\":[{\"distance\":222.2,\"duration\":19.8,";
    assert!(rt;
        told(&rt, rt.alloc(), TOWN, input)?
            .as_str()
            .starts_with(front)
    );
    Ok(())
}

// Each traffic line begins again with the profile.
#[test]
fn traffic_replaces_traffic(rt: HostRuntime) -> Result<(), AllocError> {
    let front =
        "{\"code\":\"Ok\",\"data_version\":\"1\",\"unmatched\":0}\n{\"code\":\"Ok\",\"data_version\":\"2\",\"unmatched\":0}\n{\"code\":\"Ok\",\"data_version\":\"2\",\"routes\":[{\"distance\":222.2,\"duration\":19.8,";
    assert!(rt; follows(&rt, rt.alloc(), "TRAFFIC slow.csv -\nTRAFFIC - -", front)?);
    Ok(())
}

const LEFT: &[u8] = b"TRAFFIC - left.csv\nGET /route/v1/car/0.001,0;0,0.001?overview=false\n";

const LEFT_AND_NOWHERE: &[u8] =
    b"TRAFFIC - left_and_nowhere.csv\nGET /route/v1/car/0.001,0;0,0.001?overview=false\n";

#[test]
fn penalties_of_turns_are_replaced(rt: HostRuntime) -> Result<(), AllocError> {
    let map = star(rt.alloc(), b"", b"")?;
    let left = told(&rt, rt.alloc(), map.as_slice(), LEFT)?;
    let both = told(&rt, rt.alloc(), map.as_slice(), LEFT_AND_NOWHERE)?;
    assert!(rt;
        left.as_str().starts_with(
            "{\"code\":\"Ok\",\"data_version\":\"1\",\"unmatched\":0}\n{\"code\":\"Ok\",\"data_version\":\"1\",\"routes\":[{\"distance\":222.2,\"duration\":29.8,"
        )
    );
    assert!(rt;
        both.as_str().starts_with(
            "{\"code\":\"Ok\",\"data_version\":\"1\",\"unmatched\":1}\n{\"code\":\"Ok\",\"data_version\":\"1\",\"routes\":[{\"distance\":222.2,\"duration\":29.8,"
        )
    );
    Ok(())
}

// Seven replies to lines of no form, a line that names a file, and how many files are read: the map, the settings and this.
const NO_TRAFFIC: &str =
    "{\"code\":\"BadRequest\"}\n{\"code\":\"BadRequest\"}\n{\"code\":\"BadRequest\"}\n{\"code\":\"BadRequest\"}\n{\"code\":\"BadRequest\"}\n{\"code\":\"BadRequest\"}\n{\"code\":\"BadRequest\"}\ncannot read -\r\n3 1";

// One blank before each name, and nothing else. At the very end a carriage return belongs to the name.
#[test]
fn other_lines_are_no_traffic(rt: HostRuntime) -> Result<(), AllocError> {
    let input: &[u8] =
        b"TRAFFIC -  -\nTRAFFIC - - \n TRAFFIC - -\nTRAFFIC -\ntraffic - -\nTRAFFIC - -\t\nTRAFFIC - - -\nTRAFFIC - -\r";
    assert!(rt; told_outside(&rt, rt.alloc(), input)?.as_str() == NO_TRAFFIC);
    Ok(())
}

// Whether a route and this traffic line end a run so: with the route's reply, a line that names the file, and how many
// files were read.
fn is_unread(
    rt: &(impl Abort + Threads + Wait + Net<Listener = TcpListener, Stream = TcpStream> + Sync),
    alloc: Global,
    traffic: &[u8],
    reads: &str,
) -> Result<bool, AllocError> {
    let mut input = Vec::from_slice(alloc, LINE)?;
    input.extend_from_slice(traffic)?;
    let reply = REPLY;
    let expected = format!(in alloc; "{reply}cannot read none.csv\n{reads}")?;
    Ok(told_outside(rt, alloc, input.as_slice())?.as_str() == expected.as_str())
}

// The replies before the line are put, and then a line that names the file. One file is not read.
#[test]
fn a_traffic_file_that_cannot_be_read_ends_the_run(rt: HostRuntime) -> Result<(), AllocError> {
    assert!(rt;
        is_unread(
            &rt,
            rt.alloc(),
            b"TRAFFIC slow.csv none.csv\nGET /\n",
            "4 1"
        )?
    );
    assert!(rt;
        is_unread(
            &rt,
            rt.alloc(),
            b"TRAFFIC none.csv slow.csv\nGET /\n",
            "3 1"
        )?
    );
    Ok(())
}

// A route that is asked for before, between and behind traffic lines that are refused.
const REFUSED: &[u8] = b"GET /route/v1/car/0,0;0.001,0.001?overview=false\n\
TRAFFIC faulty.csv -\n\
GET /route/v1/car/0,0;0.001,0.001?overview=false\n\
TRAFFIC slow.csv slow.csv\n\
GET /route/v1/car/0,0;0.001,0.001?overview=false\n";

const FAULTY: &str =
    "{\"code\":\"Refused\",\"file\":\"speeds\",\"row\":3,\"kind\":\"BadNumber\"}\n";

const NO_TURNS: &str =
    "{\"code\":\"Refused\",\"file\":\"turns\",\"row\":1,\"kind\":\"BadCount\"}\n";

// Its reply is the same each time.
#[test]
fn refused_traffic_changes_no_reply(rt: HostRuntime) -> Result<(), AllocError> {
    let (reply, faulty, no_turns) = (REPLY, FAULTY, NO_TURNS);
    let expected = format!(in rt.alloc(); "{reply}{faulty}{reply}{no_turns}{reply}")?;
    assert!(rt; told(&rt, rt.alloc(), TOWN, REFUSED)?.as_str() == expected.as_str());
    Ok(())
}
