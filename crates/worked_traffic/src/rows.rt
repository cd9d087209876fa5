//! Traffic files with one row, good or faulty, each by the reply to a line that names it.

use road_io::MemFiles;
use run_cases::{Case, files_of, named, run_over};
use std::alloc::{AllocError, Global};
use std::net::{Net, TcpListener, TcpStream};
use std::sync::Wait;
use std::thread::Threads;

// Whether a run whose one line names a file of these rows gets this reply.
fn is_reply(
    rt: &(impl Threads + Wait + Net<Listener = TcpListener, Stream = TcpStream> + Sync),
    alloc: Global,
    rows: &str,
    line: &[u8],
    reply: &str,
) -> Result<bool, AllocError> {
    let case = Case::over_town(line);
    let mut list = files_of(alloc, case)?;
    list.push(named(alloc, "rows.csv", rows.as_bytes())?)?;
    let mut files = MemFiles::of(alloc, list, Vec::new(alloc));
    let (_, output) = run_over(rt, alloc, case, &mut files)?;
    Ok(output.as_bytes() == reply.as_bytes())
}

// Rows, each with the reply to a line that names a file of it.
const SPEEDS: &str = "|{\"code\":\"Ok\",\"data_version\":\"1\",\"unmatched\":0}\n$\
1,2|{\"code\":\"Refused\",\"file\":\"speeds\",\"row\":1,\"kind\":\"BadCount\"}\n$\
1,2,3,4,5|{\"code\":\"Refused\",\"file\":\"speeds\",\"row\":1,\"kind\":\"BadCount\"}\n$\
a,2,3|{\"code\":\"Refused\",\"file\":\"speeds\",\"row\":1,\"kind\":\"BadId\"}\n$\
1,2,-5|{\"code\":\"Refused\",\"file\":\"speeds\",\"row\":1,\"kind\":\"BadNumber\"}\n$\
1,2,1000.0009|{\"code\":\"Ok\",\"data_version\":\"1\",\"unmatched\":0}\n$\
1,2,1000.0019|{\"code\":\"Refused\",\"file\":\"speeds\",\"row\":1,\"kind\":\"OutOfRange\"}\n";

#[test]
fn each_row_of_speeds_has_its_reply(rt: HostRuntime) -> Result<(), AllocError> {
    for row in SPEEDS.split('$') {
        let (rows, reply) = row.split_once('|').expect(&rt, "a row of two");
        assert!(rt;
            is_reply(&rt, rt.alloc(), rows, b"TRAFFIC rows.csv -\n", reply)?,
            "{row}"
        );
    }
    Ok(())
}

const TURNS: &str = "|{\"code\":\"Ok\",\"data_version\":\"1\",\"unmatched\":0}\n$\
1,2,3,-0.1|{\"code\":\"Ok\",\"data_version\":\"1\",\"unmatched\":0}\n$\
1,2,3,100000.1|{\"code\":\"Refused\",\"file\":\"turns\",\"row\":1,\"kind\":\"OutOfRange\"}\n";

#[test]
fn each_row_of_turns_has_its_reply(rt: HostRuntime) -> Result<(), AllocError> {
    for row in TURNS.split('$') {
        let (rows, reply) = row.split_once('|').expect(&rt, "a row of two");
        assert!(rt;
            is_reply(&rt, rt.alloc(), rows, b"TRAFFIC - rows.csv\n", reply)?,
            "{row}"
        );
    }
    Ok(())
}
