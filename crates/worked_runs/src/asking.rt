//! Runs of `ask`: the first route, lines of every kind, and each status with its line.

use road_base::Status;
use road_io::MemFiles;
use run_cases::{Case, LINE, REPLY, SETTINGS, TOWN, begins, ends, files_of, run_over, words};
use std::alloc::{AllocError, Global};
use std::net::{Net, TcpListener, TcpStream};
use std::sync::Wait;
use std::thread::Threads;

// The town with a name whose escape is no character, and a node that comes twice.
const TOWN_ESCAPED: &[u8] =
    b"n1 x0 y0\nn2 x0 y0.001\nn3 x0.001 y0.001\nw10 Nn1,n2,n3 Tname=%110000%\n";

const TWICE: &[u8] = b"n1 x0 y0\nn1 x0 y0\nw";

const NO_SPEEDS: &[u8] = b"name = \"car\"\nvehicle = \"motorcar\"\n";

#[test]
fn the_first_route_is_answered(rt: HostRuntime) -> Result<(), AllocError> {
    let case = Case::over_town(LINE);
    assert!(rt; ends(&rt, rt.alloc(), case, Status::Ok, REPLY.as_bytes())?);
    Ok(())
}

#[test]
fn an_input_byte_by_byte_is_answered_alike(rt: HostRuntime) -> Result<(), AllocError> {
    let case = Case {
        piece: 1,
        ..Case::over_town(LINE)
    };
    assert!(rt; ends(&rt, rt.alloc(), case, Status::Ok, REPLY.as_bytes())?);
    Ok(())
}

// Inputs, each with what is put: an empty line, a carriage return before a newline, a target that is refused, a line of no
// form, and a last line without its newline, whose carriage return belongs to it. A dollar sign stands between two of them.
const INPUTS: &str = "|$\
\n\r\n\n|$\
GET /\r\n|{\"code\":\"InvalidUrl\",\"message\":\"path\"}\n$\
GET /\nTRAFFIC -  -|{\"code\":\"InvalidUrl\",\"message\":\"path\"}\n{\"code\":\"BadRequest\"}\n$\
\r|{\"code\":\"BadRequest\"}\n";

#[test]
fn lines_are_answered_one_by_one(rt: HostRuntime) -> Result<(), AllocError> {
    for row in INPUTS.split('$') {
        let (input, expected) = row.split_once('|').expect(&rt, "a row of two");
        let case = Case::over_town(input.as_bytes());
        assert!(rt;
            ends(&rt, rt.alloc(), case, Status::Ok, expected.as_bytes())?,
            "{row}"
        );
    }
    Ok(())
}

// Whether a map and settings are refused on this line.
fn is_refused(
    rt: &(impl Threads + Wait + Net<Listener = TcpListener, Stream = TcpStream> + Sync),
    alloc: Global,
    map: &[u8],
    settings: &[u8],
    line: &[u8],
) -> Result<bool, AllocError> {
    let case = Case {
        map,
        settings,
        ..Case::over_town(LINE)
    };
    ends(rt, alloc, case, Status::Refused, line)
}

#[test]
fn each_status_has_its_line(rt: HostRuntime) -> Result<(), AllocError> {
    let alloc = rt.alloc();
    assert!(rt;
        is_refused(
            &rt,
            alloc,
            TOWN_ESCAPED,
            SETTINGS,
            b"opl line 4 BadEscape\n"
        )?
    );
    assert!(rt; is_refused(&rt, alloc, TWICE, SETTINGS, b"opl line 2 Duplicate\n")?);
    assert!(rt; is_refused(&rt, alloc, TOWN, NO_SPEEDS, b"settings Missing speeds\n")?);
    assert!(rt; is_refused(&rt, alloc, TOWN, b"", b"settings Missing name\n")?);
    let unread = Case {
        words: "ask town.opl none.toml",
        ..Case::over_town(LINE)
    };
    assert!(rt;
        ends(
            &rt,
            alloc,
            unread,
            Status::Outside,
            b"cannot read none.toml\n"
        )?
    );
    Ok(())
}

// Words, each with the line that is put and how many files are read.
const UNREAD: &str = "ask town.opl none.toml|cannot read none.toml\n2$\
check town.opl none.toml|cannot read none.toml\n2$\
ask none.opl none.toml|cannot read none.opl\n1$\
check none.opl none.toml|cannot read none.opl\n1";

// What a run on these words puts over a faulty map, and then how many files it read; nothing unless it ends for the
// one that it could not read.
fn unread(
    rt: &(impl Threads + Wait + Net<Listener = TcpListener, Stream = TcpStream> + Sync),
    alloc: Global,
    words: &str,
) -> Result<String, AllocError> {
    let faulty = Case {
        words,
        map: TWICE,
        ..Case::over_town(LINE)
    };
    let mut files = MemFiles::of(alloc, files_of(alloc, faulty)?, Vec::new(alloc));
    let (status, output) = run_over(rt, alloc, faulty, &mut files)?;
    if status != Status::Outside || files.failed_names().len() != 1 {
        return Ok(String::new(alloc));
    }
    let told = std::str::from_utf8(output.as_bytes()).unwrap_or("");
    format!(in alloc; "{told}{}", files.reads().len())
}

#[test]
fn both_files_are_read_before_they_are_judged(rt: HostRuntime) -> Result<(), AllocError> {
    for row in UNREAD.split('$') {
        let (words, expected) = row.split_once('|').expect(&rt, "a row of two");
        assert!(rt;
            unread(&rt, rt.alloc(), words)?.as_str() == expected,
            "{row}"
        );
    }
    Ok(())
}

#[test]
fn other_words_get_the_usage_line(rt: HostRuntime) -> Result<(), AllocError> {
    let front = b"usage: road_router check OPL SETTINGS | ask OPL SETTINGS";
    assert!(rt; words(rt.alloc(), "")?.is_empty());
    for words in "|ask town.opl|check --help|serve".split('|') {
        let case = Case {
            words,
            ..Case::over_town(LINE)
        };
        assert!(rt;
            begins(&rt, rt.alloc(), case, Status::Words, front)?,
            "{words}"
        );
    }
    Ok(())
}

#[test]
fn a_full_output_ends_the_run(rt: HostRuntime) -> Result<(), AllocError> {
    let case = Case {
        room: 10,
        ..Case::over_town(LINE)
    };
    assert!(rt; ends(&rt, rt.alloc(), case, Status::Outside, b"{\"code\":\"O")?);
    Ok(())
}

#[test]
fn a_map_without_roads_has_no_place(rt: HostRuntime) -> Result<(), AllocError> {
    let case = Case {
        map: b"",
        ..Case::over_town(LINE)
    };
    let reply = b"{\"code\":\"NoSegment\",\"data_version\":\"0\",\"message\":\"coordinate 0\"}\n";
    assert!(rt; ends(&rt, rt.alloc(), case, Status::Ok, reply)?);
    Ok(())
}
