//! What no clause says of the commands over a generated town: that they succeed with ample memory, what the least town is,
//! and which numbers are words.

use road_base::Status;
use road_run::USAGE;
use run_cases::{Case, ends};
use std::alloc::{AllocError, Global};
use std::net::{Net, TcpListener, TcpStream};
use std::sync::Wait;
use std::thread::Threads;

const TOWN_2: &[u8] =
    b"n1 x0.000000 y0.000000\nn2 x0.001000 y0.000000\nn3 x0.000000 y0.001000\nn4 x0.001000 y0.001000\nw1 Thighway=primary,name=Row%20%0 Nn1,n2\nw2 Thighway=residential,name=Row%20%1 Nn3,n4\nw3 Thighway=residential,name=Column%20%0 Nn1,n3\nw4 Thighway=residential,name=Column%20%1,oneway=yes Nn2,n4\n";

const DRILL_2: &[u8] =
    b"metric 0 ok 16 none 0 duration 106.4\nmetric 1 ok 16 none 0 duration 106.4\nmetric 2 ok 16 none 0 duration 106.4\nmetric 3 ok 16 none 0 duration 106.4\n";

// Whether a run on these words is done, with this in the output.
fn is_done(
    rt: &(impl Threads + Wait + Net<Listener = TcpListener, Stream = TcpStream> + Sync),
    alloc: Global,
    words: &str,
    output: &[u8],
) -> Result<bool, AllocError> {
    let case = Case {
        words,
        ..Case::over_town(b"")
    };
    ends(rt, alloc, case, Status::Ok, output)
}

#[test]
fn the_least_town_and_its_drill(rt: HostRuntime) -> Result<(), AllocError> {
    assert!(rt; is_done(&rt, rt.alloc(), "town 2", TOWN_2)?);
    assert!(rt; is_done(&rt, rt.alloc(), "drill 2", DRILL_2)?);
    Ok(())
}

#[test]
fn other_numbers_are_no_words(rt: HostRuntime) -> Result<(), AllocError> {
    for words in "town 1|town 1001|town two|drill 1|drill 1001|drill two".split('|') {
        let case = Case {
            words,
            ..Case::over_town(b"")
        };
        assert!(rt;
            ends(&rt, rt.alloc(), case, Status::Words, USAGE)?,
            "{words}"
        );
    }
    Ok(())
}

#[test]
fn a_full_output_ends_the_run(rt: HostRuntime) -> Result<(), AllocError> {
    let case = Case {
        words: "town 2",
        room: 10,
        ..Case::over_town(b"")
    };
    assert!(rt; ends(&rt, rt.alloc(), case, Status::Outside, b"n1 x0.0000")?);
    Ok(())
}
