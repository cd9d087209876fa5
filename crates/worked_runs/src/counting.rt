//! What `check` counts in maps.

use road_base::Status;
use run_cases::{Case, LINE, TOWN, TOWN_NAMED, ends};
use std::alloc::{AllocError, Global};
use std::net::{Net, TcpListener, TcpStream};
use std::sync::Wait;
use std::thread::Threads;

// A crossing of three streets. From the first one it is forbidden to go into the second; another
// restriction has no value.
const CROSSING: &[u8] =
    b"n1 x0 y0\nn2 x0.001 y0\nn3 x0.001 y0.001\nn4 x0.002 y0\nw1 Thighway=residential Nn1,n2\nw2 Thighway=residential Nn2,n3\nw3 Thighway=residential Nn2,n4\nr1 Ttype=restriction,restriction=no_left_turn Mw1@from,n2@via,w2@to\nr2 Ttype=restriction Mw1@from,n2@via,w3@to\n";

// Whether the count of a map is done with these lines.
fn counts(
    rt: &(impl Threads + Wait + Net<Listener = TcpListener, Stream = TcpStream> + Sync),
    alloc: Global,
    map: &[u8],
    lines: &[u8],
) -> Result<bool, AllocError> {
    let case = Case {
        words: "check town.opl settings.toml",
        map,
        ..Case::over_town(LINE)
    };
    ends(rt, alloc, case, Status::Ok, lines)
}

const OF_CROSSING: &[u8] =
    b"nodes 4\nways 3\nrelations 2\nsegments 3\nvertices 6\nturns 8\nrestrictions 1\nignored 1\n";

const OF_TOWN: &[u8] =
    b"nodes 3\nways 1\nrelations 0\nsegments 2\nvertices 4\nturns 4\nrestrictions 0\nignored 0\n";

const OF_NOTHING: &[u8] =
    b"nodes 0\nways 0\nrelations 0\nsegments 0\nvertices 0\nturns 0\nrestrictions 0\nignored 0\n";

#[test]
fn maps_are_counted(rt: HostRuntime) -> Result<(), AllocError> {
    assert!(rt; counts(&rt, rt.alloc(), CROSSING, OF_CROSSING)?);
    assert!(rt; counts(&rt, rt.alloc(), TOWN, OF_TOWN)?);
    assert!(rt; counts(&rt, rt.alloc(), TOWN_NAMED, OF_TOWN)?);
    assert!(rt; counts(&rt, rt.alloc(), b"", OF_NOTHING)?);
    let narrow = Case {
        words: "check town.opl settings.toml",
        map: CROSSING,
        room: 9,
        ..Case::over_town(LINE)
    };
    assert!(rt; ends(&rt, rt.alloc(), narrow, Status::Outside, b"nodes 4\nw")?);
    Ok(())
}
