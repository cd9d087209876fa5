//! What is long or large: routes of 500 places, a thousand lines, long names, and maps past the limits.

use road_base::Status;
use run_cases::{Case, LINE, REPLY, ends, repeated, shows};
use std::alloc::{AllocError, Global};
use std::net::{Net, TcpListener, TcpStream};
use std::sync::Wait;
use std::thread::Threads;

// The town with a name that is to follow.
const TOWN_UNNAMED: &[u8] =
    b"n1 x0 y0\nn2 x0 y0.001\nn3 x0.001 y0.001\nw10 Nn1,n2,n3 Thighway=residential,name=";

// Want of memory may be told anywhere; where memory is ample it isn't, however long the replies are.
#[test]
fn a_route_through_500_places_is_answered(rt: HostRuntime) -> Result<(), AllocError> {
    let first = b"GET /route/v1/car/0,0;0.001,0.001";
    let mut input = repeated(rt.alloc(), first, b";0,0;0.001,0.001", 249)?;
    input.extend_from_slice(b"?overview=false")?;
    let case = Case {
        room: 131_072,
        ..Case::over_town(input.as_slice())
    };
    // 499 legs of 222.2 metres and 19.8 seconds.
    let expected = "[{\"distance\":110877.8,\"duration\":9880.2,";
    assert!(rt; shows(&rt, rt.alloc(), case, expected)?);
    Ok(())
}

#[test]
fn a_thousand_lines_are_answered(rt: HostRuntime) -> Result<(), AllocError> {
    let input = repeated(rt.alloc(), b"", LINE, 1000)?;
    let replies = repeated(rt.alloc(), b"", REPLY.as_bytes(), 1000)?;
    let case = Case {
        room: 1_048_576,
        ..Case::over_town(input.as_slice())
    };
    assert!(rt; ends(&rt, rt.alloc(), case, Status::Ok, replies.as_slice())?);
    Ok(())
}

#[test]
fn a_long_street_name_is_told(rt: HostRuntime) -> Result<(), AllocError> {
    let map = repeated(rt.alloc(), TOWN_UNNAMED, b"LongStreet", 600)?;
    let name = repeated(rt.alloc(), b"\"name\":\"", b"LongStreet", 600)?;
    let expected = std::str::from_utf8(name.as_slice()).unwrap_or("-");
    let case = Case {
        map: map.as_slice(),
        room: 16_384,
        ..Case::over_town(LINE)
    };
    assert!(rt; shows(&rt, rt.alloc(), case, expected)?);
    Ok(())
}

// A map with one way that goes to and fro between two nodes, so many times.
fn to_and_fro(alloc: Global, times: usize) -> Result<Vec<u8>, AllocError> {
    let front = b"n1 x0 y0\nn2 x0.001 y0\nw1 Thighway=residential Nn1";
    let mut map = repeated(alloc, front, b",n2,n1", times / 2)?;
    if times % 2 == 1 {
        map.extend_from_slice(b",n2")?;
    }
    Ok(map)
}

// Whether a map whose way goes to and fro so many times is refused with this line.
fn is_past(
    rt: &(impl Threads + Wait + Net<Listener = TcpListener, Stream = TcpStream> + Sync),
    alloc: Global,
    times: usize,
    line: &[u8],
) -> Result<bool, AllocError> {
    let map = to_and_fro(alloc, times)?;
    let case = Case {
        map: map.as_slice(),
        ..Case::over_town(LINE)
    };
    ends(rt, alloc, case, Status::Refused, line)
}

#[test]
fn past_the_limits_a_map_is_refused(rt: HostRuntime) -> Result<(), AllocError> {
    assert!(rt; is_past(&rt, rt.alloc(), 8193, b"too many turns\n")?);
    assert!(rt; is_past(&rt, rt.alloc(), 16_777_217, b"too many segments\n")?);
    Ok(())
}
