//! What no clause says: that the calls succeed, and that the clauses say what was meant.

use crate::polylines::{given, points_of};
use line_simplify::{simplify, tolerance_of};
use road_base::Point;
use std::alloc::{AllocError, Global};
use std::process::Abort;

// Lines, each with a tolerance and with the line that is kept, and a bar between each two parts. In the last line there are
// two points that are as far off: places are 1024ths of the line, so each lies a microdegree beside its own. A table is one
// text, since a proof takes time for each value of a list.
const LINES: &str = "0,0 1,1000 0,2000|0|0,0 1,1000 0,2000
0,0 1,1000 0,2000|1|0,0 0,2000
0,0 1,1000 0,2000|3|0,0 0,2000
|0|
7,7|0|7,7
7,7 7,7|0|7,7 7,7
7,7 7,7 7,7 7,7|0|7,7 7,7
0,0 0,900 0,500 0,0|900|0,0 0,0
0,0 0,900 0,500 0,0|899|0,0 0,900 0,0
0,0 1000,200 2000,-200 3000,0|100|0,0 1000,200 2000,-200 3000,0
0,0 1000,200 2000,-200 3000,0|201|0,0 3000,0";

// Points as a text: `lon,lat` each, with a blank between each two.
fn line_told(alloc: Global, points: &[Point]) -> Result<String, AllocError> {
    let mut told = String::new(alloc);
    for point in points {
        if !told.is_empty() {
            told.push_str(" ")?;
        }
        told.push_str(format!(in alloc; "{},{}", point.lon, point.lat)?.as_str())?;
    }
    Ok(told)
}

// What is kept of points with this tolerance.
fn kept_told(alloc: Global, points: &[Point], tolerance: u32) -> Result<String, AllocError> {
    let kept = simplify(alloc, points, tolerance)?;
    line_told(alloc, &kept)
}

// What is kept of a line with this tolerance.
fn kept_of(
    rt: &impl Abort,
    alloc: Global,
    line: &str,
    tolerance: &str,
) -> Result<String, AllocError> {
    let Ok(tolerance) = tolerance.parse::<u32>() else {
        panic!(rt; "a tolerance");
    };
    let points = points_of(rt, alloc, line)?;
    kept_told(alloc, &points, tolerance)
}

#[test]
fn points_near_the_line_are_dropped(rt: HostRuntime) -> Result<(), AllocError> {
    for row in LINES.split('\n') {
        let mut parts = row.split('|');
        let line = given(&rt, parts.next());
        let tolerance = given(&rt, parts.next());
        let want = given(&rt, parts.next());
        assert_eq!(rt;
            kept_of(&rt, rt.alloc(), line, tolerance)?.as_str(),
            want,
            "{row}"
        );
    }
    Ok(())
}

// Lines, each with its tolerance.
const TOLERANCES: &str = "|0
5,5|0
0,0 511,0|0
300,0 0,512 -212,0|1
0,1023 0,0 1024,0|2
-180000000,0 180000000,0|703125";

// The tolerance of a line.
fn tolerance_told(rt: &impl Abort, alloc: Global, line: &str) -> Result<String, AllocError> {
    let points = points_of(rt, alloc, line)?;
    format!(in alloc; "{}", tolerance_of(&points))
}

#[test]
fn a_tolerance_is_a_512th_of_the_extent(rt: HostRuntime) -> Result<(), AllocError> {
    for row in TOLERANCES.split('\n') {
        let mut parts = row.split('|');
        let line = given(&rt, parts.next());
        let want = given(&rt, parts.next());
        assert_eq!(rt;
            tolerance_told(&rt, rt.alloc(), line)?.as_str(),
            want,
            "{line}"
        );
    }
    Ok(())
}
