use polyline_text::{DecodeError, decode, encode};
use road_base::{Point, Text};
use std::alloc::{AllocError, Global};
use std::process::Abort;

const GOOGLE_TEXT: &str = "_p~iF~ps|U_ulLnnqC_mqNvxq`@";

// A part of a row, which is there.
pub(crate) fn given<'t>(rt: &impl Abort, part: Option<&'t str>) -> &'t str {
    let Some(part) = part else {
        panic!(rt; "a part of a row");
    };
    part
}

// The whole number that a part of a row is.
pub(crate) fn number(rt: &impl Abort, part: Option<&str>) -> i64 {
    let Ok(number) = given(rt, part).parse::<i64>() else {
        panic!(rt; "a number");
    };
    number
}

// A point: `lon,lat`.
fn point_of(rt: &impl Abort, entry: &str) -> Point {
    let mut parts = entry.split(',');
    let lon = number(rt, parts.next());
    let lat = number(rt, parts.next());
    let Some(point) = Point::of(lon, lat) else {
        panic!(rt; "a point on the Earth");
    };
    point
}

// The points of a line, with a blank between each two.
pub(crate) fn points_of(
    rt: &impl Abort,
    alloc: Global,
    line: &str,
) -> Result<Vec<Point>, AllocError> {
    let mut points = Vec::new(alloc);
    if line.is_empty() {
        return Ok(points);
    }
    for entry in line.split(' ') {
        points.push(point_of(rt, entry))?;
    }
    Ok(points)
}

// The text of points with 5 or 6 digits.
fn text_of(
    rt: &impl Abort,
    alloc: Global,
    digits: &str,
    points: &[Point],
) -> Result<Text, AllocError> {
    match digits {
        "5" => encode(alloc, points, 5),
        "6" => encode(alloc, points, 6),
        _ => panic!(rt; "5 or 6 digits"),
    }
}

// Points, each with how many digits are kept and with their text, and a dollar sign between each two parts. The second row is
// the example of Google's page. A table is one text, since a proof takes time for each value of a list.
const LINES: &str = "5$$
5$-120200000,38500000 -120950000,40700000 -126453000,43252000$_p~iF~ps|U_ulLnnqC_mqNvxq`@
5$500,1000 500,1000$gEcB??
5$0,0 0,1000 1000,1000$??gE??gE
5$5,-5$?A
5$-6,4$?@
6$1,-1$@A
6$180000000,90000000 -180000000,-90000000$_gdtjD_oiivI~niivI~~ssmT";

// The text of a line with so many digits.
fn encoded(rt: &impl Abort, alloc: Global, digits: &str, line: &str) -> Result<Text, AllocError> {
    let points = points_of(rt, alloc, line)?;
    text_of(rt, alloc, digits, &points)
}

#[test]
fn points_have_the_text_that_the_format_gives(rt: HostRuntime) -> Result<(), AllocError> {
    for row in LINES.split('\n') {
        let mut parts = row.split('$');
        let digits = given(&rt, parts.next());
        let line = given(&rt, parts.next());
        let want = given(&rt, parts.next());
        assert_eq!(rt; encoded(&rt, rt.alloc(), digits, line)?.as_str(), want);
    }
    Ok(())
}

// Points as a text, `lon,lat` each, with a blank behind each.
fn line_told(alloc: Global, points: &[(i32, i32)]) -> Result<String, AllocError> {
    let mut told = String::new(alloc);
    for (lon, lat) in points {
        told.push_str(format!(in alloc; "{lon},{lat} ")?.as_str())?;
    }
    Ok(told)
}

// The points that were decoded.
fn decoded_told(
    rt: &impl Abort,
    alloc: Global,
    decoded: Result<Vec<(i32, i32)>, DecodeError>,
) -> Result<String, AllocError> {
    match decoded {
        Ok(points) => line_told(alloc, &points),
        Err(DecodeError::BadPolyline(_at)) => panic!(rt; "a polyline"),
        Err(DecodeError::Memory) => Err(AllocError),
    }
}

const GOOGLE_TOLD: &str = "-120200000,38500000 -120950000,40700000 -126453000,43252000 ";

#[test]
fn texts_of_the_grammar_have_their_points(rt: HostRuntime) -> Result<(), AllocError> {
    let google = decode(rt.alloc(), GOOGLE_TEXT.as_bytes(), 5);
    assert_eq!(rt;
        decoded_told(&rt, rt.alloc(), google)?.as_str(),
        GOOGLE_TOLD
    );
    Ok(())
}

const HIGHEST_TOLD: &str = "-2147483648,2147483647 ";

#[test]
fn a_point_lies_anywhere_in_32_bits(rt: HostRuntime) -> Result<(), AllocError> {
    let highest = decode(rt.alloc(), b"}~~~~~B~~~~~~B", 6);
    assert_eq!(rt;
        decoded_told(&rt, rt.alloc(), highest)?.as_str(),
        HIGHEST_TOLD
    );
    Ok(())
}

// Texts, each with the last point that it has with 5 digits, and a dollar sign between the two.
const LAST_POINTS: &str = "$none
??gEgE$1000,1000
_??$0,0
______??$0,0
wkerxK?$0,2147483640
?@$-10,0";

// The last of these points, or `none`.
fn last_told(alloc: Global, points: &[(i32, i32)]) -> Result<String, AllocError> {
    match points.last() {
        Some((lon, lat)) => format!(in alloc; "{lon},{lat}"),
        None => format!(in alloc; "none"),
    }
}

// The last point of a text with 5 digits, or `none`.
fn last_of(rt: &impl Abort, alloc: Global, polyline: &str) -> Result<String, AllocError> {
    match decode(alloc, polyline.as_bytes(), 5) {
        Ok(points) => last_told(alloc, &points),
        Err(DecodeError::BadPolyline(_at)) => panic!(rt; "a polyline"),
        Err(DecodeError::Memory) => Err(AllocError),
    }
}

#[test]
fn texts_of_the_grammar_have_a_last_point(rt: HostRuntime) -> Result<(), AllocError> {
    for row in LAST_POINTS.split('\n') {
        let mut parts = row.split('$');
        let polyline = given(&rt, parts.next());
        let want = given(&rt, parts.next());
        assert_eq!(rt;
            last_of(&rt, rt.alloc(), polyline)?.as_str(),
            want,
            "{polyline}"
        );
    }
    Ok(())
}

// Texts, each with the offset of its fault with 6 digits, and a dollar sign between the two.
const FAULTS: &[u8] = b"??g$3
?$1
g$1
>$0
?\x7f$1
?? ?$2
\xff?$0
_______?$7
?________$8
______C?$6
}~~~~~B?A?$8
~~~~~~B?@?$8";

// The offset of the fault of a text, or `none`.
fn offset_told(
    alloc: Global,
    decoded: Result<Vec<(i32, i32)>, DecodeError>,
) -> Result<String, AllocError> {
    match decoded {
        Ok(_points) => format!(in alloc; "none"),
        Err(DecodeError::BadPolyline(at)) => format!(in alloc; "{at}"),
        Err(DecodeError::Memory) => Err(AllocError),
    }
}

#[test]
fn faults_have_their_offsets(rt: HostRuntime) -> Result<(), AllocError> {
    for row in FAULTS.split(|byte| *byte == b'\n') {
        let mut parts = row.split(|byte| *byte == b'$');
        let (Some(polyline), Some(want)) = (parts.next(), parts.next()) else {
            panic!(rt; "a row of two");
        };
        let told = offset_told(rt.alloc(), decode(rt.alloc(), polyline, 6))?;
        assert_eq!(rt; told.as_bytes(), want, "{polyline:?}");
    }
    Ok(())
}

#[test]
fn a_fault_with_5_digits_has_its_offset(rt: HostRuntime) -> Result<(), AllocError> {
    let told = offset_told(rt.alloc(), decode(rt.alloc(), b"ykerxK?", 5))?;
    assert_eq!(rt; told.as_str(), "5");
    Ok(())
}
