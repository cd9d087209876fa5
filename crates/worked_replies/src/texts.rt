//! Texts of replies without a result.

use refusal_texts::{Code, Lack, bad_request_text, busy_text, lack_text, refusal_text};
use std::alloc::{AllocError, Global};
use std::process::Abort;

// Asserts what is told of what a request lacks under the metric of a number.
fn assert_lack(
    rt: &impl Abort,
    alloc: Global,
    number: u32,
    lack: Lack,
    want: &str,
) -> Result<(), AllocError> {
    let text = lack_text(alloc, number, lack)?;
    assert_eq!(rt; text.as_str(), want);
    Ok(())
}

#[test]
fn what_is_lacking_has_its_text(rt: HostRuntime) -> Result<(), AllocError> {
    assert_lack(
        &rt,
        rt.alloc(),
        4,
        Lack::Ahead(5),
        "{\"code\":\"AheadOfData\",\"data_version\":\"4\",\"message\":\"since 5\"}",
    )?;
    assert_lack(
        &rt,
        rt.alloc(),
        0,
        Lack::Segment(0),
        "{\"code\":\"NoSegment\",\"data_version\":\"0\",\"message\":\"coordinate 0\"}",
    )?;
    assert_lack(
        &rt,
        rt.alloc(),
        1,
        Lack::Route(0),
        "{\"code\":\"NoRoute\",\"data_version\":\"1\",\"message\":\"leg 0\"}",
    )?;
    assert_lack(
        &rt,
        rt.alloc(),
        0,
        Lack::Trips,
        "{\"code\":\"NoTrips\",\"data_version\":\"0\",\"message\":\"trip\"}",
    )
}

// Asserts what is told of a request that is refused.
fn assert_refusal(
    rt: &impl Abort,
    alloc: Global,
    code: Code,
    message: &str,
    want: &str,
) -> Result<(), AllocError> {
    let text = refusal_text(alloc, code, message)?;
    assert_eq!(rt; text.as_str(), want);
    Ok(())
}

#[test]
fn refusals_have_their_texts(rt: HostRuntime) -> Result<(), AllocError> {
    assert_refusal(
        &rt,
        rt.alloc(),
        Code::TooBig,
        "501 coordinates, at most 500",
        "{\"code\":\"TooBig\",\"message\":\"501 coordinates, at most 500\"}",
    )?;
    assert_refusal(
        &rt,
        rt.alloc(),
        Code::InvalidService,
        "service \"a\\\r",
        "{\"code\":\"InvalidService\",\"message\":\"service \\\"a\\\\\\r\"}",
    )?;
    assert_eq!(rt; bad_request_text(), "{\"code\":\"BadRequest\"}");
    assert_eq!(rt; busy_text(), "{\"code\":\"Busy\"}");
    Ok(())
}
