//! What heads ask for, and control requests on boards over a town. Expected values are this project's rules. A table
//! of cases is one text, since a proof takes time for each value of a list.

ghost use Rattle.std.specs.Prelude.{◌≤◌, length};

use crate::towns::{board, last_number, roads};
use control_port::{BodyRoom, ControlHead, Controlled, ReplyRoom, control};
use customized::Roads;
use http_head::head;
use http_head::parts::Front;
use std::alloc::{AllocError, Global};
use std::process::Abort;
use std::thread::Threads;
use traffic_files::{RowFault, RowKind, TrafficFile};

// What the head that the bytes are asks for: a metric, with the lengths of its speeds file and of its body, a stop, or
// nothing good.
fn asked(alloc: Global, bytes: &[u8]) -> Result<String, AllocError> {
    match head(bytes) {
        Front::Whole { head, size } => {
            let _ = size;
            head_told(alloc, ControlHead::of(bytes, &head))
        }
        _ => String::from_str(alloc, "no head"),
    }
}

fn head_told(alloc: Global, asked: ControlHead) -> Result<String, AllocError> {
    match asked {
        ControlHead::Metric { speeds, length } => format!(in alloc; "metric {speeds} {length}"),
        ControlHead::Stop => String::from_str(alloc, "stop"),
        ControlHead::Bad => String::from_str(alloc, "bad"),
    }
}

// Heads, each with what it asks for. A bar stands behind a head, and a dollar sign between each two rows.
const HEADS: &str =
    "POST /control/v1/metric?speeds=3 HTTP/1.1\r\nContent-Length: 22\r\n\r\n|metric 3 22$\
POST /control/v1/metric?speeds=03 HTTP/1.0\r\nhost: a\r\ncontent-length:022\r\nExpect: 100-continue\r\n\r\n|metric 3 22$\
POST /control/v1/metric?speeds=000000000000000003 HTTP/1.1\r\nContent-Length: 000000000000000022\r\n\r\n|metric 3 22$\
POST /control/v1/metric?speeds=0 HTTP/1.1\r\nContent-Length: 67108864\r\n\r\n|metric 0 67108864$\
POST /control/v1/metric?speeds=0 HTTP/1.1\r\nContent-Length: 67108865\r\n\r\n|bad$\
POST /control/v1/metric?speeds=23 HTTP/1.1\r\nContent-Length: 22\r\n\r\n|bad$\
POST /control/v1/metric?speeds=0 HTTP/1.1\r\n\r\n|bad$\
POST /control/v1/metric?speeds=0000000000000000003 HTTP/1.1\r\nContent-Length: 22\r\n\r\n|bad$\
POST /control/v1/metric?speeds=3 HTTP/1.1\r\nContent-Length: 0000000000000000022\r\n\r\n|bad$\
POST /control/v1/metric?speeds=+3 HTTP/1.1\r\nContent-Length: 22\r\n\r\n|bad$\
POST /control/v1/metric?speeds= HTTP/1.1\r\nContent-Length: 22\r\n\r\n|bad$\
POST /control/v1/metric?speeds=3& HTTP/1.1\r\nContent-Length: 22\r\n\r\n|bad$\
POST /control/v1/metric?turns=3 HTTP/1.1\r\nContent-Length: 22\r\n\r\n|bad$\
POST /control/v1/metric HTTP/1.1\r\nContent-Length: 22\r\n\r\n|bad$\
POST /control/v1/metric?speeds=3 HTTP/1.1\r\nContent-Length: +22\r\n\r\n|bad$\
POST /control/v1/metric?speeds=3 HTTP/1.1\r\nContent-Length: 22, 22\r\n\r\n|bad$\
POST /control/v1/metric?speeds=3 HTTP/1.1\r\nContent-Length: 22\r\nContent-Length: 22\r\n\r\n|bad$\
POST /control/v1/metric?speeds=3 HTTP/1.1\r\nContent-Length: 22\r\nTransfer-Encoding: chunked\r\n\r\n|bad$\
GET /control/v1/metric?speeds=3 HTTP/1.1\r\nContent-Length: 22\r\n\r\n|bad$\
POST /control/v1/stop HTTP/1.1\r\n\r\n|stop$\
POST /control/v1/stop HTTP/1.1\r\nCONTENT-LENGTH: 00\r\n\r\n|stop$\
POST /control/v1/stop HTTP/1.1\r\nContent-Length: 1\r\n\r\n|bad$\
POST /control/v1/stop HTTP/1.1\r\nContent-Length:\r\n\r\n|bad$\
POST /control/v1/stop HTTP/1.1\r\nContent-Length: 0\r\nContent-Length: 0\r\n\r\n|bad$\
POST /control/v1/stop HTTP/1.1\r\nTransfer-Encoding:\r\n\r\n|bad$\
GET /control/v1/stop HTTP/1.1\r\n\r\n|bad$\
post /control/v1/stop HTTP/1.1\r\n\r\n|bad$\
POST /control/v1/stop? HTTP/1.1\r\n\r\n|bad$\
POST /control/v1/sto%70 HTTP/1.1\r\n\r\n|bad$\
POST /control/v2/stop HTTP/1.1\r\n\r\n|bad";

#[test]
fn heads_ask_for_a_metric_a_stop_or_nothing(rt: HostRuntime) -> Result<(), AllocError> {
    for row in HEADS.split('$') {
        let Some((head, want)) = row.split_once('|') else {
            panic!(rt; "a row of two");
        };
        let told = asked(rt.alloc(), head.as_bytes())?;
        assert_eq!(rt; told.as_str(), want, "{head:?}");
    }
    Ok(())
}

// What comes of a body, of which the first bytes are the speeds file, on a board opened under number 7, and the number
// of the last publication then.
fn controlled(
    rt: &(impl Threads + Sync),
    alloc: Global,
    roads: &Roads,
    speeds: usize,
    body: &[u8],
) -> Result<(Controlled, u32), AllocError>
    requires { speeds ≤ length body.now }
{
    let mut desk = board(rt, alloc, roads, 7)?;
    let request = ControlHead::Metric {
        speeds,
        length: body.len(),
    };
    let answer = control(rt, alloc, &mut *desk, roads, request, body)?;
    Ok((answer, last_number(&desk)?))
}

// A metric under its number, with how many rows matched nothing, or the first faulty row of a file.
fn told(alloc: Global, answer: Controlled, last: u32) -> Result<String, AllocError> {
    match answer {
        Controlled::Published { number, unmatched } => {
            format!(in alloc; "published {number} {unmatched}, {last}")
        }
        Controlled::Refused(RowFault { file, row, kind }) => {
            format!(in alloc; "refused {file:?} {row} {kind:?}, {last}")
        }
        _ => String::from_str(alloc, "something else"),
    }
}

// How many bytes the speeds file has, the two files, what comes of them, and the number of the last publication then. A
// bar stands between each two parts, and a dollar sign between each two rows.
const FILES: &str = "0||published 8 0, 8$\
22|1,2,20\n2,3,30\n3,2,abc\n|refused Speeds 3 BadNumber, 7$\
6|1,2,20|published 8 0, 8$\
6|1,9,20|published 8 1, 8$\
12|1,2,1000.001|refused Speeds 1 OutOfRange, 7$\
7|1,2,20\n1,2,3,4\n1,2|refused Turns 2 BadCount, 7$\
3|1,2,20\n|refused Speeds 1 BadCount, 7$\
0|1,2,3,10\n3,2,9,10|published 8 1, 8";

// Asserts what comes of the files of a case.
fn assert_controlled(
    rt: &(impl Threads + Abort + Sync),
    alloc: Global,
    roads: &Roads,
    speeds: &str,
    body: &[u8],
    want: &str,
) -> Result<(), AllocError> {
    let Ok(speeds) = speeds.parse::<usize>() else {
        panic!(rt; "a number");
    };
    assert!(rt; speeds <= body.len());
    let (answer, last) = controlled(rt, alloc, roads, speeds, body)?;
    assert_eq!(rt; told(alloc, answer, last)?.as_str(), want);
    Ok(())
}

#[test]
fn files_are_published_or_change_nothing(rt: HostRuntime) -> Result<(), AllocError> {
    let roads = roads(rt.alloc())?;
    for row in FILES.split('$') {
        let mut parts = row.split('|');
        match (parts.next(), parts.next(), parts.next()) {
            (Some(speeds), Some(body), Some(want)) => {
                assert_controlled(&rt, rt.alloc(), &roads, speeds, body.as_bytes(), want)?;
            }
            _ => panic!(rt; "a row of three"),
        }
    }
    Ok(())
}

// Asserts that an empty metric behind the last number is refused for that.
fn assert_spent(
    rt: &(impl Threads + Abort + Sync),
    alloc: Global,
    roads: &Roads,
) -> Result<(), AllocError> {
    let mut desk = board(rt, alloc, roads, 4294967295)?;
    let request = ControlHead::Metric {
        speeds: 0,
        length: 0,
    };
    let answer = control(rt, alloc, &mut *desk, roads, request, b"")?;
    assert_eq!(rt; answer, Controlled::Spent(4294967295));
    assert_eq!(rt; last_number(&desk)?, 4294967295);
    Ok(())
}

#[test]
fn behind_the_last_number_none_is_left(rt: HostRuntime) -> Result<(), AllocError> {
    let roads = roads(rt.alloc())?;
    assert_spent(&rt, rt.alloc(), &roads)
}

fn refused(file: TrafficFile, row: u64, kind: RowKind) -> Controlled {
    Controlled::Refused(RowFault { file, row, kind })
}

// Asserts the body and the status of the reply to what a request came to.
fn assert_reply(
    rt: &impl Abort,
    alloc: Global,
    answer: Controlled,
    text: &str,
    status: u32,
) -> Result<(), AllocError> {
    assert_eq!(rt; BodyRoom::new(alloc)?.body(&answer).as_str(), text);
    assert_eq!(rt; answer.status(), status);
    Ok(())
}

#[test]
fn replies_have_their_texts(rt: HostRuntime) -> Result<(), AllocError> {
    let alloc = rt.alloc();
    let published = Controlled::Published {
        number: 1,
        unmatched: 0,
    };
    let text = "{\"code\":\"Ok\",\"data_version\":\"1\",\"unmatched\":0}";
    assert_reply(&rt, alloc, published, text, 200)?;
    let fault = refused(TrafficFile::Speeds, 3, RowKind::BadNumber);
    let text = "{\"code\":\"Refused\",\"file\":\"speeds\",\"row\":3,\"kind\":\"BadNumber\"}";
    assert_reply(&rt, alloc, fault, text, 400)?;
    let fault = refused(
        TrafficFile::Turns,
        18446744073709551615,
        RowKind::OutOfRange,
    );
    let text =
        "{\"code\":\"Refused\",\"file\":\"turns\",\"row\":18446744073709551615,\"kind\":\"OutOfRange\"}";
    assert_reply(&rt, alloc, fault, text, 400)?;
    assert_reply(
        &rt,
        alloc,
        Controlled::BadRequest,
        "{\"code\":\"BadRequest\"}",
        400,
    )?;
    let text = "{\"code\":\"Spent\",\"data_version\":\"4294967295\"}";
    assert_reply(&rt, alloc, Controlled::Spent(4294967295), text, 400)?;
    let text = "{\"code\":\"Ok\",\"stopping\":true}";
    assert_reply(&rt, alloc, Controlled::Stopping, text, 200)?;
    let reply = ReplyRoom::new(alloc)?.reply(&Controlled::BadRequest, true);
    assert_eq!(rt;
        reply.as_slice(),
        b"HTTP/1.1 400 Bad Request\r\nContent-Type: application/json; charset=utf-8\r\nContent-Length: 21\r\nConnection: close\r\n\r\n{\"code\":\"BadRequest\"}".as_slice()
    );
    Ok(())
}
