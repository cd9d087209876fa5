//! The answer to bytes that are no request.

ghost use Rattle.http_session.specs.Ending.{Refuses};

use crate::ended::Ended;
use http_head::head_bad_reply;
use road_io::{Conn, put_whole};

/// Puts `HEAD_BAD`, which closes the connection. It answers `HeadBad`, or `SinkFault` where the count of the
/// output's faults rose and a proper front of it was put. As a source the connection stays as it was. May wait.
pub fn refuse<C: Conn>(conn: &mut C) -> Ended
    ensures { Refuses (C.state conn.old) (C.state conn.new) result }
{
    match put_whole(conn, head_bad_reply()) {
        Ok(()) => Ended::HeadBad,
        Err(_) => Ended::SinkFault,
    }
}
