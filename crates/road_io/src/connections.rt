//! Connections.

ghost use Rattle.std.specs.Prelude.{◌≡◌};
ghost use Rattle.road_io.specs.Exchanging.{Puts, TakesInto};
ghost use Rattle.road_io.specs.Sides.{source_side, sink_side};
ghost use Rattle.road_io.specs.Views.{ConnState};

use crate::byte_sinks::{Sink, put_all};
use crate::byte_sources::Source;
use crate::failures::Failed;

/// A connection: one object that is a source and a sink. Each half's calls leave the other half as it
/// was, and the opening stays with the connection to its end.
pub trait Conn: Source + Sink {
    /// What the connection tells: itself as a source and as a sink, and what stood when it was given.
    ghost state: { Self → ConnState };

    /// As a source it tells what it tells as a connection.
    ghost is_source: { (c : Self) → (state c).source ≡ Self.Source.view c };

    /// And so as a sink.
    ghost is_sink: { (c : Self) → (state c).sink ≡ Self.Sink.view c };

    /// So a `take` keeps all that the connection is as a sink.
    ghost take_keeps: { (c : Self) → Self.Source.beside c ≡ sink_side (state c) };

    /// And a `put` keeps all that it is as a source.
    ghost put_keeps: { (c : Self) → Self.Sink.beside c ≡ source_side (state c) };
}

/// Takes the next bytes of a connection into the front of `into`, as `take` does. As a sink the
/// connection stays as it was. May wait.
pub fn take_into<C: Conn>(conn: &mut C, into: &mut [u8]) -> Result<usize, Failed>
    ensures { TakesInto (C.state conn.old) (C.state conn.new) into.new result }
{
    conn.take(into)
}

/// Puts all of these bytes, or a proper front of them where the output failed. As a source the connection
/// stays as it was. May wait.
pub fn put_whole<C: Conn>(conn: &mut C, bytes: &[u8]) -> Result<(), Failed>
    ensures { Puts (C.state conn.old) (C.state conn.new) bytes.now result }
{
    put_all(conn, bytes)
}
