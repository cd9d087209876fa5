//! Where bytes go.

ghost use Rattle.std.specs.Prelude.{◌≡◌, ℕ, ◌<◌, ◌≤◌, IfOk, OnOk, OnErr, length};
ghost use Rattle.std.specs.Io.KnownBytes.{WriteAppends, Appends};
ghost use Rattle.road_io.specs.Faults.{HasCause};
ghost use Rattle.road_io.specs.Sides.{SourceSide};
ghost use Rattle.road_io.specs.Told.{AppendsFront};
ghost use Rattle.road_io.specs.Views.{OutputView};

use crate::failures::Failed;

/// A sink of bytes, as a standard output or one half of a connection.
pub trait Sink {
    /// What the sink tells: the bytes that were put, and how many faults it has counted.
    ghost view: { Self → OutputView };

    /// What the same object is as a source, where it is a connection.
    ghost beside: { Self → SourceSide };

    /// Puts the first of these bytes behind those that were put, and answers how many: at least one,
    /// where there are any. Failed where the count of faults rose; then nothing was put. May wait.
    fn put(&mut self, bytes: &[u8]) -> Result<usize, Failed>
        ensures bound { IfOk result (λ n. n ≤ length bytes.now) }
        ensures some { IfOk result (λ n. 0 < length bytes.now → 0 < n) }
        ensures bytes { WriteAppends (view self.old).written (view self.new).written result bytes.now }
        ensures cause { HasCause (view self.old).faults (view self.new).faults result }
        ensures beside { beside self.new ≡ beside self.old };
}

/// Puts all of these bytes, in as many calls of `put` as it takes. Failed where the count of faults
/// rose; then a front of the bytes was put, and never all of them.
pub fn put_all<O: Sink>(sink: &mut O, bytes: &[u8]) -> Result<(), Failed>
    ensures all { OnOk result (Appends (O.view sink.old).written (O.view sink.new).written bytes.now) }
    ensures part { OnErr result (AppendsFront (O.view sink.old).written (O.view sink.new).written bytes.now) }
    ensures cause { HasCause (O.view sink.old).faults (O.view sink.new).faults result }
    ensures beside { O.beside sink.new ≡ O.beside sink.old }
{
    let mut rest = bytes;
    while !rest.is_empty() {
        let count = sink.put(rest)?;
        rest = &rest[count..];
    }
    Ok(())
}
