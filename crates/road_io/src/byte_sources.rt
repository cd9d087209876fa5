//! Where bytes come from.

ghost use Rattle.std.specs.Prelude.{◌≡◌, ℕ, ◌≤◌, IfOk, length};
ghost use Rattle.std.specs.Io.KnownBytes.{ReadConsumes};
ghost use Rattle.road_io.specs.Faults.{HasCause};
ghost use Rattle.road_io.specs.Sides.{SinkSide};
ghost use Rattle.road_io.specs.Told.{CountsTaken};
ghost use Rattle.road_io.specs.Views.{InputView};

use crate::failures::Failed;

/// A source of bytes, as a standard input or one half of a connection.
pub trait Source {
    /// What the source tells: the bytes that are left to take, how many were taken, and how many faults
    /// it has counted.
    ghost view: { Self → InputView };

    /// What the same object is as a sink, where it is a connection.
    ghost beside: { Self → SinkSide };

    /// Takes the next bytes into the front of `into`, and answers how many: none into a slice with room
    /// is the end of the input. Failed where the count of faults rose; then nothing was taken. May wait.
    fn take(&mut self, into: &mut [u8]) -> Result<usize, Failed>
        ensures bound { IfOk result (λ n. n ≤ length into.new) }
        ensures bytes { ReadConsumes (view self.old).left (view self.new).left result into.new }
        ensures count { CountsTaken (view self.old).taken (view self.new).taken result }
        ensures cause { HasCause (view self.old).faults (view self.new).faults result }
        ensures beside { beside self.new ≡ beside self.old };
}
