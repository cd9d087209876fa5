//! Reads and writes of std that are tried again where a signal interrupts them, and there alone: one that has
//! waited for as long as it may fails.

ghost use Rattle.std.specs.Prelude.{◌≡◌, ◌≢◌, IfErr};
ghost use Rattle.std.specs.Io.{ReadsAtMost, WritesAtMost};
ghost use Rattle.std.specs.Io.KnownBytes.{ReadConsumes, WriteAppends};
ghost use Rattle.std.specs.IoError.{error_kind};

use std::io;
use std::io::{ErrorKind, Read, Write};

/// One read, tried again where a signal interrupts it.
pub fn read_retrying<R: Read>(reader: &mut R, into: &mut [u8]) -> io::Result<usize>
    ensures bound { ReadsAtMost result into.new }
    ensures bytes { ReadConsumes (R.remaining reader.old) (R.remaining reader.new) result into.new }
    ensures retried { IfErr result (λ e. error_kind e ≢ ErrorKind.Interrupted) }
{
    for _ in 0..u64::MAX {
        match reader.read(into) {
            Err(error) if error.kind() == ErrorKind::Interrupted => (),
            answer => return answer,
        }
    }
    Err(io::Error::from(ErrorKind::TimedOut))
}

/// One write, tried again where a signal interrupts it.
pub fn write_retrying<W: Write>(writer: &mut W, bytes: &[u8]) -> io::Result<usize>
    ensures bound { WritesAtMost result bytes.now }
    ensures bytes { WriteAppends (W.contents writer.old) (W.contents writer.new) result bytes.now }
    ensures retried { IfErr result (λ e. error_kind e ≢ ErrorKind.Interrupted) }
{
    for _ in 0..u64::MAX {
        match writer.write(bytes) {
            Err(error) if error.kind() == ErrorKind::Interrupted => (),
            answer => return answer,
        }
    }
    Err(io::Error::from(ErrorKind::TimedOut))
}
