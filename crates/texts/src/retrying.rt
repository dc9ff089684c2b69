//! Writes that a signal may interrupt.
ghost use Rattle.std.specs.Prelude.{◌≢◌, IfErr};
ghost use Rattle.std.specs.Io.{WritesAtMost};
ghost use Rattle.std.specs.Io.KnownBytes.{WriteAppends};
ghost use Rattle.std.specs.IoError.{error_kind};

use std::io::{self, ErrorKind, Write};

/// Writes some of the bytes. A write that a signal interrupts is tried again, as std's `write_all` does.
pub(crate) fn write_some<W: Write>(writer: &mut W, bytes: &[u8]) -> io::Result<usize>
    ensures bound { WritesAtMost result bytes.now }
    ensures bytes { WriteAppends (W.contents writer.old) (W.contents writer.new) result bytes.now }
    ensures tried_again { IfErr result (λ e. error_kind e ≢ ErrorKind.Interrupted) }
{
    for _ in 0..u64::MAX {
        match writer.write(bytes) {
            Ok(taken) => return Ok(taken),
            Err(error) if error.kind() == ErrorKind::Interrupted => {}
            Err(error) => return Err(error),
        }
    }
    Err(io::Error::other("a write was interrupted too often"))
}
