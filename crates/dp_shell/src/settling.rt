//! What a call of the system outside comes to: both adapters go by it.
ghost use Rattle.std.specs.Prelude.{◌≡◌, ◌≢◌, IfErr};
ghost use Rattle.std.specs.Io.{ReadsAtMost, WritesAtMost};
ghost use Rattle.std.specs.Io.KnownBytes.{ReadConsumes, WriteAppends};
ghost use Rattle.std.specs.IoError.{error_kind};
ghost use Rattle.dp_shell.specs.{next_call, settled};

use std::io;
use std::io::{ErrorKind, Read, Write};

/// Reads once. A call that a signal interrupted is tried again.
pub(crate) fn read_once<R: Read>(file: &mut R, into: &mut [u8]) -> io::Result<usize>
    ensures bound { ReadsAtMost result into.new }
    ensures bytes { ReadConsumes (R.remaining file.old) (R.remaining file.new) result into.new }
    ensures retried { IfErr result (λ e. error_kind e ≢ ErrorKind.Interrupted) }
{
    for _ in 0..u64::MAX {
        match file.read(into) {
            Err(e) if e.kind() == ErrorKind::Interrupted => {}
            given => return given,
        }
    }
    Err(io::Error::from(ErrorKind::TimedOut))
}

/// Writes once. A call that a signal interrupted is tried again.
pub(crate) fn write_once<W: Write>(out: &mut W, piece: &[u8]) -> io::Result<usize>
    ensures bound { WritesAtMost result piece.now }
    ensures bytes { WriteAppends (W.contents out.old) (W.contents out.new) result piece.now }
    ensures retried { IfErr result (λ e. error_kind e ≢ ErrorKind.Interrupted) }
{
    for _ in 0..u64::MAX {
        match out.write(piece) {
            Err(e) if e.kind() == ErrorKind::Interrupted => {}
            given => return given,
        }
    }
    Err(io::Error::from(ErrorKind::TimedOut))
}

/// The count that a call of the system gave; none where it failed, or gave nothing where some was
/// due.
pub(crate) fn settle(given: io::Result<usize>, is_due: bool) -> Option<usize>
    ensures { result ≡ settled given is_due }
{
    match given {
        Ok(count) if count > 0 || !is_due => Some(count),
        _ => None,
    }
}

/// One fault more.
pub(crate) fn one_more(faults: u64) -> u64
    ensures { result ≡ next_call faults }
{
    faults.saturating_add(1)
}
