ghost use Rattle.std.specs.Prelude.{◌≡◌, ◌<◌, ◌≤◌, None, length, take, IfOk, IfSome, IsErrOf, IsOk};
ghost use Rattle.std.specs.Io.{WritesAtMost};
ghost use Rattle.std.specs.Io.KnownBytes.{Appends, WriteAppends};
ghost use Rattle.dp_shell.specs.Faults.{HasWriteCause};

use crate::settling::{one_more, settle, write_once};
use crate::{Sink, Trouble};
use std::io;
use std::io::Write;

/// Standard output. It tells nothing of what was taken, and never answers want of memory.
#[derive(Drop)]
pub struct StdSink<'a, R: Print> {
    rt: &'a R,
    faults: u64,
}

impl<'a, R: Print> StdSink<'a, R> {
    /// A sink over standard output. No write has failed yet.
    pub fn new(rt: &'a R) -> Self
        ensures taken { ⟦<StdSink<'a, R> as Sink>⟧.taken result ≡ None }
        ensures faults { ⟦<StdSink<'a, R> as Sink>⟧.faults result ≡ 0 }
    {
        StdSink { rt, faults: 0 }
    }

    /// How many writes have failed, up to 2^64 - 1.
    pub fn failures(&self) -> u64
        ensures { result ≡ ⟦<StdSink<'a, R> as Sink>⟧.faults self.now }
    {
        self.faults
    }
}

impl<R: Print> Sink for StdSink<'_, R> {
    ghost use Rattle.dp_shell.specs.StdSink.{faults_of};

    ghost taken = { λ s. None };

    ghost faults = { faults_of };

    fn write(&mut self, piece: &[u8]) -> Result<usize, Trouble>
        ensures bound { WritesAtMost result piece.now }
        ensures some { 0 < length piece.now → IfOk result (λ n. 0 < n) }
        ensures taken { WriteAppends None None result piece.now }
        ensures cause { HasWriteCause (faults_of self.old) (faults_of self.new) result }

        // It never wants memory, and counts no other call.
        ensures never { IsErrOf result Trouble.Memory → ⊥ }
        ensures unfailed { IsOk result → faults_of self.new ≡ faults_of self.old }
    {
        match put(&mut io::writer(self.rt), piece) {
            Some(count) => Ok(count),
            None => {
                self.faults = one_more(self.faults);
                Err(Trouble::Failed)
            }
        }
    }
}

/// Writes a piece once, and answers how many of its bytes the writer took; none where the write
/// failed, or took nothing of a piece that has any.
fn put<W: Write>(out: &mut W, piece: &[u8]) -> Option<usize>
    ensures bound { IfSome result (λ n. n ≤ length piece.now) }
    ensures some { 0 < length piece.now → IfSome result (λ n. 0 < n) }

    // The writer took just these bytes of it.
    ensures bytes { IfSome result (λ n. Appends (W.contents out.old) (W.contents out.new)
        (take n piece.now)) }
{
    let given = write_once(out, piece);
    settle(given, !piece.is_empty())
}
