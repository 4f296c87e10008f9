ghost use Rattle.std.specs.Prelude.{◌≡◌, ◌↔◌, ◌<◌, [], Some, length, Contains, IfOk, IsErrOf};
ghost use Rattle.std.specs.Io.{WritesAtMost};
ghost use Rattle.std.specs.Io.KnownBytes.{WriteAppends};
ghost use Rattle.dp_shell.specs.Calls.{next_call};
ghost use Rattle.dp_shell.specs.Faults.{HasWriteCause};

use crate::{Sink, Trouble};
use std::alloc::Global;

/// Bytes in memory. A write fails exactly at the calls whose numbers were given. Calls are counted
/// from 1, and their number stays at 2^64 - 1 once it is there.
#[derive(Drop)]
pub struct MemorySink {
    bytes: Vec<u8>,
    failing: Vec<u64>,
    calls: u64,
    failures: u64,
}

impl MemorySink {
    ghost use Rattle.dp_shell.specs.MemorySink.{bytes_in, failing_calls, last_call};

    /// A sink that holds no bytes yet and fails at the calls of these numbers. It takes no memory.
    pub fn new(alloc: Global, failing: Vec<u64>) -> Self
        ensures taken { ⟦<MemorySink as Sink>⟧.taken result ≡ Some [] }
        ensures faults { ⟦<MemorySink as Sink>⟧.faults result ≡ 0 }
        ensures failing { failing_calls result ≡ failing.items }
        ensures calls { last_call result ≡ 0 }
    {
        MemorySink {
            bytes: Vec::new(alloc),
            failing,
            calls: 0,
            failures: 0,
        }
    }

    /// The bytes taken.
    pub fn bytes(&self) -> &[u8]
        ensures { Some result.now ≡ ⟦<MemorySink as Sink>⟧.taken self.now }
    {
        &self.bytes
    }
}

impl Sink for MemorySink {
    ghost use Rattle.dp_shell.specs.MemorySink.{bytes_in, faults_of, failing_calls, last_call};

    ghost taken = { λ s. Some (bytes_in s) };

    ghost faults = { faults_of };

    fn write(&mut self, piece: &[u8]) -> Result<usize, Trouble>
        ensures bound { WritesAtMost result piece.now }
        ensures some { 0 < length piece.now → IfOk result (λ n. 0 < n) }
        ensures taken { WriteAppends (Some (bytes_in self.old))
            (Some (bytes_in self.new)) result piece.now }
        ensures cause { HasWriteCause (faults_of self.old) (faults_of self.new) result }

        // It fails exactly at the calls of these numbers, and counts no other.
        ensures failing { IsErrOf result Trouble.Failed ↔ Contains (failing_calls self.old)
            (next_call (last_call self.old)) }
        ensures unfailed { (IsErrOf result Trouble.Failed → ⊥) → faults_of self.new
            ≡ faults_of self.old }
        ensures calls { last_call self.new ≡ next_call (last_call self.old) }
        ensures same { failing_calls self.new ≡ failing_calls self.old }
    {
        self.calls = self.calls.saturating_add(1);
        if self.failing.contains(&self.calls) {
            self.failures = self.failures.saturating_add(1);
            return Err(Trouble::Failed);
        }
        match self.bytes.extend_from_slice(piece) {
            Ok(()) => Ok(piece.len()),
            Err(_) => Err(Trouble::Memory),
        }
    }
}
