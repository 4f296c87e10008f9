ghost use Rattle.std.specs.Prelude.{◌≡◌, ◌<◌, [], Some, length, IfOk, IsErrOf};
ghost use Rattle.std.specs.Io.{WritesAtMost};
ghost use Rattle.std.specs.Io.KnownBytes.{WriteAppends};

use crate::{Sink, Trouble};
use std::alloc::Global;

/// Bytes in memory. A write never fails, but for want of memory.
#[derive(Drop)]
pub struct PlainSink {
    bytes: Vec<u8>,
}

impl PlainSink {
    /// A sink that holds no bytes yet. It takes no memory.
    pub fn new(alloc: Global) -> Self
        ensures taken { ⟦<PlainSink as Sink>⟧.taken result ≡ Some [] }
        ensures faults { ⟦<PlainSink as Sink>⟧.faults result ≡ 0 }
    {
        PlainSink {
            bytes: Vec::new(alloc),
        }
    }

    /// The bytes taken.
    pub fn bytes(&self) -> &[u8]
        ensures { Some result.now ≡ ⟦<PlainSink as Sink>⟧.taken self.now }
    {
        &self.bytes
    }
}

impl Sink for PlainSink {
    ghost use Rattle.dp_shell.specs.PlainSink.{bytes_in};

    ghost taken = { λ s. Some (bytes_in s) };

    ghost faults = { λ s. 0 };

    fn write(&mut self, piece: &[u8]) -> Result<usize, Trouble>
        ensures bound { WritesAtMost result piece.now }
        ensures some { 0 < length piece.now → IfOk result (λ n. 0 < n) }
        ensures taken { WriteAppends (Some (bytes_in self.old))
            (Some (bytes_in self.new)) result piece.now }

        // It never fails.
        ensures never { IsErrOf result Trouble.Failed → ⊥ }
    {
        match self.bytes.extend_from_slice(piece) {
            Ok(()) => Ok(piece.len()),
            Err(_) => Err(Trouble::Memory),
        }
    }
}
