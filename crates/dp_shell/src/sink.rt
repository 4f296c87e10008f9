ghost use Rattle.std.specs.Prelude.{◌<◌, List, ℕ, Option, length, IfOk};
ghost use Rattle.std.specs.Io.{WritesAtMost};
ghost use Rattle.std.specs.Io.KnownBytes.{WriteAppends};
ghost use Rattle.dp_shell.specs.Faults.{HasWriteCause};

/// Why a sink took nothing of a piece.
#[derive(Clone, Copy, Debug, PartialEq, Eq)]
pub enum Trouble {
    /// The write failed, and the sink's number of faults rose.
    Failed,
    /// Memory was wanted.
    Memory,
}

/// Takes bytes.
pub trait Sink {
    /// The bytes taken, where they are told.
    ghost taken: { Self → Option (List ℕ) };

    /// How often a write has failed.
    ghost faults: { Self → ℕ };

    /// Takes a prefix of the piece, and answers its length: at least one byte of a piece that has
    /// any. After either trouble nothing of the piece was taken.
    fn write(&mut self, piece: &[u8]) -> Result<usize, Trouble>
        ensures bound { WritesAtMost result piece.now }
        ensures some { 0 < length piece.now → IfOk result (λ n. 0 < n) }
        ensures taken { WriteAppends (taken self.old) (taken self.new) result piece.now }
        ensures cause { HasWriteCause (faults self.old) (faults self.new) result };
}
