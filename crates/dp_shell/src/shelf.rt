ghost use Rattle.std.specs.Prelude.{◌≡◌, Bool, List, ℕ, Option, IsFalse};
ghost use Rattle.std.specs.Io.{ReadsAtMost};
ghost use Rattle.dp_shell.specs.Faults.{HasCause, NoneFalls, OthersStay};
ghost use Rattle.dp_shell.specs.Texts.{Files, ReadsPart};

/// A read failed, and its name's number of faults rose.
#[derive(Clone, Copy, Debug, PartialEq, Eq)]
pub struct Failed;

/// Texts by their names.
pub trait Shelf {
    /// The names and their texts, where they are told.
    ghost files: { Self → Option Files };

    /// Whether a name has a number of faults of its own.
    ghost apart: { Self → List ℕ → Bool };

    /// How often reads of a name have failed.
    ghost faults: { Self → List ℕ → ℕ };

    /// Copies bytes of the named text from offset `from` on to the front of `into`, and answers how
    /// many.
    ///
    /// Where the texts are told, 0 for a non-empty `into` means that `from` is at or past the end,
    /// and a name that isn't there is a failure. What `into` holds past the copied bytes, and after
    /// a failure, is left open.
    fn read(&mut self, name: &str, from: u64, into: &mut [u8]) -> Result<usize, Failed>
        ensures bound { ReadsAtMost result into.new }
        ensures part { ReadsPart (files self.old) name.now from result into.new }

        // Texts and names stay, no number falls, and each other name that has its own keeps it.
        ensures files { files self.new ≡ files self.old }
        ensures apart { apart self.new ≡ apart self.old }
        ensures cause { HasCause (faults self.old name.now) (faults self.new name.now) result }
        ensures others { OthersStay (apart self.old) name.now (faults self.old) (faults self.new) }
        ensures none_falls { NoneFalls (faults self.old) (faults self.new) };

    /// All names that have no number of their own share one.
    ghost shared: { (s : Self) (a b : List ℕ) → IsFalse (apart s a) → IsFalse (apart s b)
        → faults s a ≡ faults s b };
}
