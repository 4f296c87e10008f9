ghost use Rattle.std.specs.Prelude.{◌≡◌, ◌≤◌, ◌↔◌, ℕ, List, Some, IsErr, IsNone, IsOk, IsTrue, length, if◌then◌else◌};
ghost use Rattle.std.specs.Io.{ReadsAtMost};
ghost use Rattle.dp_shell.specs.Faults.{HasCause, NoneFalls, OthersStay};
ghost use Rattle.dp_shell.specs.MemoryFiles.{FitsShelf, files_of};
ghost use Rattle.dp_shell.specs.Texts.{ReadsPart, is_named, text_named};

use crate::memory_files::{copy_part, find};
use crate::{Failed, Shelf};

/// Files in memory. A read fails only for a name that is missing.
#[derive(Drop)]
pub struct PlainShelf {
    files: Vec<(String, Vec<u8>)>,
    missing: u64,
}

impl PlainShelf {
    /// A shelf of these files, whose names it counts apart. No read has failed yet.
    pub fn new(files: Vec<(String, Vec<u8>)>) -> Self
        requires { FitsShelf files.items }
        ensures files { ⟦<PlainShelf as Shelf>⟧.files result ≡ Some (files_of files.items) }
        ensures apart { ⟦<PlainShelf as Shelf>⟧.apart result ≡ is_named (files_of files.items) }
        ensures faults { (name : List ℕ) → ⟦<PlainShelf as Shelf>⟧.faults result name ≡ 0 }
    {
        PlainShelf { files, missing: 0 }
    }
}

impl Shelf for PlainShelf {
    ghost use Rattle.dp_shell.specs.PlainShelf.{files_on, faults_of};

    ghost files = { λ s. Some (files_on s) };

    ghost apart = { λ s. is_named (files_on s) };

    ghost faults = { faults_of };

    fn read(&mut self, name: &str, from: u64, into: &mut [u8]) -> Result<usize, Failed>
        ensures bound { ReadsAtMost result into.new }
        ensures part { ReadsPart (Some (files_on self.old)) name.now from result into.new }
        ensures files { Some (files_on self.new) ≡ Some (files_on self.old) }
        ensures apart { is_named (files_on self.new) ≡ is_named (files_on self.old) }
        ensures cause { HasCause (faults_of self.old name.now)
            (faults_of self.new name.now) result }
        ensures others { OthersStay (is_named (files_on self.old)) name.now (faults_of self.old)
            (faults_of self.new) }
        ensures none_falls { NoneFalls (faults_of self.old) (faults_of self.new) }

        // It fails exactly for a name that is missing.
        ensures missing { IsErr result ↔ IsNone (text_named (files_on self.old) name.now) }

        // It counts no good read.
        ensures unfailed { IsOk result → self.new.missing ≡ self.old.missing }
    {
        match find(&self.files, name) {
            Some(text) => Ok(copy_part(text, from, usize::MAX, into)),
            None => {
                self.missing = self.missing.saturating_add(1);
                Err(Failed)
            }
        }
    }

    ghost use Rattle.dp_shell.specs.Shared.{missing-shared};

    ghost shared = { λ s a b. missing-shared (is_named (files_on s) a)
        (is_named (files_on s) b) s.missing };
}
