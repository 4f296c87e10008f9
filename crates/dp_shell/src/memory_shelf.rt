ghost use Rattle.std.specs.Prelude.{◌≡◌, ◌-◌, ◌^◌, ◌<◌, ◌≤◌, ◌↔◌, ◌⊎◌, ℕ, List, Some, Contains, IfOk, IfSome, IsErr, IsNone, IsOk, length};
ghost use Rattle.std.specs.Io.{ReadsAtMost};
ghost use Rattle.dp_shell.specs.Calls.{next_call};
ghost use Rattle.dp_shell.specs.Faults.{HasCause, NoneFalls, OthersStay};
ghost use Rattle.dp_shell.specs.MemoryFiles.{FitsShelf, files_of, names_of};
ghost use Rattle.dp_shell.specs.Names.{counted, is_among, place_of};
ghost use Rattle.dp_shell.specs.Texts.{ReadsPart, count_given, is_named, text_named};

use crate::memory_files::{copy_part, find, place};
use crate::{Failed, Shelf};

/// Files in memory. A read fails exactly at the calls whose numbers were given, and for a name that
/// is missing. Calls are counted from 1, and their number stays at 2^64 - 1 once it is there. A
/// call copies all bytes that are left and fit, but a step at most.
#[derive(Drop)]
pub struct MemoryShelf {
    files: Vec<(String, Vec<u8>)>,
    failing: Vec<u64>,
    calls: u64,
    /// The most bytes that a call copies.
    step: usize,
    /// One number for each file, by its place, and behind them one for all other names.
    counts: [u64; 9],
    ghost few: { length files.items ≤ 8 },
    ghost some: { 0 < step },
}

impl MemoryShelf {
    ghost use Rattle.dp_shell.specs.MemoryShelf.{failing_calls, last_call, step_of};

    /// A shelf of these files, whose names it counts apart, that fails at the calls of these
    /// numbers. No read has failed yet.
    pub fn new(files: Vec<(String, Vec<u8>)>, failing: Vec<u64>) -> Self
        requires { FitsShelf files.items }
        ensures files { ⟦<MemoryShelf as Shelf>⟧.files result ≡ Some (files_of files.items) }
        ensures apart { ⟦<MemoryShelf as Shelf>⟧.apart result ≡ is_named (files_of files.items) }
        ensures faults { (name : List ℕ) → ⟦<MemoryShelf as Shelf>⟧.faults result name ≡ 0 }
        ensures failing { failing_calls result ≡ failing.items }
        ensures calls { last_call result ≡ 0 }
        ensures step { step_of result ≡ 2 ^ 64 - 1 }
    {
        MemoryShelf::in_steps(files, failing, usize::MAX)
    }

    /// Such a shelf of which a call copies at most `step` bytes.
    pub fn in_steps(files: Vec<(String, Vec<u8>)>, failing: Vec<u64>, step: usize) -> Self
        requires fits { FitsShelf files.items }
        requires some { 0 < step }
        ensures files { ⟦<MemoryShelf as Shelf>⟧.files result ≡ Some (files_of files.items) }
        ensures apart { ⟦<MemoryShelf as Shelf>⟧.apart result ≡ is_named (files_of files.items) }
        ensures faults { (name : List ℕ) → ⟦<MemoryShelf as Shelf>⟧.faults result name ≡ 0 }
        ensures failing { failing_calls result ≡ failing.items }
        ensures calls { last_call result ≡ 0 }
        ensures step { step_of result ≡ step }
    {
        MemoryShelf {
            files,
            failing,
            calls: 0,
            step,
            counts: [0; 9],
        }
    }
}

impl Shelf for MemoryShelf {
    ghost use Rattle.dp_shell.specs.MemoryShelf.{files_on, failing_calls, faults_of, last_call, step_of};

    ghost files = { λ s. Some (files_on s) };

    ghost apart = { λ s. is_named (files_on s) };

    ghost faults = { faults_of };

    fn read(&mut self, name: &str, from: u64, into: &mut [u8]) -> Result<usize, Failed>
        ensures bound { ReadsAtMost result into.new }
        ensures part { ReadsPart (Some (files_on self.old)) name.now from result into.new }
        ensures files { Some (files_on self.new) ≡ Some (files_on self.old) }
        ensures apart { is_named (files_on self.new) ≡ is_named (files_on self.old) }
        ensures cause { HasCause (faults_of self.old name.now)
            (faults_of self.new name.now) result }
        ensures others { OthersStay (is_named (files_on self.old)) name.now (faults_of self.old)
            (faults_of self.new) }
        ensures none_falls { NoneFalls (faults_of self.old) (faults_of self.new) }

        // It fails exactly at the calls of these numbers and for a name that is missing, and counts
        // no other call.
        ensures failing { IsErr result ↔
            (Contains (failing_calls self.old) (next_call (last_call self.old))
            ⊎ IsNone (text_named (files_on self.old) name.now)) }
        ensures unfailed { IsOk result → faults_of self.new ≡ faults_of self.old }
        ensures calls { last_call self.new ≡ next_call (last_call self.old) }
        ensures same { failing_calls self.new ≡ failing_calls self.old }

        // It copies all that it can, up to a step.
        ensures count { IfOk result (λ n. IfSome (text_named (files_on self.old) name.now) (λ text.
            n ≡ count_given (step_of self.old) text from (length into.new))) }
        ensures step { step_of self.new ≡ step_of self.old }
    {
        self.calls = self.calls.saturating_add(1);
        let at = place(&self.files, name);
        if self.failing.contains(&self.calls) {
            self.counts[at] = self.counts[at].saturating_add(1);
            return Err(Failed);
        }
        if let Some(text) = find(&self.files, name) {
            return Ok(copy_part(text, from, self.step, into));
        }
        self.counts[at] = self.counts[at].saturating_add(1);
        Err(Failed)
    }

    ghost use Rattle.dp_shell.specs.Shared.{files-shared};

    ghost shared = { λ s. files-shared s.counts s.files.items };
}
