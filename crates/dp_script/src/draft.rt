ghost use Rattle.dp_script.specs.declared.fault.ScriptFault.TheVariants.{Memory};
ghost use Rattle.std.specs.Prelude.{◌≡◌, ◌≢◌, ◌<◌, ◌≤◌, ◌+◌, ◌++◌, ◌^◌, [], ◌∷◌, ℕ, List, IfErr, IfOk, IfSome, OnOk, Some};
ghost use Rattle.std.specs.Result.{result_err};
ghost use Rattle.dp_script.specs.Drafts.{IsDraftOf, IsPassed};
ghost use Rattle.dp_script.specs.Instructions.{IsGiven};
ghost use Rattle.dp_script.specs.TimedActs.{timed_acts_by, timed_acts_of};
ghost use Rattle.dp_script.specs.Faults as Faults;
ghost use Rattle.dp_script.specs.Faults.{fault_of, first_fault, said_by};

use crate::instruction::{Instruction, instruction_read};
use crate::script::Script;
use crate::{ScriptFault, ScriptKind};
use std::alloc::{AllocError, Global};

/// The most lines that aren't skipped.
const MOST: u64 = 1 << 16;

/// The script of the lines so far, and what the next line is judged by.
#[derive(Drop)]
pub struct Draft {
    script: Script,
    /// How many lines there were.
    number: u64,
    /// How many of them weren't skipped.
    count: u64,
    /// The cycle of the last of these, or 0.
    last: u64,
}

impl Draft {
    /// A draft of no lines.
    #[tactic(auto, unfolding(crate::specs::Faults::first_fault))]
    pub fn new(alloc: Global) -> Draft
        ensures heard { IsDraftOf result [] }
        ensures passed { IsPassed result }
        ensures script { result.script ≡ [] }
    {
        Draft {
            script: Script::new(alloc),
            number: 0,
            count: 0,
            last: 0,
        }
    }

    /// Hears a line: enters what it says, or names its fault.
    pub fn hear(&mut self, line: &[u8]) -> Result<(), ScriptFault>
        requires passed { IsPassed self.old }
        requires room { self.old.number < 2 ^ 63 }
        ensures passed { OnOk result (IsPassed self.new) }
        ensures number { OnOk result (self.new.number ≡ self.old.number + 1) }
        ensures script { OnOk result
            (self.new.script ≡ self.old.script ++ timed_acts_by (line.now ∷ [])) }
        ensures heard { OnOk result
            ((before : List (List ℕ)) → IsDraftOf self.old before
            → IsDraftOf self.new (line.now ∷ before)) }
        ensures fault { IfErr result (λ fault. fault ≢ Memory → (before : List (List ℕ))
            → IsDraftOf self.old before → first_fault (line.now ∷ before) ≡ Some fault) }
    {
        match self.judge(line) {
            Ok(None) => {
                self.number += 1;
                Ok(())
            }
            Ok(Some(instruction)) => {
                self.enter(instruction)?;
                Ok(())
            }
            Err(kind) => Err(ScriptFault::Line {
                line: self.number + 1,
                kind,
            }),
        }
    }

    /// What a line says after those before it; nothing where it is skipped.
    #[tactic(auto, unfolding(crate::specs::Faults::said_by, crate::specs::Faults::fault_of))]
    fn judge(&self, line: &[u8]) -> Result<Option<Instruction>, ScriptKind>
        ensures said { IfOk result (λ said. said_by line.now ≡ said) }
        ensures fault { (before : List (List ℕ)) → IsDraftOf self.now before
            → fault_of before line.now ≡ result_err result }
        ensures order { IfOk result (λ said. IfSome said (λ instruction. self.now.last ≤ instruction.cycle)) }
        ensures few { IfOk result (λ said. IfSome said (λ instruction. self.now.count < 2 ^ 16)) }
        ensures within { IfOk result (λ said. IfSome said (λ instruction. IsGiven instruction.acts)) }
    {
        if is_skipped(line) {
            return Ok(None);
        }
        let instruction = instruction_read(line)?;
        if self.count >= MOST {
            return Err(ScriptKind::Range);
        }
        if instruction.cycle < self.last {
            return Err(ScriptKind::Order);
        }
        Ok(Some(instruction))
    }

    /// Counts a line, and enters what it says.
    fn enter(&mut self, instruction: Instruction) -> Result<(), AllocError>
        requires passed { IsPassed self.old }
        requires order { self.old.last ≤ instruction.cycle }
        requires few { self.old.count < 2 ^ 16 }
        requires room { self.old.number < 2 ^ 63 }
        requires within { IsGiven instruction.acts }
        ensures passed { OnOk result (IsPassed self.new) }
        ensures script { OnOk result (self.new.script ≡ self.old.script ++ timed_acts_of instruction) }
        ensures number { OnOk result (self.new.number ≡ self.old.number + 1) }
        ensures count { OnOk result (self.new.count ≡ self.old.count + 1) }
        ensures last { OnOk result (self.new.last ≡ instruction.cycle) }
    {
        let cycle = instruction.cycle;
        self.script.enter(instruction)?;
        self.number += 1;
        self.count += 1;
        self.last = cycle;
        Ok(())
    }

    /// The script of the lines.
    pub fn into_script(self) -> Script
        ensures { result ≡ self.script }
    {
        self.script
    }
}

fn is_skipped(line: &[u8]) -> bool
    ensures { result ≡ Faults.is_skipped line.now }
{
    match line {
        [] => true,
        [first, ..] => *first == b'#',
    }
}
