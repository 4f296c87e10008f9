//! The moves of the lines that were heard.
ghost use Rattle.dp_guide.specs.declared.moves_fault.MovesFault.TheVariants.{Memory};
ghost use Rattle.std.specs.Prelude.{◌≡◌, ◌≢◌, ◌<◌, ◌≤◌, ◌+◌, ◌++◌, ◌^◌, [], ◌∷◌, ℕ, List, IfErr, IfOk, IfSome, OnOk, Some};
ghost use Rattle.std.specs.Result.{result_err};
ghost use Rattle.dp_guide.specs.MovesDrafts.{IsDraftOf, IsPassed};
ghost use Rattle.dp_guide.specs.MoveLines.{IsMoveWithin};
ghost use Rattle.dp_guide.specs.Moves as lines;
ghost use Rattle.dp_guide.specs.Moves.{fault_of, first_fault, moves_of, said_by};

use crate::move_line::move_read;
use crate::moves::{Move, Moves};
use crate::{MovesFault, MovesKind};
use std::alloc::{AllocError, Global};

/// The most lines that aren't skipped.
const MOST: u64 = 1 << 16;

/// The moves of the lines so far, and what the next line is judged by.
#[derive(Drop)]
pub struct Draft {
    moves: Moves,
    /// How many lines there were.
    number: u64,
    /// How many of them weren't skipped.
    count: u64,
    /// The cycle of the last of these, or 0.
    last: u64,
}

impl Draft {
    /// A draft of no lines.
    #[tactic(auto, unfolding(crate::specs::Moves::first_fault))]
    pub fn new(alloc: Global) -> Draft
        ensures heard { IsDraftOf result [] }
        ensures passed { IsPassed result }
        ensures moves { result.moves ≡ [] }
    {
        Draft {
            moves: Moves::new(alloc),
            number: 0,
            count: 0,
            last: 0,
        }
    }

    /// Hears a line: adds its move, or names its fault.
    pub fn hear(&mut self, line: &[u8]) -> Result<(), MovesFault>
        requires passed { IsPassed self.old }
        requires room { self.old.number < 2 ^ 63 }
        ensures passed { OnOk result (IsPassed self.new) }
        ensures number { OnOk result (self.new.number ≡ self.old.number + 1) }
        ensures moves { OnOk result
            (self.new.moves ≡ self.old.moves ++ moves_of (line.now ∷ [])) }
        ensures heard { OnOk result
            ((before : List (List ℕ)) → IsDraftOf self.old before
            → IsDraftOf self.new (line.now ∷ before)) }
        ensures fault { IfErr result (λ fault. fault ≢ Memory → (before : List (List ℕ))
            → IsDraftOf self.old before → first_fault (line.now ∷ before) ≡ Some fault) }
    {
        match self.judge(line) {
            Ok(None) => {
                self.number += 1;
                Ok(())
            }
            Ok(Some(next)) => {
                self.enter(next)?;
                Ok(())
            }
            Err(kind) => Err(MovesFault::Line {
                line: self.number + 1,
                kind,
            }),
        }
    }

    /// The move of a line after those before it; nothing where it is skipped.
    #[tactic(auto, unfolding(crate::specs::Moves::said_by, crate::specs::Moves::fault_of))]
    fn judge(&self, line: &[u8]) -> Result<Option<Move>, MovesKind>
        ensures said { IfOk result (λ said. said_by line.now ≡ said) }
        ensures fault { (before : List (List ℕ)) → IsDraftOf self.now before
            → fault_of before line.now ≡ result_err result }
        ensures order { IfOk result (λ said. IfSome said (λ next. self.now.last ≤ next.cycle)) }
        ensures few { IfOk result (λ said. IfSome said (λ next. self.now.count < 2 ^ 16)) }
        ensures within { IfOk result (λ said. IfSome said (λ next. IsMoveWithin next)) }
    {
        if is_skipped(line) {
            return Ok(None);
        }
        let next = move_read(line)?;
        if self.count >= MOST {
            return Err(MovesKind::Range);
        }
        if next.cycle < self.last {
            return Err(MovesKind::Order);
        }
        Ok(Some(next))
    }

    /// Counts a line, and adds its move.
    fn enter(&mut self, next: Move) -> Result<(), AllocError>
        requires passed { IsPassed self.old }
        requires order { self.old.last ≤ next.cycle }
        requires few { self.old.count < 2 ^ 16 }
        requires room { self.old.number < 2 ^ 63 }
        requires within { IsMoveWithin next }
        ensures passed { OnOk result (IsPassed self.new) }
        ensures moves { OnOk result (self.new.moves ≡ self.old.moves ++ next ∷ []) }
        ensures number { OnOk result (self.new.number ≡ self.old.number + 1) }
        ensures count { OnOk result (self.new.count ≡ self.old.count + 1) }
        ensures last { OnOk result (self.new.last ≡ next.cycle) }
    {
        let cycle = next.cycle;
        self.moves.push(next)?;
        self.number += 1;
        self.count += 1;
        self.last = cycle;
        Ok(())
    }

    /// The moves of the lines.
    pub fn into_moves(self) -> Moves
        ensures { result ≡ self.moves }
    {
        self.moves
    }
}

fn is_skipped(line: &[u8]) -> bool
    ensures { result ≡ lines.is_skipped line.now }
{
    match line {
        [] => true,
        [first, ..] => *first == b'#',
    }
}
