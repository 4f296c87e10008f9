//! The list of moves of a text.
ghost use Rattle.std.specs.Prelude.{◌≡◌, ◌≢◌, None, IfErr, IfOk, ◌<◌, ◌≤◌, ◌++◌, [], ◌∷◌, All, List, OnOk, Some, length, slice_get};
ghost use Rattle.dp_guide.specs.declared.moves.Move.{Move};
ghost use Rattle.dp_guide.specs.declared.moves_fault.MovesFault.TheVariants.{Memory};
ghost use Rattle.dp_guide.specs.MoveLines.{IsMoveWithin};
ghost use Rattle.dp_guide.specs.Moves.{IsMoveList, fault_in, moves_in};

use crate::MovesFault;
use crate::moves_draft::Draft;
use dp_plant::Setpoint;
use dp_text::next_line;
use std::alloc::{AllocError, Global};
use std::marker::Model;

/// A setpoint to go to, and the cycle from which on it may be gone to.
#[derive(Clone, Copy, Debug, PartialEq, Eq)]
pub struct Move {
    pub cycle: u64,
    pub to: Setpoint,
}

/// The moves of a text without a faulty line, in order.
#[derive(Drop)]
pub struct Moves {
    moves: Vec<Move>,
}

impl Model for Moves {
    ghost Value = { List Move };

    ghost view = { λ m. m.moves.items };

    ghost invariant = { λ m. IsMoveList m.moves.items };
}

impl Moves {
    /// The moves of a text, or its first faulty line. `Memory` is the answer only where memory was wanted and not found.
    pub fn of(alloc: Global, bytes: &[u8]) -> Result<Moves, MovesFault>
        ensures clean { OnOk result (fault_in bytes.now ≡ None) }
        ensures fault { IfErr result (λ fault. fault ≢ Memory → fault_in bytes.now ≡ Some fault) }
        ensures moves { IfOk result (λ moves. moves ≡ moves_in bytes.now) }
    {
        let mut draft = Draft::new(alloc);
        let mut rest = bytes;
        while let Some((line, after)) = next_line(rest, false) {
            draft.hear(line)?;
            rest = after;
        }
        Ok(draft.into_moves())
    }

    /// The number of moves.
    pub fn len(&self) -> usize
        ensures { result ≡ length self.now }
    {
        self.moves.len()
    }

    /// The cycle of a move, and the setpoint that it goes to, in nanometres and nanodegrees; moves count from 0.
    pub fn get(&self, i: usize) -> (u64, Setpoint)
        requires { i < length self.now }
        ensures value { slice_get self.now i ≡ Some (record { cycle = result.0; to = result.1 }) }
        ensures within { IsMoveWithin (record { cycle = result.0; to = result.1 }) }
    {
        let found = self.moves[i];
        (found.cycle, found.to)
    }
}

impl Moves {
    /// No moves.
    pub(crate) fn new(alloc: Global) -> Moves
        ensures { result ≡ [] }
    {
        Moves {
            moves: Vec::new(alloc),
        }
    }

    /// Adds a move whose cycle isn't before those that are there.
    pub(crate) fn push(&mut self, next: Move) -> Result<(), AllocError>
        requires order { All (λ earlier. earlier.cycle ≤ next.cycle) self.old }
        requires within { IsMoveWithin next }
        ensures ok { OnOk result (self.new ≡ self.old ++ next ∷ []) }
    {
        self.moves.push(next)?;
        Ok(())
    }
}
