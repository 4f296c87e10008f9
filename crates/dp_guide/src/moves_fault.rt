ghost use Rattle.std.specs.Prelude.{◌≡◌};
ghost use Rattle.dp_guide.specs.declared.moves_fault.MovesFault.TheVariants.{Memory};

use std::alloc::AllocError;

/// What is wrong with a line of a list of moves.
#[derive(Clone, Copy, Debug, PartialEq, Eq)]
pub enum MovesKind {
    /// More than 192 bytes, not four parts, or a part that is no number.
    Number,
    /// A cycle of 2^20 or more, a place outside ±8796093 mm, a heading of 36000 or more, or a move past the 2^16th.
    Range,
    /// The cycle is less than that of the move before.
    Order,
}

/// Why a text is no list of moves.
#[derive(Clone, Copy, Debug, PartialEq, Eq)]
pub enum MovesFault {
    /// The first faulty line, counted from 1, and what is wrong with it.
    Line { line: u64, kind: MovesKind },
    /// Memory was wanted and not found.
    Memory,
}

impl From<AllocError> for MovesFault {
    ghost from_gives = { λ _ e. e ≡ Memory };

    fn from(_e: AllocError) -> MovesFault {
        MovesFault::Memory
    }
}
