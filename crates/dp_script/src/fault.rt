ghost use Rattle.dp_script.specs.declared.fault.ScriptFault.TheVariants.{Memory};
ghost use Rattle.std.specs.Prelude.{◌≡◌};

use std::alloc::AllocError;

/// What is wrong with a line.
#[derive(Clone, Copy, Debug, PartialEq, Eq)]
pub enum ScriptKind {
    /// No verb of the table, a wrong number of parts, or more than 192 bytes.
    Verb,
    /// A part isn't a number, or isn't hexadecimal text.
    Number,
    /// The cycle is before that of the last line that wasn't skipped.
    Order,
    /// A number is outside its range, two computers are the same, hexadecimal text isn't of 2 to 128 digits or of an even number, or the line
    /// is past the 2^16th that isn't skipped.
    Range,
}

/// Why a text is no script.
#[derive(Clone, Copy, Debug, PartialEq, Eq)]
pub enum ScriptFault {
    /// The first faulty line, counted from 1, and what is wrong with it.
    Line { line: u64, kind: ScriptKind },
    /// Memory was wanted and not found.
    Memory,
}

impl From<AllocError> for ScriptFault {
    ghost from_gives = { λ _ e. e ≡ Memory };

    fn from(_e: AllocError) -> ScriptFault {
        ScriptFault::Memory
    }
}
