/// What is wrong with a line, in the order of the checks: the first that holds is named.
#[derive(Clone, Copy, Debug, PartialEq, Eq)]
pub enum LineFault {
    /// More than 192 bytes before the end of the line.
    LongLine,
    /// The first byte is no digit.
    NoTime,
    /// The time has more than 15 digits, or its digits aren't followed by a space.
    BadTime,
    /// The time `now`, in milliseconds, is less than `before`, that of the last line before it that isn't empty.
    TimeBack { before: u64, now: u64 },
    /// Nothing follows the space after the time, or another space does.
    NoWire,
    /// What follows, up to the next space or the end of the line, names no wire of the plant.
    UnknownWire,
}

/// The first line that can't be taken, counted from 1, as contracts have it; [`crate::Feed`] tells of it.
#[derive(Clone, Copy)]
pub enum Refusal {
    /// The line is faulty.
    Faulty { line: u64, kind: LineFault },
    /// The line is sound, and of a cycle of 2^20 or more.
    TooMany { line: u64, cycle: u64 },
}
