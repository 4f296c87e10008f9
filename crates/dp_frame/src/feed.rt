use crate::{LineFault, Refusal};
use dp_plant::Frame;

/// What a byte of a record, or its end, brings.
#[derive(Clone, Copy, Debug, PartialEq, Eq)]
pub enum Feed {
    /// Nothing yet; at the end, nothing more.
    More,
    /// A frame came to its end, and so many empty ones follow it. Their cycles are below 2^20.
    Closed { frame: Frame, empty: u64 },
    /// This line, counted from 1, is the first that can't be taken: it is faulty.
    Fault { line: u64, kind: LineFault },
    /// This line is the first that can't be taken: it is sound, and of a cycle of 2^20 or more.
    TooMany { line: u64, cycle: u64 },
}

/// What a piece of a record brings.
#[derive(Clone, Copy, Debug, PartialEq, Eq)]
pub struct Fed {
    /// How many of its bytes were taken, at least one.
    pub taken: usize,
    /// What the last of these brings; those before it bring nothing.
    pub feed: Feed,
}

/// What a line brings to its end, where the frame itself stays with the reader; only contracts speak of it.
#[derive(Clone, Copy)]
pub enum Ended {
    Nothing,
    /// The cycle of the kept frame; so many empty ones follow it.
    Cycle { empty: u64 },
    /// The record: the line can't be taken.
    Record(Refusal),
}

/// How far a record was read.
#[derive(Clone, Copy)]
pub enum Phase {
    /// `finish` wasn't called.
    Open,
    /// The last line was judged and closed a frame; the last frame is left.
    Last,
    /// Nothing is left.
    Done,
}
