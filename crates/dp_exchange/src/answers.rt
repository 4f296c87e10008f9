use dp_machine::Issue;

/// What a computer answers to a frame.
#[derive(Clone, Copy, Debug, PartialEq, Eq)]
pub enum Heard {
    /// The frame waits to be stepped over.
    Kept,
    /// The frame is one too many: the computer fell behind, and has to be aligned.
    Overrun,
    /// The computer is off.
    Deaf,
}

/// What a computer answers when it is to step over a frame.
#[derive(Debug, Drop)]
pub enum Ran {
    /// It stepped over the oldest frame that waited.
    Issued(Issue),
    /// No frame waits.
    Idle,
    /// It has no state to go on from.
    Aligning,
    /// It is off.
    Off,
}

/// What a computer answers to a state that another one offers.
#[derive(Clone, Copy, Debug, PartialEq, Eq)]
pub enum Offer {
    /// It keeps the state; no other computer has offered the same one in this cycle.
    Kept,
    /// Another computer has offered the same state in this cycle: it goes on from it, and is live.
    Adopted,
    /// It isn't aligning.
    NotAligning,
    /// The bytes spell no state of the plant in a version that its software knows; the offset of the first fault.
    BadState { place: usize },
    /// The state has seen more frames than the computer: those that it counts, and the number of the computer's next.
    TooNew { state_cycle: u64, next: u64 },
    /// A frame that the state hasn't seen doesn't wait any more: the frames that the state counts, and the number of the oldest that waits.
    TooOld { state_cycle: u64, oldest: u64 },
}
