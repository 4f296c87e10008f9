//! What holds of the numbers and the parts of a text: each function's contract is the law.
ghost use Rattle.dp_text.specs.{NumberReadIsWritten, PartsAreJoined, SignedReadIsWritten};

/// A number is read of a text exactly where the text writes it: its digits, each counted by its place.
pub fn number_read_is_written()
    ensures { NumberReadIsWritten }
{}

/// The same of a number that may be below zero, with a `-` in front.
pub fn signed_read_is_written()
    ensures { SignedReadIsWritten }
{}

/// The parts of a text, joined by spaces, are the text; and texts without a space are the parts of what they are joined to.
pub fn parts_are_joined()
    ensures { PartsAreJoined }
{}
