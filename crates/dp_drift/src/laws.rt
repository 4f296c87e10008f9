//! What holds of drifts: each function's contract is the law.
ghost use Rattle.dp_drift.specs.{DriftNeverFalls, IsWorkedRow, LargerBoxDriftsLess, LargerBoxIsPastLater, PastIsFirst};

/// The way never falls from one cycle to the next.
pub fn drift_never_falls()
    ensures { DriftNeverFalls }
{}

/// A larger box drifts no farther.
pub fn larger_box_drifts_less()
    ensures { LargerBoxDriftsLess }
{}

/// A larger box is past the limit no earlier.
pub fn larger_box_is_past_later()
    ensures { LargerBoxIsPastLater }
{}

/// The cycle that is told is the first past the limit, and no cycle before it is.
pub fn past_is_first()
    ensures { PastIsFirst }
{}

/// The ways of a mean demand of 46000000 against a greatest one of 45000000.
pub fn worked_row()
    ensures { IsWorkedRow }
{}
