//! What holds of every plant whose cases were accepted: each function's contract is the law.
ghost use Rattle.dp_alloc.specs.{ForcesAreWithinLimits, MomentsTurnAlong};

/// Each force that meets a demand in the box is within its thruster's limits, whatever groups are lost: 0 where the thruster's own group
/// is lost, or where there is no case.
pub fn forces_are_within_limits()
    ensures { ForcesAreWithinLimits }
{}

/// A thruster's turning moment doesn't hang on where ahead is: turning its arm and its direction
/// alike leaves it as it is. So no lever arm has a wrong sign beside the other.
pub fn moments_turn_along()
    ensures { MomentsTurnAlong }
{}
