//! What holds of every list of events: each function's contract is the law.
ghost use Rattle.dp_core.specs.{AdoptedIsReference, FreshIsReference, HeldIsOwn, SkewedIsFaulty, TakenIsOwn};
ghost use Rattle.dp_core.specs.{TrajectoriesAreReference, TwoHeardAreFresh};

use dp_machine::laws::issues_are_within_limits;
use dp_voter::laws::{fresh_is_right, two_right_are_fresh};

/// With at most one faulty computer in any cycle, each live computer that wasn't skewed since its last break has come to the state of
/// the reference run after the frames that it has done.
pub fn trajectories_are_reference()
    ensures { TrajectoriesAreReference }
{}

/// With at most one faulty computer in any cycle, a computer that adopts a state is live with the reference run's, and from then on, until
/// it is broken or skewed, its state and its issues are the reference run's.
pub fn adopted_is_reference()
    ensures { AdoptedIsReference }
{}

/// A computer that isn't faulty isn't skewed.
pub fn skewed_is_faulty()
    ensures { SkewedIsFaulty }
{}

/// With at most one faulty computer in any cycle, a fresh ballot is the reference run's force.
pub fn fresh_is_reference()
    ensures { FreshIsReference }
{
    fresh_is_right();
}

/// The force that a voter takes from a computer's last issue is one of that computer's own trajectory, for this cycle.
pub fn taken_is_own()
    ensures { TakenIsOwn }
{}

/// So is each force that a voter holds of a computer in whose name none was said to it in this cycle.
pub fn held_is_own()
    ensures { HeldIsOwn }
{}

/// Where no case of the plant is refused ([`dp_alloc::first_refused`]), and the issues of two computers that aren't faulty are delivered
/// in a cycle before its vote, its ballot is fresh.
pub fn two_heard_are_fresh()
    ensures { TwoHeardAreFresh }
{
    issues_are_within_limits();
    two_right_are_fresh();
}
