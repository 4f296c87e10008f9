//! The laws, each the contract of a function that does nothing.
ghost use Rattle.dp_plant.specs.declared.plant.Plant.{Plant};
ghost use Rattle.dp_cert.specs.declared.accepted.Accepted.{Accepted};
ghost use Rattle.dp_machine.specs.{IsAcceptedPlant, IssuesAreOfTheirCycle, IssuesAreWithinLimits, IssuesHaveAForceForEachThruster, ReplacedReferenceIsBounded, RunsShareAllButTheReplaced};

use dp_alloc::laws::forces_are_within_limits;

/// An issue has as many forces as the plant has thrusters.
pub fn issues_have_a_force_for_each_thruster()
    ensures { IssuesHaveAForceForEachThruster }
{}

/// An issue is of the cycle that the state comes to, and the next state counts one cycle more.
pub fn issues_are_of_their_cycle()
    ensures { IssuesAreOfTheirCycle }
{}

/// Where no case of the plant is refused, each force of an issue is one that its thruster can give, whatever groups are lost.
pub fn issues_are_within_limits()
    ensures { IssuesAreWithinLimits }
{
    forces_are_within_limits();
}

/// On a plant whose gains were accepted, replacing what one position reference tells, for any number of cycles in which the other two
/// stay usable and within a spread, leaves all but the plane and that reference's samples as it was in the reference run, and moves each
/// force by no more than the two numbers of [`dp_cert::Accepted::bounds`] allow, by the case of its cycle.
pub fn replaced_reference_is_bounded()
    ensures shared { (p : Plant) (a : Accepted) → IsAcceptedPlant p a
        → RunsShareAllButTheReplaced p }
    ensures bounded { (p : Plant) (a : Accepted) → IsAcceptedPlant p a
        → ReplacedReferenceIsBounded p }
{}
