//! What holds of guides: each function's contract is the law.
ghost use Rattle.dp_guide.specs.{CycleIsGuided, GuideArrives, HeadingNears, IsWorkedRow, JourneyArrives, NextIsOnly, RestIsOnCourse, StepsAreGuided, VelocityIsNext};

/// A coordinate at rest is on course, wherever its target is.
pub fn rest_is_on_course()
    ensures { RestIsOnCourse }
{}

/// The velocity that is defined by a search is the greatest that may follow.
pub fn velocity_is_next()
    ensures { VelocityIsNext }
{}

/// There is only one such velocity.
pub fn next_is_only()
    ensures { NextIsOnly }
{}

/// The promises of one cycle of a coordinate.
pub fn cycle_is_guided()
    ensures { CycleIsGuided }
{}

/// A coordinate reaches its target and stays there.
pub fn journey_arrives()
    ensures { JourneyArrives }
{}

/// The way left to a heading falls by the velocity.
pub fn heading_nears()
    ensures { HeadingNears }
{}

/// Each cycle of a guide keeps the promises of all three coordinates.
pub fn steps_are_guided()
    ensures { StepsAreGuided }
{}

/// A guide stands on its target after as many cycles as serve each coordinate, and rests one cycle later.
pub fn guide_arrives()
    ensures { GuideArrives }
{}

/// The velocities of a coordinate with a rate of 5 and an acceleration of 3 whose target is 20 ahead.
pub fn worked_row()
    ensures { IsWorkedRow }
{}
