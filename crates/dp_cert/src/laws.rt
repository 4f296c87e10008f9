//! What accepted gains mean for the plane: each law is the contract of a function that does nothing, and holds of three states and of
//! five alike. V is the certificate's form; the definitions are in `specs/CertifiedSet` and `specs/TwinRuns`.
ghost use Rattle.dp_cert.specs.{CycleContracts, CycleStaysInside, DemandsStayClose, ForcesStayClose, InsideIsNarrow, InsideIsWithin, RestIsInside, RunsStayClose, SameIsClose, TwinForcesStayClose};

use crate::Accepted;

/// A cycle stays in the certified set, whatever is measured (a place within ±2^44 nm, or none) and whatever pushes (within ±2^32).
pub fn cycle_stays_inside(a: &Accepted)
    ensures { CycleStaysInside a.now.gains a.now.cert }
{}

/// A state at rest, at a place within ±2^43 nm, is in the certified set.
pub fn rest_is_inside(a: &Accepted)
    ensures { RestIsInside a.now.cert }
{}

/// In the certified set each coordinate is within its width, and so within ±2^56.
pub fn inside_is_narrow(a: &Accepted)
    ensures narrow { InsideIsNarrow a.now.cert }
    ensures within { InsideIsWithin a.now.cert }
{}

/// Two runs that share a cycle, with measured places within s of each other: the root of V of their difference shrinks by the rate, and
/// grows by at most what the places and the roundings add.
pub fn cycle_contracts(a: &Accepted)
    ensures { CycleContracts a.now.gains a.now.cert }
{}

/// The demands of two runs on surge and sway, by V of their difference.
pub fn demands_stay_close(a: &Accepted)
    ensures { DemandsStayClose a.now.gains a.now.cert }
{}

/// Runs that are close stay close for any number of cycles, and a state is close to itself.
pub fn runs_stay_close(a: &Accepted)
    ensures start { SameIsClose a.now.cert }
    ensures cycles { RunsStayClose a.now.gains a.now.cert }
{}

/// The forces of close runs are within the two numbers of [`Accepted::bounds`], and so they are in every cycle of runs from one state.
pub fn forces_stay_close(a: &Accepted)
    ensures close { ForcesStayClose a.now.gains a.now.cert }
    ensures twins { TwinForcesStayClose a.now.gains a.now.cert }
{}
