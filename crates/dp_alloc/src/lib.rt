//! Allocation: how a demand is shared out to the thrusters, while no group of them is lost or some are.
//!
//! A plant has a case for each set of lost groups that it is to survive: a box of demands on surge, sway and yaw, and for each thruster a
//! row of shares over 2^20. The force of a thruster is the sum of its shares of the demand, rounded down to newtons. [`Case::accept`] takes
//! a case where two conditions hold, and else says the first that fails ([`CaseFault`]):
//!
//! 1. for each thruster the greatest and the least thrust over the eight corners of the box, each rounded down, are within its limits,
//!    which are 0 where its group is lost;
//! 2. for each axis and each column, what all thrusters give together differs from the mass number on its own column, and from 0 on
//!    another, by no more than the axis' tolerance.
//!
//! The thrust is linear in the demand, so what the corners allow every demand in the box does: each force of an accepted case is within its
//! thruster's limits ([`laws`]). That is constrained control allocation by a fixed matrix for each failure, as in Fossen's Handbook of
//! Marine Craft Hydrodynamics and Motion Control, with the shares made beforehand.
//!
//! [`first_refused`] judges all cases of a plant, and [`Cases`] holds those of a plant with none refused: it gives the box and the forces
//! by the mask of lost groups, without taking memory. A mask without a case has a box of zero alone, and no forces.
//!
//! Demands are nanometres (yaw nanodegrees) per cycle squared, forces newtons, turning moments N mm. Axes and columns are numbered 0
//! surge, 1 sway, 2 yaw; a mask has bit g for group g.
#![tactic(auto)]

mod balance;
mod case;
mod cases;
mod conditions;
mod corners;
mod fault;
pub mod laws;
mod refusals;
mod thrust;

pub use case::Case;
pub use cases::Cases;
pub use fault::{CaseFault, CaseRefusal};
pub use refusals::first_refused;
