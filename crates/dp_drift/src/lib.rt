//! How far the vessel drifts where the thrusters that are left give less than the mean demand of late.
//!
//! It is open-loop arithmetic: the plane's velocity loses its damped share each cycle and gains what the box of a case leaves undone of
//! the mean, and the way is the sum of the velocities; no sensor, controller or sea is simulated. [`drift_of`] says of one box whether
//! it gives the whole mean, or in which cycle an axis is first past a limit, or where both axes are after the last cycle.
//! [`drift_without`] says it of the box that is left where one more group is lost, and [`append_group`] and [`append_end`] write the
//! lines of the table over all ready groups, which `specs/Lines` defines.
//!
//! What is proved: each answer is exactly that of `specs/Drift`, for every mean, box and number of cycles; the way never falls from one
//! cycle to the next; and a larger box drifts no farther and is past the limit no earlier ([`laws`]). No call fails or takes memory.
#![tactic(auto)]

mod drift;
pub mod laws;
mod lines;
mod loss;
mod steps;

pub use drift::{Drift, drift_of};
pub use lines::{append_end, append_group};
pub use loss::{drift_without, is_ready};

#[cfg(test)]
mod tests;
