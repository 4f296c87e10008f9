//! The consequence analysis: which ready groups of thrusters the vessel can't afford to lose.
//!
//! IMO MSC.1/Circ.1580 has the control system of equipment classes 2 and 3 verify continuously that the vessel stays in position even if
//! the worst single failure occurs. Here the failures are the losses of one more group: such a loss is survived where the plant has a case
//! for the groups lost then, and the box of that case holds the mean demand of late. [`check`] lists the ready groups whose loss isn't
//! survived; [`check_bits`] says the same as the bits of a number, which an alarm carries.
//!
//! What is proved: both answers are exactly those of `specs/Survival`, a filter over all groups of the plant, for every plant, set of lost
//! groups and demand; a group is told in the one exactly where its bit is set in the other ([`laws`]). `specs/Demands` defines the mean.
//! No call fails or takes memory.
#![tactic(auto)]

mod groups;
pub mod laws;
mod survival;

pub use groups::{check, check_bits};
