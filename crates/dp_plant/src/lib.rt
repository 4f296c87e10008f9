//! The plant: the types that the crates above share, and the control recurrence as definitions.
//!
//! A [`Frame`] is what all wires brought in a cycle, a [`Verdict`] what the tests say of one position reference, a [`Ballot`] what a voter
//! gives its thruster. A [`Plant`] is a vessel with the limits, thrusters, cases and gains by which it is controlled; [`Plant::copy`]
//! answers an equal one and takes no memory. Its numbers are within the ranges of a plant file, but for those of the gains, which are
//! judged with the certificate: that is a fact of the type, over the parts in `specs/PlantRanges`, over a plant in `specs/SoundPlant`,
//! and `plant_within` of `proofs/PlantFacts` hands it to the crates above.
//!
//! [`plant_of`] reads a plant file, a TOML document. `specs/PlantFile` is the table of its keys, in their order, with the range of each
//! and what becomes of it; `specs/Keys` has how one key is judged: first whether it is there, then its kind, then its range. The answer
//! is exactly the plant that this table makes of the document, or exactly the first fault.
//!
//! `specs/` has one cycle of the plane as whole numbers: the observer's step (`Observer`), the control law's demand (`Law`), and both
//! together (`Step`), after the nonlinear passive observer and the PID law of Fossen's Handbook of Marine Craft Hydrodynamics and Motion
//! Control, made discrete by this project; `Yaw` has the same for yaw. Each floor there is that of one whole number over another, and
//! there is one for each coordinate. `Ranges`, `YawRanges` and `FrameRanges` have the ranges that the contracts of the crates above speak
//! of.
//!
//! Lengths are nanometres, time is counted in cycles, so a velocity is nanometres per cycle and an acceleration nanometres per cycle
//! squared; velocity and bias are divided by mass. Headings are nanodegrees in a state and hundredths of a degree in a frame. Gains and
//! sine pairs are over 2^30. Axes are numbered 0 surge, 1 sway, 2 yaw. A contract sees a list of fixed capacity as its items alone, so two
//! plants are equal where each field is and each list has the same items.
#![tactic(auto)]

mod alarms;
mod cert;
mod fault;
mod file;
mod frames;
mod gains;
mod keys;
mod limits;
mod lists;
mod place;
mod plane;
mod plant;
mod references;
mod thrusters;
mod voting;
mod wind;
mod yaw;

pub use alarms::{Alarms, Cause};
pub use cert::{Cert, Key, Lists, Parts};
pub use fault::PlantFault;
pub use file::plant_of;
pub use frames::{Frame, Gust, Slot, Wire};
pub use gains::{Gains, YawGains};
pub use limits::{Box3, Setpoint};
pub use place::{P2, Place};
pub use plane::{Component, PlaneState};
pub use plant::Plant;
pub use references::{RefLimits, Verdict};
pub use thrusters::{RawCase, Thruster};
pub use voting::{Ballot, Mode};
pub use wind::WindTable;
pub use yaw::YawState;

/// Memory was wanted and not found.
#[derive(Clone, Copy, Debug, PartialEq, Eq)]
pub struct Memory;
