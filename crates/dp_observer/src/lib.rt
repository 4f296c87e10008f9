//! The observer: one cycle of the estimates of plane and yaw, after the nonlinear passive observer of Fossen's Handbook of Marine Craft
//! Hydrodynamics and Motion Control, made discrete by this project.
//!
//! [`plane::update`] makes of a state exactly the definition `plane_next` of `dp_plant` over the plane's five states in north and east (place, bias,
//! velocity and two wave states), and [`yaw::update`] exactly `yaw_next` over heading, bias and rate. Each asks that the next state lies
//! within ±2^56: of the plane it does while the state is in the certified set (`dp_cert::laws`), of yaw while it is in the ranges that its
//! gains keep. A cycle without a measured place, or without a measured heading, holds the state.
//!
//! What is measured is the place with the motion that waves add to it, so that motion, the state `wave_q`, is taken off before the place
//! is compared. [`laws`] states that a plant without a wave filter has the observer of place, bias and velocity alone.
//!
//! Lengths are nanometres, angles nanodegrees, time is counted in cycles; a measured heading is in hundredths of a degree. What pushes is
//! an acceleration, along surge and sway (ahead and to starboard) and in yaw (clockwise). Gains and sine pairs are over 2^30.
#![tactic(auto)]

pub use dp_plant::{PlaneState, YawState};

mod component;
pub mod laws;
mod motion;
pub mod plane;
pub mod yaw;
