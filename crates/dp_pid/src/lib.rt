//! The control law: what is demanded of surge, sway and yaw to keep a vessel at its setpoint.
//!
//! [`issue`] answers for each axis a spring on the error and a damper on the velocity, against the estimated bias (the slow forces) within
//! its limit and against what the wind pushes, clamped to the axis's range of the box and rounded down:
//!
//! ```text
//! state, setpoint --> along the axis --> spring + damper + bias + wind --> clamp to the box --> floor --> demand
//!                                                                              |
//!                                                                              +--> limited, where the clamp changed it
//! ```
//!
//! It is the PID law of Fossen's Handbook of Marine Craft Hydrodynamics and Motion Control with the observer's bias in place of the
//! integral, made discrete by this project; `Law` and `Yaw` in `dp_plant`'s `specs/` define it, and each demand is exactly theirs.
//! [`wind_push`] answers what a wind pushes, by the plant's table. Both are exact over whole numbers, and nothing overflows in the stated
//! ranges.
//!
//! Axis 0 is surge, positive ahead; axis 1 sway, positive to starboard; axis 2 yaw, positive clockwise from above. The state is in north
//! and east, in nanometres, and is brought to the vessel's axes by the sine pair of the heading, cosine first, over 2^30. A demand, a bias
//! and the wind's push are accelerations: nanometres per cycle squared, in yaw nanodegrees per cycle squared. The error of heading is
//! taken the nearer way round, from minus half a turn up to but not including half a turn.
//!
//! Each demand lies in its range of the box, so within ±2^31, in yaw within ±2^38. An axis is told as limited exactly where the clamp
//! changed what was asked: a demand that just reaches an end of its range isn't limited.
#![tactic(auto)]

mod axis;
mod body;
mod law;
mod wind;

pub use law::{Asked, issue};
pub use wind::wind_push;
