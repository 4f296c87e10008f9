//! Fusion: one place, one heading and one wind from up to three references, gyros and wind sensors.
//!
//! One rule serves all: of three readings the middle one (mid-value select, so that one reading alone can't pull the result away from the
//! other two), of two the weighted mean rounded down, of one itself. [`position`] takes the verdicts of the reference tests, first brings
//! each usable place to the vessel's origin by its lever arm, and fuses north and east apart; [`laws`] says that the result lies between
//! any two usable references in each coordinate. [`heading`] and [`wind`] count angles from a base, so that 359.99 and 0.01 degrees are
//! near each other; there all readings count alike.
//!
//! Places are in nanometres, lever arms in millimetres, sine pairs over 2^30, angles in hundredths of a degree, speeds in mm/s.
#![tactic(auto)]

mod angles;
mod gusts;
pub mod laws;
mod places;
mod weighted;

pub use angles::heading;
pub use gusts::wind;
pub use places::{Fused, position};
