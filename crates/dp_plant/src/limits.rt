use crate::Place;

/// The least and the greatest demand on surge, sway and yaw, `lo` at most 0 and `hi` at least 0; within ±2^31, for yaw ±2^38.
#[derive(Clone, Copy, Debug, Default, PartialEq, Eq)]
pub struct Box3 {
    pub lo: [i64; 3],
    pub hi: [i64; 3],
}

/// Where the vessel is to be kept: a place within ±2^43, and a heading in nanodegrees, from 0 up to but not including 360000000000.
#[derive(Clone, Copy, Debug, PartialEq, Eq)]
pub struct Setpoint {
    pub at: Place,
    pub psi: i64,
}
