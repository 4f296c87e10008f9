/// What the wind pushes in surge, sway and yaw, a row for each 30 degrees of its angle from the bow: an acceleration over 2^20 for
/// each square of a speed in mm/s (within ±2^24).
#[derive(Clone, Copy, Debug, PartialEq, Eq)]
pub struct WindTable {
    pub push: [[i64; 3]; 12],
}
