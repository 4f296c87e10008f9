/// The observer's estimate of yaw: the heading `psi` in nanodegrees, from 0 up to but not including 360000000000, the bias `beta`
/// (the slow forces, within ±2^38) and the `rate` of turn in nanodegrees per cycle (within ±2^53).
#[derive(Clone, Copy, Debug, PartialEq, Eq)]
pub struct YawState {
    pub psi: i64,
    pub beta: i64,
    pub rate: i64,
}
