/// The gains of the plane: the observer's `k2`, `k3`, `k4`, `leak` and `damp`, for surge and sway the control law's spring `kp`,
/// damper `kd` and the limit `bias` of the bias that it holds against, and the observer's wave filter: `wave` is the matrix of the two
/// wave states, row by row, and `k1` how a measured place corrects them.
///
/// Each is over 2^30. `wave` and `k1` lie within ±2^30, the others from 0 to 2^30, but for `bias`, an acceleration from 0 to 2^31. A
/// plant of version 1 has no wave filter: its `wave` and `k1` are zeros.
#[derive(Clone, Copy, Debug, PartialEq, Eq)]
pub struct Gains {
    pub k2: i64,
    pub k3: i64,
    pub k4: i64,
    pub leak: i64,
    pub damp: i64,
    pub kp: [i64; 2],
    pub kd: [i64; 2],
    pub bias: [i64; 2],
    pub wave: [i64; 4],
    pub k1: [i64; 2],
}

/// The gains of yaw: the observer's `k2`, `k3`, `k4`, `leak` and `damp`, and the control law's spring `kp`, damper `kd` and the limit
/// `bias` of the bias that it holds against.
///
/// Each is over 2^30, but for `bias`, an acceleration from 0 to 2^38. `k2`, `kp` and `kd` lie from 0 to 2^30, `k3` from 0 to 2^17,
/// `k4` from 0 to 2^24, `leak` and `damp` from 2^17 to 2^30.
#[derive(Clone, Copy, Debug, PartialEq, Eq)]
pub struct YawGains {
    pub k2: i64,
    pub k3: i64,
    pub k4: i64,
    pub kp: i64,
    pub kd: i64,
    pub leak: i64,
    pub damp: i64,
    pub bias: i64,
}
