use dp_plant::Setpoint;

/// The greatest velocities and their greatest changes in a cycle, of north, east (nanometres) and the heading (nanodegrees): each from 1
/// to 2^31.
#[derive(Clone, Copy, Debug, PartialEq, Eq)]
pub struct GuideLimits {
    pub rate: [i64; 3],
    pub accel: [i64; 3],
}

/// How far each coordinate moves in a cycle.
#[derive(Clone, Copy, Debug, PartialEq, Eq)]
pub struct Velocity {
    pub north: i64,
    pub east: i64,
    pub heading: i64,
}

/// Where a setpoint is, where it is to go, and how fast it moves.
#[derive(Clone, Copy, Debug, PartialEq, Eq)]
pub struct Motion {
    pub limits: GuideLimits,
    pub here: Setpoint,
    pub target: Setpoint,
    pub velocity: Velocity,
}
