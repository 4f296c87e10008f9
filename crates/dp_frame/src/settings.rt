use crate::Origin;

/// What of a plant a record is read with: how many milliseconds a cycle has, how many groups of thrusters there are, and the origin of
/// the local frame.
#[derive(Drop)]
pub struct Settings {
    pub cycle_ms: u64,
    pub groups: u8,
    pub origin: Origin,
}
