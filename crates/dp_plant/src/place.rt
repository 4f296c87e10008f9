/// North and east.
pub type P2 = (i64, i64);

/// A place in the local frame, or any other vector in north and east; a place is in nanometres, within ±2^43.
#[derive(Clone, Copy, Debug, Default, PartialEq, Eq)]
pub struct Place {
    pub north: i64,
    pub east: i64,
}
