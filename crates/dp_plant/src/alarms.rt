/// What the tests say of a position reference in an alarm: it is good, or why it is not usable.
#[derive(Clone, Copy, Debug, PartialEq, Eq)]
pub enum Cause {
    /// The reference is usable.
    Good,
    /// No reading has come.
    Silent,
    /// Its newest reading is too old.
    Stale,
    /// All readings of a full window are equal.
    Frozen,
    /// Two readings in a row are too far apart.
    Jumped,
    /// The readings of the window scatter too far.
    Noisy,
}

/// What a cycle warns of.
///
/// `refs` says of each position reference whether it is usable. Bit i of `damaged` says that a damaged sentence came on wire i, in the
/// order position 0 to 2, gyro 0 to 2, wind 0 to 2, group 0 to 7. `blind`: no reference is usable; `gyro`: no heading was read;
/// `wind`: no wind was read; `limited`: the demand on surge, sway or yaw was cut to its box; `nocase`: the plant has no case for the
/// groups that are lost. Bit g of `lost` says that the loss of group g, which is ready, would not be survived.
#[derive(Clone, Copy, Debug, PartialEq, Eq)]
pub struct Alarms {
    pub refs: [Cause; 3],
    pub damaged: u32,
    pub blind: bool,
    pub gyro: bool,
    pub wind: bool,
    pub limited: [bool; 3],
    pub nocase: bool,
    pub lost: u8,
}
