use crate::Place;

/// What the tests of one position reference say of its window of samples: the first that holds, in this order.
#[derive(Clone, Copy, Debug, PartialEq, Eq)]
pub enum Verdict {
    /// No sample came.
    Silent,
    /// The newest sample is older than the limit, by this many cycles old.
    Stale { age: u64 },
    /// The window is full and all its samples are equal.
    Frozen,
    /// Two neighbours in the window differ by more than the limit in north or in east.
    Jumped,
    /// The variance of the window, in mm², is above the limit.
    Noisy { variance: i128 },
    /// The newest sample, within ±2^43 nm in north and east, and its weight from 1 to 2^20.
    Usable { at: Place, weight: u32 },
}

/// The limits of one position reference: the samples in its window (4 to 32), the greatest step between neighbours in nm
/// (0 to 10^12), the greatest variance in mm² (0 to 10^12), and the greatest age of the newest sample in cycles (0 to 60).
#[derive(Clone, Copy, Debug, PartialEq, Eq)]
pub struct RefLimits {
    pub window: u8,
    pub jump: i64,
    pub noise: i128,
    pub age: u64,
}
