ghost use Rattle.std.specs.Prelude.{◌≡◌};

use crate::Box3;
use crate::lists::copied;
use arrayvec::ArrayVec;

/// A thruster: its group (below the plant's number of groups), its lever arm ahead and to starboard of the vessel's origin in mm
/// (within ±500000), the direction of its push in hundredths of a degree (0 to 35999), and the least (-2^31 to 0) and the greatest
/// (0 to 2^31) force in newtons.
#[derive(Clone, Copy, Debug, Default, PartialEq, Eq)]
pub struct Thruster {
    pub group: u8,
    pub at: [i64; 2],
    pub azimuth: u32,
    pub min: i64,
    pub max: i64,
}

/// How a demand is shared out while a set of groups is lost: the set as a mask, the box of demands that can be met, and for each
/// thruster its row of shares of surge, sway and yaw, over 2^20 (within ±2^31).
#[derive(Debug, Drop, Default)]
pub struct RawCase {
    pub lost: u8,
    pub bounds: Box3,
    pub b: ArrayVec<[i64; 3], 12>,
}

impl RawCase {
    /// An equal case, which takes no memory.
    pub fn copy(&self) -> RawCase
        ensures { result ≡ self.now }
    {
        RawCase {
            lost: self.lost,
            bounds: self.bounds,
            b: copied(&self.b),
        }
    }
}
