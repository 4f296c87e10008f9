use arrayvec::ArrayVec;
use dp_plant::{PlaneState, YawState};
use dp_reftest::Kept;

/// All that a computer keeps from one cycle to the next: how many frames it has processed, its estimates of the plane and of yaw, the
/// last fused heading and angle of the wind (in hundredths of a degree), the mask of the groups that are lost, the window of each
/// position reference, and the demands on surge, sway and yaw of the last 60 cycles, the oldest first.
#[derive(Debug, Drop)]
pub struct State {
    pub count: u64,
    pub plane: PlaneState,
    pub yaw: YawState,
    pub heading: u32,
    pub wind: u32,
    pub lost: u8,
    pub samples: [Kept; 3],
    pub demands: ArrayVec<[i64; 3], 60>,
}
