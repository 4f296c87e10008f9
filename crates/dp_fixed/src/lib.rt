//! Whole-number arithmetic of the controller.
//!
//! Every gain, share and sine pair is a whole number over [`Q`], and every rounding is a floor, so that three computers and a
//! calculation by hand get the same bits. Each function here answers exactly the value that `specs/` defines over whole numbers without a
//! bound, in its whole stated range, and no sum or product on the way overflows. [`laws`] says what the crates above use of these values.
#![tactic(auto)]

mod division;
pub mod laws;
mod order;
mod roots;
mod steps;
mod turns;

pub use division::{ceil_div, floor_div};
pub use order::{clamp, mid3, middle};
pub use roots::root_up;
pub use steps::{difference, less, more, narrow, negated, product, sum};
pub use turns::{wrap, wrap_near};

/// The scale of gains, shares and sine pairs: 2^30 stands for one.
pub const Q: i128 = 1 << 30;

/// The same in 64 bits.
pub const FULL_SCALE: i64 = 1 << 30;
