//! The drift of surge and sway, cycle by cycle.
ghost use Rattle.std.specs.Prelude.{◌≡◌, ◌≤◌, ◌^◌, false, pos, ◌≤ℤ◌, unsigned_abs};
ghost use Rattle.dp_fixed.specs.{full_scale};
ghost use Rattle.dp_plant.specs.{entry};
ghost use Rattle.dp_drift.specs.Drift.{drift_by, drift_in, is_held};

use crate::steps::{entry_of, farther, lacking, velocity_next};
use dp_fixed::sum;
use dp_plant::Box3;

/// How far the mean demand drifts a vessel whose thrusters give no more than a box.
#[derive(Clone, Copy, Debug, PartialEq, Eq)]
pub enum Drift {
    /// The box gives the whole mean demand.
    Held,
    /// The first cycle, from 1, after which an axis is past the limit.
    Past { cycle: u32 },
    /// The ways on surge and sway after the last cycle, in nanometres.
    Within { at: [i128; 2] },
}

/// The drift of surge and sway, from rest, in so many cycles.
///
/// `mean` is the mean demand in nanometres per cycle squared, its first two numbers within ±2^31; `damp` is the plane's damping, from 0
/// to 2^30; `limit` is in nanometres, at least 0.
pub fn drift_of(mean: [i64; 3], b: &Box3, damp: i64, limit: i64, cycles: u32) -> Drift
    requires damp_low { pos 0 ≤ℤ damp }
    requires damp_high { damp ≤ℤ full_scale }
    requires limit { pos 0 ≤ℤ limit }
    requires surge { unsigned_abs (entry mean 0) ≤ 2 ^ 31 }
    requires sway { unsigned_abs (entry mean 1) ≤ 2 ^ 31 }
    ensures { result ≡ drift_in damp limit mean b.now cycles }
{
    let surge = lacking(entry_of(&mean, 0), entry_of(&b.lo, 0), entry_of(&b.hi, 0));
    let sway = lacking(entry_of(&mean, 1), entry_of(&b.lo, 1), entry_of(&b.hi, 1));
    drift_by(surge, sway, damp, limit, cycles)
}

/// The drift where `u` and `w` are what is lacking on the two axes.
#[tactic(auto, unfolding(crate::specs::Drift::drift_by))]
fn drift_by(u: i128, w: i128, damp: i64, limit: i64, cycles: u32) -> Drift
    requires damp_low { pos 0 ≤ℤ damp }
    requires damp_high { damp ≤ℤ full_scale }
    requires limit { pos 0 ≤ℤ limit }
    requires surge { unsigned_abs u ≤ 2 ^ 64 }
    requires sway { unsigned_abs w ≤ 2 ^ 64 }
    ensures { result ≡ drift_by damp limit u w cycles }
{
    if is_held(u, w) {
        Drift::Held
    } else {
        moved_by(u, w, damp, limit, cycles)
    }
}

/// Nothing is lacking on either axis.
fn is_held(u: i128, w: i128) -> bool
    ensures { result ≡ is_held u w }
{
    u == 0 && w == 0
}

/// The drift where something is lacking.
fn moved_by(u: i128, w: i128, damp: i64, limit: i64, cycles: u32) -> Drift
    requires damp_low { pos 0 ≤ℤ damp }
    requires damp_high { damp ≤ℤ full_scale }
    requires limit { pos 0 ≤ℤ limit }
    requires surge { unsigned_abs u ≤ 2 ^ 64 }
    requires sway { unsigned_abs w ≤ 2 ^ 64 }
    requires moves { is_held u w ≡ false }
    ensures { result ≡ drift_by damp limit u w cycles }
{
    let mut v = 0;
    let mut x = 0;
    let mut t = 0;
    let mut y = 0;
    for i in 0..cycles {
        v = velocity_next(damp, u, v);
        x = sum(x, v);
        t = velocity_next(damp, w, t);
        y = sum(y, t);
        let far = farther(x, y);
        if far > limit as i128 {
            return Drift::Past { cycle: i + 1 };
        }
    }
    Drift::Within { at: [x, y] }
}
