//! The drift where one more group is lost.
ghost use Rattle.std.specs.Prelude.{◌≡◌, ◌≤◌, ◌<◌, ◌+◌, ◌^◌, false, not, pos, ◌≤ℤ◌, unsigned_abs};
ghost use Rattle.dp_fixed.specs.{full_scale};
ghost use Rattle.dp_plant.specs.{entry, is_lost};
ghost use Rattle.dp_drift.specs.Loss as loss;

use crate::{Drift, drift_of};
use dp_plant::Plant;

/// The group is not among those of the mask.
pub fn is_ready(lost: u8, group: u8) -> bool
    requires { group < 8 }
    ensures { result ≡ not (is_lost lost group) }
{
    (lost >> group) % 2 != 1
}

/// How the vessel drifts where a ready group is lost beside those of the mask `lost`; none where the plant has no case for that.
///
/// `mean`, `limit` and `cycles` are as in [`drift_of`]; the damping is that of the plant's plane, from 0 to 2^30.
#[tactic(auto, unfolding(crate::specs::Loss::drift_without))]
pub fn drift_without(
    plant: &Plant,
    lost: u8,
    group: u8,
    mean: [i64; 3],
    limit: i64,
    cycles: u32,
) -> Option<Drift>
    requires group { group < 8 }
    requires ready { is_lost lost group ≡ false }
    requires damp_low { pos 0 ≤ℤ plant.now.gains.damp }
    requires damp_high { plant.now.gains.damp ≤ℤ full_scale }
    requires limit { pos 0 ≤ℤ limit }
    requires surge { unsigned_abs (entry mean 0) ≤ 2 ^ 31 }
    requires sway { unsigned_abs (entry mean 1) ≤ 2 ^ 31 }
    ensures { result ≡ loss.drift_without plant.now lost group mean limit cycles }
{
    match plant.case_of(with_group(lost, group)) {
        Some(case) => Some(drift_of(mean, &case.bounds, plant.gains.damp, limit, cycles)),
        None => None,
    }
}

/// The mask with a group added that isn't in it.
fn with_group(lost: u8, group: u8) -> u8
    requires group { group < 8 }
    requires ready { is_lost lost group ≡ false }
    ensures { result ≡ lost + 2 ^ group }
{
    lost + bit(group)
}

/// The number whose one bit is that of a group.
fn bit(group: u8) -> u8
    requires { group < 8 }
    ensures { result ≡ 2 ^ group }
{
    1 << group
}
