//! What the corners of a box ask of a thruster.
ghost use Rattle.std.specs.Prelude.{◌≡◌, ◌≤◌, ◌^◌, ◌*ℤ◌, unsigned_abs};
ghost use Rattle.std.specs.Int.{int_max, int_min};
ghost use Rattle.dp_plant.specs.{IsPlaneBox, IsShareRow, IsYawBox};
ghost use Rattle.dp_alloc.specs.{greatest_thrust, least_thrust};

use crate::thrust::{part, whole};
use dp_fixed::sum;
use dp_plant::Box3;

/// The greatest thrust that a corner of the box asks for: each axis is at the end of its range that asks for more.
pub(crate) fn greatest_thrust(row: &[i64; 3], bounds: &Box3) -> i64
    requires shares { IsShareRow row.now }
    requires plane { IsPlaneBox bounds.now }
    requires yaw { IsYawBox bounds.now }
    ensures { result ≡ greatest_thrust row.now bounds.now }
{
    let surge = greater(row[0], bounds.lo[0], bounds.hi[0]);
    let sway = greater(row[1], bounds.lo[1], bounds.hi[1]);
    let yaw = greater(row[2], bounds.lo[2], bounds.hi[2]);
    whole(sum(sum(surge, sway), yaw))
}

/// The least thrust that a corner of the box asks for.
pub(crate) fn least_thrust(row: &[i64; 3], bounds: &Box3) -> i64
    requires shares { IsShareRow row.now }
    requires plane { IsPlaneBox bounds.now }
    requires yaw { IsYawBox bounds.now }
    ensures { result ≡ least_thrust row.now bounds.now }
{
    let surge = lesser(row[0], bounds.lo[0], bounds.hi[0]);
    let sway = lesser(row[1], bounds.lo[1], bounds.hi[1]);
    let yaw = lesser(row[2], bounds.lo[2], bounds.hi[2]);
    whole(sum(sum(surge, sway), yaw))
}

/// The greater of a share's parts of both ends of a range.
fn greater(share: i64, lo: i64, hi: i64) -> i128
    requires share { unsigned_abs share ≤ 2 ^ 31 }
    requires lo { unsigned_abs lo ≤ 2 ^ 38 }
    requires hi { unsigned_abs hi ≤ 2 ^ 38 }
    ensures value { result ≡ int_max (share *ℤ lo) (share *ℤ hi) }
    ensures bound { unsigned_abs result ≤ 2 ^ 69 }
{
    part(share, lo).max(part(share, hi))
}

/// The lesser of them.
fn lesser(share: i64, lo: i64, hi: i64) -> i128
    requires share { unsigned_abs share ≤ 2 ^ 31 }
    requires lo { unsigned_abs lo ≤ 2 ^ 38 }
    requires hi { unsigned_abs hi ≤ 2 ^ 38 }
    ensures value { result ≡ int_min (share *ℤ lo) (share *ℤ hi) }
    ensures bound { unsigned_abs result ≤ 2 ^ 69 }
{
    part(share, lo).min(part(share, hi))
}
