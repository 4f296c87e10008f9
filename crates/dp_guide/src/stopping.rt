//! The way until a coordinate stands.
ghost use Rattle.std.specs.Prelude.{ℤ, ◌≡◌, ◌≤◌, ◌*◌, ◌^◌, pos, neg_ℤ, ◌-ℤ◌, ◌*ℤ◌, ◌≤ℤ◌, unsigned_abs};
ghost use Rattle.dp_guide.specs.Course.{stopping_way};

use dp_fixed::{ceil_div, difference, negated};

/// The way from a cycle with velocity `v` until it stands, slowing down by `accel` in each cycle.
pub(crate) fn stopping_way(v: i128, accel: i128) -> i128
    requires accel_low { pos 1 ≤ℤ accel }
    requires accel_high { accel ≤ℤ pos (2 ^ 31) }
    requires low { neg_ℤ (pos (2 ^ 31)) ≤ℤ v }
    requires high { v ≤ℤ pos (2 ^ 31) }
    ensures value { result ≡ stopping_way v accel }
{
    if v < 0 {
        negated(way(negated(v), accel))
    } else {
        way(v, accel)
    }
}

/// The same of a velocity from 0 up, whose first `parts` parts are above 0.
fn way(v: i128, accel: i128) -> i128
    requires accel_low { pos 1 ≤ℤ accel }
    requires accel_high { accel ≤ℤ pos (2 ^ 31) }
    requires low { pos 0 ≤ℤ v }
    requires high { v ≤ℤ pos (2 ^ 31) }
    ensures value { result ≡ stopping_way v accel }
    ensures small { unsigned_abs result ≤ 2 ^ 100 }
{
    let parts = ceil_div(v, accel);
    half(twice(parts, v, accel))
}

/// Half of a number.
fn half(twice: i128) -> i128
    ensures { (h : ℤ) → pos 2 *ℤ h ≡ twice → result ≡ h }
{
    twice / 2
}

/// Twice the sum of v, v - accel, .., of so many parts.
fn twice(parts: i128, v: i128, accel: i128) -> i128
    requires parts_low { pos 0 ≤ℤ parts }
    requires parts_high { parts ≤ℤ pos (2 ^ 31) }
    requires accel_low { pos 1 ≤ℤ accel }
    requires accel_high { accel ≤ℤ pos (2 ^ 31) }
    requires low { pos 0 ≤ℤ v }
    requires high { v ≤ℤ pos (2 ^ 31) }
    ensures value { result ≡ pos 2 *ℤ (parts *ℤ v) -ℤ accel *ℤ (parts *ℤ (parts -ℤ pos 1)) }
    ensures small { unsigned_abs result ≤ 2 ^ 100 }
{
    difference(
        times(2, times(parts, v)),
        times(accel, times(parts, difference(parts, 1))),
    )
}

/// A product of small numbers.
fn times(a: i128, b: i128) -> i128
    requires first { unsigned_abs a ≤ 2 ^ 31 }
    requires second { unsigned_abs b ≤ 2 ^ 63 }
    ensures value { result ≡ a *ℤ b }
    ensures small { unsigned_abs result ≤ 2 ^ 31 * unsigned_abs b }
{
    a * b
}
