//! The velocity of the next cycle of one coordinate.
ghost use Rattle.std.specs.Prelude.{◌≡◌, ◌≤◌, ◌^◌, pos, neg_ℤ, ◌+ℤ◌, ◌-ℤ◌, ◌≤ℤ◌, ◌<ℤ◌, unsigned_abs};
ghost use Rattle.std.specs.Int.{int_min, int_max};
ghost use Rattle.dp_guide.specs.Course.{IsFastest, IsOnCourse, stopping_way, velocity_of};

use crate::stopping::stopping_way;
use dp_fixed::negated;

/// The velocity that follows `v` where the target lies `d` away.
pub(crate) fn next_velocity(rate: i128, accel: i128, v: i128, d: i128) -> i128
    requires rate_low { pos 1 ≤ℤ rate }
    requires rate_high { rate ≤ℤ pos (2 ^ 31) }
    requires accel_low { pos 1 ≤ℤ accel }
    requires accel_high { accel ≤ℤ pos (2 ^ 31) }
    requires distance { unsigned_abs d ≤ 2 ^ 100 }
    requires on_course { IsOnCourse rate accel v d }
    ensures value { result ≡ velocity_of rate accel v d }
    ensures small { unsigned_abs result ≤ 2 ^ 31 }
{
    if d < 0 {
        negated(fastest_ahead(rate, accel, negated(v), negated(d)))
    } else {
        fastest_ahead(rate, accel, v, d)
    }
}

/// The same with the target ahead, or reached.
fn fastest_ahead(rate: i128, accel: i128, v: i128, d: i128) -> i128
    requires rate_low { pos 1 ≤ℤ rate }
    requires rate_high { rate ≤ℤ pos (2 ^ 31) }
    requires accel_low { pos 1 ≤ℤ accel }
    requires accel_high { accel ≤ℤ pos (2 ^ 31) }
    requires ahead { pos 0 ≤ℤ d }
    requires on_course { IsOnCourse rate accel v d }
    ensures fastest { IsFastest rate accel v d result }
    ensures small { unsigned_abs result ≤ 2 ^ 31 }
{
    let lo = lowest(rate, accel, v);
    let hi = highest(rate, accel, v);
    fastest(lo, hi, accel, d)
}

/// The least velocity that the limits leave.
fn lowest(rate: i128, accel: i128, v: i128) -> i128
    requires rate { unsigned_abs rate ≤ 2 ^ 31 }
    requires accel { unsigned_abs accel ≤ 2 ^ 31 }
    requires velocity { unsigned_abs v ≤ 2 ^ 31 }
    ensures { result ≡ int_max (v -ℤ accel) (neg_ℤ rate) }
{
    (v - accel).max(-rate)
}

/// The greatest velocity that the limits leave.
fn highest(rate: i128, accel: i128, v: i128) -> i128
    requires rate { unsigned_abs rate ≤ 2 ^ 31 }
    requires accel { unsigned_abs accel ≤ 2 ^ 31 }
    requires velocity { unsigned_abs v ≤ 2 ^ 31 }
    ensures { result ≡ int_min (v +ℤ accel) rate }
{
    (v + accel).min(rate)
}

/// The greatest velocity from `lo` to `hi` that stops within `d`, by halving.
fn fastest(lo: i128, hi: i128, accel: i128, d: i128) -> i128
    requires accel_low { pos 1 ≤ℤ accel }
    requires accel_high { accel ≤ℤ pos (2 ^ 31) }
    requires low { neg_ℤ (pos (2 ^ 31)) ≤ℤ lo }
    requires order { lo ≤ℤ hi }
    requires high { hi ≤ℤ pos (2 ^ 31) }
    requires stops { stopping_way lo accel ≤ℤ d }
    ensures from { lo ≤ℤ result }
    ensures to { result ≤ℤ hi }
    ensures stops { stopping_way result accel ≤ℤ d }
    ensures next_is_over { result <ℤ hi → d <ℤ stopping_way (result +ℤ pos 1) accel }
{
    if stopping_way(hi, accel) <= d {
        return hi;
    }
    let mut low = lo;
    let mut over = hi;
    while low + 1 < over {
        let middle = between(low, over);
        if stopping_way(middle, accel) <= d {
            low = middle;
        } else {
            over = middle;
        }
    }
    low
}

/// A number between two that leave room for one.
fn between(low: i128, high: i128) -> i128
    requires low { neg_ℤ (pos (2 ^ 100)) ≤ℤ low }
    requires room { (low +ℤ pos 1) <ℤ high }
    requires high { high ≤ℤ pos (2 ^ 100) }
    ensures above { low <ℤ result }
    ensures below { result <ℤ high }
{
    low + (high - low) / 2
}
