//! One step of a drift's arithmetic a call.
ghost use Rattle.std.specs.Prelude.{◌≡◌, ◌≤◌, ◌<◌, ◌^◌, pos, ◌≤ℤ◌, unsigned_abs};
ghost use Rattle.std.specs.Int.{int_max};
ghost use Rattle.dp_fixed.specs.{full_scale};
ghost use Rattle.dp_plant.specs.{entry};
ghost use Rattle.dp_drift.specs.Drift.{lacking, velocity_next};

use dp_fixed::{FULL_SCALE, Q, difference, floor_div, product, sum};

/// What a range leaves undone of a mean demand.
pub(crate) fn lacking(mean: i64, lo: i64, hi: i64) -> i128
    requires { unsigned_abs mean ≤ 2 ^ 31 }
    ensures value { result ≡ lacking mean lo hi }
    ensures small { unsigned_abs result ≤ 2 ^ 64 }
{
    let given = mean.min(hi).max(lo);
    difference(given as i128, mean as i128)
}

/// The velocity of the next cycle.
pub(crate) fn velocity_next(damp: i64, u: i128, v: i128) -> i128
    requires damp_low { pos 0 ≤ℤ damp }
    requires damp_high { damp ≤ℤ full_scale }
    requires lacking { unsigned_abs u ≤ 2 ^ 64 }
    requires velocity { unsigned_abs v ≤ 2 ^ 65 }
    ensures value { result ≡ velocity_next damp u v }
    ensures small { unsigned_abs result ≤ 2 ^ 97 }
{
    floor_div(
        sum(product(FULL_SCALE - damp, v), product(FULL_SCALE, u)),
        Q,
    )
}

/// The greater distance from zero of two.
pub(crate) fn farther(x: i128, y: i128) -> i128
    requires surge { unsigned_abs x ≤ 2 ^ 100 }
    requires sway { unsigned_abs y ≤ 2 ^ 100 }
    ensures { result ≡ int_max (pos (unsigned_abs x)) (pos (unsigned_abs y)) }
{
    x.abs().max(y.abs())
}

/// The number of an axis.
pub(crate) fn entry_of(numbers: &[i64; 3], axis: usize) -> i64
    requires { axis < 3 }
    ensures { result ≡ entry numbers.now axis }
{
    numbers[axis]
}
