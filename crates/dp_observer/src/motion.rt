//! How a place or heading, a bias and a velocity move in one cycle, along one coordinate.
ghost use Rattle.std.specs.Prelude.{◌≡◌, ◌≤◌, ◌^◌, ◌*ℤ◌, ◌+ℤ◌, ◌-ℤ◌, unsigned_abs};
ghost use Rattle.dp_fixed.specs.{floor_of, full_scale};
ghost use Rattle.dp_plant.specs.{IsShare};

use dp_fixed::{Q, difference, floor_div, product, sum};

/// A place or heading, moved by its velocity and by its share of how far it is off.
pub(crate) fn place_next(k2: i64, eta: i64, vel: i64, off: i128) -> i128
    requires k2 { IsShare k2 }
    requires eta { unsigned_abs eta ≤ 2 ^ 56 }
    requires vel { unsigned_abs vel ≤ 2 ^ 56 }
    requires off { unsigned_abs off ≤ 2 ^ 58 }
    ensures { result ≡ floor_of ((full_scale *ℤ (eta +ℤ vel)) +ℤ (k2 *ℤ off)) full_scale }
{
    let moved = sum(eta as i128, vel as i128);
    sum(moved, scaled_down(product(k2, off)))
}

/// A bias, which leaks, and takes its share of how far the place is off.
pub(crate) fn bias_next(leak: i64, k3: i64, beta: i64, off: i128) -> i128
    requires leak { IsShare leak }
    requires k3 { IsShare k3 }
    requires beta { unsigned_abs beta ≤ 2 ^ 56 }
    requires off { unsigned_abs off ≤ 2 ^ 58 }
    ensures { let kept = (full_scale *ℤ beta) -ℤ (leak *ℤ beta) in
        result ≡ floor_of (kept +ℤ (k3 *ℤ off)) full_scale }
{
    let change = difference(product(k3, off), product(leak, beta as i128));
    sum(beta as i128, scaled_down(change))
}

/// A velocity, which is damped, and driven by the bias, by what pushes, times the scale, and by its share of how far the place is off.
pub(crate) fn velocity_next(damp: i64, k4: i64, beta: i64, vel: i64, push: i128, off: i128) -> i128
    requires damp { IsShare damp }
    requires k4 { IsShare k4 }
    requires beta { unsigned_abs beta ≤ 2 ^ 56 }
    requires vel { unsigned_abs vel ≤ 2 ^ 56 }
    requires push { unsigned_abs push ≤ 2 ^ 92 }
    requires off { unsigned_abs off ≤ 2 ^ 58 }
    ensures { let kept = (full_scale *ℤ vel) -ℤ (damp *ℤ vel) in
        result ≡ floor_of (((kept +ℤ (full_scale *ℤ beta)) +ℤ push) +ℤ (k4 *ℤ off)) full_scale }
{
    let coasted = sum(vel as i128, beta as i128);
    sum(coasted, scaled_down(driven(damp, k4, vel, push, off)))
}

/// What changes a velocity beside the bias, times the scale: what pushes, its share of how far the place is off, and what it is damped by.
fn driven(damp: i64, k4: i64, vel: i64, push: i128, off: i128) -> i128
    requires damp { IsShare damp }
    requires k4 { IsShare k4 }
    requires vel { unsigned_abs vel ≤ 2 ^ 56 }
    requires push { unsigned_abs push ≤ 2 ^ 92 }
    requires off { unsigned_abs off ≤ 2 ^ 58 }
    ensures value { result ≡ (push +ℤ (k4 *ℤ off)) -ℤ (damp *ℤ vel) }
    ensures bound { unsigned_abs result ≤ 2 ^ 93 }
{
    difference(sum(push, product(k4, off)), product(damp, vel as i128))
}

/// A number that is times the scale, as it stands, rounded down. Whole numbers are added to it behind: so they need no product.
fn scaled_down(x: i128) -> i128
    requires { unsigned_abs x ≤ 2 ^ 94 }
    ensures value { result ≡ floor_of x full_scale }
    ensures bound { unsigned_abs result ≤ 2 ^ 94 }
{
    floor_div(x, Q)
}
