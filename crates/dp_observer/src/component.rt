//! One component of the plane, a cycle later.
ghost use Rattle.std.specs.Prelude.{◌≡◌, ◌≤◌, ◌+◌, ◌^◌, ◌+ℤ◌, ◌-ℤ◌, ◌*ℤ◌, unsigned_abs};
ghost use Rattle.dp_fixed.specs.{floor_of, full_scale};
ghost use Rattle.dp_plant.specs.declared.plane.Component.{Component};
ghost use Rattle.dp_plant.specs.{IsComponentWithin, IsObserverGains, component_next};

use crate::motion::{bias_next, place_next, velocity_next};
use dp_fixed::{Q, floor_div, less, narrow, product, sum};
use dp_plant::{Component, Gains};

/// One component a cycle later.
#[inline(always)]
pub(crate) fn component(gains: &Gains, x: Component, y: i64, push: i128) -> Component
    requires gains { IsObserverGains gains.now }
    requires state { IsComponentWithin x }
    requires place { unsigned_abs y ≤ 2 ^ 44 }
    requires push { unsigned_abs push ≤ 2 ^ 92 }
    requires next { IsComponentWithin (component_next gains.now x y push) }
    ensures { result ≡ component_next gains.now x y push }
{
    let off = offset(x, y);
    let eta = place_next(gains.k2, x.eta, x.vel, off);
    let beta = bias_next(gains.leak, gains.k3, x.beta, off);
    let vel = velocity_next(gains.damp, gains.k4, x.beta, x.vel, push, off);
    let wave = &gains.wave;
    let wave_p = wave_next(wave[0], wave[1], gains.k1[0], x.wave_p, x.wave_q, off);
    let wave_q = wave_next(wave[2], wave[3], gains.k1[1], x.wave_p, x.wave_q, off);
    narrowed(eta, beta, vel, wave_p, wave_q)
}

/// How far the measured place is from the estimate, the motion by waves taken off.
fn offset(x: Component, y: i64) -> i128
    requires state { IsComponentWithin x }
    requires place { unsigned_abs y ≤ 2 ^ 44 }
    ensures value { result ≡ (y -ℤ x.eta) -ℤ x.wave_q }
    ensures bound { unsigned_abs result ≤ 2 ^ 58 }
{
    less(less(y, x.eta), x.wave_q) as i128
}

/// A wave state a cycle later, by its row of the filter's matrix and its gain on the offset. Where a plant has no wave filter, there
/// is nothing to multiply.
fn wave_next(by_p: i64, by_q: i64, by_place: i64, p: i64, q: i64, off: i128) -> i128
    requires by_p { unsigned_abs by_p ≤ 2 ^ 30 }
    requires by_q { unsigned_abs by_q ≤ 2 ^ 30 }
    requires by_place { unsigned_abs by_place ≤ 2 ^ 30 }
    requires p { unsigned_abs p ≤ 2 ^ 56 }
    requires q { unsigned_abs q ≤ 2 ^ 56 }
    requires off { unsigned_abs off ≤ 2 ^ 58 }
    ensures { let swung = (by_p *ℤ p) +ℤ (by_q *ℤ q) in
        result ≡ floor_of (swung +ℤ (by_place *ℤ off)) full_scale }
{
    if p == 0 && q == 0 && by_place == 0 {
        0
    } else {
        filtered(by_p, by_q, by_place, p, q, off)
    }
}

/// The same by its products. It is a call, so that a plant without a wave filter keeps the rest in registers.
#[inline(never)]
fn filtered(by_p: i64, by_q: i64, by_place: i64, p: i64, q: i64, off: i128) -> i128
    requires by_p { unsigned_abs by_p ≤ 2 ^ 30 }
    requires by_q { unsigned_abs by_q ≤ 2 ^ 30 }
    requires by_place { unsigned_abs by_place ≤ 2 ^ 30 }
    requires p { unsigned_abs p ≤ 2 ^ 56 }
    requires q { unsigned_abs q ≤ 2 ^ 56 }
    requires off { unsigned_abs off ≤ 2 ^ 58 }
    ensures { let swung = (by_p *ℤ p) +ℤ (by_q *ℤ q) in
        result ≡ floor_of (swung +ℤ (by_place *ℤ off)) full_scale }
{
    let swung = sum(product(by_p, p as i128), product(by_q, q as i128));
    let whole = sum(swung, product(by_place, off));
    floor_div(whole, Q)
}

/// A component of these numbers.
fn narrowed(eta: i128, beta: i128, vel: i128, wave_p: i128, wave_q: i128) -> Component
    requires { let x : Component = record
        { eta = eta; beta = beta; vel = vel; wave_p = wave_p; wave_q = wave_q }
        in IsComponentWithin x }
    ensures { result ≡ record
        { eta = eta; beta = beta; vel = vel; wave_p = wave_p; wave_q = wave_q } }
{
    Component {
        eta: narrow(eta),
        beta: narrow(beta),
        vel: narrow(vel),
        wave_p: narrow(wave_p),
        wave_q: narrow(wave_q),
    }
}
