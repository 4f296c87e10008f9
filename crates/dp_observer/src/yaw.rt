//! One cycle of the observer of yaw.
ghost use Rattle.std.specs.Prelude.{◌≡◌, ◌≤◌, ◌<◌, ◌^◌, ◌*◌, pos, ◌-ℤ◌, ◌*ℤ◌, unsigned_abs, IfSome, Some};
ghost use Rattle.std.specs.Int.{int_rem_euclid};
ghost use Rattle.dp_fixed.specs.{full_scale, wrap_of};
ghost use Rattle.dp_plant.specs.declared.yaw.YawState.{YawState};
ghost use Rattle.dp_plant.specs.{IsMeasuredHeading, IsYawGains, IsYawPush, IsYawWithin, turn, yaw_next};

use crate::motion::{bias_next, place_next, velocity_next};
use dp_fixed::{less, narrow, product, wrap_near};
use dp_plant::{YawGains, YawState};

/// 360 degrees in nanodegrees.
const TURN: i64 = 360_000_000_000;

/// Takes one cycle: the measured heading in hundredths of a degree, if there is one, and what pushes in yaw, the demand and the wind
/// together, in nanodegrees per cycle squared, positive clockwise. Each number of the next state has to lie within ±2^56.
pub fn update(x: &mut YawState, gains: &YawGains, h: Option<u32>, push: i64)
    requires gains { IsYawGains gains.now }
    requires state { IsYawWithin x.old }
    requires heading { IfSome h (λ n. IsMeasuredHeading n) }
    requires push { IsYawPush push }
    requires next { IsYawWithin (yaw_next gains.now x.old h push) }
    ensures { x.new ≡ yaw_next gains.now x.old h push }
{
    let Some(heading) = h else {
        return;
    };
    *x = next(x, gains, heading, push);
}

/// A cycle later, by the measured heading.
#[tactic(auto, using(crate::proofs::YawShares::shares))]
fn next(x: &YawState, gains: &YawGains, h: u32, push: i64) -> YawState
    requires gains { IsYawGains gains.now }
    requires state { IsYawWithin x.now }
    requires heading { IsMeasuredHeading h }
    requires push { IsYawPush push }
    requires next { IsYawWithin (yaw_next gains.now x.now (Some h) push) }
    ensures { result ≡ yaw_next gains.now x.now (Some h) push }
{
    let off = offset(x, h);
    let psi = turned(place_next(gains.k2, x.psi, x.rate, off));
    let beta = bias_next(gains.leak, gains.k3, x.beta, off);
    let rate = velocity_next(gains.damp, gains.k4, x.beta, x.rate, scaled_push(push), off);
    narrowed(psi, beta, rate)
}

/// How far the measured heading is from the estimate, the nearer way round.
fn offset(x: &YawState, h: u32) -> i128
    requires state { IsYawWithin x.now }
    requires heading { IsMeasuredHeading h }
    ensures value { result ≡ wrap_of (pos (h * 10 ^ 7) -ℤ x.now.psi) turn }
    ensures bound { unsigned_abs result ≤ 2 ^ 38 }
{
    wrap_near(less(nanodegrees(h), x.psi), TURN) as i128
}

/// A heading in nanodegrees.
fn nanodegrees(h: u32) -> i64
    requires { IsMeasuredHeading h }
    ensures value { result ≡ pos (h * 10 ^ 7) }
    ensures bound { unsigned_abs result ≤ 2 ^ 39 }
{
    h as i64 * 10_000_000
}

/// A heading, brought to the turn from 0 on, where most are as they stand.
#[tactic(auto, using(dp_fixed::proofs::NearTurns::rem_small))]
fn turned(psi: i128) -> i128
    ensures { result ≡ int_rem_euclid psi turn }
{
    if 0 <= psi && psi < TURN as i128 {
        psi
    } else {
        psi.rem_euclid(TURN as i128)
    }
}

/// What pushes, times the scale.
fn scaled_push(push: i64) -> i128
    requires { IsYawPush push }
    ensures value { result ≡ full_scale *ℤ push }
    ensures bound { unsigned_abs result ≤ 2 ^ 92 }
{
    product(1 << 30, push as i128)
}

/// A state of these numbers.
fn narrowed(psi: i128, beta: i128, rate: i128) -> YawState
    requires { let x : YawState = record { psi = psi; beta = beta; rate = rate } in IsYawWithin x }
    ensures { result ≡ record { psi = psi; beta = beta; rate = rate } }
{
    YawState {
        psi: narrow(psi),
        beta: narrow(beta),
        rate: narrow(rate),
    }
}
