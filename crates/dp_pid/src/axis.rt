//! One axis: what is asked of it, and its answer.
ghost use Rattle.std.specs.Prelude.{◌≡◌, ◌≤◌, ◌+◌, ◌*◌, ◌^◌, pos, neg_ℤ, ◌-ℤ◌, ◌*ℤ◌, ◌≤ℤ◌, ◌<ℤ◌, unsigned_abs};
ghost use Rattle.dp_fixed.specs.{clamp_of, floor_of, full_scale, full_scale_squared};
ghost use Rattle.dp_plant.specs.{IsShare};
ghost use Rattle.dp_pid.specs.Axis.{IsAlongWithin, IsAxis, IsPlaneAnswer, IsTurnWithin, IsYawAnswer, asked_of_plane, asked_of_yaw, times_scale_twice};

use dp_fixed::{FULL_SCALE, Q, clamp, difference, floor_div, narrow, negated, product};

/// The square of the scale.
const FULL_SCALE_SQUARED: i128 = 1 << 60;

/// The gains of one axis, spring, damper and limit of the bias, and the range of its demand.
#[derive(Clone, Copy)]
pub(crate) struct Axis {
    pub kp: i64,
    pub kd: i64,
    pub bias: i64,
    pub lo: i64,
    pub hi: i64,
}

/// An error, a velocity and a bias along one axis: times the scale for surge and sway, as they stand for yaw.
#[derive(Clone, Copy)]
pub(crate) struct Along {
    pub error: i128,
    pub velocity: i128,
    pub bias: i128,
}

/// What is demanded of one axis, and whether the clamp to its range changed what was asked.
#[derive(Clone, Copy)]
pub(crate) struct Answer {
    pub demand: i64,
    pub limited: bool,
}

impl Axis {
    /// The answer of surge or sway, by a push of the wind.
    pub(crate) fn on_plane(self, along: Along, wind: i64) -> Answer
        requires axis { IsAxis (pos (2 ^ 31)) self }
        requires along { IsAlongWithin along }
        requires wind { unsigned_abs wind ≤ 2 ^ 31 }
        ensures { IsPlaneAnswer self (asked_of_plane self along wind) result }
    {
        answered_on_plane(asked_on_plane(self, along, wind), self)
    }

    /// The answer of yaw.
    pub(crate) fn in_yaw(self, along: Along, wind: i64) -> Answer
        requires axis { IsAxis (pos (2 ^ 38)) self }
        requires along { IsTurnWithin along }
        requires wind { unsigned_abs wind ≤ 2 ^ 31 }
        ensures { IsYawAnswer self (asked_of_yaw self along wind) result }
    {
        answered_in_yaw(asked_in_yaw(self, along, wind), self)
    }
}

/// The answer of surge or sway: the whole part of what is asked is compared, so most demands need no clamp in 128 bits.
fn answered_on_plane(asked: i128, axis: Axis) -> Answer
    requires axis { IsAxis (pos (2 ^ 31)) axis }
    requires asked { unsigned_abs asked ≤ 2 ^ 121 }
    ensures { IsPlaneAnswer axis asked result }
{
    let whole = divided_twice(asked);
    if whole < axis.lo {
        demanded(axis.lo, true)
    } else if whole < axis.hi {
        demanded(whole, false)
    } else {
        demanded(axis.hi, times_scale_twice(axis.hi) != asked)
    }
}

fn demanded(demand: i64, limited: bool) -> Answer
    ensures demand { result.demand ≡ demand }
    ensures limited { result.limited ≡ limited }
{
    Answer { demand, limited }
}

/// The quotient by the square of the scale, rounded down.
fn divided_twice(z: i128) -> i64
    requires { unsigned_abs z ≤ 2 ^ 121 }
    ensures { result ≡ floor_of z full_scale_squared }
{
    narrow(floor_div(z, FULL_SCALE_SQUARED))
}

/// What is asked of surge or sway, over the square of the scale.
fn asked_on_plane(axis: Axis, along: Along, wind: i64) -> i128
    requires axis { IsAxis (pos (2 ^ 31)) axis }
    requires along { IsAlongWithin along }
    requires wind { unsigned_abs wind ≤ 2 ^ 31 }
    ensures value { result ≡ asked_of_plane axis along wind }
    ensures bound { unsigned_abs result ≤ 2 ^ 121 }
{
    let spring = spring(axis.kp, axis.kd, along);
    against(
        spring,
        held_on_plane(along.bias, axis.bias),
        times_scale_twice(wind),
    )
}

/// What is asked: the spring and the damper, against the bias and the wind.
fn against(spring: i128, held: i128, wind: i128) -> i128
    requires spring { unsigned_abs spring ≤ 2 ^ 119 }
    requires held { unsigned_abs held ≤ 2 ^ 91 }
    requires wind { unsigned_abs wind ≤ 2 ^ 91 }
    ensures value { result ≡ (spring -ℤ held) -ℤ wind }
    ensures bound { unsigned_abs result
        ≤ unsigned_abs spring + unsigned_abs held + unsigned_abs wind }
{
    difference(difference(spring, held), wind)
}

/// A bias of surge or sway within its limit, times the scale once more.
fn held_on_plane(bias: i128, limit: i64) -> i128
    requires bias { unsigned_abs bias ≤ 2 ^ 88 }
    requires low { pos 0 ≤ℤ limit }
    requires high { unsigned_abs limit ≤ 2 ^ 31 }
    ensures value { result ≡ full_scale
        *ℤ clamp_of bias (neg_ℤ (full_scale *ℤ limit)) (full_scale *ℤ limit) }
    ensures bound { unsigned_abs result ≤ 2 ^ 91 }
{
    product(FULL_SCALE, limited_bias(bias, limit))
}

/// A bias of surge or sway, times the scale, within its limit. Most biases are within it, which their whole parts show.
fn limited_bias(bias: i128, limit: i64) -> i128
    requires bias { unsigned_abs bias ≤ 2 ^ 88 }
    requires low { pos 0 ≤ℤ limit }
    requires high { unsigned_abs limit ≤ 2 ^ 31 }
    ensures value { result
        ≡ clamp_of bias (neg_ℤ (full_scale *ℤ limit)) (full_scale *ℤ limit) }
    ensures bound { unsigned_abs result ≤ 2 ^ 61 }
{
    let whole = divided(bias);
    if -limit <= whole && whole < limit {
        bias
    } else {
        clamped(bias, times_scale(limit))
    }
}

/// A bias within a limit.
fn clamped(bias: i128, limit: i128) -> i128
    requires low { pos 0 ≤ℤ limit }
    requires high { unsigned_abs limit ≤ 2 ^ 61 }
    ensures value { result ≡ clamp_of bias (neg_ℤ limit) limit }
    ensures bound { unsigned_abs result ≤ unsigned_abs limit }
{
    clamp(bias, negated(limit), limit)
}

/// A number times the square of the scale.
fn times_scale_twice(x: i64) -> i128
    requires { unsigned_abs x ≤ 2 ^ 31 }
    ensures value { result ≡ times_scale_twice x }
    ensures bound { unsigned_abs result ≤ 2 ^ 91 }
{
    product(FULL_SCALE, times_scale(x))
}

/// The answer of yaw.
fn answered_in_yaw(asked: i128, axis: Axis) -> Answer
    requires axis { IsAxis (pos (2 ^ 38)) axis }
    requires asked { unsigned_abs asked ≤ 2 ^ 91 }
    ensures { IsYawAnswer axis asked result }
{
    let whole = divided(asked);
    if whole < axis.lo {
        demanded(axis.lo, true)
    } else if whole < axis.hi {
        demanded(whole, false)
    } else {
        demanded(axis.hi, times_scale(axis.hi) != asked)
    }
}

/// The quotient by the scale, rounded down.
fn divided(z: i128) -> i64
    requires { unsigned_abs z ≤ 2 ^ 91 }
    ensures { result ≡ floor_of z full_scale }
{
    narrow(floor_div(z, Q))
}

/// What is asked of yaw, over the scale.
fn asked_in_yaw(axis: Axis, along: Along, wind: i64) -> i128
    requires axis { IsAxis (pos (2 ^ 38)) axis }
    requires along { IsTurnWithin along }
    requires wind { unsigned_abs wind ≤ 2 ^ 31 }
    ensures value { result ≡ asked_of_yaw axis along wind }
    ensures bound { unsigned_abs result ≤ 2 ^ 91 }
{
    let spring = spring(axis.kp, axis.kd, along);
    against(
        spring,
        held(along.bias, axis.bias as i128),
        times_scale(wind),
    )
}

/// The spring on the error and the damper on the velocity.
fn spring(kp: i64, kd: i64, along: Along) -> i128
    requires kp { IsShare kp }
    requires kd { IsShare kd }
    requires along { IsAlongWithin along }
    ensures value { result ≡ neg_ℤ (kp *ℤ along.error) -ℤ (kd *ℤ along.velocity) }
    ensures bound { unsigned_abs result
        ≤ 2 ^ 30 * unsigned_abs along.error + 2 ^ 30 * unsigned_abs along.velocity }
{
    difference(
        negated(product(kp, along.error)),
        product(kd, along.velocity),
    )
}

/// A bias of yaw within its limit, times the scale.
fn held(bias: i128, limit: i128) -> i128
    requires low { pos 0 ≤ℤ limit }
    requires high { unsigned_abs limit ≤ 2 ^ 38 }
    ensures value { result ≡ full_scale *ℤ clamp_of bias (neg_ℤ limit) limit }
    ensures bound { unsigned_abs result ≤ 2 ^ 68 }
{
    product(FULL_SCALE, clamped(bias, limit))
}

/// A number times the scale.
fn times_scale(x: i64) -> i128
    requires { unsigned_abs x ≤ 2 ^ 38 }
    ensures value { result ≡ full_scale *ℤ x }
    ensures bound { unsigned_abs result ≤ 2 ^ 68 }
{
    product(FULL_SCALE, x as i128)
}
