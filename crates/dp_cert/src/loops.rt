//! The control loop along one coordinate as matrices over the scale, and the steps that make their numbers.
ghost use Rattle.std.specs.Prelude.{◌≡◌, ◌≤◌, ◌<◌, ◌^◌, neg_ℤ, ◌-ℤ◌, unsigned_abs};
ghost use Rattle.dp_form.specs.{IsWithin};
ghost use Rattle.dp_plant.specs.{IsShare, entry};

use dp_fixed::difference;

/// The loop along one axis: its matrix with the thrust at a limit, with the bias at its limit, and with neither; what the demand
/// follows, and what it follows with the bias at its limit.
#[derive(Clone, Copy)]
pub struct AxisLoop<const N: usize> {
    pub saturated: [[i128; N]; N],
    pub clamped: [[i128; N]; N],
    pub free: [[i128; N]; N],
    pub output: [i128; N],
    pub clamped_output: [i128; N],
}

/// The loop along both axes, how a measured place corrects the states, and how far rounding moves them.
#[derive(Clone, Copy)]
pub struct Loop<const N: usize> {
    pub surge: AxisLoop<N>,
    pub sway: AxisLoop<N>,
    pub correction: [i128; N],
    pub rounding: [i128; N],
}

pub(crate) fn minus(a: i64) -> i128
    requires a { unsigned_abs a ≤ 2 ^ 30 }
    ensures value { result ≡ neg_ℤ a }
    ensures small { IsWithin (2 ^ 35) result }
{
    -(a as i128)
}

pub(crate) fn less(a: i64, b: i64) -> i128
    requires a { unsigned_abs a ≤ 2 ^ 30 }
    requires b { unsigned_abs b ≤ 2 ^ 30 }
    ensures value { result ≡ a -ℤ b }
    ensures small { IsWithin (2 ^ 35) result }
{
    a as i128 - b as i128
}

pub(crate) fn minus_both(a: i64, b: i64) -> i128
    requires a { unsigned_abs a ≤ 2 ^ 30 }
    requires b { unsigned_abs b ≤ 2 ^ 30 }
    ensures value { result ≡ neg_ℤ a -ℤ b }
    ensures small { IsWithin (2 ^ 35) result }
{
    -(a as i128) - b as i128
}

pub(crate) fn less_both(a: i64, b: i64, c: i64) -> i128
    requires a { unsigned_abs a ≤ 2 ^ 30 }
    requires b { unsigned_abs b ≤ 2 ^ 30 }
    requires c { unsigned_abs c ≤ 2 ^ 30 }
    ensures value { result ≡ (a -ℤ b) -ℤ c }
    ensures small { IsWithin (2 ^ 35) result }
{
    difference(less(a, b), wide(c))
}

/// A gain in 128 bits.
pub(crate) fn wide(a: i64) -> i128
    requires a { unsigned_abs a ≤ 2 ^ 30 }
    ensures value { result ≡ a }
    ensures small { IsWithin (2 ^ 35) result }
{
    a as i128
}

/// A gain of surge or sway.
pub(crate) fn gain_of(gains: &[i64; 2], axis: usize) -> i64
    requires axis { axis < 2 }
    requires surge { IsShare (entry gains.now 0) }
    requires sway { IsShare (entry gains.now 1) }
    ensures value { result ≡ entry gains.now axis }
    ensures share { IsShare result }
{
    if axis == 0 { gains[0] } else { gains[1] }
}
