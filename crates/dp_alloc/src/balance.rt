//! What the thrusters give together.
ghost use Rattle.std.specs.Prelude.{◌≡◌, ◌≤◌, ◌<◌, ◌^◌, ◌*◌, pos, ◌-ℤ◌, ◌*ℤ◌, unsigned_abs, length, All};
ghost use Rattle.dp_fixed.specs.{full_scale};
ghost use Rattle.dp_plant.specs.{AreMasses, IsShareRow, IsThrusterWithin, entry};
ghost use Rattle.dp_alloc.specs.Balance.{effect_of, error_of, given, wanted};

use dp_fixed::{Q, difference, sum};
use dp_plant::Thruster;
use dp_trig::Trig;

/// By how much all thrusters together miss what they are to give on an axis, for a unit of demand on the column's axis.
#[tactic(auto, unfolding(crate::specs::Balance::error_of))]
pub(crate) fn error_of(
    trig: &Trig,
    mass: &[i64; 3],
    thrusters: &[Thruster],
    rows: &[[i64; 3]],
    axis: usize,
    column: usize,
) -> i128
    requires mass { AreMasses mass.now }
    requires thrusters { All IsThrusterWithin thrusters.now }
    requires rows { All IsShareRow rows.now }
    requires same { length rows.now ≡ length thrusters.now }
    requires few { length rows.now ≤ 12 }
    requires axis { axis < 3 }
    requires column { column < 3 }
    ensures { result ≡ error_of mass.now thrusters.now rows.now axis column }
{
    let given = given(trig, thrusters, rows, axis, column);
    difference(given, wanted(mass, axis, column)).abs()
}

/// What they give: the sum of the effects of their shares.
fn given(trig: &Trig, thrusters: &[Thruster], rows: &[[i64; 3]], axis: usize, column: usize) -> i128
    requires thrusters { All IsThrusterWithin thrusters.now }
    requires rows { All IsShareRow rows.now }
    requires same { length rows.now ≡ length thrusters.now }
    requires few { length rows.now ≤ 12 }
    requires axis { axis < 3 }
    requires column { column < 3 }
    ensures value { result ≡ given axis column thrusters.now rows.now }
    ensures bound { unsigned_abs result ≤ 12 * 2 ^ 82 }
{
    let mut total = 0;
    for k in 0..rows.len() {
        let share = share_of(&rows[k], column);
        total = sum(total, times(effect_of(trig, &thrusters[k], axis), share));
    }
    total
}

fn share_of(row: &[i64; 3], column: usize) -> i64
    requires row { IsShareRow row.now }
    requires column { column < 3 }
    ensures value { result ≡ entry row.now column }
    ensures bound { unsigned_abs result ≤ 2 ^ 31 }
{
    row[column]
}

/// The surge, the sway or the turning moment that one newton of a thruster gives.
fn effect_of(trig: &Trig, t: &Thruster, axis: usize) -> i128
    requires thruster { IsThrusterWithin t.now }
    requires axis { axis < 3 }
    ensures value { result ≡ entry (effect_of t.now) axis }
    ensures bound { unsigned_abs result ≤ 2 ^ 51 }
{
    let (c, s) = trig.pair(t.azimuth);
    if axis == 0 {
        c as i128
    } else if axis == 1 {
        s as i128
    } else {
        moment(t.at[0], t.at[1], c, s)
    }
}

/// The turning moment of one newton, by the lever arm and the sine pair.
fn moment(ahead: i64, starboard: i64, cosine: i64, sine: i64) -> i128
    requires ahead { unsigned_abs ahead ≤ 2 ^ 19 }
    requires starboard { unsigned_abs starboard ≤ 2 ^ 19 }
    requires cosine { unsigned_abs cosine ≤ 2 ^ 30 }
    requires sine { unsigned_abs sine ≤ 2 ^ 30 }
    ensures value { result ≡ (ahead *ℤ sine) -ℤ (starboard *ℤ cosine) }
    ensures bound { unsigned_abs result ≤ 2 ^ 51 }
{
    difference(times(ahead as i128, sine), times(starboard as i128, cosine))
}

/// A number times a share or a part of a sine pair.
fn times(a: i128, b: i64) -> i128
    requires a { unsigned_abs a ≤ 2 ^ 51 }
    requires b { unsigned_abs b ≤ 2 ^ 31 }
    ensures value { result ≡ a *ℤ b }
    ensures bound { unsigned_abs result ≤ 2 ^ 31 * unsigned_abs a }
{
    product(a, b)
}

fn product(a: i128, b: i64) -> i128
    requires a { unsigned_abs a ≤ 2 ^ 51 }
    requires b { unsigned_abs b ≤ 2 ^ 31 }
    ensures { result ≡ a *ℤ b }
{
    a * b as i128
}

/// What they are to give.
fn wanted(mass: &[i64; 3], axis: usize, column: usize) -> i128
    requires mass { AreMasses mass.now }
    requires axis { axis < 3 }
    ensures value { result ≡ wanted mass.now axis column }
    ensures bound { unsigned_abs result ≤ 2 ^ 70 }
{
    if axis == column {
        scaled(mass[axis])
    } else {
        0
    }
}

/// A mass number or a tolerance, times the scale of sine pairs.
pub(crate) fn scaled(x: i64) -> i128
    requires { unsigned_abs x ≤ 2 ^ 40 }
    ensures value { result ≡ full_scale *ℤ x }
    ensures bound { unsigned_abs result ≤ 2 ^ 70 }
{
    Q * x as i128
}
