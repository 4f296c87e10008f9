//! One cycle of all three coordinates.
ghost use Rattle.std.specs.Prelude.{◌≡◌, ◌==◌, ◌&&◌, ◌≤◌, ◌<◌, ◌^◌, pos, ◌+ℤ◌, ◌-ℤ◌, unsigned_abs};
ghost use Rattle.std.specs.Int.{int_rem_euclid};
ghost use Rattle.dp_fixed.specs.{wrap_of};
ghost use Rattle.dp_plant.specs.{IsSetpointWithin, entry, turn};
ghost use Rattle.dp_guide.specs.Course.{IsOnCourse, velocity_of};
ghost use Rattle.dp_guide.specs.Motion as motion;
ghost use Rattle.dp_guide.specs.Motion.{IsLimit, IsMotion, IsStep, left_east, left_heading, left_north};

use crate::motion::{Motion, Velocity};
use crate::velocity::next_velocity;
use dp_fixed::{difference, narrow, wrap};
use dp_plant::{Place, Setpoint};

/// 360 degrees in nanodegrees.
const TURN: i128 = 360_000_000_000;

/// The motion a cycle later.
#[tactic(auto, unfolding(crate::specs::Motion::stepped))]
pub(crate) fn stepped(m: &Motion) -> Motion
    requires { IsMotion m.now }
    ensures value { result ≡ motion.stepped m.now }
    ensures guided { IsStep m.now result }
    ensures kept { IsMotion result }
{
    let velocity = velocity_next(m);
    Motion {
        limits: m.limits,
        here: moved(&m.here, velocity),
        target: m.target,
        velocity,
    }
}

/// The velocities of the next cycle.
fn velocity_next(m: &Motion) -> Velocity
    requires { IsMotion m.now }
    ensures value { result ≡ motion.velocity_next m.now }
    ensures north { unsigned_abs result.north ≤ 2 ^ 31 }
    ensures east { unsigned_abs result.east ≤ 2 ^ 31 }
    ensures heading { unsigned_abs result.heading ≤ 2 ^ 31 }
{
    Velocity {
        north: next_north(m),
        east: next_east(m),
        heading: next_heading(m),
    }
}

/// The next velocity to the north.
fn next_north(m: &Motion) -> i64
    requires { IsMotion m.now }
    ensures value { result ≡ velocity_of (entry m.now.limits.rate 0) (entry m.now.limits.accel 0)
        m.now.velocity.north (left_north m.now) }
    ensures small { unsigned_abs result ≤ 2 ^ 31 }
{
    coordinate(m, 0, m.velocity.north, left_north(m))
}

/// The next velocity to the east.
fn next_east(m: &Motion) -> i64
    requires { IsMotion m.now }
    ensures value { result ≡ velocity_of (entry m.now.limits.rate 1) (entry m.now.limits.accel 1)
        m.now.velocity.east (left_east m.now) }
    ensures small { unsigned_abs result ≤ 2 ^ 31 }
{
    coordinate(m, 1, m.velocity.east, left_east(m))
}

/// The next velocity of the heading.
fn next_heading(m: &Motion) -> i64
    requires { IsMotion m.now }
    ensures value { result ≡ velocity_of (entry m.now.limits.rate 2) (entry m.now.limits.accel 2)
        m.now.velocity.heading (left_heading m.now) }
    ensures small { unsigned_abs result ≤ 2 ^ 31 }
{
    coordinate(m, 2, m.velocity.heading, left_heading(m))
}

/// The next velocity of one coordinate, by its number.
fn coordinate(m: &Motion, axis: usize, v: i64, d: i128) -> i64
    requires axis { axis < 3 }
    requires rate { IsLimit (entry m.now.limits.rate axis) }
    requires accel { IsLimit (entry m.now.limits.accel axis) }
    requires distance { unsigned_abs d ≤ 2 ^ 100 }
    requires on_course { IsOnCourse (entry m.now.limits.rate axis) (entry m.now.limits.accel axis) v d }
    ensures value { result ≡ velocity_of (entry m.now.limits.rate axis) (entry m.now.limits.accel axis) v d }
    ensures small { unsigned_abs result ≤ 2 ^ 31 }
{
    let rate = entry_of(&m.limits.rate, axis);
    let accel = entry_of(&m.limits.accel, axis);
    velocity_within(rate, accel, v, d)
}

/// The next velocity of one coordinate.
fn velocity_within(rate: i64, accel: i64, v: i64, d: i128) -> i64
    requires rate { IsLimit rate }
    requires accel { IsLimit accel }
    requires distance { unsigned_abs d ≤ 2 ^ 100 }
    requires on_course { IsOnCourse rate accel v d }
    ensures value { result ≡ velocity_of rate accel v d }
    ensures small { unsigned_abs result ≤ 2 ^ 31 }
{
    narrow(next_velocity(rate as i128, accel as i128, v as i128, d))
}

/// How far the target lies north.
fn left_north(m: &Motion) -> i128
    requires { IsMotion m.now }
    ensures value { result ≡ left_north m.now }
    ensures near { unsigned_abs result ≤ 2 ^ 100 }
{
    away(m.here.at.north, m.target.at.north)
}

/// How far it lies east.
fn left_east(m: &Motion) -> i128
    requires { IsMotion m.now }
    ensures value { result ≡ left_east m.now }
    ensures near { unsigned_abs result ≤ 2 ^ 100 }
{
    away(m.here.at.east, m.target.at.east)
}

/// How far the heading has to turn.
fn left_heading(m: &Motion) -> i128
    requires { IsMotion m.now }
    ensures value { result ≡ left_heading m.now }
    ensures near { unsigned_abs result ≤ 2 ^ 100 }
{
    turned(m.here.psi, m.target.psi)
}

/// What is between two numbers.
fn away(from: i64, to: i64) -> i128
    ensures value { result ≡ to -ℤ from }
    ensures near { unsigned_abs result ≤ 2 ^ 65 }
{
    difference(to as i128, from as i128)
}

/// What is between two headings, the shorter way round.
fn turned(from: i64, to: i64) -> i128
    ensures value { result ≡ wrap_of (to -ℤ from) turn }
    ensures near { unsigned_abs result ≤ 2 ^ 100 }
{
    wrap(away(from, to), TURN)
}

/// A setpoint a cycle later.
fn moved(s: &Setpoint, v: Velocity) -> Setpoint
    requires place { IsSetpointWithin s.now }
    requires north { unsigned_abs v.north ≤ 2 ^ 31 }
    requires east { unsigned_abs v.east ≤ 2 ^ 31 }
    requires heading { unsigned_abs v.heading ≤ 2 ^ 31 }
    ensures { result ≡ motion.moved s.now v }
{
    Setpoint {
        at: Place {
            north: plus(s.at.north, v.north),
            east: plus(s.at.east, v.east),
        },
        psi: heading_plus(s.psi, v.heading),
    }
}

/// A coordinate a cycle later.
fn plus(at: i64, v: i64) -> i64
    requires at { unsigned_abs at ≤ 2 ^ 43 }
    requires velocity { unsigned_abs v ≤ 2 ^ 31 }
    ensures { result ≡ at +ℤ v }
{
    at + v
}

/// A heading a cycle later.
fn heading_plus(psi: i64, v: i64) -> i64
    requires at { unsigned_abs psi ≤ 2 ^ 43 }
    requires velocity { unsigned_abs v ≤ 2 ^ 31 }
    ensures { result ≡ int_rem_euclid (psi +ℤ v) turn }
{
    (psi + v).rem_euclid(TURN as i64)
}

/// All three coordinates are on their targets, and stand.
pub(crate) fn is_resting(m: &Motion) -> bool
    requires { IsMotion m.now }
    ensures { result ≡ motion.is_resting m.now }
{
    is_there(m) && is_still(m.velocity)
}

fn is_there(m: &Motion) -> bool
    requires { IsMotion m.now }
    ensures { result ≡ motion.is_there m.now }
{
    are_zeros(left_north(m), left_east(m), left_heading(m))
}

fn are_zeros(north: i128, east: i128, heading: i128) -> bool
    ensures { result ≡ (unsigned_abs north == 0 && unsigned_abs east == 0 && unsigned_abs heading == 0) }
{
    north == 0 && east == 0 && heading == 0
}

fn is_still(v: Velocity) -> bool
    ensures { result ≡ motion.is_still v }
{
    v.north == 0 && v.east == 0 && v.heading == 0
}

/// The number of a coordinate.
pub(crate) fn entry_of(numbers: &[i64; 3], axis: usize) -> i64
    requires { axis < 3 }
    ensures { result ≡ entry numbers.now axis }
{
    numbers[axis]
}
