//! The loop of three states: place, bias and velocity.
ghost use Rattle.std.specs.Prelude.{◌≡◌, ◌<◌, ◌^◌, [], ◌∷◌, pos, All};
ghost use Rattle.dp_fixed.specs.{full_scale};
ghost use Rattle.dp_form.specs.{IsWithin};
ghost use Rattle.dp_plant.specs.{IsLawGains, IsObserverGains, entry};
ghost use Rattle.dp_cert.specs.Loop.{correction, rounding};
ghost use Rattle.dp_cert.specs.{IsSmallAxis, IsSmallLoop, axis_three, bias_row, loop_three, place_row, velocity_row};

use crate::loops::{AxisLoop, Loop, gain_of, less, less_both, minus, minus_both, wide};
use dp_fixed::{FULL_SCALE, Q};
use dp_plant::Gains;

/// The loop of gains without a wave filter.
#[tactic(auto, unfolding(crate::specs::Loop::loop_three))]
pub(crate) fn loop_three(g: &Gains) -> Loop<3>
    requires observer { IsObserverGains g.now }
    requires law { IsLawGains g.now }
    ensures value { result ≡ loop_three g.now }
    ensures small { IsSmallLoop result }
{
    Loop {
        surge: axis_loop(g, 0),
        sway: axis_loop(g, 1),
        correction: correction(g),
        rounding: rounding(),
    }
}

fn axis_loop(g: &Gains, axis: usize) -> AxisLoop<3>
    requires axis { axis < 2 }
    requires observer { IsObserverGains g.now }
    requires law { IsLawGains g.now }
    ensures value { result ≡ axis_three g.now axis }
    ensures small { IsSmallAxis result }
{
    AxisLoop {
        saturated: rows(g, saturated_row(g, axis)),
        clamped: rows(g, clamped_row(g, axis)),
        free: rows(g, free_row(g, axis)),
        output: output_row(g, axis, Q),
        clamped_output: output_row(g, axis, 0),
    }
}

// The rows of a vertex, by that of the velocity.
fn rows(g: &Gains, velocity: [i128; 3]) -> [[i128; 3]; 3]
    requires observer { IsObserverGains g.now }
    requires velocity { All (IsWithin (2 ^ 35)) velocity }
    ensures value { result ≡ place_row g.now ∷ bias_row g.now ∷ velocity ∷ [] }
    ensures small { All (All (IsWithin (2 ^ 35))) result }
{
    [place_row(g), bias_row(g), velocity]
}

pub(crate) fn place_row(g: &Gains) -> [i128; 3]
    requires observer { IsObserverGains g.now }
    ensures value { result ≡ place_row g.now }
    ensures small { All (IsWithin (2 ^ 35)) result }
{
    three(less(FULL_SCALE, g.k2), 0, Q)
}

pub(crate) fn bias_row(g: &Gains) -> [i128; 3]
    requires observer { IsObserverGains g.now }
    ensures value { result ≡ bias_row g.now }
    ensures small { All (IsWithin (2 ^ 35)) result }
{
    three(minus(g.k3), less(FULL_SCALE, g.leak), 0)
}

// With the thrust at a limit.
pub(crate) fn saturated_row(g: &Gains, axis: usize) -> [i128; 3]
    requires observer { IsObserverGains g.now }
    ensures value { result ≡ velocity_row g.now axis 0 }
    ensures small { All (IsWithin (2 ^ 35)) result }
{
    three(minus(g.k4), Q, less(FULL_SCALE, g.damp))
}

// With the bias at its limit.
pub(crate) fn clamped_row(g: &Gains, axis: usize) -> [i128; 3]
    requires axis { axis < 2 }
    requires observer { IsObserverGains g.now }
    requires law { IsLawGains g.now }
    ensures value { result ≡ velocity_row g.now axis 1 }
    ensures small { All (IsWithin (2 ^ 35)) result }
{
    let kp = gain_of(&g.kp, axis);
    let kd = gain_of(&g.kd, axis);
    three(minus_both(g.k4, kp), Q, less_both(FULL_SCALE, g.damp, kd))
}

// With neither at a limit.
pub(crate) fn free_row(g: &Gains, axis: usize) -> [i128; 3]
    requires axis { axis < 2 }
    requires observer { IsObserverGains g.now }
    requires law { IsLawGains g.now }
    ensures value { result ≡ velocity_row g.now axis 2 }
    ensures small { All (IsWithin (2 ^ 35)) result }
{
    let kp = gain_of(&g.kp, axis);
    let kd = gain_of(&g.kd, axis);
    three(minus_both(g.k4, kp), 0, less_both(FULL_SCALE, g.damp, kd))
}

// What the demand follows, with the bias' share of it.
pub(crate) fn output_row(g: &Gains, axis: usize, bias: i128) -> [i128; 3]
    requires axis { axis < 2 }
    requires law { IsLawGains g.now }
    requires bias { IsWithin (2 ^ 35) bias }
    ensures value { result ≡ entry g.now.kp axis ∷ bias ∷ entry g.now.kd axis ∷ [] }
    ensures small { All (IsWithin (2 ^ 35)) result }
{
    three(wide(gain_of(&g.kp, axis)), bias, wide(gain_of(&g.kd, axis)))
}

pub(crate) fn correction(g: &Gains) -> [i128; 3]
    requires observer { IsObserverGains g.now }
    ensures value { result ≡ correction g.now }
    ensures small { All (IsWithin (2 ^ 35)) result }
{
    three(wide(g.k2), wide(g.k3), wide(g.k4))
}

pub(crate) fn rounding() -> [i128; 3]
    ensures value { result ≡ rounding }
    ensures small { All (IsWithin (2 ^ 35)) result }
{
    three(1, 1, 3)
}

fn three(a: i128, b: i128, c: i128) -> [i128; 3]
    requires a { IsWithin (2 ^ 35) a }
    requires b { IsWithin (2 ^ 35) b }
    requires c { IsWithin (2 ^ 35) c }
    ensures value { result ≡ a ∷ b ∷ c ∷ [] }
    ensures small { All (IsWithin (2 ^ 35)) result }
{
    [a, b, c]
}
