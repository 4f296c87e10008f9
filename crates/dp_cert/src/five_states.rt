//! The loop of five states: place, bias, velocity, and the wave states p and q.
ghost use Rattle.std.specs.Prelude.{◌≡◌, ◌≤◌, ◌<◌, ◌^◌, [], ◌∷◌, pos, neg_ℤ, ◌-ℤ◌, All, unsigned_abs};
ghost use Rattle.dp_fixed.specs.{full_scale};
ghost use Rattle.dp_form.specs.{IsWithin};
ghost use Rattle.dp_plant.specs.{IsLawGains, IsObserverGains, entry};
ghost use Rattle.dp_cert.specs.WaveLoop.{
  axis_five,
  loop_five,
  wave_bias_row,
  wave_correction,
  wave_p_row,
  wave_place_row,
  wave_q_row,
  wave_rounding,
  with_waves,
};
ghost use Rattle.dp_cert.specs.{IsSmallAxis, IsSmallLoop};

use crate::loops::{AxisLoop, Loop, less, minus, wide};
use crate::three_states::{self, clamped_row, free_row, saturated_row};
use dp_fixed::Q;
use dp_plant::Gains;

/// The loop of gains with a wave filter.
#[tactic(auto, unfolding(crate::specs::WaveLoop::loop_five))]
pub(crate) fn loop_five(g: &Gains) -> Loop<5>
    requires observer { IsObserverGains g.now }
    requires law { IsLawGains g.now }
    ensures value { result ≡ loop_five g.now }
    ensures small { IsSmallLoop result }
{
    Loop {
        surge: axis_loop(g, 0),
        sway: axis_loop(g, 1),
        correction: correction(g),
        rounding: rounding(),
    }
}

fn axis_loop(g: &Gains, axis: usize) -> AxisLoop<5>
    requires axis { axis < 2 }
    requires observer { IsObserverGains g.now }
    requires law { IsLawGains g.now }
    ensures value { result ≡ axis_five g.now axis }
    ensures small { IsSmallAxis result }
{
    AxisLoop {
        saturated: rows(g, velocity_row(g, saturated_row(g, axis))),
        clamped: rows(g, velocity_row(g, clamped_row(g, axis))),
        free: rows(g, velocity_row(g, free_row(g, axis))),
        output: output_row(g, axis, Q),
        clamped_output: output_row(g, axis, 0),
    }
}

// The rows of a vertex, by that of the velocity.
fn rows(g: &Gains, velocity: [i128; 5]) -> [[i128; 5]; 5]
    requires observer { IsObserverGains g.now }
    requires velocity { All (IsWithin (2 ^ 35)) velocity }
    ensures value { result
        ≡ wave_place_row g.now ∷ wave_bias_row g.now ∷ velocity ∷ wave_p_row g.now
        ∷ wave_q_row g.now ∷ [] }
    ensures small { All (All (IsWithin (2 ^ 35))) result }
{
    [place_row(g), bias_row(g), velocity, p_row(g), q_row(g)]
}

fn place_row(g: &Gains) -> [i128; 5]
    requires observer { IsObserverGains g.now }
    ensures value { result ≡ wave_place_row g.now }
    ensures small { All (IsWithin (2 ^ 35)) result }
{
    with_waves(&three_states::place_row(g), 0, minus(g.k2))
}

fn bias_row(g: &Gains) -> [i128; 5]
    requires observer { IsObserverGains g.now }
    ensures value { result ≡ wave_bias_row g.now }
    ensures small { All (IsWithin (2 ^ 35)) result }
{
    with_waves(&three_states::bias_row(g), 0, minus(g.k3))
}

// The velocity's row of a vertex, from that without waves.
fn velocity_row(g: &Gains, row: [i128; 3]) -> [i128; 5]
    requires observer { IsObserverGains g.now }
    requires row { All (IsWithin (2 ^ 35)) row }
    ensures value { result ≡ with_waves row (pos 0) (neg_ℤ g.now.k4) }
    ensures small { All (IsWithin (2 ^ 35)) result }
{
    with_waves(&row, 0, minus(g.k4))
}

fn p_row(g: &Gains) -> [i128; 5]
    requires observer { IsObserverGains g.now }
    ensures value { result ≡ wave_p_row g.now }
    ensures small { All (IsWithin (2 ^ 35)) result }
{
    wave_row(g.wave[0], g.wave[1], g.k1[0])
}

fn q_row(g: &Gains) -> [i128; 5]
    requires observer { IsObserverGains g.now }
    ensures value { result ≡ wave_q_row g.now }
    ensures small { All (IsWithin (2 ^ 35)) result }
{
    wave_row(g.wave[2], g.wave[3], g.k1[1])
}

// The row of a wave state, by its row of the filter's matrix and its correction.
fn wave_row(by_p: i64, by_q: i64, correction: i64) -> [i128; 5]
    requires p { unsigned_abs by_p ≤ 2 ^ 30 }
    requires q { unsigned_abs by_q ≤ 2 ^ 30 }
    requires correction { unsigned_abs correction ≤ 2 ^ 30 }
    ensures value { result ≡ neg_ℤ correction ∷ pos 0 ∷ pos 0 ∷ by_p ∷ (by_q -ℤ correction) ∷ [] }
    ensures small { All (IsWithin (2 ^ 35)) result }
{
    five(minus(correction), 0, 0, wide(by_p), less(by_q, correction))
}

// What the demand follows, with the bias' share of it.
fn output_row(g: &Gains, axis: usize, bias: i128) -> [i128; 5]
    requires axis { axis < 2 }
    requires law { IsLawGains g.now }
    requires bias { IsWithin (2 ^ 35) bias }
    ensures value { result ≡ entry g.now.kp axis ∷ bias ∷ entry g.now.kd axis ∷ pos 0 ∷ pos 0 ∷ [] }
    ensures small { All (IsWithin (2 ^ 35)) result }
{
    with_waves(&three_states::output_row(g, axis, bias), 0, 0)
}

fn correction(g: &Gains) -> [i128; 5]
    requires observer { IsObserverGains g.now }
    ensures value { result ≡ wave_correction g.now }
    ensures small { All (IsWithin (2 ^ 35)) result }
{
    with_waves(&three_states::correction(g), wide(g.k1[0]), wide(g.k1[1]))
}

fn rounding() -> [i128; 5]
    ensures value { result ≡ wave_rounding }
    ensures small { All (IsWithin (2 ^ 35)) result }
{
    with_waves(&three_states::rounding(), 1, 1)
}

// A row of three states with what the wave states add.
fn with_waves(row: &[i128; 3], p: i128, q: i128) -> [i128; 5]
    requires row { All (IsWithin (2 ^ 35)) row.now }
    requires p { IsWithin (2 ^ 35) p }
    requires q { IsWithin (2 ^ 35) q }
    ensures value { result ≡ with_waves row.now p q }
    ensures small { All (IsWithin (2 ^ 35)) result }
{
    [row[0], row[1], row[2], p, q]
}

fn five(a: i128, b: i128, c: i128, d: i128, e: i128) -> [i128; 5]
    requires a { IsWithin (2 ^ 35) a }
    requires b { IsWithin (2 ^ 35) b }
    requires c { IsWithin (2 ^ 35) c }
    requires d { IsWithin (2 ^ 35) d }
    requires e { IsWithin (2 ^ 35) e }
    ensures value { result ≡ a ∷ b ∷ c ∷ d ∷ e ∷ [] }
    ensures small { All (IsWithin (2 ^ 35)) result }
{
    [a, b, c, d, e]
}
