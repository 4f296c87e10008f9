//! Rotations of the plane, each a cosine and a sine, counted in 1 / [`FULL_SCALE`].

ghost use Rattle.std.specs.Prelude.{◌≡◌, ◌<◌, ℕ, Some, slice_get};
ghost use Rattle.dp_trig.specs.{IsShort, repeated, turned};

use dp_fixed::FULL_SCALE;

/// One rotation and then another.
pub fn turn(first: (i64, i64), second: (i64, i64)) -> (i64, i64)
    requires first_short { IsShort first }
    requires second_short { IsShort second }
    ensures value { result ≡ turned first second }
    ensures short { IsShort result }
{
    let (cosine, sine) = first;
    let (next_cosine, next_sine) = second;
    (
        (cosine * next_cosine - sine * next_sine) / FULL_SCALE,
        (sine * next_cosine + cosine * next_sine) / FULL_SCALE,
    )
}

/// No step, one step, two steps and so on.
pub fn table<const N: usize>(step: (i64, i64)) -> [(i64, i64); N]
    requires short { IsShort step }
    ensures { (k : ℕ) → k < N → slice_get result k ≡ Some (repeated step k) }
{
    let mut reached = (FULL_SCALE, 0);
    let mut rotations = [reached; N];
    for rotation in rotations.iter_mut() {
        *rotation = reached;
        reached = turn(reached, step);
    }
    rotations
}
