ghost use Rattle.std.specs.Prelude.{◌≡◌, ◌≤◌, ◌^◌, pos, ◌<ℤ◌, ◌≤ℤ◌, unsigned_abs};
ghost use Rattle.std.specs.Int.{int_rem_euclid};
ghost use Rattle.dp_fixed.specs.{IsWrapped, floor_of, wrap_of};

use crate::steps::narrow;

/// What differs from `x` by whole turns and lies from minus half a turn up to, but not including, half a turn.
///
/// `turn` is even and above 0; it and `x` lie within 2^100 of zero.
pub fn wrap(x: i128, turn: i128) -> i128
    requires positive { pos 0 <ℤ turn }
    requires even { int_rem_euclid turn (pos 2) ≡ pos 0 }
    requires turn_range { turn ≤ℤ pos (2 ^ 100) }
    requires range { unsigned_abs x ≤ 2 ^ 100 }
    ensures value { result ≡ wrap_of x turn }
    ensures wrapped { IsWrapped x turn result }
{
    let half = turn.div_euclid(2);
    (x + half).rem_euclid(turn) - half
}

/// The same in 64 bits, for an angle that is mostly within half a turn of zero already: then nothing is divided.
///
/// `turn` is even and above 0; it and `x` lie within 2^61 of zero.
#[inline]
pub fn wrap_near(x: i64, turn: i64) -> i64
    requires positive { pos 0 <ℤ turn }
    requires even { int_rem_euclid turn (pos 2) ≡ pos 0 }
    requires turn_range { turn ≤ℤ pos (2 ^ 61) }
    requires range { unsigned_abs x ≤ 2 ^ 61 }
    ensures value { result ≡ wrap_of x turn }
    ensures wrapped { IsWrapped x turn result }
{
    let half = half_of(turn);
    if -half <= x && x < half {
        x
    } else {
        wrap_far(x, turn)
    }
}

/// The same for an angle that is mostly farther away.
#[cold]
#[inline(never)]
#[tactic(auto, using(crate::proofs::NearTurns::wrapped_small))]
fn wrap_far(x: i64, turn: i64) -> i64
    requires positive { pos 0 <ℤ turn }
    requires even { int_rem_euclid turn (pos 2) ≡ pos 0 }
    requires turn_range { turn ≤ℤ pos (2 ^ 61) }
    requires range { unsigned_abs x ≤ 2 ^ 61 }
    ensures value { result ≡ wrap_of x turn }
    ensures wrapped { IsWrapped x turn result }
{
    narrow(wrap(x as i128, turn as i128))
}

/// Half a turn.
fn half_of(turn: i64) -> i64
    requires positive { pos 0 <ℤ turn }
    ensures value { result ≡ floor_of turn (pos 2) }
    ensures low { pos 0 ≤ℤ result }
    ensures high { result <ℤ turn }
{
    turn.div_euclid(2)
}
