ghost use Rattle.std.specs.Prelude.{◌≡◌, ◌≤◌, ◌<◌, ◌^◌, IfSome, pos, ◌-ℤ◌, ◌+ℤ◌, unsigned_abs, []};
ghost use Rattle.std.specs.List.{AllByRecursion, cons_option};
ghost use Rattle.std.specs.Option.{option_map};
ghost use Rattle.dp_fixed.specs.{wrap_of};
ghost use Rattle.dp_fuse.specs.{IsWeighted, fused_angle, present, turn_from, turned_by, weighted_turn};

use crate::weighted::{Weighted, fuse};
use dp_fixed::wrap_near;

/// 360 degrees in hundredths of a degree.
const TURN: i64 = 36000;

/// The heading of up to three gyros, in hundredths of a degree, below 36000.
///
/// Turns are counted from the heading `base`, also below 36000. None exactly where none of the three is there.
pub fn heading(h: [Option<u32>; 3], base: u32) -> Option<u32>
    requires headings { AllByRecursion (λ o. IfSome o (λ a. a < 36000)) h }
    requires base { base < 36000 }
    ensures value { result ≡ fused_angle base (present h) }
    ensures within { IfSome result (λ a. a < 36000) }
{
    fused_angle(base, h[0], h[1], h[2])
}

/// One angle of those that are there.
pub(crate) fn fused_angle(base: u32, a: Option<u32>, b: Option<u32>, c: Option<u32>) -> Option<u32>
    requires base { base < 36000 }
    requires first { IfSome a (λ a. a < 36000) }
    requires second { IfSome b (λ a. a < 36000) }
    requires third { IfSome c (λ a. a < 36000) }
    ensures value { result ≡ fused_angle base (cons_option a (cons_option b (cons_option c []))) }
    ensures within { IfSome result (λ a. a < 36000) }
{
    match (a, b, c) {
        (None, None, None) => None,
        _ => fused_turn(base, a, b, c),
    }
}

/// The same, where most often one is there.
#[inline(never)]
fn fused_turn(base: u32, a: Option<u32>, b: Option<u32>, c: Option<u32>) -> Option<u32>
    requires base { base < 36000 }
    requires first { IfSome a (λ a. a < 36000) }
    requires second { IfSome b (λ a. a < 36000) }
    requires third { IfSome c (λ a. a < 36000) }
    ensures value { result ≡ fused_angle base (cons_option a (cons_option b (cons_option c []))) }
    ensures within { IfSome result (λ a. a < 36000) }
{
    let turned = fuse(weighted(base, a), weighted(base, b), weighted(base, c));
    angle(base, turned)
}

fn weighted(base: u32, angle: Option<u32>) -> Option<Weighted>
    requires base { base < 36000 }
    requires angle { IfSome angle (λ a. a < 36000) }
    ensures value { result ≡ option_map (weighted_turn base) angle }
    ensures within { IfSome result IsWeighted }
{
    match angle {
        Some(angle) => Some(Weighted {
            weight: 1,
            value: turn_from(base, angle),
        }),
        None => None,
    }
}

/// How far an angle is from a base, in [-18000, 18000).
fn turn_from(base: u32, angle: u32) -> i64
    requires base { base < 36000 }
    requires angle { angle < 36000 }
    ensures value { result ≡ turn_from base angle }
    ensures bound { unsigned_abs result ≤ 18000 }
{
    wrap_near(angle as i64 - base as i64, TURN)
}

fn angle(base: u32, turned: Option<i64>) -> Option<u32>
    requires base { base < 36000 }
    requires turned { IfSome turned (λ x. unsigned_abs x ≤ 2 ^ 44) }
    ensures value { result ≡ option_map (turned_by base) turned }
    ensures within { IfSome result (λ a. a < 36000) }
{
    match turned {
        Some(turned) => Some(turned_by(base, turned)),
        None => None,
    }
}

/// The angle that is so far from a base.
fn turned_by(base: u32, turned: i64) -> u32
    requires base { base < 36000 }
    requires turned { unsigned_abs turned ≤ 2 ^ 44 }
    ensures value { result ≡ turned_by base turned }
    ensures within { result < 36000 }
{
    (base as i64 + turned).rem_euclid(TURN) as u32
}
