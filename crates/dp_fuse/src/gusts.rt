ghost use Rattle.std.specs.Prelude.{◌≡◌, ◌≤◌, ◌<◌, ◌^◌, ◌≤ℤ◌, ◌<ℤ◌, IfSome, pos, unsigned_abs, []};
ghost use Rattle.std.specs.Option.{option_map};
ghost use Rattle.std.specs.List.{AllByRecursion, cons_option};
ghost use Rattle.dp_fuse.specs.{IsGust, IsSpeed, IsWeighted, fuse, fused_gust, gust_of, present, weighted_speed};

use crate::angles::fused_angle;
use crate::weighted::{Weighted, fuse};
use dp_plant::Gust;

/// The wind of up to three sensors: its angle in hundredths of a degree, below 36000, and its speed in mm/s, below 100000.
///
/// The angles are fused as headings are, with turns counted from `base`, also below 36000; of the speeds all count alike. None exactly
/// where none of the three is there.
pub fn wind(g: [Option<Gust>; 3], base: u32) -> Option<Gust>
    requires gusts { AllByRecursion (λ o. IfSome o IsGust) g }
    requires base { base < 36000 }
    ensures value { result ≡ fused_gust base (present g) }
    ensures within { IfSome result IsGust }
{
    fused_gust(base, g[0], g[1], g[2])
}

/// One wind of those that are there.
fn fused_gust(base: u32, a: Option<Gust>, b: Option<Gust>, c: Option<Gust>) -> Option<Gust>
    requires base { base < 36000 }
    requires first { IfSome a IsGust }
    requires second { IfSome b IsGust }
    requires third { IfSome c IsGust }
    ensures value { result ≡ fused_gust base (cons_option a (cons_option b (cons_option c []))) }
    ensures within { IfSome result IsGust }
{
    match (a, b, c) {
        (None, None, None) => None,
        _ => fused_some(base, a, b, c),
    }
}

/// The same, where most often one is there.
#[inline(never)]
fn fused_some(base: u32, a: Option<Gust>, b: Option<Gust>, c: Option<Gust>) -> Option<Gust>
    requires base { base < 36000 }
    requires first { IfSome a IsGust }
    requires second { IfSome b IsGust }
    requires third { IfSome c IsGust }
    ensures value { result ≡ fused_gust base (cons_option a (cons_option b (cons_option c []))) }
    ensures within { IfSome result IsGust }
{
    let angle = fused_angle(base, angle_of(a), angle_of(b), angle_of(c));
    gust(angle, fused_speed(a, b, c))
}

fn angle_of(g: Option<Gust>) -> Option<u32>
    requires { IfSome g IsGust }
    ensures value { result ≡ option_map (λ g. g.angle) g }
    ensures within { IfSome result (λ a. a < 36000) }
{
    match g {
        Some(g) => Some(g.angle),
        None => None,
    }
}

fn fused_speed(a: Option<Gust>, b: Option<Gust>, c: Option<Gust>) -> Option<i64>
    requires first { IfSome a IsGust }
    requires second { IfSome b IsGust }
    requires third { IfSome c IsGust }
    ensures value { result ≡ fuse (cons_option (option_map weighted_speed a)
        (cons_option (option_map weighted_speed b)
        (cons_option (option_map weighted_speed c) []))) }
    ensures within { IfSome result IsSpeed }
{
    fuse(weighted(a), weighted(b), weighted(c))
}

fn weighted(g: Option<Gust>) -> Option<Weighted>
    requires { IfSome g IsGust }
    ensures value { result ≡ option_map weighted_speed g }
    ensures within { IfSome result IsWeighted }
{
    match g {
        Some(g) => Some(Weighted {
            weight: 1,
            value: g.speed as i64,
        }),
        None => None,
    }
}

fn gust(angle: Option<u32>, speed: Option<i64>) -> Option<Gust>
    requires angle { IfSome angle (λ a. a < 36000) }
    requires speed { IfSome speed IsSpeed }
    ensures value { result ≡ gust_of angle speed }
    ensures within { IfSome result IsGust }
{
    match (angle, speed) {
        (Some(angle), Some(speed)) => Some(Gust {
            angle,
            speed: speed as u32,
        }),
        _ => None,
    }
}
