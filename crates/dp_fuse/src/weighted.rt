ghost use Rattle.std.specs.Prelude.{◌≡◌, ◌≤◌, ◌^◌, ◌+ℤ◌, ◌*ℤ◌, ◌<ℤ◌, ◌≤ℤ◌, IfSome, pos, unsigned_abs, []};
ghost use Rattle.std.specs.List.{cons_option};
ghost use Rattle.dp_fixed.specs.{mid3_of};
ghost use Rattle.dp_fuse.specs.Fuse.{fuse, mean_of};
ghost use Rattle.dp_fuse.specs.Ranges.{IsWeighted};

use dp_fixed::{floor_div, middle, narrow, product, sum};

/// A number within ±2^44, and how much it counts, from 1 to 2^20.
#[derive(Clone, Copy, Debug, PartialEq, Eq)]
pub struct Weighted {
    pub weight: i64,
    pub value: i64,
}

/// Of three the middle, of two the weighted mean rounded down, of one itself.
pub(crate) fn fuse(a: Option<Weighted>, b: Option<Weighted>, c: Option<Weighted>) -> Option<i64>
    requires first { IfSome a IsWeighted }
    requires second { IfSome b IsWeighted }
    requires third { IfSome c IsWeighted }
    ensures value { result ≡ fuse (cons_option a (cons_option b (cons_option c []))) }
    ensures bound { IfSome result (λ x. unsigned_abs x ≤ 2 ^ 44) }
{
    match (a, b, c) {
        (Some(a), Some(b), Some(c)) => Some(middle(a.value, b.value, c.value)),
        (Some(a), Some(b), None) | (Some(a), None, Some(b)) | (None, Some(a), Some(b)) => {
            Some(mean(a, b))
        }
        (Some(a), None, None) | (None, Some(a), None) | (None, None, Some(a)) => Some(a.value),
        (None, None, None) => None,
    }
}

fn mean(a: Weighted, b: Weighted) -> i64
    requires first { IsWeighted a }
    requires second { IsWeighted b }
    ensures value { result ≡ mean_of a b }
    ensures bound { unsigned_abs result ≤ 2 ^ 44 }
{
    narrow(wide_mean(a, b))
}

fn wide_mean(a: Weighted, b: Weighted) -> i128
    requires first { IsWeighted a }
    requires second { IsWeighted b }
    ensures value { result ≡ mean_of a b }
    ensures bound { unsigned_abs result ≤ 2 ^ 44 }
{
    let first = product(a.weight, a.value as i128);
    let second = product(b.weight, b.value as i128);
    floor_div(sum(first, second), both_weights(a.weight, b.weight))
}

fn both_weights(v: i64, w: i64) -> i128
    requires first { pos 1 ≤ℤ v }
    requires first_high { v ≤ℤ pos (2 ^ 20) }
    requires second { pos 1 ≤ℤ w }
    requires second_high { w ≤ℤ pos (2 ^ 20) }
    ensures value { result ≡ v +ℤ w }
    ensures positive { pos 0 <ℤ result }
{
    v as i128 + w as i128
}
