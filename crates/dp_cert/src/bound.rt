//! How far a thruster's force can move.
ghost use Rattle.std.specs.Prelude.{◌≡◌, ◌≤◌, ◌<◌, ◌^◌, ℕ, pos, ◌+ℤ◌, ◌-ℤ◌, ◌*ℤ◌, ◌<ℤ◌, ◌≤ℤ◌, unsigned_abs};
ghost use Rattle.dp_fixed.specs.{ceil_of, full_scale};
ghost use Rattle.dp_plant.specs.{entry};
ghost use Rattle.dp_cert.specs.{AreNumbers, IsShareRow, IsSplit, IsUpTo, bound, share_size};

use dp_fixed::{Q, ceil_div, difference, sum};
use dp_plant::Cert;

/// Shares of a case are over 2^20.
const SHARE: i128 = 1 << 20;

/// The two numbers of a row.
#[tactic(auto, unfolding(crate::specs::Bound::bound))]
pub(crate) fn bound_of(c: &Cert, row: &[i64; 3]) -> (i128, i128)
    requires numbers { AreNumbers c.now }
    requires rate { c.now.rho <ℤ full_scale }
    requires row { IsShareRow row.now }
    ensures { result ≡ bound c.now row.now }
{
    let (surge, sway) = sizes(row);
    let weight = weight(&c.g, surge, sway);
    let gap = margin(c.rho);
    let gain = gain(weight, wide(c.b), gap);
    let rounded = rounded(weight, wide(c.r), gap);
    (gain, offset(surge, sway, rounded))
}

/// The absolute values of a row's shares of surge and sway.
fn sizes(row: &[i64; 3]) -> (i128, i128)
    requires { IsShareRow row.now }
    ensures surge { result.0 ≡ share_size row.now 0 }
    ensures sway { result.1 ≡ share_size row.now 1 }
    ensures surge_bound { IsUpTo (pos (2 ^ 31)) result.0 }
    ensures sway_bound { IsUpTo (pos (2 ^ 31)) result.1 }
{
    (size(row[0]), size(row[1]))
}

/// The absolute value of a share.
fn size(share: i64) -> i128
    requires { unsigned_abs share ≤ 2 ^ 31 }
    ensures value { result ≡ pos (unsigned_abs share) }
    ensures bound { IsUpTo (pos (2 ^ 31)) result }
{
    (share as i128).abs()
}

/// The shares, each times the greatest demand.
fn weight(g: &[i64; 2], surge: i128, sway: i128) -> i128
    requires demands { (j : ℕ) → IsUpTo (pos (2 ^ 40)) (entry g.now j) }
    requires surge { IsUpTo (pos (2 ^ 31)) surge }
    requires sway { IsUpTo (pos (2 ^ 31)) sway }
    ensures value { result ≡ surge *ℤ entry g.now 0 +ℤ sway *ℤ entry g.now 1 }
    ensures bound { IsUpTo (pos (2 ^ 72)) result }
{
    sum(part(surge, demand(g, 0)), part(sway, demand(g, 1)))
}

/// A share of the greatest demand.
fn part(share: i128, demand: i128) -> i128
    requires share { IsUpTo (pos (2 ^ 31)) share }
    requires demand { IsUpTo (pos (2 ^ 40)) demand }
    ensures value { result ≡ share *ℤ demand }
    ensures bound { IsUpTo (pos (2 ^ 71)) result }
{
    product(share, demand)
}

/// The greatest demand of surge or sway.
fn demand(g: &[i64; 2], axis: usize) -> i128
    requires axis { axis < 2 }
    requires demands { (j : ℕ) → IsUpTo (pos (2 ^ 40)) (entry g.now j) }
    ensures value { result ≡ entry g.now axis }
    ensures bound { IsUpTo (pos (2 ^ 40)) result }
{
    wide(g[axis])
}

/// One less the rate.
fn margin(rho: i64) -> i128
    requires low { pos 0 ≤ℤ rho }
    requires high { rho <ℤ full_scale }
    ensures value { result ≡ full_scale -ℤ rho }
    ensures least { pos 0 <ℤ result }
    ensures greatest { result ≤ℤ full_scale }
{
    difference(Q, wide(rho))
}

/// The gain: what each nanometre between the two other references moves.
fn gain(weight: i128, b: i128, gap: i128) -> i128
    requires weight { IsUpTo (pos (2 ^ 72)) weight }
    requires b { IsUpTo (pos (2 ^ 50)) b }
    requires least { pos 0 <ℤ gap }
    requires greatest { gap ≤ℤ full_scale }
    ensures { result ≡ ceil_of (weight *ℤ b) (full_scale *ℤ gap) }
{
    ceil_div(product(weight, b), Q * gap)
}

/// What the rounding moves: whole parts and remainders apart, since the numerator can pass 128 bits.
fn rounded(weight: i128, r: i128, gap: i128) -> i128
    requires weight { IsUpTo (pos (2 ^ 72)) weight }
    requires r { IsUpTo (pos (2 ^ 40)) r }
    requires least { pos 0 <ℤ gap }
    requires greatest { gap ≤ℤ full_scale }
    ensures value { result ≡ ceil_of (weight *ℤ (full_scale *ℤ r +ℤ gap)) (full_scale *ℤ gap) }
    ensures bound { unsigned_abs result ≤ 2 ^ 123 }
{
    let (kept, kept_rest) = split(product(weight, r), gap);
    let (demand, demand_rest) = split(weight, Q);
    let least = sum(demand, rest(kept_rest, demand_rest, gap));
    sum(kept, least)
}

/// The whole part of a fraction, and its remainder.
fn split(n: i128, d: i128) -> (i128, i128)
    requires n { pos 0 ≤ℤ n }
    requires d { pos 0 <ℤ d }
    ensures split { IsSplit n d result.0 result.1 }
    ensures most { result.0 ≤ℤ n }
{
    (n.div_euclid(d), n.rem_euclid(d))
}

/// What the remainders of two divisions make together.
fn rest(kept: i128, demand: i128, gap: i128) -> i128
    requires kept_low { pos 0 ≤ℤ kept }
    requires kept_high { kept <ℤ gap }
    requires demand_low { pos 0 ≤ℤ demand }
    requires demand_high { demand <ℤ full_scale }
    requires greatest { gap ≤ℤ full_scale }
    ensures value { result ≡ ceil_of (full_scale *ℤ kept +ℤ demand *ℤ gap) (full_scale *ℤ gap) }
    ensures bound { IsUpTo (pos 2) result }
{
    ceil_div(Q * kept + product(demand, gap), Q * gap)
}

/// The offset: what the shares and the rounding move together.
fn offset(surge: i128, sway: i128, rounded: i128) -> i128
    requires surge { IsUpTo (pos (2 ^ 31)) surge }
    requires sway { IsUpTo (pos (2 ^ 31)) sway }
    requires rounded { unsigned_abs rounded ≤ 2 ^ 123 }
    ensures { result ≡ ((surge +ℤ sway) +ℤ pos (2 ^ 20)) +ℤ rounded }
{
    sum(sum(sum(surge, sway), SHARE), rounded)
}

fn product(a: i128, b: i128) -> i128
    requires low { pos 0 ≤ℤ (a *ℤ b) }
    requires high { (a *ℤ b) ≤ℤ pos (2 ^ 122) }
    ensures value { result ≡ a *ℤ b }
    ensures bound { IsUpTo (pos (2 ^ 122)) result }
{
    a * b
}

/// The same number in 128 bits.
fn wide(x: i64) -> i128
    ensures { result ≡ x }
{
    x as i128
}
