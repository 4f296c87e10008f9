//! How far each coordinate can grow.
ghost use Rattle.std.specs.Prelude.{◌≡◌, ◌≤◌, ◌<◌, ◌^◌, ◌⊎◌, ℕ, pos, ◌+ℤ◌, ◌-ℤ◌, ◌*ℤ◌, ◌<ℤ◌, ◌≤ℤ◌, All, int_lt, map, if◌then◌else◌, IfSome, IfOk, IfErr, OnOk, Some, None};
ghost use Rattle.dp_fixed.specs.{ceil_of, full_scale, root_of};
ghost use Rattle.dp_form.specs.{IsNonNegative, IsWithin, entry as matrix_entry};
ghost use Rattle.dp_plant.specs.{entry};
ghost use Rattle.dp_cert.specs.{AreLists, AreNumbers, IsUpTo, first_heavy, first_too_wide, first_wide, is_heavy, is_wide, reach, reach_of, row_heavy, width};

use crate::forms::entry_of;
use dp_fixed::{Q, ceil_div, floor_div, root_up};
use dp_form::Sym;
use dp_plant::{Cert, Lists};

/// The greatest width times one.
const WIDEST: i128 = 1 << 86;

/// The greatest part of the form.
const HEAVIEST: i128 = 1 << 120;

/// The first coordinate that can grow too far.
pub(crate) fn first_too_wide<const N: usize>(c: &Cert, l: &Lists<N>) -> Option<usize>
    requires size { (N ≡ 3) ⊎ (N ≡ 5) }
    requires numbers { AreNumbers c.now }
    requires lists { AreLists l.now }
    requires rate { c.now.rho <ℤ full_scale }
    requires form { IsNonNegative l.now.p.at }
    ensures { result ≡ first_too_wide c.now l.now }
{
    match widths(reach_of(c, l), &l.span) {
        Err(coordinate) => Some(coordinate),
        Ok(widths) => first_heavy(&l.p, &widths),
    }
}

/// The greatest root of the certificate's form in a run.
pub(crate) fn reach_of<const N: usize>(c: &Cert, l: &Lists<N>) -> i128
    requires size { (N ≡ 3) ⊎ (N ≡ 5) }
    requires numbers { AreNumbers c.now }
    requires lists { AreLists l.now }
    requires rate { c.now.rho <ℤ full_scale }
    requires form { IsNonNegative l.now.p.at }
    ensures value { result ≡ reach_of c.now l.now }
    ensures from_zero { pos 0 ≤ℤ result }
{
    let place = diagonal(&l.p.at, 0);
    let speed = diagonal(&l.p.at, 2);
    reach(place, speed, c.rho as i128, c.b as i128, c.r as i128)
}

/// An entry of the diagonal, none below 0.
fn diagonal<const N: usize>(p: &[[i128; N]; N], i: usize) -> i128
    requires index { i < N }
    requires entries { All (All (IsWithin (2 ^ 40))) p.now }
    requires form { IsNonNegative p.now }
    ensures value { result ≡ matrix_entry p.now i i }
    ensures bound { IsUpTo (pos (2 ^ 40)) result }
{
    entry_of(&p[i], i)
}

/// The greatest root of the form in a run.
#[tactic(auto, unfolding(crate::specs::Width::reach))]
fn reach(place: i128, speed: i128, rho: i128, b: i128, r: i128) -> i128
    requires place { IsUpTo (pos (2 ^ 40)) place }
    requires speed { IsUpTo (pos (2 ^ 40)) speed }
    requires low { pos 0 ≤ℤ rho }
    requires high { rho <ℤ full_scale }
    requires b { IsUpTo (pos (2 ^ 50)) b }
    requires r { IsUpTo (pos (2 ^ 40)) r }
    ensures value { result ≡ reach place speed rho b r }
    ensures from_zero { pos 0 ≤ℤ result }
{
    let jump = jump(root_of_twice(place));
    let added = added(b, rounding(root_of_twice(speed), r));
    jump.max(kept(added, rho))
}

/// What a jump to a place adds, at most.
fn jump(root: i128) -> i128
    requires { IsUpTo (pos (2 ^ 21)) root }
    ensures value { result ≡ root *ℤ pos (2 ^ 43) }
    ensures bound { IsUpTo (pos (2 ^ 64)) result }
{
    root * (1 << 43)
}

/// The root of twice an entry of the form.
fn root_of_twice(entry: i128) -> i128
    requires { IsUpTo (pos (2 ^ 40)) entry }
    ensures value { result ≡ root_of (pos 2 *ℤ entry) }
    ensures bound { IsUpTo (pos (2 ^ 21)) result }
{
    root_up(2 * entry)
}

/// How far a form stays that shrinks by rho, a rate below one, in each cycle.
fn kept(added: i128, rho: i128) -> i128
    requires added { IsUpTo (pos (2 ^ 96)) added }
    requires low { pos 0 ≤ℤ rho }
    requires high { rho <ℤ full_scale }
    ensures value { result ≡ ceil_of added (full_scale -ℤ rho) }
    ensures from_zero { pos 0 ≤ℤ result }
{
    ceil_div(added, Q - rho)
}

/// What a place and those add, over the scale.
fn added(b: i128, rounding: i128) -> i128
    requires b { IsUpTo (pos (2 ^ 50)) b }
    requires rounding { IsUpTo (pos (2 ^ 54)) rounding }
    ensures value { result ≡ b *ℤ pos (2 ^ 44) +ℤ full_scale *ℤ rounding }
    ensures bound { IsUpTo (pos (2 ^ 96)) result }
{
    b * (1 << 44) + Q * rounding
}

/// What the velocity and the rounding of a cycle add.
fn rounding(root: i128, r: i128) -> i128
    requires root { IsUpTo (pos (2 ^ 21)) root }
    requires r { IsUpTo (pos (2 ^ 40)) r }
    ensures value { result ≡ root *ℤ pos (2 ^ 32) +ℤ pos 2 *ℤ r }
    ensures bound { IsUpTo (pos (2 ^ 54)) result }
{
    root * (1 << 32) + 2 * r
}

/// The widths of all coordinates, or the first that is above 2^56.
pub(crate) fn widths<const N: usize>(n: i128, span: &[i64; N]) -> Result<[i128; N], usize>
    requires n { pos 0 ≤ℤ n }
    requires span { (j : ℕ) → IsUpTo (pos (2 ^ 40)) (entry span.now j) }
    ensures wide { IfErr result (λ i. first_wide N (map (width n) span.now) ≡ Some i) }
    ensures none { OnOk result (first_wide N (map (width n) span.now) ≡ None) }
    ensures value { IfOk result (λ ws. ws ≡ map (width n) span.now) }
    ensures bound { IfOk result (λ ws. (j : ℕ) → IsUpTo (pos (2 ^ 56)) (entry ws j)) }
{
    let mut widths = [0; N];
    for i in 0..N {
        match width(n, span[i] as i128) {
            Some(w) => widths[i] = w,
            None => return Err(i),
        }
    }
    Ok(widths)
}

/// The greatest value of a coordinate with this span, none above 2^56.
fn width(n: i128, h: i128) -> Option<i128>
    requires n { pos 0 ≤ℤ n }
    requires h { pos 0 ≤ℤ h }
    ensures value { result ≡ (if is_wide (width n h) then None else Some (width n h)) }
    ensures bound { IfSome result (λ w. IsUpTo (pos (2 ^ 56)) w) }
{
    if exceeds(WIDEST, h, n) {
        None
    } else {
        Some(ceil_div(product(h, n), Q))
    }
}

/// The first row with a part above 2^120.
fn first_heavy<const N: usize>(p: &Sym<N>, widths: &[i128; N]) -> Option<usize>
    requires entries { All (All (IsWithin (2 ^ 40))) p.now.at }
    requires widths { (j : ℕ) → IsUpTo (pos (2 ^ 56)) (entry widths.now j) }
    ensures { result ≡ first_heavy N p.now.at widths.now }
{
    for i in 0..N {
        if row_heavy(&p.at[i], widths, i) {
            return Some(i);
        }
    }
    None
}

/// Whether a part of row i is above 2^120.
fn row_heavy<const N: usize>(entries: &[i128; N], widths: &[i128; N], i: usize) -> bool
    requires i_in { i < N }
    requires entries { All (IsWithin (2 ^ 40)) entries.now }
    requires widths { (j : ℕ) → IsUpTo (pos (2 ^ 56)) (entry widths.now j) }
    ensures { result ≡ row_heavy N entries.now widths.now i }
{
    for j in 0..N {
        if is_heavy(entries[j], widths[i], widths[j]) {
            return true;
        }
    }
    false
}

/// Whether a part of the form is above 2^120.
fn is_heavy(p: i128, v: i128, w: i128) -> bool
    requires p { IsWithin (2 ^ 40) p }
    requires v { IsUpTo (pos (2 ^ 56)) v }
    requires w { IsUpTo (pos (2 ^ 56)) w }
    ensures { result ≡ is_heavy p v w }
{
    exceeds(HEAVIEST, p.abs(), product(v, w))
}

/// Whether a product is above a limit: by division, since the product can pass 128 bits.
fn exceeds(limit: i128, a: i128, b: i128) -> bool
    requires limit { pos 0 ≤ℤ limit }
    requires factor { pos 0 ≤ℤ a }
    ensures { result ≡ int_lt limit (a *ℤ b) }
{
    a > 0 && floor_div(limit, a) < b
}

fn product(h: i128, n: i128) -> i128
    requires low { pos 0 ≤ℤ (h *ℤ n) }
    requires high { (h *ℤ n) ≤ℤ pos (2 ^ 112) }
    ensures { result ≡ h *ℤ n }
{
    h * n
}
