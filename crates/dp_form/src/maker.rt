//! Squares that are made for a matrix, from the matrix alone.
ghost use Rattle.std.specs.Int.{int_div_euclid};
ghost use Rattle.std.specs.Prelude.{◌≡◌, ◌≤◌, ◌<◌, ◌*◌, ◌^◌, ◌⊎◌, pos, ◌+ℤ◌, ◌*ℤ◌, ◌≤ℤ◌, ◌-ℤ◌, int_le, All, IfSome, Some, None, if◌then◌else◌, unsigned_abs};
ghost use Rattle.dp_form.specs.{IsSmallSquare, IsSymmetric, IsWithin, residual, row};
ghost use Rattle.dp_form.specs.Made.{trim, made_of, next_square, part, scale_of, vector_of, weight};

use super::residual::left_at;
use super::{Square, Squares, Sym};
use arrayvec::ArrayVec;

/// The greatest weight, and the greatest size of a vector's entry.
const LIMIT: i128 = 1 << 40;

/// Squares that are made for s, at most one for each row but the last.
///
/// Row by row, a square takes from what the squares before it left of s the row's diagonal entry
/// but for a 256th, and with it most of the rest of the row. There is none for a row whose diagonal
/// entry is then below 1, nor where a number of the square would pass 2^40. The squares show s
/// where its form is positive enough: whether they do, [`is_nonneg`](super::is_nonneg) says.
///
/// N is 3 or 5, and s is symmetric with entries within ±2^121. Nothing is refused.
#[tactic(auto, unfolding(crate::specs::Made::made_of))]
pub fn made<const N: usize>(s: &Sym<N>) -> Squares<N>
    requires size { (N ≡ 3) ⊎ (N ≡ 5) }
    requires symmetric { IsSymmetric N s.now.at }
    requires entries { All (All (IsWithin (2 ^ 121))) s.now.at }
    ensures value { result.list.items ≡ made_of s.now.at }
    ensures small { All IsSmallSquare result.list.items }
{
    let mut made = Squares {
        list: ArrayVec::new(),
    };
    for i in 0..N - 1 {
        if let Some(square) = next_square(s, &made, i) {
            made.list.push(square);
        }
    }
    made
}

// The square of row i, by what the squares so far leave.
#[tactic(auto, unfolding(crate::specs::Made::next_square))]
fn next_square<const N: usize>(s: &Sym<N>, w: &Squares<N>, i: usize) -> Option<Square<N>>
    requires i_in { i < N }
    requires entries { All (All (IsWithin (2 ^ 121))) s.now.at }
    requires squares { All IsSmallSquare w.now.list.items }
    ensures value { result ≡ next_square i (residual s.now.at w.now.list.items) }
    ensures small { IfSome result IsSmallSquare }
{
    let p = left_at(s, w, i, i);
    if p < 1 {
        return None;
    }
    let q = trim(p);
    let scale = scale_of(q);
    let weight = weight(q, scale);
    let d = small(weight)?;
    let l = vector(s, w, i, weight, scale)?;
    Some(Square { d, l })
}

// A diagonal entry less a 256th of it.
fn trim(p: i128) -> i128
    requires low { pos 1 ≤ℤ p }
    ensures value { result ≡ trim p }
    ensures low { pos 1 ≤ℤ result }
    ensures high { result ≤ℤ p }
{
    p - over(p, 256)
}

// 2^k for the greatest k up to 40 by which the weight stays at 256 or more, or for 0.
fn scale_of(q: i128) -> i128
    requires low { pos 1 ≤ℤ q }
    ensures value { result ≡ scale_of q }
    ensures low { pos 1 ≤ℤ result }
    ensures high { result ≤ℤ pos (2 ^ 40) }
    ensures weight { pos 1 ≤ℤ int_div_euclid q (result *ℤ result) }
{
    let mut scale: i128 = LIMIT;
    let mut k: usize = 40;
    while 0 < k {
        if over(q, scale * scale) >= 256 {
            return scale;
        }
        scale = over(scale, 2);
        k -= 1;
    }
    scale
}

// The weight, by the scale.
fn weight(q: i128, scale: i128) -> i128
    requires low { pos 1 ≤ℤ q }
    requires scale_is { scale ≡ scale_of q }
    requires scale_low { pos 1 ≤ℤ scale }
    requires scale_high { scale ≤ℤ pos (2 ^ 40) }
    requires weight { pos 1 ≤ℤ int_div_euclid q (scale *ℤ scale) }
    requires high { q ≤ℤ pos (5 * 2 ^ 121) }
    ensures value { result ≡ weight q }
    ensures low { pos 1 ≤ℤ result }
    ensures room { (result *ℤ scale) ≤ℤ pos (5 * 2 ^ 121) }
{
    over(q, scale * scale)
}

// The vector, none where an entry is past 2^40.
fn vector<const N: usize>(
    s: &Sym<N>,
    w: &Squares<N>,
    i: usize,
    d: i128,
    scale: i128,
) -> Option<[i64; N]>
    requires i_in { i < N }
    requires entries { All (All (IsWithin (2 ^ 121))) s.now.at }
    requires squares { All IsSmallSquare w.now.list.items }
    requires d { pos 1 ≤ℤ d }
    requires scale { pos 1 ≤ℤ scale }
    requires room { (d *ℤ scale) ≤ℤ pos (5 * 2 ^ 121) }
    ensures value { result
        ≡ vector_of i d scale (row (residual s.now.at w.now.list.items) i) }
    ensures size { IfSome result (All (IsWithin (2 ^ 40))) }
{
    let mut l = [0; N];
    for j in 0..N {
        l[j] = small(part(i, d, scale, j, left_at(s, w, i, j)))?;
    }
    Some(l)
}

// The same number in 64 bits, none where it is past 2^40.
fn small(z: i128) -> Option<i64>
    ensures value { result
        ≡ (if int_le (pos (unsigned_abs z)) (pos (2 ^ 40)) then Some z else None) }
    ensures size { IfSome result (IsWithin (2 ^ 40)) }
{
    if z.unsigned_abs() <= LIMIT.unsigned_abs() {
        Some(z as i64)
    } else {
        None
    }
}

// The vector's entry in column j.
fn part(i: usize, d: i128, scale: i128, j: usize, r: i128) -> i128
    requires d { pos 1 ≤ℤ d }
    requires scale { pos 1 ≤ℤ scale }
    requires room { (d *ℤ scale) ≤ℤ pos (5 * 2 ^ 121) }
    requires number { IsWithin (5 * 2 ^ 121) r }
    ensures { result ≡ part i d scale j r }
{
    if j < i {
        0
    } else if j == i {
        scale
    } else {
        nearest(r, step_of(d, scale))
    }
}

// A number over a step, rounded to the nearest.
fn nearest(r: i128, step: i128) -> i128
    requires low { pos 1 ≤ℤ step }
    requires high { step ≤ℤ pos (5 * 2 ^ 121) }
    requires number { IsWithin (5 * 2 ^ 121) r }
    ensures { result ≡ int_div_euclid (r +ℤ int_div_euclid step (pos 2)) step }
{
    (r + over(step, 2)).div_euclid(step)
}

// A number from 0 to 5·2^121, over one above 0.
fn over(n: i128, d: i128) -> i128
    requires n_low { pos 0 ≤ℤ n }
    requires d_low { pos 1 ≤ℤ d }
    ensures value { result ≡ int_div_euclid n d }
    ensures low { pos 0 ≤ℤ result }
    ensures high { (result *ℤ d) ≤ℤ n }
{
    n.div_euclid(d)
}

// The product of a weight and a scale.
fn step_of(d: i128, scale: i128) -> i128
    requires d { pos 1 ≤ℤ d }
    requires scale { pos 1 ≤ℤ scale }
    requires room { (d *ℤ scale) ≤ℤ pos (5 * 2 ^ 121) }
    ensures value { result ≡ d *ℤ scale }
    ensures low { pos 1 ≤ℤ result }
    ensures high { result ≤ℤ pos (5 * 2 ^ 121) }
{
    d * scale
}
