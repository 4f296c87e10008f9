//! The entries of a matrix less its squares.
ghost use Rattle.std.specs.Prelude.{◌≡◌, ◌<◌, ◌+◌, ◌*◌, ◌^◌, pos, ◌*ℤ◌, All, slice_index_or, length};
ghost use Rattle.dp_form.specs.{IsSmallSquare, IsWithin, entry, residual, row};

use super::{Square, Squares, Sym};

// What the squares leave of the entry in row i and column j: at most eight parts of 2^120 are taken from 2^121.
pub(crate) fn left_at<const N: usize>(s: &Sym<N>, w: &Squares<N>, i: usize, j: usize) -> i128
    requires i_in { i < N }
    requires j_in { j < N }
    requires entries { All (All (IsWithin (2 ^ 121))) s.now.at }
    requires squares { All IsSmallSquare w.now.list.items }
    ensures value { result ≡ entry (residual s.now.at w.now.list.items) i j }
    ensures small { IsWithin (5 * 2 ^ 121) result }
    ensures row_wide { length (row s.now.at i) ≡ N }
    ensures squares_wide { All (λ q. length q.l ≡ N) w.now.list.items }
{
    let mut left = entry_of(&s.at[i], j);
    for square in w.list.as_slice() {
        left -= taken(square, i, j);
    }
    left
}

// The entry of a row in column j.
fn entry_of<const N: usize>(row: &[i128; N], j: usize) -> i128
    requires j_in { j < N }
    requires entries { All (IsWithin (2 ^ 121)) row.now }
    ensures value { result ≡ slice_index_or row.now j (pos 0) }
    ensures small { IsWithin (2 ^ 121) result }
    ensures wide { length row.now ≡ N }
{
    row[j]
}

// What a square takes from the entry in row i and column j.
fn taken<const N: usize>(square: &Square<N>, i: usize, j: usize) -> i128
    requires i_in { i < N }
    requires j_in { j < N }
    requires small_square { IsSmallSquare square.now }
    ensures value { result
        ≡ square.now.d
        *ℤ (slice_index_or square.now.l i (pos 0) *ℤ slice_index_or square.now.l j (pos 0)) }
    ensures small { IsWithin (2 ^ 120) result }
    ensures wide { length square.now.l ≡ N }
{
    product(square.d, square.l[i], square.l[j])
}

// d·a·b, for small numbers.
fn product(d: i64, a: i64, b: i64) -> i128
    requires d_small { IsWithin (2 ^ 40) d }
    requires a_small { IsWithin (2 ^ 40) a }
    requires b_small { IsWithin (2 ^ 40) b }
    ensures value { result ≡ d *ℤ (a *ℤ b) }
    ensures small { IsWithin (2 ^ 120) result }
{
    let ab = a as i128 * b as i128;
    d as i128 * ab
}
