//! The check that squares show a matrix.
ghost use Rattle.std.specs.Prelude.{◌≡◌, ◌<◌, ◌^◌, ◌*◌, ◌↔◌, ◌⊎◌, All, IsOk, IfErr, OnOk, length};
ghost use Rattle.dp_form.specs.{IsFirstShort, IsNonNegative, IsShown, IsSmallSquare, IsSymmetric, IsWithin, residual, row, shortfall};

use super::residual::left_at;
use super::{NotShown, Squares, Sym};

// By how much the diagonal entry that the squares leave in row i is less than the sum of the absolute values of the
// rest of the row. Each entry is within 5·2^121, so five of them stay below 2^127.
fn shortfall_of<const N: usize>(s: &Sym<N>, w: &Squares<N>, i: usize) -> i128
    requires i_in { i < N }
    requires n_small { N < 6 }
    requires entries { All (All (IsWithin (2 ^ 121))) s.now.at }
    requires squares { All IsSmallSquare w.now.list.items }
    ensures value { result ≡ shortfall (residual s.now.at w.now.list.items) i }
    ensures row_wide { length (row s.now.at i) ≡ N }
    ensures squares_wide { All (λ q. length q.l ≡ N) w.now.list.items }
{
    let diagonal = left_at(s, w, i, i);
    let mut rest: i128 = 0;
    for j in 0..N {
        if j != i {
            rest += left_at(s, w, i, j).abs();
        }
    }
    rest - diagonal
}

/// Whether the squares w show that the form of s is at least 0 for every vector.
///
/// N is 3 or 5, s is symmetric with entries within ±2^121, each d is from 0 to 2^40 and each entry of l within ±2^40.
/// The answer is an error exactly where the residual, s less the sum of d·l·lᵀ, has a row whose diagonal entry is less
/// than the sum of the absolute values of the rest of the row: the first such row, and by how much.
pub fn is_nonneg<const N: usize>(s: &Sym<N>, w: &Squares<N>) -> Result<(), NotShown>
    requires size { (N ≡ 3) ⊎ (N ≡ 5) }
    requires symmetric { IsSymmetric N s.now.at }
    requires entries { All (All (IsWithin (2 ^ 121))) s.now.at }
    requires squares { All IsSmallSquare w.now.list.items }
    ensures shown { IsOk result ↔ IsShown s.now.at w.now.list.items }
    ensures not_shown { IfErr result (λ e. IsFirstShort s.now.at w.now.list.items e.row e.short) }
    ensures nonneg { OnOk result (IsNonNegative s.now.at) }
{
    for row in 0..N {
        let short = shortfall_of(s, w, row);
        if short > 0 {
            return Err(NotShown { row, short });
        }
    }
    Ok(())
}
