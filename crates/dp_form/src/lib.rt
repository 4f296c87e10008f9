//! Quadratic forms over whole numbers, and squares that show them to be at least 0.
//!
//! The form of a symmetric matrix P is V(x), the sum of P_ij·x_i·x_j. A list of squares (d, l) shows that V is at
//! least 0 for every vector x where P less the sum of d·l·lᵀ, the residual, has in each row a diagonal entry that is
//! at least the sum of the absolute values of the rest of the row. For V is then the sum of the squares d·(l·x)² and
//! of the residual's form, and a symmetric matrix that is diagonally dominant has a form of at least 0.
//!
//! [`is_nonneg`] makes that check, for matrices of three and of five rows. It promises, and the check of this crate
//! proves:
//!
//! - it answers Ok exactly where the squares show the matrix, and then the form is at least 0 for every vector;
//! - otherwise it names the first row that is short, and by how much;
//! - no intermediate result passes 128 bits: eight squares of at most 2^120 are taken from entries of at most 2^121,
//!   and five of what is left are added up.
//!
//! [`made`] makes squares for a matrix, as its definition says to the last digit; nothing is promised of them but that
//! [`is_nonneg`] takes them.
//!
//! [`laws`] has the laws on such forms. Nothing here allocates.
#![tactic(auto)]

ghost use Rattle.std.specs.Prelude.{◌≡◌, pos, All};

mod check;
pub mod laws;
mod maker;
mod residual;

use arrayvec::ArrayVec;
pub use check::is_nonneg;
pub use maker::made;

/// A matrix of N rows, each of N entries. Where a function takes one, its contract asks that it be symmetric.
#[derive(Clone, Copy, Debug, PartialEq, Eq)]
pub struct Sym<const N: usize> {
    /// The rows: `at[i][j]` is the entry in row i and column j, from 0.
    pub at: [[i128; N]; N],
}

/// A square: it stands for d·(l·x)² at a vector x, with the matrix d·l·lᵀ.
#[derive(Clone, Copy, Debug, PartialEq, Eq)]
pub struct Square<const N: usize> {
    /// The weight.
    pub d: i64,
    /// The vector that x is multiplied with.
    pub l: [i64; N],
}

impl<const N: usize> Default for Square<N> {
    ghost is_default = { λ q. (q.d ≡ pos 0) × All (λ a. a ≡ pos 0) q.l };

    /// The square of weight 0 and zeros, the blank element of an `ArrayVec`.
    fn default() -> Self {
        Square { d: 0, l: [0; N] }
    }
}

/// The squares that are to show a matrix, at most eight.
#[derive(Debug, PartialEq, Eq, Drop)]
pub struct Squares<const N: usize> {
    /// The squares, in the order in which they are taken from the matrix.
    pub list: ArrayVec<Square<N>, 8>,
}

/// Why squares do not show a matrix.
#[derive(Clone, Copy, Debug, PartialEq, Eq)]
pub struct NotShown {
    /// The first row, from 0, whose diagonal entry of the residual is less than the rest of the row.
    pub row: usize,
    /// By how much it is less, above 0.
    pub short: i128,
}
