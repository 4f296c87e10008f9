//! The matrices that a certificate's squares are to show, entry by entry.
ghost use Rattle.std.specs.Prelude.{◌≡◌, ◌<◌, ◌^◌, ◌*◌, pos, ℕ, ◌*ℤ◌, ◌-ℤ◌, All, slice_index_or, length};
ghost use Rattle.dp_form.specs.{HasSize, IsSymmetric, IsWithin, apply, dot, entry, row};
ghost use Rattle.dp_cert.specs.{column, contraction_matrix, output_matrix};

use dp_form::Sym;

/// rate² P - AᵀPA
pub(crate) fn contraction<const N: usize>(p: &Sym<N>, a: &[[i128; N]; N], rate: i64) -> Sym<N>
    requires n_small { N < 6 }
    requires n_some { 0 < N }
    requires p_small { All (All (IsWithin (2 ^ 40))) p.now.at }
    requires a_small { All (All (IsWithin (2 ^ 35))) a.now }
    requires rate_small { IsWithin (2 ^ 30) rate }
    ensures value { result.at ≡ contraction_matrix rate p.now.at a.now }
    ensures small { All (All (IsWithin (2 ^ 121))) result.at }
    ensures symmetric { IsSymmetric N p.now.at → IsSymmetric N result.at }
{
    let mut at = [[0; N]; N];
    for k in 0..N {
        at[k] = contraction_row(p, a, rate, k);
    }
    Sym { at }
}

// Row i of it.
fn contraction_row<const N: usize>(p: &Sym<N>, a: &[[i128; N]; N], rate: i64, i: usize) -> [i128; N]
    requires n_small { N < 6 }
    requires p_small { All (All (IsWithin (2 ^ 40))) p.now.at }
    requires a_small { All (All (IsWithin (2 ^ 35))) a.now }
    requires rate_small { IsWithin (2 ^ 30) rate }
    requires i_in { i < N }
    ensures value { result ≡ row (contraction_matrix rate p.now.at a.now) i }
    ensures small { All (IsWithin (2 ^ 121)) result }
    ensures form_size { HasSize N p.now.at }
    ensures loop_size { HasSize N a.now }
{
    let mut out = [0; N];
    for k in 0..N {
        out[k] = contraction_entry(p, a, rate, i, k);
    }
    out
}

// The entry in row i and column j of rate² P - AᵀPA.
fn contraction_entry<const N: usize>(
    p: &Sym<N>,
    a: &[[i128; N]; N],
    rate: i64,
    i: usize,
    j: usize,
) -> i128
    requires n_small { N < 6 }
    requires p_small { All (All (IsWithin (2 ^ 40))) p.now.at }
    requires a_small { All (All (IsWithin (2 ^ 35))) a.now }
    requires rate_small { IsWithin (2 ^ 30) rate }
    requires i_in { i < N }
    requires j_in { j < N }
    ensures value { result ≡ entry (contraction_matrix rate p.now.at a.now) i j }
    ensures small { IsWithin (2 ^ 121) result }
    ensures form_size { HasSize N p.now.at }
    ensures loop_size { HasSize N a.now }
{
    let x = column_of(a, i);
    let y = column_of(a, j);
    let z = applied(&p.at, &y);
    let shrunk = dot_of(&x, &z);
    less(rate, entry_at(&p.at[i], j), shrunk)
}

// Column j of a matrix.
fn column_of<const N: usize>(a: &[[i128; N]; N], j: usize) -> [i128; N]
    requires j_in { j < N }
    ensures value { result ≡ column a.now j }
    ensures rows { length a.now ≡ N }
    ensures columns { (k : ℕ) → k < N → length (row a.now k) ≡ N }
{
    let mut out = [0; N];
    for k in 0..N {
        out[k] = number_at(&a[k], j);
    }
    out
}

// The matrix times the vector.
pub(crate) fn applied<const N: usize>(p: &[[i128; N]; N], x: &[i128; N]) -> [i128; N]
    requires n_small { N < 6 }
    requires p_small { All (All (IsWithin (2 ^ 40))) p.now }
    requires x_small { All (IsWithin (2 ^ 35)) x.now }
    ensures value { result ≡ apply p.now x.now }
    ensures small { All (IsWithin (2 ^ 78)) result }
    ensures rows { length p.now ≡ N }
    ensures columns { (k : ℕ) → k < N → length (row p.now k) ≡ N }
{
    let mut out = [0; N];
    for k in 0..N {
        out[k] = dot_of(&p[k], x);
    }
    out
}

// The sum of the products of a row's entries and a vector's.
pub(crate) fn dot_of<const N: usize>(x: &[i128; N], y: &[i128; N]) -> i128
    requires n_small { N < 6 }
    requires x_small { All (IsWithin (2 ^ 40)) x.now }
    requires y_small { All (IsWithin (2 ^ 78)) y.now }
    ensures value { result ≡ dot x.now y.now }
    ensures small { (m : ℕ) → All (IsWithin m) y.now → IsWithin (5 * (2 ^ 40 * m)) result }
    ensures wide { length x.now ≡ N }
{
    let mut sum: i128 = 0;
    for k in 0..N {
        sum += x[k] * y[k];
    }
    sum
}

// rate² p - shrunk
fn less(rate: i64, p: i128, shrunk: i128) -> i128
    requires rate_small { IsWithin (2 ^ 30) rate }
    requires p_small { IsWithin (2 ^ 40) p }
    requires shrunk_small { IsWithin (5 * 2 ^ 118) shrunk }
    ensures value { result ≡ rate *ℤ rate *ℤ p -ℤ shrunk }
    ensures small { IsWithin (2 ^ 121) result }
{
    rate as i128 * rate as i128 * p - shrunk
}

/// k² P - g·gᵀ
pub(crate) fn output<const N: usize>(p: &Sym<N>, g: &[i128; N], k: i64) -> Sym<N>
    requires n_some { 0 < N }
    requires p_small { All (All (IsWithin (2 ^ 40))) p.now.at }
    requires g_small { All (IsWithin (2 ^ 35)) g.now }
    requires k_small { IsWithin (2 ^ 40) k }
    ensures value { result.at ≡ output_matrix k p.now.at g.now }
    ensures small { All (All (IsWithin (2 ^ 121))) result.at }
    ensures symmetric { IsSymmetric N p.now.at → IsSymmetric N result.at }
{
    let at = output_rows(&p.at, g, k);
    Sym { at }
}

// k² P - g·gᵀ
fn output_rows<const N: usize>(p: &[[i128; N]; N], g: &[i128; N], k: i64) -> [[i128; N]; N]
    requires n_some { 0 < N }
    requires p_small { All (All (IsWithin (2 ^ 40))) p.now }
    requires g_small { All (IsWithin (2 ^ 35)) g.now }
    requires k_small { IsWithin (2 ^ 40) k }
    ensures value { result ≡ output_matrix k p.now g.now }
    ensures small { All (All (IsWithin (2 ^ 121))) result }
    ensures symmetric { IsSymmetric N p.now → IsSymmetric N result }
{
    let mut at = [[0; N]; N];
    for i in 0..N {
        at[i] = output_row(&p[i], g, k, i);
    }
    at
}

// A row of k² P - g·gᵀ, from that of P.
fn output_row<const N: usize>(row: &[i128; N], g: &[i128; N], k: i64, i: usize) -> [i128; N]
    requires i_in { i < N }
    requires row_small { All (IsWithin (2 ^ 40)) row.now }
    requires g_small { All (IsWithin (2 ^ 35)) g.now }
    requires k_small { IsWithin (2 ^ 40) k }
    ensures value { (j : ℕ) → j < N
        → slice_index_or result j (pos 0)
        ≡ k *ℤ k *ℤ slice_index_or row.now j (pos 0)
        -ℤ slice_index_or g.now i (pos 0) *ℤ slice_index_or g.now j (pos 0) }
    ensures small { All (IsWithin (2 ^ 121)) result }
    ensures long { length result ≡ N }
    ensures wide { length row.now ≡ N }
    ensures outputs { length g.now ≡ N }
{
    let own = number_at(g, i);
    let mut out = [0; N];
    for j in 0..N {
        out[j] = less_product(k, entry_at(row, j), own, number_at(g, j));
    }
    out
}

// k² p - a b
fn less_product(k: i64, p: i128, a: i128, b: i128) -> i128
    requires k_small { IsWithin (2 ^ 40) k }
    requires p_small { IsWithin (2 ^ 40) p }
    requires a_small { IsWithin (2 ^ 35) a }
    requires b_small { IsWithin (2 ^ 35) b }
    ensures value { result ≡ k *ℤ k *ℤ p -ℤ a *ℤ b }
    ensures small { IsWithin (2 ^ 121) result }
{
    let square = k as i128 * k as i128;
    square * p - a * b
}

// The entry in column j of a row.
fn entry_at<const N: usize>(row: &[i128; N], j: usize) -> i128
    requires j_in { j < N }
    ensures value { result ≡ slice_index_or row.now j (pos 0) }
    ensures wide { length row.now ≡ N }
{
    row[j]
}

// The number in column j of a row.
fn number_at<const N: usize>(row: &[i128; N], j: usize) -> i128
    requires j_in { j < N }
    ensures value { result ≡ slice_index_or row.now j (pos 0) }
    ensures wide { length row.now ≡ N }
{
    row[j]
}
