//! That squares show the certificate's matrices.
ghost use Rattle.std.specs.Prelude.{◌≡◌, ◌<◌, ◌^◌, ◌⊎◌, All, None};
ghost use Rattle.dp_form.specs.{IsNonNegative, IsSmallSquare, IsSymmetric, IsWithin};
ghost use Rattle.dp_cert.specs.{AreLists, AreNumbers, IsSmallLoop, first_short, squares_of};
ghost use Rattle.dp_cert.specs.Judged.{IsWhichOf, Says, fault_for, judged, squares_for};
ghost use Rattle.dp_cert.specs.Valid.{shown};

use crate::CertFault;
use crate::judged::{Which, matrix_of};
use crate::loops::Loop;
use dp_form::{NotShown, Squares, Sym, is_nonneg};
use dp_plant::{Cert, Lists};

/// That a list of the certificate's squares shows its matrix, or the first row that it leaves short.
pub(crate) fn list_condition<const N: usize>(
    c: &Cert,
    l: &Lists<N>,
    m: &Loop<N>,
    which: Which,
) -> Option<CertFault>
    requires size { (N ≡ 3) ⊎ (N ≡ 5) }
    requires numbers { AreNumbers c.now }
    requires lists { AreLists l.now }
    requires loop_small { IsSmallLoop m.now }
    requires which { IsWhichOf N which }
    requires squares { All IsSmallSquare (squares_for l.now which) }
    ensures value { result
        ≡ shown (judged c.now l.now m.now which) (squares_for l.now which) (fault_for which) }
    ensures says { result ≡ None → Says c.now l.now m.now which }
{
    let matrix = matrix_of(c, l, m, which);
    let short = first_short(&matrix, list_for(l, which))?;
    Some(fault_for(which, short))
}

/// The first row of a matrix that squares leave short.
pub(crate) fn first_short<const N: usize>(s: &Sym<N>, w: &Squares<N>) -> Option<NotShown>
    requires size { (N ≡ 3) ⊎ (N ≡ 5) }
    requires symmetric { IsSymmetric N s.now.at }
    requires entries { All (All (IsWithin (2 ^ 121))) s.now.at }
    requires squares { All IsSmallSquare w.now.list.items }
    ensures value { result ≡ first_short s.now.at w.now.list.items }
    ensures nonneg { result ≡ None → IsNonNegative s.now.at }
{
    is_nonneg(s, w).err()
}

/// The list of squares that is to show a matrix.
fn list_for<const N: usize>(l: &Lists<N>, which: Which) -> &Squares<N>
    requires { IsWhichOf N which }
    ensures { result.now.list.items ≡ squares_for l.now which }
{
    match which {
        Which::Vertex { axis, vertex } => squares_in(&l.vertex[axis], vertex),
        Which::Output { axis, which } => squares_in(&l.output[axis], which),
        Which::Span { coordinate } => squares_in(&l.spans, coordinate),
    }
}

/// The i-th of so many lists of squares.
fn squares_in<const N: usize, const M: usize>(lists: &[Squares<N>; M], i: usize) -> &Squares<N>
    requires { i < M }
    ensures { result.now.list.items ≡ squares_of lists.now i }
{
    &lists[i]
}

/// The fault of a matrix that isn't shown.
fn fault_for(which: Which, s: NotShown) -> CertFault
    ensures { result ≡ fault_for which s }
{
    let NotShown { row, short } = s;
    match which {
        Which::Vertex { axis, vertex } => CertFault::VertexNotShown {
            axis,
            vertex,
            row,
            short,
        },
        Which::Output { axis, which } => CertFault::OutputNotShown {
            axis,
            which,
            row,
            short,
        },
        Which::Span { coordinate } => CertFault::SpanNotShown {
            coordinate,
            row,
            short,
        },
    }
}
