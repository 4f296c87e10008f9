//! The matrices that a certificate's squares are to show.
ghost use Rattle.std.specs.Prelude.{◌≡◌, ◌<◌, ◌^◌, ◌⊎◌, All, slice_index_or};
ghost use Rattle.dp_form.specs.{IsSymmetric, IsWithin};
ghost use Rattle.dp_plant.specs.{IsLawGains, IsObserverGains};
ghost use Rattle.dp_cert.specs.{AreLists, AreNumbers, AreParts, IsSmallAxis, IsSmallLoop, state_count};
ghost use Rattle.dp_cert.specs.Judged.{IsWhichOf, axis_of, judged, judged_by, output_of, vertex_of};

use crate::five_states::loop_five;
use crate::forms::{number_of, unit};
use crate::loops::{AxisLoop, Loop};
use crate::matrices::{contraction, output};
use crate::three_states::loop_three;
use dp_form::Sym;
use dp_plant::{Cert, Gains, Lists, Parts};

/// A matrix that a list of a certificate's squares is to show. Axes are 0 surge, 1 sway.
#[derive(Clone, Copy, Debug, PartialEq, Eq)]
pub enum Which {
    /// That an axis' loop shrinks the form at a vertex: 0 with the thrust at a limit, 1 with the bias at its limit, 2 with neither.
    Vertex { axis: usize, vertex: usize },
    /// That the form bounds what the demand of an axis follows: 0 with the bias, 1 with the bias at its limit.
    Output { axis: usize, which: usize },
    /// That the form bounds a coordinate.
    Span { coordinate: usize },
}

/// A matrix of a certificate without a wave filter. Its numbers are in range.
pub fn matrix3(g: &Gains, c: &Cert, which: Which) -> Sym<3>
    requires observer { IsObserverGains g.now }
    requires law { IsLawGains g.now }
    requires numbers { AreNumbers c.now }
    requires parts { AreParts c.now.parts }
    requires size { state_count c.now.parts ≡ 3 }
    requires which { IsWhichOf 3 which }
    ensures value { result.at ≡ judged_by g.now c.now c.now.parts which }
    ensures small { All (All (IsWithin (2 ^ 121))) result.at }
    ensures symmetric { IsSymmetric 3 result.at }
{
    let Parts::Three(l) = &c.parts else {
        unreachable!();
    };
    matrix_of(c, l, &loop_three(g), which)
}

/// A matrix of a certificate with a wave filter. Its numbers are in range.
pub fn matrix5(g: &Gains, c: &Cert, which: Which) -> Sym<5>
    requires observer { IsObserverGains g.now }
    requires law { IsLawGains g.now }
    requires numbers { AreNumbers c.now }
    requires parts { AreParts c.now.parts }
    requires size { state_count c.now.parts ≡ 5 }
    requires which { IsWhichOf 5 which }
    ensures value { result.at ≡ judged_by g.now c.now c.now.parts which }
    ensures small { All (All (IsWithin (2 ^ 121))) result.at }
    ensures symmetric { IsSymmetric 5 result.at }
{
    let Parts::Five(l) = &c.parts else {
        unreachable!();
    };
    matrix_of(c, l, &loop_five(g), which)
}

/// A matrix, by the loop of the gains.
pub(crate) fn matrix_of<const N: usize>(c: &Cert, l: &Lists<N>, m: &Loop<N>, which: Which) -> Sym<N>
    requires size { (N ≡ 3) ⊎ (N ≡ 5) }
    requires numbers { AreNumbers c.now }
    requires lists { AreLists l.now }
    requires loop_small { IsSmallLoop m.now }
    requires which { IsWhichOf N which }
    ensures value { result.at ≡ judged c.now l.now m.now which }
    ensures small { All (All (IsWithin (2 ^ 121))) result.at }
    ensures symmetric { IsSymmetric N result.at }
{
    match which {
        Which::Vertex { axis, vertex } => {
            contraction(&l.p, vertex_of(axis_of(m, axis), vertex), c.rho)
        }
        Which::Output { axis, which } => {
            let bound = number_of(&c.g, axis);
            output(&l.p, output_of(axis_of(m, axis), which), bound)
        }
        Which::Span { coordinate } => {
            let bound = number_of(&l.span, coordinate);
            output(&l.p, &unit(coordinate), bound)
        }
    }
}

/// The loop along an axis.
fn axis_of<const N: usize>(m: &Loop<N>, axis: usize) -> &AxisLoop<N>
    requires axis { axis < 2 }
    requires loop_small { IsSmallLoop m.now }
    ensures value { result.now ≡ axis_of m.now axis }
    ensures small { IsSmallAxis result.now }
{
    if axis == 0 { &m.surge } else { &m.sway }
}

/// The matrix of a loop at a vertex.
fn vertex_of<const N: usize>(a: &AxisLoop<N>, vertex: usize) -> &[[i128; N]; N]
    requires vertex { vertex < 3 }
    requires axis_small { IsSmallAxis a.now }
    ensures value { result.now ≡ vertex_of a.now vertex }
    ensures small { All (All (IsWithin (2 ^ 35))) result.now }
{
    match vertex {
        0 => &a.saturated,
        1 => &a.clamped,
        _ => &a.free,
    }
}

/// What the demand of a loop follows.
fn output_of<const N: usize>(a: &AxisLoop<N>, which: usize) -> &[i128; N]
    requires which { which < 2 }
    requires axis_small { IsSmallAxis a.now }
    ensures value { result.now ≡ output_of a.now which }
    ensures small { All (IsWithin (2 ^ 35)) result.now }
{
    if which == 0 {
        &a.output
    } else {
        &a.clamped_output
    }
}
