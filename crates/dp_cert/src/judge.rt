//! The conditions of a valid certificate but for the ranges, in their order.
ghost use Rattle.std.specs.Prelude.{◌≡◌, ◌<◌, ◌≤◌, ◌^◌, ◌⊎◌, pos, ◌*ℤ◌, ◌<ℤ◌, ◌≤ℤ◌, int_le, None};
ghost use Rattle.dp_fixed.specs.{full_scale};
ghost use Rattle.dp_form.specs.{IsNonNegative, form};
ghost use Rattle.dp_plant.specs.{IsLawGains, IsObserverGains};
ghost use Rattle.dp_cert.specs.{AreLists, AreNumbers, AreParts, AreWaveSpans, IsSmallLoop, IsUpTo, absolute_rows, loop_five, loop_three};
ghost use Rattle.dp_cert.specs.Sound.{
  AreBounded,
  BoundsCoordinate,
  BoundsOutput,
  IsSound,
  IsSoundLoop,
  Shrinks,
};
ghost use Rattle.dp_cert.specs.Valid.{
  first_fault,
  first_output,
  first_shape,
  first_span,
  first_vertex,
  first_wave_span,
  form_condition,
  input_condition,
  list_fault,
  rate_condition,
  round_condition,
};

use crate::CertFault;
use crate::five_states::loop_five;
use crate::judged::Which;
use crate::loops::Loop;
use crate::root_numbers::{input_square, round_square};
use crate::shown::{first_short, list_condition};
use crate::three_states::loop_three;
use crate::width::first_too_wide;
use dp_fixed::Q;
use dp_plant::{Cert, Gains, Lists, Parts};

/// The first condition that fails, of gains and a certificate whose numbers are in range.
#[tactic(auto, unfolding(crate::specs::Valid::first_fault))]
pub(crate) fn first_fault(g: &Gains, c: &Cert) -> Option<CertFault>
    requires observer { IsObserverGains g.now }
    requires law { IsLawGains g.now }
    requires numbers { AreNumbers c.now }
    requires parts { AreParts c.now.parts }
    ensures value { result ≡ first_fault g.now c.now }
    ensures sound { result ≡ None → IsSound g.now c.now }
{
    match &c.parts {
        Parts::Three(l) => fault_of_three(g, c, l),
        Parts::Five(l) => fault_of_five(g, c, l),
    }
}

fn fault_of_three(g: &Gains, c: &Cert, l: &Lists<3>) -> Option<CertFault>
    requires observer { IsObserverGains g.now }
    requires law { IsLawGains g.now }
    requires numbers { AreNumbers c.now }
    requires lists { AreLists l.now }
    ensures value { result ≡ list_fault c.now l.now (loop_three g.now) (first_span l.now) }
    ensures sound { result ≡ None → IsSoundLoop c.now l.now (loop_three g.now) }
    ensures bounded { result ≡ None → AreBounded l.now }
{
    let m = loop_three(g);
    let spans = first_span(c, l, &m);
    list_fault(c, l, &m, spans)
}

fn fault_of_five(g: &Gains, c: &Cert, l: &Lists<5>) -> Option<CertFault>
    requires observer { IsObserverGains g.now }
    requires law { IsLawGains g.now }
    requires numbers { AreNumbers c.now }
    requires lists { AreLists l.now }
    requires wave { AreWaveSpans l.now }
    ensures value { result ≡ list_fault c.now l.now (loop_five g.now) (first_wave_span l.now) }
    ensures sound { result ≡ None → IsSoundLoop c.now l.now (loop_five g.now) }
    ensures bounded { result ≡ None → AreBounded l.now }
{
    let m = loop_five(g);
    let spans = first_wave_span(c, l, &m);
    list_fault(c, l, &m, spans)
}

/// The first condition that fails, of a certificate whose numbers are in range.
#[tactic(auto, unfolding(crate::specs::Valid::list_fault, crate::specs::Valid::width_condition))]
fn list_fault<const N: usize>(
    c: &Cert,
    l: &Lists<N>,
    m: &Loop<N>,
    spans: Option<CertFault>,
) -> Option<CertFault>
    requires size { (N ≡ 3) ⊎ (N ≡ 5) }
    requires numbers { AreNumbers c.now }
    requires lists { AreLists l.now }
    requires small { IsSmallLoop m.now }
    ensures value { result ≡ list_fault c.now l.now m.now spans }
    ensures sound { result ≡ None → IsSoundLoop c.now l.now m.now }
    ensures spans { result ≡ None → spans ≡ None }
{
    match first_shape(c, l, m, spans) {
        Some(fault) => Some(fault),
        None => {
            let coordinate = first_too_wide(c, l)?;
            Some(CertFault::TooWide { coordinate })
        }
    }
}

/// The first condition that fails but for the widths, by what the spans' gives.
#[tactic(auto, unfolding(crate::specs::Valid::first_shape))]
fn first_shape<const N: usize>(
    c: &Cert,
    l: &Lists<N>,
    m: &Loop<N>,
    spans: Option<CertFault>,
) -> Option<CertFault>
    requires size { (N ≡ 3) ⊎ (N ≡ 5) }
    requires numbers { AreNumbers c.now }
    requires lists { AreLists l.now }
    requires small { IsSmallLoop m.now }
    ensures value { result ≡ first_shape c.now l.now m.now spans }
    ensures sound { result ≡ None → IsSoundLoop c.now l.now m.now }
    ensures spans { result ≡ None → spans ≡ None }
{
    rate_condition(c)
        .or(form_condition(l))
        .or(first_vertex(c, l, m))
        .or(input_condition(c, l, m))
        .or(round_condition(c, l, m))
        .or(first_output(c, l, m))
        .or(spans)
}

#[tactic(auto, unfolding(crate::specs::Valid::rate_condition))]
fn rate_condition(c: &Cert) -> Option<CertFault>
    requires { AreNumbers c.now }
    ensures value { result ≡ rate_condition c.now }
    ensures rate { result ≡ None → c.now.rho <ℤ full_scale }
{
    if (c.rho as i128) < Q {
        None
    } else {
        Some(CertFault::Rate)
    }
}

#[tactic(auto, unfolding(crate::specs::Valid::form_condition))]
fn form_condition<const N: usize>(l: &Lists<N>) -> Option<CertFault>
    requires size { (N ≡ 3) ⊎ (N ≡ 5) }
    requires lists { AreLists l.now }
    ensures value { result ≡ form_condition l.now }
    ensures nonneg { result ≡ None → IsNonNegative l.now.p.at }
{
    let short = first_short(&l.p, &l.form)?;
    Some(CertFault::FormNotShown {
        row: short.row,
        short: short.short,
    })
}

#[tactic(auto, unfolding(crate::specs::Valid::first_vertex, crate::specs::Valid::vertex_condition))]
fn first_vertex<const N: usize>(c: &Cert, l: &Lists<N>, m: &Loop<N>) -> Option<CertFault>
    requires size { (N ≡ 3) ⊎ (N ≡ 5) }
    requires numbers { AreNumbers c.now }
    requires lists { AreLists l.now }
    requires small { IsSmallLoop m.now }
    ensures value { result ≡ first_vertex c.now l.now m.now }
    ensures surge_saturated { result ≡ None → Shrinks c.now l.now m.now.surge.saturated }
    ensures surge_clamped { result ≡ None → Shrinks c.now l.now m.now.surge.clamped }
    ensures surge_free { result ≡ None → Shrinks c.now l.now m.now.surge.free }
    ensures sway_saturated { result ≡ None → Shrinks c.now l.now m.now.sway.saturated }
    ensures sway_clamped { result ≡ None → Shrinks c.now l.now m.now.sway.clamped }
    ensures sway_free { result ≡ None → Shrinks c.now l.now m.now.sway.free }
{
    list_condition(c, l, m, Which::Vertex { axis: 0, vertex: 0 })
        .or(list_condition(c, l, m, Which::Vertex { axis: 0, vertex: 1 }))
        .or(list_condition(c, l, m, Which::Vertex { axis: 0, vertex: 2 }))
        .or(list_condition(c, l, m, Which::Vertex { axis: 1, vertex: 0 }))
        .or(list_condition(c, l, m, Which::Vertex { axis: 1, vertex: 1 }))
        .or(list_condition(c, l, m, Which::Vertex { axis: 1, vertex: 2 }))
}

#[tactic(auto, unfolding(crate::specs::Valid::input_condition))]
fn input_condition<const N: usize>(c: &Cert, l: &Lists<N>, m: &Loop<N>) -> Option<CertFault>
    requires size { N < 6 }
    requires numbers { AreNumbers c.now }
    requires lists { AreLists l.now }
    requires small { IsSmallLoop m.now }
    ensures value { result ≡ input_condition c.now l.now m.now }
    ensures enough { result ≡ None
        → (pos 2 *ℤ form l.now.p.at m.now.correction) ≤ℤ (c.now.b *ℤ c.now.b) }
{
    if is_enough(c.b, input_square(l, m)) {
        None
    } else {
        Some(CertFault::InputShort)
    }
}

#[tactic(auto, unfolding(crate::specs::Valid::round_condition))]
fn round_condition<const N: usize>(c: &Cert, l: &Lists<N>, m: &Loop<N>) -> Option<CertFault>
    requires size { N < 6 }
    requires numbers { AreNumbers c.now }
    requires lists { AreLists l.now }
    requires small { IsSmallLoop m.now }
    ensures value { result ≡ round_condition c.now l.now m.now }
    ensures enough { result ≡ None
        → (pos 2 *ℤ form (absolute_rows l.now.p.at) m.now.rounding) ≤ℤ (c.now.r *ℤ c.now.r) }
{
    if is_enough(c.r, round_square(l, m)) {
        None
    } else {
        Some(CertFault::RoundShort)
    }
}

// Whether the square of a root is at least a number.
fn is_enough(root: i64, least: i128) -> bool
    requires { IsUpTo (pos (2 ^ 50)) root }
    ensures { result ≡ int_le least (root *ℤ root) }
{
    least <= square(root as i128)
}

fn square(root: i128) -> i128
    requires { IsUpTo (pos (2 ^ 50)) root }
    ensures { result ≡ root *ℤ root }
{
    root * root
}

#[tactic(auto, unfolding(crate::specs::Valid::first_output, crate::specs::Valid::output_condition))]
fn first_output<const N: usize>(c: &Cert, l: &Lists<N>, m: &Loop<N>) -> Option<CertFault>
    requires size { (N ≡ 3) ⊎ (N ≡ 5) }
    requires numbers { AreNumbers c.now }
    requires lists { AreLists l.now }
    requires small { IsSmallLoop m.now }
    ensures value { result ≡ first_output c.now l.now m.now }
    ensures surge { result ≡ None → BoundsOutput c.now l.now m.now.surge.output 0 }
    ensures surge_clamped { result ≡ None → BoundsOutput c.now l.now m.now.surge.clamped_output 0 }
    ensures sway { result ≡ None → BoundsOutput c.now l.now m.now.sway.output 1 }
    ensures sway_clamped { result ≡ None → BoundsOutput c.now l.now m.now.sway.clamped_output 1 }
{
    list_condition(c, l, m, Which::Output { axis: 0, which: 0 })
        .or(list_condition(c, l, m, Which::Output { axis: 0, which: 1 }))
        .or(list_condition(c, l, m, Which::Output { axis: 1, which: 0 }))
        .or(list_condition(c, l, m, Which::Output { axis: 1, which: 1 }))
}

#[tactic(auto, unfolding(crate::specs::Valid::first_span, crate::specs::Valid::span_condition))]
fn first_span(c: &Cert, l: &Lists<3>, m: &Loop<3>) -> Option<CertFault>
    requires numbers { AreNumbers c.now }
    requires lists { AreLists l.now }
    requires small { IsSmallLoop m.now }
    ensures value { result ≡ first_span l.now }
    ensures place { result ≡ None → BoundsCoordinate l.now 0 }
    ensures bias { result ≡ None → BoundsCoordinate l.now 1 }
    ensures velocity { result ≡ None → BoundsCoordinate l.now 2 }
{
    list_condition(c, l, m, Which::Span { coordinate: 0 })
        .or(list_condition(c, l, m, Which::Span { coordinate: 1 }))
        .or(list_condition(c, l, m, Which::Span { coordinate: 2 }))
}

#[tactic(auto, unfolding(crate::specs::Valid::first_span, crate::specs::Valid::first_wave_span, crate::specs::Valid::span_condition))]
fn first_wave_span(c: &Cert, l: &Lists<5>, m: &Loop<5>) -> Option<CertFault>
    requires numbers { AreNumbers c.now }
    requires lists { AreLists l.now }
    requires wave { AreWaveSpans l.now }
    requires small { IsSmallLoop m.now }
    ensures value { result ≡ first_wave_span l.now }
    ensures place { result ≡ None → BoundsCoordinate l.now 0 }
    ensures bias { result ≡ None → BoundsCoordinate l.now 1 }
    ensures velocity { result ≡ None → BoundsCoordinate l.now 2 }
    ensures wave_p { result ≡ None → BoundsCoordinate l.now 3 }
    ensures wave_q { result ≡ None → BoundsCoordinate l.now 4 }
{
    list_condition(c, l, m, Which::Span { coordinate: 0 })
        .or(list_condition(c, l, m, Which::Span { coordinate: 1 }))
        .or(list_condition(c, l, m, Which::Span { coordinate: 2 }))
        .or(list_condition(c, l, m, Which::Span { coordinate: 3 }))
        .or(list_condition(c, l, m, Which::Span { coordinate: 4 }))
}
