//! The ranges of gains and certificates, key by key.
ghost use Rattle.std.specs.Prelude.{◌≡◌, option_map};
ghost use Rattle.std.specs.List.{list_all};
ghost use Rattle.dp_cert.specs.Ranges.{
  are_filter,
  are_shares,
  are_sizes,
  are_small,
  are_squares,
  are_within,
  first_out,
  first_unfit,
  form_rows,
  law_rows,
  list_out,
  number_rows,
  observer_rows,
  output_rows,
  part_out,
  span_rows,
  unfit,
  vertex_rows,
  wave_span_rows,
  yaw_rows,
};

use dp_fixed::FULL_SCALE;
use dp_form::Squares;
use dp_plant::{Cert, Gains, Lists, Parts, YawGains};
use std::slice::from_ref;

const SIZE: i64 = 1 << 40;

/// The first key so far whose value is out of its range.
#[derive(Drop)]
struct Unfit {
    name: Option<&'static str>,
}

impl Unfit {
    /// A further key, and whether its value is in its range.
    fn key(self, name: &'static str, fits: bool) -> Unfit
        ensures { option_map (λ s. s.now) result.name
            ≡ unfit (option_map (λ s. s.now) self.name) (name.now, fits) }
    {
        match self.name {
            Some(first) => Unfit { name: Some(first) },
            None if fits => Unfit { name: None },
            None => Unfit { name: Some(name) },
        }
    }
}

/// The first key whose value is out of its range.
#[tactic(auto, unfolding(crate::specs::Ranges::first_out))]
pub(crate) fn first_out(g: &Gains, y: &YawGains, c: &Cert) -> Option<&'static str>
    ensures { option_map (λ s. s.now) result ≡ first_out g.now y.now c.now }
{
    let gains = law(observer(Unfit { name: None }, g), g, &c.parts);
    parts(numbers(yaw(gains, y), c), &c.parts).name
}

#[tactic(auto, unfolding(crate::specs::Ranges::observer_rows))]
fn observer(first: Unfit, g: &Gains) -> Unfit
    ensures { option_map (λ s. s.now) result.name
        ≡ first_unfit (option_map (λ s. s.now) first.name) (observer_rows g.now) }
{
    first
        .key("gains.k2", are_shares(from_ref(&g.k2)))
        .key("gains.k3", are_shares(from_ref(&g.k3)))
        .key("gains.k4", are_shares(from_ref(&g.k4)))
        .key("gains.leak", are_shares(from_ref(&g.leak)))
        .key("gains.damp", are_shares(from_ref(&g.damp)))
}

#[tactic(auto, unfolding(crate::specs::Ranges::law_rows))]
fn law(first: Unfit, g: &Gains, parts: &Parts) -> Unfit
    ensures { option_map (λ s. s.now) result.name
        ≡ first_unfit (option_map (λ s. s.now) first.name) (law_rows g.now parts.now) }
{
    first
        .key("gains.kp", are_shares(&g.kp))
        .key("gains.kd", are_shares(&g.kd))
        .key("gains.bias", are_within(&g.bias, 0, 1 << 31))
        .key("gains.wave", are_filter(parts, &g.wave))
        .key("gains.k1", are_filter(parts, &g.k1))
}

#[tactic(auto, unfolding(crate::specs::Ranges::yaw_rows))]
fn yaw(first: Unfit, y: &YawGains) -> Unfit
    ensures { option_map (λ s. s.now) result.name
        ≡ first_unfit (option_map (λ s. s.now) first.name) (yaw_rows y.now) }
{
    first
        .key("yaw.k2", are_shares(from_ref(&y.k2)))
        .key("yaw.kp", are_shares(from_ref(&y.kp)))
        .key("yaw.kd", are_shares(from_ref(&y.kd)))
        .key("yaw.k3", are_within(from_ref(&y.k3), 0, 1 << 17))
        .key("yaw.k4", are_within(from_ref(&y.k4), 0, 1 << 24))
        .key(
            "yaw.leak",
            are_within(from_ref(&y.leak), 1 << 17, FULL_SCALE),
        )
        .key(
            "yaw.damp",
            are_within(from_ref(&y.damp), 1 << 17, FULL_SCALE),
        )
        .key("yaw.bias", are_within(from_ref(&y.bias), 0, 1 << 38))
}

#[tactic(auto, unfolding(crate::specs::Ranges::number_rows))]
fn numbers(first: Unfit, c: &Cert) -> Unfit
    ensures { option_map (λ s. s.now) result.name
        ≡ first_unfit (option_map (λ s. s.now) first.name) (number_rows c.now) }
{
    first
        .key("cert.rho", are_shares(from_ref(&c.rho)))
        .key("cert.b", are_within(from_ref(&c.b), 0, 1 << 50))
        .key("cert.r", are_sizes(from_ref(&c.r)))
        .key("cert.g", are_sizes(&c.g))
}

fn parts(first: Unfit, parts: &Parts) -> Unfit
    ensures { option_map (λ s. s.now) result.name
        ≡ part_out (option_map (λ s. s.now) first.name) parts.now }
{
    match parts {
        Parts::Three(l) => spans(lists(first, l), l),
        Parts::Five(l) => wave_spans(lists(first, l), l),
    }
}

#[tactic(auto, unfolding(crate::specs::Ranges::list_out))]
fn lists<const N: usize>(first: Unfit, l: &Lists<N>) -> Unfit
    ensures { option_map (λ s. s.now) result.name
        ≡ list_out (option_map (λ s. s.now) first.name) l.now }
{
    outputs(vertices(form(first, l), l), l)
}

#[tactic(auto, unfolding(crate::specs::Ranges::form_rows))]
fn form<const N: usize>(first: Unfit, l: &Lists<N>) -> Unfit
    ensures { option_map (λ s. s.now) result.name
        ≡ first_unfit (option_map (λ s. s.now) first.name) (form_rows l.now) }
{
    first
        .key("cert.p", is_small_matrix(&l.p.at))
        .key("cert.span", are_sizes(&l.span))
        .key("cert.form", are_squares(&l.form))
}

#[tactic(auto, unfolding(crate::specs::Ranges::vertex_rows))]
fn vertices<const N: usize>(first: Unfit, l: &Lists<N>) -> Unfit
    ensures { option_map (λ s. s.now) result.name
        ≡ first_unfit (option_map (λ s. s.now) first.name) (vertex_rows l.now) }
{
    let surge = &l.vertex[0];
    let sway = &l.vertex[1];
    first
        .key("cert.surge0", are_squares(&surge[0]))
        .key("cert.surge1", are_squares(&surge[1]))
        .key("cert.surge2", are_squares(&surge[2]))
        .key("cert.sway0", are_squares(&sway[0]))
        .key("cert.sway1", are_squares(&sway[1]))
        .key("cert.sway2", are_squares(&sway[2]))
}

#[tactic(auto, unfolding(crate::specs::Ranges::output_rows))]
fn outputs<const N: usize>(first: Unfit, l: &Lists<N>) -> Unfit
    ensures { option_map (λ s. s.now) result.name
        ≡ first_unfit (option_map (λ s. s.now) first.name) (output_rows l.now) }
{
    let surge = &l.output[0];
    let sway = &l.output[1];
    first
        .key("cert.out_surge0", are_squares(&surge[0]))
        .key("cert.out_surge1", are_squares(&surge[1]))
        .key("cert.out_sway0", are_squares(&sway[0]))
        .key("cert.out_sway1", are_squares(&sway[1]))
}

#[tactic(auto, unfolding(crate::specs::Ranges::span_rows))]
fn spans(first: Unfit, l: &Lists<3>) -> Unfit
    ensures { option_map (λ s. s.now) result.name
        ≡ first_unfit (option_map (λ s. s.now) first.name) (span_rows l.now) }
{
    first
        .key("cert.span0", are_squares(&l.spans[0]))
        .key("cert.span1", are_squares(&l.spans[1]))
        .key("cert.span2", are_squares(&l.spans[2]))
}

#[tactic(auto, unfolding(crate::specs::Ranges::span_rows, crate::specs::Ranges::wave_span_rows))]
fn wave_spans(first: Unfit, l: &Lists<5>) -> Unfit
    ensures { option_map (λ s. s.now) result.name
        ≡ first_unfit (first_unfit (option_map (λ s. s.now) first.name) (span_rows l.now))
        (wave_span_rows l.now) }
{
    first
        .key("cert.span0", are_squares(&l.spans[0]))
        .key("cert.span1", are_squares(&l.spans[1]))
        .key("cert.span2", are_squares(&l.spans[2]))
        .key("cert.span3", are_squares(&l.spans[3]))
        .key("cert.span4", are_squares(&l.spans[4]))
}

/// Whether the gains of a wave filter are such as the certificate's parts allow.
fn are_filter(parts: &Parts, values: &[i64]) -> bool
    ensures { result ≡ are_filter parts.now values.now }
{
    match parts {
        Parts::Three(_) => are_within(values, 0, 0),
        Parts::Five(_) => are_within(values, -FULL_SCALE, FULL_SCALE),
    }
}

/// Whether every weight is from 0 to 2^40, and every vector within 2^40 of zero.
fn are_squares<const N: usize>(squares: &Squares<N>) -> bool
    ensures { result ≡ are_squares squares.now.list.items }
{
    for square in squares.list.as_slice() {
        if !(are_sizes(from_ref(&square.d)) && are_small(&square.l)) {
            return false;
        }
    }
    true
}

fn is_small_matrix<const N: usize>(rows: &[[i128; N]; N]) -> bool
    ensures { result ≡ list_all are_small rows.now }
{
    for row in rows {
        if !are_small_entries(row) {
            return false;
        }
    }
    true
}

fn are_small_entries(row: &[i128]) -> bool
    ensures { result ≡ are_small row.now }
{
    row.iter()
        .all(|x| -(SIZE as i128) <= *x && *x <= SIZE as i128)
}

fn are_small(values: &[i64]) -> bool
    ensures { result ≡ are_small values.now }
{
    are_within(values, -SIZE, SIZE)
}

fn are_sizes(values: &[i64]) -> bool
    ensures { result ≡ are_sizes values.now }
{
    are_within(values, 0, SIZE)
}

fn are_shares(values: &[i64]) -> bool
    ensures { result ≡ are_shares values.now }
{
    are_within(values, 0, FULL_SCALE)
}

fn are_within(values: &[i64], low: i64, high: i64) -> bool
    ensures { result ≡ are_within low high values.now }
{
    values.iter().all(|x| low <= *x && *x <= high)
}
