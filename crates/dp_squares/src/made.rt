//! The certificate that is made for gains from a form.
ghost use Rattle.std.specs.Prelude.{◌≡◌, ◌<◌, [], ◌∷◌};
ghost use Rattle.dp_cert.specs.{AreNumbers, AreParts, state_count};
ghost use Rattle.dp_cert.specs.Judged.{IsWhichOf};
ghost use Rattle.dp_plant.specs.{IsLawGains, IsObserverGains};
ghost use Rattle.dp_plant.specs.declared.cert.Parts.TheVariants.{Three, Five};
ghost use Rattle.dp_squares.specs.{list_for, made_cert, made_parts};
ghost use Rattle.dp_squares.specs.Made.{five_spans, made_lists, output_lists, three_spans, vertex_lists, with_lists};

use crate::roots::made_root;
use arrayvec::ArrayVec;
use dp_cert::{Which, matrix3, matrix5, under_roots};
use dp_form::{Squares, made};
use dp_plant::{Cert, Gains, Lists, Parts};

/// The certificate that is made for gains from the form of a given one, whose numbers are in range.
///
/// Rate, demands, form, the greatest coordinates and the squares that show the form are the given ones'. Every other list of squares
/// is made of its matrix; `b` and `r` are the least roots of the numbers under them, 0 where such a number is below 0, and the given
/// ones where it is past 2^100. A made `r` can be past its range, which ends at 2^40.
#[tactic(auto, unfolding(crate::specs::Made::made_cert))]
pub fn make_cert(g: &Gains, c: &Cert) -> Cert
    requires observer { IsObserverGains g.now }
    requires law { IsLawGains g.now }
    requires numbers { AreNumbers c.now }
    requires parts { AreParts c.now.parts }
    ensures { result ≡ made_cert g.now c.now }
{
    let under = under_roots(g, c);
    Cert {
        rho: c.rho,
        b: made_root(under.input, c.b),
        r: made_root(under.rounding, c.r),
        g: c.g,
        parts: made_parts(g, c),
    }
}

fn made_parts(g: &Gains, c: &Cert) -> Parts
    requires observer { IsObserverGains g.now }
    requires law { IsLawGains g.now }
    requires numbers { AreNumbers c.now }
    requires parts { AreParts c.now.parts }
    ensures { result ≡ made_parts g.now c.now c.now.parts }
{
    match &c.parts {
        Parts::Three(l) => Parts::Three(three_lists(g, c, l)),
        Parts::Five(l) => Parts::Five(five_lists(g, c, l)),
    }
}

fn three_lists(g: &Gains, c: &Cert, l: &Lists<3>) -> Lists<3>
    requires observer { IsObserverGains g.now }
    requires law { IsLawGains g.now }
    requires numbers { AreNumbers c.now }
    requires parts { AreParts c.now.parts }
    requires size { state_count c.now.parts ≡ 3 }
    ensures { result ≡ made_lists g.now c.now (three_spans g.now c.now) l.now }
{
    let vertices = three_vertices(g, c);
    let outputs = three_outputs(g, c);
    with_lists(l, vertices, outputs, three_spans(g, c))
}

fn three_vertices(g: &Gains, c: &Cert) -> [[Squares<3>; 3]; 2]
    requires observer { IsObserverGains g.now }
    requires law { IsLawGains g.now }
    requires numbers { AreNumbers c.now }
    requires parts { AreParts c.now.parts }
    requires size { state_count c.now.parts ≡ 3 }
    ensures { result ≡ vertex_lists g.now c.now 0 ∷ vertex_lists g.now c.now 1 ∷ [] }
{
    [
        axis_vertices_of_three(g, c, 0),
        axis_vertices_of_three(g, c, 1),
    ]
}

fn three_outputs(g: &Gains, c: &Cert) -> [[Squares<3>; 2]; 2]
    requires observer { IsObserverGains g.now }
    requires law { IsLawGains g.now }
    requires numbers { AreNumbers c.now }
    requires parts { AreParts c.now.parts }
    requires size { state_count c.now.parts ≡ 3 }
    ensures { result ≡ output_lists g.now c.now 0 ∷ output_lists g.now c.now 1 ∷ [] }
{
    [
        axis_outputs_of_three(g, c, 0),
        axis_outputs_of_three(g, c, 1),
    ]
}

fn three_spans(g: &Gains, c: &Cert) -> [Squares<3>; 3]
    requires observer { IsObserverGains g.now }
    requires law { IsLawGains g.now }
    requires numbers { AreNumbers c.now }
    requires parts { AreParts c.now.parts }
    requires size { state_count c.now.parts ≡ 3 }
    ensures { result ≡ three_spans g.now c.now }
{
    [
        three_list(g, c, Which::Span { coordinate: 0 }),
        three_list(g, c, Which::Span { coordinate: 1 }),
        three_list(g, c, Which::Span { coordinate: 2 }),
    ]
}

fn axis_vertices_of_three(g: &Gains, c: &Cert, axis: usize) -> [Squares<3>; 3]
    requires observer { IsObserverGains g.now }
    requires law { IsLawGains g.now }
    requires numbers { AreNumbers c.now }
    requires parts { AreParts c.now.parts }
    requires size { state_count c.now.parts ≡ 3 }
    requires axis { axis < 2 }
    ensures { result ≡ vertex_lists g.now c.now axis }
{
    [
        three_list(g, c, Which::Vertex { axis, vertex: 0 }),
        three_list(g, c, Which::Vertex { axis, vertex: 1 }),
        three_list(g, c, Which::Vertex { axis, vertex: 2 }),
    ]
}

fn axis_outputs_of_three(g: &Gains, c: &Cert, axis: usize) -> [Squares<3>; 2]
    requires observer { IsObserverGains g.now }
    requires law { IsLawGains g.now }
    requires numbers { AreNumbers c.now }
    requires parts { AreParts c.now.parts }
    requires size { state_count c.now.parts ≡ 3 }
    requires axis { axis < 2 }
    ensures { result ≡ output_lists g.now c.now axis }
{
    [
        three_list(g, c, Which::Output { axis, which: 0 }),
        three_list(g, c, Which::Output { axis, which: 1 }),
    ]
}

/// The squares that are made for a matrix of a certificate without a wave filter.
fn three_list(g: &Gains, c: &Cert, which: Which) -> Squares<3>
    requires observer { IsObserverGains g.now }
    requires law { IsLawGains g.now }
    requires numbers { AreNumbers c.now }
    requires parts { AreParts c.now.parts }
    requires size { state_count c.now.parts ≡ 3 }
    requires which { IsWhichOf 3 which }
    ensures { result ≡ list_for g.now c.now which }
{
    made(&matrix3(g, c, which))
}

fn five_lists(g: &Gains, c: &Cert, l: &Lists<5>) -> Lists<5>
    requires observer { IsObserverGains g.now }
    requires law { IsLawGains g.now }
    requires numbers { AreNumbers c.now }
    requires parts { AreParts c.now.parts }
    requires size { state_count c.now.parts ≡ 5 }
    ensures { result ≡ made_lists g.now c.now (five_spans g.now c.now) l.now }
{
    let vertices = five_vertices(g, c);
    let outputs = five_outputs(g, c);
    with_lists(l, vertices, outputs, five_spans(g, c))
}

fn five_vertices(g: &Gains, c: &Cert) -> [[Squares<5>; 3]; 2]
    requires observer { IsObserverGains g.now }
    requires law { IsLawGains g.now }
    requires numbers { AreNumbers c.now }
    requires parts { AreParts c.now.parts }
    requires size { state_count c.now.parts ≡ 5 }
    ensures { result ≡ vertex_lists g.now c.now 0 ∷ vertex_lists g.now c.now 1 ∷ [] }
{
    [
        axis_vertices_of_five(g, c, 0),
        axis_vertices_of_five(g, c, 1),
    ]
}

fn five_outputs(g: &Gains, c: &Cert) -> [[Squares<5>; 2]; 2]
    requires observer { IsObserverGains g.now }
    requires law { IsLawGains g.now }
    requires numbers { AreNumbers c.now }
    requires parts { AreParts c.now.parts }
    requires size { state_count c.now.parts ≡ 5 }
    ensures { result ≡ output_lists g.now c.now 0 ∷ output_lists g.now c.now 1 ∷ [] }
{
    [axis_outputs_of_five(g, c, 0), axis_outputs_of_five(g, c, 1)]
}

fn five_spans(g: &Gains, c: &Cert) -> [Squares<5>; 5]
    requires observer { IsObserverGains g.now }
    requires law { IsLawGains g.now }
    requires numbers { AreNumbers c.now }
    requires parts { AreParts c.now.parts }
    requires size { state_count c.now.parts ≡ 5 }
    ensures { result ≡ five_spans g.now c.now }
{
    [
        five_list(g, c, Which::Span { coordinate: 0 }),
        five_list(g, c, Which::Span { coordinate: 1 }),
        five_list(g, c, Which::Span { coordinate: 2 }),
        five_list(g, c, Which::Span { coordinate: 3 }),
        five_list(g, c, Which::Span { coordinate: 4 }),
    ]
}

fn axis_vertices_of_five(g: &Gains, c: &Cert, axis: usize) -> [Squares<5>; 3]
    requires observer { IsObserverGains g.now }
    requires law { IsLawGains g.now }
    requires numbers { AreNumbers c.now }
    requires parts { AreParts c.now.parts }
    requires size { state_count c.now.parts ≡ 5 }
    requires axis { axis < 2 }
    ensures { result ≡ vertex_lists g.now c.now axis }
{
    [
        five_list(g, c, Which::Vertex { axis, vertex: 0 }),
        five_list(g, c, Which::Vertex { axis, vertex: 1 }),
        five_list(g, c, Which::Vertex { axis, vertex: 2 }),
    ]
}

fn axis_outputs_of_five(g: &Gains, c: &Cert, axis: usize) -> [Squares<5>; 2]
    requires observer { IsObserverGains g.now }
    requires law { IsLawGains g.now }
    requires numbers { AreNumbers c.now }
    requires parts { AreParts c.now.parts }
    requires size { state_count c.now.parts ≡ 5 }
    requires axis { axis < 2 }
    ensures { result ≡ output_lists g.now c.now axis }
{
    [
        five_list(g, c, Which::Output { axis, which: 0 }),
        five_list(g, c, Which::Output { axis, which: 1 }),
    ]
}

/// The squares that are made for a matrix of a certificate with a wave filter.
fn five_list(g: &Gains, c: &Cert, which: Which) -> Squares<5>
    requires observer { IsObserverGains g.now }
    requires law { IsLawGains g.now }
    requires numbers { AreNumbers c.now }
    requires parts { AreParts c.now.parts }
    requires size { state_count c.now.parts ≡ 5 }
    requires which { IsWhichOf 5 which }
    ensures { result ≡ list_for g.now c.now which }
{
    made(&matrix5(g, c, which))
}

/// A form with the squares that show it, and these lists.
fn with_lists<const N: usize>(
    l: &Lists<N>,
    vertex: [[Squares<N>; 3]; 2],
    output: [[Squares<N>; 2]; 2],
    spans: [Squares<N>; N],
) -> Lists<N>
    ensures { result ≡ with_lists l.now vertex.entry output.entry spans.entry }
{
    Lists {
        p: l.p,
        span: l.span,
        form: copied(&l.form),
        vertex,
        output,
        spans,
    }
}

/// Equal squares.
fn copied<const N: usize>(squares: &Squares<N>) -> Squares<N>
    ensures { result ≡ squares.now }
{
    let mut list = ArrayVec::new();
    // there are at most eight
    let _fits = list.try_extend_from_slice(squares.list.as_slice());
    Squares { list }
}
