ghost use Rattle.std.specs.Prelude.{◌≡◌};
ghost use Rattle.dp_form.specs.{IsSymmetric};

use crate::lists::copied;
use arrayvec::ArrayString;
use dp_form::{Squares, Sym};

/// The name of a key of the plant file, as `plant.cycle_ms` or `thruster.0.max`.
pub type Key = ArrayString<48>;

/// The form of a certificate of N states per coordinate, and the squares that show what it claims.
///
/// States are numbered 0 place, 1 bias, 2 velocity, and with a wave filter 3 and 4, its states p and q. `p` is the matrix of the
/// quadratic form V (entries within ±2^40), and `span` the greatest coordinates, over 2^30, of states where V is at most 1 (0 to 2^40).
/// `form` shows V itself, `vertex` that each of the three vertices of an axis shrinks it, `output` that it bounds the demands of an
/// axis, and `spans` that it bounds each coordinate. Axes are 0 surge, 1 sway.
#[derive(Debug, Drop)]
pub struct Lists<const N: usize> {
    pub p: Sym<N>,
    pub span: [i64; N],
    pub form: Squares<N>,
    pub vertex: [[Squares<N>; 3]; 2],
    pub output: [[Squares<N>; 2]; 2],
    pub spans: [Squares<N>; N],
    ghost symmetric: { IsSymmetric N p.at },
}

/// The certificate's form and squares: of three states without a wave filter (plants of version 1), of five with one (version 2).
#[derive(Debug, Drop)]
pub enum Parts {
    Three(Lists<3>),
    Five(Lists<5>),
}

/// What shows that replacing one position reference moves each force by no more than two numbers allow.
///
/// `rho` is the rate, over 2^30, by which a cycle shrinks a difference of two states (0 to 2^30), `b` what a place's difference adds to
/// it in a cycle (0 to 2^50), `r` what roundings add (0 to 2^40), and `g` the greatest demand on surge and sway of a difference whose
/// form is 1 (0 to 2^40).
#[derive(Debug, Drop)]
pub struct Cert {
    pub rho: i64,
    pub b: i64,
    pub r: i64,
    pub g: [i64; 2],
    pub parts: Parts,
}

fn copied_squares<const N: usize>(squares: &Squares<N>) -> Squares<N>
    ensures { result ≡ squares.now }
{
    Squares {
        list: copied(&squares.list),
    }
}

fn copied_two<const N: usize>(lists: &[Squares<N>; 2]) -> [Squares<N>; 2]
    ensures { result ≡ lists.now }
{
    [copied_squares(&lists[0]), copied_squares(&lists[1])]
}

fn copied_three<const N: usize>(lists: &[Squares<N>; 3]) -> [Squares<N>; 3]
    ensures { result ≡ lists.now }
{
    [
        copied_squares(&lists[0]),
        copied_squares(&lists[1]),
        copied_squares(&lists[2]),
    ]
}

fn copied_five<const N: usize>(lists: &[Squares<N>; 5]) -> [Squares<N>; 5]
    ensures { result ≡ lists.now }
{
    [
        copied_squares(&lists[0]),
        copied_squares(&lists[1]),
        copied_squares(&lists[2]),
        copied_squares(&lists[3]),
        copied_squares(&lists[4]),
    ]
}

fn copied_vertices<const N: usize>(lists: &[[Squares<N>; 3]; 2]) -> [[Squares<N>; 3]; 2]
    ensures { result ≡ lists.now }
{
    [copied_three(&lists[0]), copied_three(&lists[1])]
}

fn copied_outputs<const N: usize>(lists: &[[Squares<N>; 2]; 2]) -> [[Squares<N>; 2]; 2]
    ensures { result ≡ lists.now }
{
    [copied_two(&lists[0]), copied_two(&lists[1])]
}

impl<const N: usize> Lists<N> {
    // with the given copy of the squares that show the spans
    fn copy_with(&self, spans: [Squares<N>; N]) -> Self
        requires { spans ≡ self.now.spans }
        ensures { result ≡ self.now }
    {
        Lists {
            p: self.p,
            span: self.span,
            form: copied_squares(&self.form),
            vertex: copied_vertices(&self.vertex),
            output: copied_outputs(&self.output),
            spans,
        }
    }
}

impl Parts {
    /// Equal parts, which take no memory.
    pub fn copy(&self) -> Self
        ensures { result ≡ self.now }
    {
        match self {
            Parts::Three(lists) => Parts::Three(lists.copy_with(copied_three(&lists.spans))),
            Parts::Five(lists) => Parts::Five(lists.copy_with(copied_five(&lists.spans))),
        }
    }
}

impl Cert {
    /// An equal certificate, which takes no memory: each field is equal, and each list has the same squares.
    pub fn copy(&self) -> Self
        ensures { result ≡ self.now }
    {
        Cert {
            rho: self.rho,
            b: self.b,
            r: self.r,
            g: self.g,
            parts: self.parts.copy(),
        }
    }
}
