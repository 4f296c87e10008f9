//! Whether a plane state is in the certified set.
ghost use Rattle.std.specs.Prelude.{◌≡◌, ◌<◌, ◌+◌, ◌*◌, ◌^◌, ◌⊎◌, ◌↔◌, ℕ, pos, [], ◌∷◌, ◌+ℤ◌, ◌*ℤ◌, ◌<ℤ◌, ◌≤ℤ◌, int_le, All, IsTrue, None};
ghost use Rattle.dp_fixed.specs.{full_scale};
ghost use Rattle.dp_form.specs.{IsNonNegative, IsWithin, form};
ghost use Rattle.dp_form.specs.Form.{plane_form};
ghost use Rattle.dp_plant.specs.{entry};
ghost use Rattle.dp_cert.specs.{AreBounded, AreLists, AreNumbers, IsInside, IsLight, IsUpTo, first_too_wide, has_past, is_past, reach_of};

use crate::Accepted;
use crate::matrices::dot_of;
use crate::width::{reach_of, widths};
use dp_plant::{Cert, Component, Lists, Parts, PlaneState};

/// From this reach on every state within the widths is inside: its form is less than the square.
const LONG: i128 = 1 << 63;

impl Accepted {
    /// Whether a plane state is in the certified set, which no cycle leaves: its form V is at most the square of the reach N.
    ///
    /// It may be asked of any state. A certificate without a wave filter doesn't speak of the wave states, so they aren't looked at.
    pub fn inside(&self, x: &PlaneState) -> bool
        ensures { IsTrue result ↔ IsInside self.now.cert x.now }
    {
        let north = x.north();
        let east = x.east();
        match &self.cert.parts {
            Parts::Three(l) => is_inside(&self.cert, l, &three(&north), &three(&east)),
            Parts::Five(l) => is_inside(&self.cert, l, &five(&north), &five(&east)),
        }
    }
}

/// Place, bias and velocity.
fn three(x: &Component) -> [i128; 3]
    ensures value { result ≡ x.now.eta ∷ x.now.beta ∷ x.now.vel ∷ [] }
    ensures long { All (IsWithin (2 ^ 63)) result }
{
    [wide(x.eta), wide(x.beta), wide(x.vel)]
}

/// Place, bias, velocity and the wave states.
fn five(x: &Component) -> [i128; 5]
    ensures value { result
        ≡ x.now.eta ∷ x.now.beta ∷ x.now.vel ∷ x.now.wave_p ∷ x.now.wave_q ∷ [] }
    ensures long { All (IsWithin (2 ^ 63)) result }
{
    [
        wide(x.eta),
        wide(x.beta),
        wide(x.vel),
        wide(x.wave_p),
        wide(x.wave_q),
    ]
}

/// The same number in 128 bits.
fn wide(z: i64) -> i128
    ensures value { result ≡ z }
    ensures bound { IsWithin (2 ^ 63) result }
{
    z as i128
}

/// Whether the form of north's states x and east's y is at most the square of the reach: of a state past a width it isn't, and of the
/// others the form fits 128 bits.
fn is_inside<const N: usize>(c: &Cert, l: &Lists<N>, x: &[i128; N], y: &[i128; N]) -> bool
    requires size { (N ≡ 3) ⊎ (N ≡ 5) }
    requires numbers { AreNumbers c.now }
    requires lists { AreLists l.now }
    requires rate { c.now.rho <ℤ full_scale }
    requires form { IsNonNegative l.now.p.at }
    requires bounded { AreBounded l.now }
    requires narrow { first_too_wide c.now l.now ≡ None }
    requires north { All (IsWithin (2 ^ 63)) x.now }
    requires east { All (IsWithin (2 ^ 63)) y.now }
    ensures { result
        ≡ int_le (plane_form l.now.p.at x.now y.now)
        (reach_of c.now l.now *ℤ reach_of c.now l.now) }
{
    let reach = reach_of(c, l);
    match widths(reach, &l.span) {
        Err(_) => false,
        Ok(widths) => {
            if has_past(x, &widths) {
                return false;
            }
            if has_past(y, &widths) {
                return false;
            }
            is_at_most(plane_form(&l.p.at, x, y), reach)
        }
    }
}

/// Whether a coordinate is past its width.
fn has_past<const N: usize>(x: &[i128; N], widths: &[i128; N]) -> bool
    requires x { All (IsWithin (2 ^ 63)) x.now }
    requires widths { (j : ℕ) → IsUpTo (pos (2 ^ 56)) (entry widths.now j) }
    ensures { result ≡ has_past N x.now widths.now }
{
    for i in 0..N {
        if is_past(x[i], widths[i]) {
            return true;
        }
    }
    false
}

/// Whether a coordinate is past a width.
fn is_past(z: i128, width: i128) -> bool
    requires z { IsWithin (2 ^ 63) z }
    requires width { IsUpTo (pos (2 ^ 56)) width }
    ensures { result ≡ is_past z width }
{
    width < z.abs()
}

/// Whether a form is at most the square of the reach, which can pass 128 bits.
fn is_at_most(form: i128, reach: i128) -> bool
    requires form { IsWithin (2 ^ 126) form }
    requires reach { pos 0 ≤ℤ reach }
    ensures { result ≡ int_le form (reach *ℤ reach) }
{
    if reach >= LONG {
        return true;
    }
    form <= reach * reach
}

/// The form of north's states and east's together.
fn plane_form<const N: usize>(p: &[[i128; N]; N], x: &[i128; N], y: &[i128; N]) -> i128
    requires few { N < 6 }
    requires entries { All (All (IsWithin (2 ^ 40))) p.now }
    requires north { IsLight N p.now x.now }
    requires east { IsLight N p.now y.now }
    ensures value { result ≡ plane_form p.now x.now y.now }
    ensures bound { IsWithin (2 ^ 126) result }
{
    both(form_of(p, x), form_of(p, y))
}

/// The sum of two forms.
fn both(north: i128, east: i128) -> i128
    requires north { IsWithin (5 * (5 * 2 ^ 120)) north }
    requires east { IsWithin (5 * (5 * 2 ^ 120)) east }
    ensures value { result ≡ north +ℤ east }
    ensures bound { IsWithin (2 ^ 126) result }
{
    north + east
}

/// The form of a vector that is light, row by row.
fn form_of<const N: usize>(p: &[[i128; N]; N], x: &[i128; N]) -> i128
    requires few { N < 6 }
    requires entries { All (All (IsWithin (2 ^ 40))) p.now }
    requires light { IsLight N p.now x.now }
    ensures value { result ≡ form p.now x.now }
    ensures bound { IsWithin (5 * (5 * 2 ^ 120)) result }
{
    let mut sum = 0;
    for i in 0..N {
        sum = added(i, sum, part(x[i], dot_of(&p[i], x)));
    }
    sum
}

/// A row's part of the form.
fn part(x: i128, row: i128) -> i128
    requires { IsWithin (5 * 2 ^ 120) (x *ℤ row) }
    ensures value { result ≡ x *ℤ row }
    ensures bound { IsWithin (5 * 2 ^ 120) result }
{
    x * row
}

/// The parts of the first i rows, and the next.
fn added(i: usize, sum: i128, part: i128) -> i128
    requires i { i < 5 }
    requires sum { IsWithin (i * (5 * 2 ^ 120)) sum }
    requires part { IsWithin (5 * 2 ^ 120) part }
    ensures value { result ≡ sum +ℤ part }
    ensures bound { IsWithin ((i + 1) * (5 * 2 ^ 120)) result }
{
    sum + part
}
