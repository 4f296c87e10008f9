//! The numbers under a certificate's roots: the least squares of its `b` and its `r`.
ghost use Rattle.std.specs.Prelude.{◌≡◌, ◌≤◌, ◌<◌, ◌^◌, pos, ◌*ℤ◌, unsigned_abs};
ghost use Rattle.dp_form.specs.{IsWithin};
ghost use Rattle.dp_plant.specs.{IsLawGains, IsObserverGains};
ghost use Rattle.dp_cert.specs.{AreLists, AreParts, IsSmallLoop};
ghost use Rattle.dp_cert.specs.Judged.{input_square, input_square_by, round_square, round_square_by};

use crate::five_states::loop_five;
use crate::forms::{absolute_rows, form_of};
use crate::loops::Loop;
use crate::three_states::loop_three;
use dp_plant::{Cert, Gains, Lists, Parts};

/// The numbers under a certificate's roots. Either can be below 0 where the form isn't shown.
#[derive(Clone, Copy, Debug, PartialEq, Eq)]
pub struct UnderRoots {
    /// What the square of `b` is at least: twice the form at what a measured place corrects.
    pub input: i128,
    /// What the square of `r` is at least: twice the form of absolute values at the roundings.
    pub rounding: i128,
}

/// The numbers under the roots, by the gains and the form alone. The numbers of both are in range.
pub fn under_roots(g: &Gains, c: &Cert) -> UnderRoots
    requires observer { IsObserverGains g.now }
    requires law { IsLawGains g.now }
    requires parts { AreParts c.now.parts }
    ensures input { result.input ≡ input_square_by g.now c.now.parts }
    ensures rounding { result.rounding ≡ round_square_by g.now c.now.parts }
    ensures input_small { IsWithin (2 ^ 122) result.input }
    ensures rounding_small { IsWithin (2 ^ 122) result.rounding }
{
    match &c.parts {
        Parts::Three(l) => of_loop(l, &loop_three(g)),
        Parts::Five(l) => of_loop(l, &loop_five(g)),
    }
}

fn of_loop<const N: usize>(l: &Lists<N>, m: &Loop<N>) -> UnderRoots
    requires size { N < 6 }
    requires lists { AreLists l.now }
    requires loop_small { IsSmallLoop m.now }
    ensures input { result.input ≡ input_square l.now m.now }
    ensures rounding { result.rounding ≡ round_square l.now m.now }
    ensures input_small { IsWithin (2 ^ 122) result.input }
    ensures rounding_small { IsWithin (2 ^ 122) result.rounding }
{
    UnderRoots {
        input: input_square(l, m),
        rounding: round_square(l, m),
    }
}

/// What the square of `b` is at least.
pub(crate) fn input_square<const N: usize>(l: &Lists<N>, m: &Loop<N>) -> i128
    requires size { N < 6 }
    requires lists { AreLists l.now }
    requires loop_small { IsSmallLoop m.now }
    ensures value { result ≡ input_square l.now m.now }
    ensures small { IsWithin (2 ^ 122) result }
{
    twice(form_of(&l.p.at, &m.correction))
}

/// What the square of `r` is at least.
pub(crate) fn round_square<const N: usize>(l: &Lists<N>, m: &Loop<N>) -> i128
    requires size { N < 6 }
    requires lists { AreLists l.now }
    requires loop_small { IsSmallLoop m.now }
    ensures value { result ≡ round_square l.now m.now }
    ensures small { IsWithin (2 ^ 122) result }
{
    let sizes = absolute_rows(&l.p.at);
    twice(form_of(&sizes, &m.rounding))
}

fn twice(form: i128) -> i128
    requires { unsigned_abs form ≤ 2 ^ 121 }
    ensures value { result ≡ pos 2 *ℤ form }
    ensures small { IsWithin (2 ^ 122) result }
{
    2 * form
}
