//! The roots of a made certificate.
ghost use Rattle.std.specs.Prelude.{◌≡◌, ◌^◌, pos, ◌≤ℤ◌};
ghost use Rattle.dp_fixed.specs.{root_of};
ghost use Rattle.dp_form.specs.{IsWithin};
ghost use Rattle.dp_squares.specs.{made_root};

use dp_fixed::root_up;

/// The greatest number whose root is taken.
const GREATEST: i128 = 1 << 100;

/// The least root of a number, 0 of one below 0; past 2^100 what the file has.
pub(crate) fn made_root(n: i128, kept: i64) -> i64
    ensures { result ≡ made_root n kept }
{
    if n > GREATEST {
        kept
    } else if n < 0 {
        0
    } else {
        least_root(n)
    }
}

/// The root of a number from 0 to 2^100.
fn least_root(n: i128) -> i64
    requires low { pos 0 ≤ℤ n }
    requires high { n ≤ℤ pos (2 ^ 100) }
    ensures { result ≡ root_of n }
{
    root_up(n) as i64
}
