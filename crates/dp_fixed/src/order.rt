ghost use Rattle.std.specs.Prelude.{◌≡◌, ◌⊎◌, ◌≤ℤ◌};
ghost use Rattle.dp_fixed.specs.{clamp_of, mid3_of};

/// `x`, or the nearer end of the range where it lies outside.
pub fn clamp(x: i128, lo: i128, hi: i128) -> i128
    requires { lo ≤ℤ hi }
    ensures value { result ≡ clamp_of x lo hi }
    ensures low { lo ≤ℤ result }
    ensures high { result ≤ℤ hi }
{
    x.clamp(lo, hi)
}

/// The middle one of three (mid-value select).
pub fn mid3(a: i128, b: i128, c: i128) -> i128
    ensures value { result ≡ mid3_of a b c }
    ensures one_of { (result ≡ a) ⊎ (result ≡ b) ⊎ (result ≡ c) }
{
    let low = a.min(b);
    let high = a.max(b);
    if c <= low {
        low
    } else if high <= c {
        high
    } else {
        c
    }
}

/// The same in 64 bits.
#[inline]
pub fn middle(a: i64, b: i64, c: i64) -> i64
    ensures { result ≡ mid3_of a b c }
{
    a.min(b).max(a.max(b).min(c))
}
