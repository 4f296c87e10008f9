ghost use Rattle.std.specs.Prelude.{◌≡◌, pos, ◌<ℤ◌};
ghost use Rattle.dp_fixed.specs.{IsCeil, IsFloor, ceil_of, floor_of};

/// `n / d`, rounded toward minus infinity.
pub fn floor_div(n: i128, d: i128) -> i128
    requires { pos 0 <ℤ d }
    ensures value { result ≡ floor_of n d }
    ensures floor { IsFloor n d result }
{
    n.div_euclid(d)
}

/// `n / d`, rounded toward plus infinity.
pub fn ceil_div(n: i128, d: i128) -> i128
    requires { pos 0 <ℤ d }
    ensures value { result ≡ ceil_of n d }
    ensures ceil { IsCeil n d result }
{
    if 0 < n {
        (n - 1).div_euclid(d) + 1
    } else {
        n / d
    }
}
