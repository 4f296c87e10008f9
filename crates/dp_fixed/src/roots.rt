ghost use Rattle.std.specs.Prelude.{◌^◌, pos, ◌≤ℤ◌};
ghost use Rattle.dp_fixed.specs.{IsRootUp};

/// The square root of `n`, rounded up: the least whole number from 0 up whose square is at least `n`, from 0 to 2^100.
pub fn root_up(n: i128) -> i128
    requires low { pos 0 ≤ℤ n }
    requires high { n ≤ℤ pos (2 ^ 100) }
    ensures { IsRootUp n result }
{
    let root = n.isqrt();
    let square = root * root;
    if square < n { root + 1 } else { root }
}
