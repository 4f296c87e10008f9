//! One step of arithmetic a call, each with its value and its size, so that a longer formula is a chain of contracts.
ghost use Rattle.std.specs.Prelude.{◌≡◌, ◌^◌, ◌≤◌, ◌+◌, ◌*◌, ◌+ℤ◌, ◌-ℤ◌, ◌*ℤ◌, neg_ℤ, unsigned_abs};

/// The sum of two numbers that leave room for it.
pub fn sum(a: i128, b: i128) -> i128
    requires a { unsigned_abs a ≤ 2 ^ 124 }
    requires b { unsigned_abs b ≤ 2 ^ 124 }
    ensures value { result ≡ a +ℤ b }
    ensures bound { unsigned_abs result ≤ unsigned_abs a + unsigned_abs b }
{
    a + b
}

/// The difference of two numbers that leave room for it.
pub fn difference(a: i128, b: i128) -> i128
    requires a { unsigned_abs a ≤ 2 ^ 124 }
    requires b { unsigned_abs b ≤ 2 ^ 124 }
    ensures value { result ≡ a -ℤ b }
    ensures bound { unsigned_abs result ≤ unsigned_abs a + unsigned_abs b }
{
    a - b
}

/// The opposite of a number.
pub fn negated(a: i128) -> i128
    requires { unsigned_abs a ≤ 2 ^ 124 }
    ensures value { result ≡ neg_ℤ a }
    ensures bound { unsigned_abs result ≤ unsigned_abs a }
{
    -a
}

fn times(share: i64, x: i128) -> i128
    requires share { unsigned_abs share ≤ 2 ^ 30 }
    requires number { unsigned_abs x ≤ 2 ^ 94 }
    ensures { result ≡ share *ℤ x }
{
    share as i128 * x
}

/// A number times a share: a gain, or a part of a sine pair, over the scale.
pub fn product(share: i64, x: i128) -> i128
    requires share { unsigned_abs share ≤ 2 ^ 30 }
    requires number { unsigned_abs x ≤ 2 ^ 94 }
    ensures value { result ≡ share *ℤ x }
    ensures bound { unsigned_abs result ≤ 2 ^ 30 * unsigned_abs x }
{
    times(share, x)
}

/// The same number in 64 bits.
pub fn narrow(x: i128) -> i64
    requires { unsigned_abs x ≤ 2 ^ 62 }
    ensures { result ≡ x }
{
    x as i64
}

/// One number and another more, in 64 bits.
#[inline]
pub fn more(a: i64, b: i64) -> i64
    requires a { unsigned_abs a ≤ 2 ^ 61 }
    requires b { unsigned_abs b ≤ 2 ^ 61 }
    ensures value { result ≡ a +ℤ b }
    ensures bound { unsigned_abs result ≤ unsigned_abs a + unsigned_abs b }
{
    a + b
}

/// One number less another, in 64 bits.
#[inline]
pub fn less(a: i64, b: i64) -> i64
    requires a { unsigned_abs a ≤ 2 ^ 61 }
    requires b { unsigned_abs b ≤ 2 ^ 61 }
    ensures value { result ≡ a -ℤ b }
    ensures bound { unsigned_abs result ≤ unsigned_abs a + unsigned_abs b }
{
    a - b
}
