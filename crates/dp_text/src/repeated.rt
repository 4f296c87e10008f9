//! A number that stands four times in a row: it is spelled once.
ghost use Rattle.std.specs.Prelude.{◌≡◌, ◌≤◌, ◌<◌, ◌+◌, ◌/◌, ◌%◌, ◌++◌, ◌∷◌, []};
ghost use Rattle.std.specs.Fmt.{decimal, signed_decimal};
ghost use Rattle.arrayvec.specs.ArrayVec.{array_vec_len};
ghost use Rattle.dp_text.specs.{four_times};

use crate::printing::append_number;
use arrayvec::ArrayVec;

/// Appends a number's digits four times, a space between each two and a `-` in front of each where the number is below zero: at most 83
/// bytes.
#[inline]
pub fn append_four_times<const N: usize>(into: &mut ArrayVec<u8, N>, number: i64)
    requires { array_vec_len into.old + 83 ≤ N }
    ensures text { into.new.items ≡ into.old.items ++ four_times (signed_decimal number) }
    ensures len { array_vec_len into.new ≤ array_vec_len into.old + 83 }
{
    if 0 <= number && number < 1000 {
        from_zero(into, number as u64);
    } else if -1000 < number && number < 0 {
        below_zero(into, number.unsigned_abs());
    } else {
        far_from_zero(into, number);
    }
}

/// A number far from zero is spelled four times.
#[cold]
#[inline(never)]
fn far_from_zero<const N: usize>(into: &mut ArrayVec<u8, N>, number: i64)
    requires { array_vec_len into.old + 83 ≤ N }
    ensures text { into.new.items ≡ into.old.items ++ four_times (signed_decimal number) }
    ensures len { array_vec_len into.new ≤ array_vec_len into.old + 83 }
{
    append_number(into, number);
    into.push(b' ');
    append_number(into, number);
    into.push(b' ');
    append_number(into, number);
    into.push(b' ');
    append_number(into, number);
}

/// A number from zero on.
#[inline]
#[tactic(auto, using(crate::proofs::Decimals::one_digit, crate::proofs::Decimals::two_digits, crate::proofs::Decimals::three_digits))]
fn from_zero<const N: usize>(into: &mut ArrayVec<u8, N>, size: u64)
    requires small { size < 1000 }
    requires room { array_vec_len into.old + 15 ≤ N }
    ensures text { into.new.items ≡ into.old.items ++ four_times (decimal size) }
    ensures len { array_vec_len into.new ≤ array_vec_len into.old + 15 }
{
    if size < 10 {
        one_byte(into, digit(size));
    } else if size < 100 {
        two_bytes(into, digit(size / 10), digit(size));
    } else {
        three_bytes(into, digit(size / 100), digit(size / 10), digit(size));
    }
}

/// A number below zero, of this size.
#[inline]
#[tactic(auto, using(crate::proofs::Decimals::one_digit, crate::proofs::Decimals::two_digits, crate::proofs::Decimals::three_digits))]
fn below_zero<const N: usize>(into: &mut ArrayVec<u8, N>, size: u64)
    requires small { size < 1000 }
    requires room { array_vec_len into.old + 19 ≤ N }
    ensures text { into.new.items ≡ into.old.items ++ four_times (45 ∷ decimal size) }
    ensures len { array_vec_len into.new ≤ array_vec_len into.old + 19 }
{
    if size < 10 {
        two_bytes(into, b'-', digit(size));
    } else if size < 100 {
        three_bytes(into, b'-', digit(size / 10), digit(size));
    } else {
        four_bytes(into, b'-', digit(size / 100), digit(size / 10), digit(size));
    }
}

/// The last digit of a number.
#[inline]
fn digit(number: u64) -> u8
    ensures { result ≡ 48 + number % 10 }
{
    b'0' + (number % 10) as u8
}

/// Appends a byte four times.
#[inline]
fn one_byte<const N: usize>(into: &mut ArrayVec<u8, N>, a: u8)
    requires { array_vec_len into.old + 7 ≤ N }
    ensures text { into.new.items ≡ into.old.items ++ four_times (a ∷ []) }
    ensures len { array_vec_len into.new ≡ array_vec_len into.old + 7 }
{
    into.push(a);
    space_one(into, a);
    space_one(into, a);
    space_one(into, a);
}

#[inline]
fn space_one<const N: usize>(into: &mut ArrayVec<u8, N>, a: u8)
    requires { array_vec_len into.old + 2 ≤ N }
    ensures text { into.new.items ≡ into.old.items ++ 32 ∷ a ∷ [] }
    ensures len { array_vec_len into.new ≡ array_vec_len into.old + 2 }
{
    into.push(b' ');
    into.push(a);
}

/// Appends two bytes four times.
#[inline]
fn two_bytes<const N: usize>(into: &mut ArrayVec<u8, N>, a: u8, b: u8)
    requires { array_vec_len into.old + 11 ≤ N }
    ensures text { into.new.items ≡ into.old.items ++ four_times (a ∷ b ∷ []) }
    ensures len { array_vec_len into.new ≡ array_vec_len into.old + 11 }
{
    into.push(a);
    into.push(b);
    space_two(into, a, b);
    space_two(into, a, b);
    space_two(into, a, b);
}

#[inline]
fn space_two<const N: usize>(into: &mut ArrayVec<u8, N>, a: u8, b: u8)
    requires { array_vec_len into.old + 3 ≤ N }
    ensures text { into.new.items ≡ into.old.items ++ 32 ∷ a ∷ b ∷ [] }
    ensures len { array_vec_len into.new ≡ array_vec_len into.old + 3 }
{
    space_one(into, a);
    into.push(b);
}

/// Appends three bytes four times.
#[inline]
fn three_bytes<const N: usize>(into: &mut ArrayVec<u8, N>, a: u8, b: u8, c: u8)
    requires { array_vec_len into.old + 15 ≤ N }
    ensures text { into.new.items ≡ into.old.items ++ four_times (a ∷ b ∷ c ∷ []) }
    ensures len { array_vec_len into.new ≡ array_vec_len into.old + 15 }
{
    into.push(a);
    into.push(b);
    into.push(c);
    space_three(into, a, b, c);
    space_three(into, a, b, c);
    space_three(into, a, b, c);
}

#[inline]
fn space_three<const N: usize>(into: &mut ArrayVec<u8, N>, a: u8, b: u8, c: u8)
    requires { array_vec_len into.old + 4 ≤ N }
    ensures text { into.new.items ≡ into.old.items ++ 32 ∷ a ∷ b ∷ c ∷ [] }
    ensures len { array_vec_len into.new ≡ array_vec_len into.old + 4 }
{
    space_two(into, a, b);
    into.push(c);
}

/// Appends four bytes four times.
#[inline]
fn four_bytes<const N: usize>(into: &mut ArrayVec<u8, N>, a: u8, b: u8, c: u8, d: u8)
    requires { array_vec_len into.old + 19 ≤ N }
    ensures text { into.new.items ≡ into.old.items ++ four_times (a ∷ b ∷ c ∷ d ∷ []) }
    ensures len { array_vec_len into.new ≡ array_vec_len into.old + 19 }
{
    into.push(a);
    into.push(b);
    into.push(c);
    into.push(d);
    space_four(into, a, b, c, d);
    space_four(into, a, b, c, d);
    space_four(into, a, b, c, d);
}

#[inline]
fn space_four<const N: usize>(into: &mut ArrayVec<u8, N>, a: u8, b: u8, c: u8, d: u8)
    requires { array_vec_len into.old + 5 ≤ N }
    ensures text { into.new.items ≡ into.old.items ++ 32 ∷ a ∷ b ∷ c ∷ d ∷ [] }
    ensures len { array_vec_len into.new ≡ array_vec_len into.old + 5 }
{
    space_three(into, a, b, c);
    into.push(d);
}
