ghost use Rattle.std.specs.Prelude.{◌≡◌, ◌≤◌, ◌+◌, ◌++◌, length};
ghost use Rattle.std.specs.Fmt.{decimal, signed_decimal};
ghost use Rattle.arrayvec.specs.ArrayVec.{array_vec_len};

use crate::spelling::{append_one, append_small};
use arrayvec::ArrayVec;
use itoa::Buffer;

/// Appends a piece that fits.
pub fn append<const N: usize>(into: &mut ArrayVec<u8, N>, piece: &[u8])
    requires { array_vec_len into.old + length piece.now ≤ N }
    ensures text { into.new.items ≡ into.old.items ++ piece.now }
    ensures len { array_vec_len into.new ≡ array_vec_len into.old + length piece.now }
{
    let Ok(()) = into.try_extend_from_slice(piece) else {
        unreachable!();
    };
}

/// Appends a number's decimal digits, at most 20.
#[inline]
pub fn append_decimal<const N: usize>(into: &mut ArrayVec<u8, N>, number: u64)
    requires { array_vec_len into.old + 20 ≤ N }
    ensures text { into.new.items ≡ into.old.items ++ decimal number }
    ensures len { array_vec_len into.new ≤ array_vec_len into.old + 20 }
{
    if number < 10 {
        append_one(into, number);
    } else {
        append_digits(into, number);
    }
}

/// Appends a number's decimal digits, with a `-` in front where it is below zero; at most 20 bytes.
pub fn append_number<const N: usize>(into: &mut ArrayVec<u8, N>, number: i64)
    requires { array_vec_len into.old + 20 ≤ N }
    ensures text { into.new.items ≡ into.old.items ++ signed_decimal number }
    ensures len { array_vec_len into.new ≤ array_vec_len into.old + 20 }
{
    if 0 <= number && number < 1_000_000 {
        append_small(into, number as u64);
    } else if -1_000_000 < number && number < 0 {
        into.push(b'-');
        append_small(into, number.unsigned_abs());
    } else {
        append_far(into, number);
    }
}

/// The same of a number of any size.
fn append_digits<const N: usize>(into: &mut ArrayVec<u8, N>, number: u64)
    requires { array_vec_len into.old + 20 ≤ N }
    ensures text { into.new.items ≡ into.old.items ++ decimal number }
    ensures len { array_vec_len into.new ≤ array_vec_len into.old + 20 }
{
    if number < 1_000_000 {
        append_small(into, number);
    } else {
        append_large(into, number);
    }
}

/// Appends a number as itoa spells it, in a place of its own, and copies it.
#[cold]
#[inline(never)]
fn append_large<const N: usize>(into: &mut ArrayVec<u8, N>, number: u64)
    requires { array_vec_len into.old + 20 ≤ N }
    ensures text { into.new.items ≡ into.old.items ++ decimal number }
    ensures len { array_vec_len into.new ≤ array_vec_len into.old + 20 }
{
    let mut buffer = Buffer::new();
    append(into, buffer.format(number).as_bytes());
}

/// The same of a number that may be below zero.
#[cold]
#[inline(never)]
fn append_far<const N: usize>(into: &mut ArrayVec<u8, N>, number: i64)
    requires { array_vec_len into.old + 20 ≤ N }
    ensures text { into.new.items ≡ into.old.items ++ signed_decimal number }
    ensures len { array_vec_len into.new ≤ array_vec_len into.old + 20 }
{
    let mut buffer = Buffer::new();
    append(into, buffer.format(number).as_bytes());
}

/// The same of a number of up to 128 bits; at most 40 bytes.
pub fn append_wide<const N: usize>(into: &mut ArrayVec<u8, N>, number: i128)
    requires { array_vec_len into.old + 40 ≤ N }
    ensures text { into.new.items ≡ into.old.items ++ signed_decimal number }
    ensures len { array_vec_len into.new ≤ array_vec_len into.old + 40 }
{
    let mut buffer = Buffer::new();
    append(into, buffer.format(number).as_bytes());
}
