//! Small numbers, spelled digit by digit into the text: most numbers of a text are small, and this is faster than to spell them elsewhere
//! and to copy them.
ghost use Rattle.std.specs.Prelude.{◌≡◌, ◌≤◌, ◌<◌, ◌+◌, ◌%◌, ◌++◌, ◌∷◌, []};
ghost use Rattle.std.specs.Fmt.{decimal};
ghost use Rattle.arrayvec.specs.ArrayVec.{array_vec_len};

use arrayvec::ArrayVec;

/// Appends the digits of a number below a million.
#[inline]
pub(crate) fn append_small<const N: usize>(into: &mut ArrayVec<u8, N>, number: u64)
    requires small { number < 1000000 }
    requires room { array_vec_len into.old + 6 ≤ N }
    ensures text { into.new.items ≡ into.old.items ++ decimal number }
    ensures len { array_vec_len into.new ≤ array_vec_len into.old + 6 }
{
    if number < 10 {
        append_one(into, number);
    } else if number < 100 {
        append_two(into, number);
    } else if number < 1000 {
        append_three(into, number);
    } else {
        append_thousands(into, number);
    }
}

/// Appends the four to six digits of a number.
fn append_thousands<const N: usize>(into: &mut ArrayVec<u8, N>, number: u64)
    requires above { 1000 ≤ number }
    requires small { number < 1000000 }
    requires room { array_vec_len into.old + 6 ≤ N }
    ensures text { into.new.items ≡ into.old.items ++ decimal number }
    ensures len { array_vec_len into.new ≤ array_vec_len into.old + 6 }
{
    if number < 10_000 {
        append_four(into, number);
    } else if number < 100_000 {
        append_five(into, number);
    } else {
        append_six(into, number);
    }
}

/// Appends a number below 10.
#[inline]
pub(crate) fn append_one<const N: usize>(into: &mut ArrayVec<u8, N>, number: u64)
    requires small { number < 10 }
    requires room { array_vec_len into.old < N }
    ensures text { into.new.items ≡ into.old.items ++ decimal number }
    ensures len { array_vec_len into.new ≡ array_vec_len into.old + 1 }
{
    append_last(into, number);
}

#[inline]
fn append_two<const N: usize>(into: &mut ArrayVec<u8, N>, number: u64)
    requires above { 10 ≤ number }
    requires small { number < 100 }
    requires room { array_vec_len into.old + 2 ≤ N }
    ensures text { into.new.items ≡ into.old.items ++ decimal number }
    ensures len { array_vec_len into.new ≡ array_vec_len into.old + 2 }
{
    append_one(into, number / 10);
    append_last(into, number);
}

#[inline]
fn append_three<const N: usize>(into: &mut ArrayVec<u8, N>, number: u64)
    requires above { 100 ≤ number }
    requires small { number < 1000 }
    requires room { array_vec_len into.old + 3 ≤ N }
    ensures text { into.new.items ≡ into.old.items ++ decimal number }
    ensures len { array_vec_len into.new ≡ array_vec_len into.old + 3 }
{
    append_two(into, number / 10);
    append_last(into, number);
}

#[inline]
fn append_four<const N: usize>(into: &mut ArrayVec<u8, N>, number: u64)
    requires above { 1000 ≤ number }
    requires small { number < 10000 }
    requires room { array_vec_len into.old + 4 ≤ N }
    ensures text { into.new.items ≡ into.old.items ++ decimal number }
    ensures len { array_vec_len into.new ≡ array_vec_len into.old + 4 }
{
    append_three(into, number / 10);
    append_last(into, number);
}

#[inline]
fn append_five<const N: usize>(into: &mut ArrayVec<u8, N>, number: u64)
    requires above { 10000 ≤ number }
    requires small { number < 100000 }
    requires room { array_vec_len into.old + 5 ≤ N }
    ensures text { into.new.items ≡ into.old.items ++ decimal number }
    ensures len { array_vec_len into.new ≡ array_vec_len into.old + 5 }
{
    append_four(into, number / 10);
    append_last(into, number);
}

#[inline]
fn append_six<const N: usize>(into: &mut ArrayVec<u8, N>, number: u64)
    requires above { 100000 ≤ number }
    requires small { number < 1000000 }
    requires room { array_vec_len into.old + 6 ≤ N }
    ensures text { into.new.items ≡ into.old.items ++ decimal number }
    ensures len { array_vec_len into.new ≡ array_vec_len into.old + 6 }
{
    append_five(into, number / 10);
    append_last(into, number);
}

/// Appends the last digit of a number.
#[inline]
fn append_last<const N: usize>(into: &mut ArrayVec<u8, N>, number: u64)
    requires { array_vec_len into.old < N }
    ensures text { into.new.items ≡ into.old.items ++ (48 + number % 10) ∷ [] }
    ensures len { array_vec_len into.new ≡ array_vec_len into.old + 1 }
{
    into.push(b'0' + (number % 10) as u8);
}
