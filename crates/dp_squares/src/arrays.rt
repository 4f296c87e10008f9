//! Arrays of the plant file as text.
ghost use Rattle.std.specs.Prelude.{◌≡◌, ◌≤◌, ◌<◌, ◌+◌, ◌*◌, ◌++◌, codes, length};
ghost use Rattle.std.specs.Fmt.{signed_decimal};
ghost use Rattle.std.specs.List.{flat_map};
ghost use Rattle.arrayvec.specs.ArrayVec.{array_vec_len};
ghost use Rattle.dp_plant.specs.PlantFile.{square_row};
ghost use Rattle.dp_squares.specs.Text.{array_text, later, numbers_text};

use arrayvec::ArrayVec;
use dp_form::{Square, Squares};
use dp_text::{append, append_number, append_wide};

/// Bytes that a line can have: a key, and at most eight squares of at most six numbers.
pub const LINE: usize = 1280;

/// Appends an array of numbers, at most 20 bytes each with the comma and the space behind it 22.
pub(crate) fn append_numbers(into: &mut ArrayVec<u8, LINE>, numbers: &[i64])
    requires { array_vec_len into.old + 22 * length numbers.now + 2 ≤ LINE }
    ensures text { into.new.items ≡ into.old.items ++ numbers_text numbers.now }
    ensures len { array_vec_len into.new ≤ array_vec_len into.old + 22 * length numbers.now + 2 }
{
    match numbers.split_first() {
        None => append(into, b"[]"),
        Some((first, rest)) => {
            append(into, b"[");
            append_number(into, *first);
            append_later(into, rest);
            append(into, b"]");
        }
    }
}

/// Appends the numbers of an array behind its first.
fn append_later(into: &mut ArrayVec<u8, LINE>, numbers: &[i64])
    requires { array_vec_len into.old + 22 * length numbers.now ≤ LINE }
    ensures text { into.new.items ≡ into.old.items ++ flat_map (later signed_decimal) numbers.now }
    ensures len { array_vec_len into.new ≤ array_vec_len into.old + 22 * length numbers.now }
{
    for number in numbers {
        append_separator(into);
        append_number(into, *number);
    }
}

/// Appends an array of numbers of any size, each with its comma and space at most 42 bytes.
pub(crate) fn append_wide_numbers(into: &mut ArrayVec<u8, LINE>, numbers: &[i128])
    requires { array_vec_len into.old + 42 * length numbers.now + 2 ≤ LINE }
    ensures text { into.new.items ≡ into.old.items ++ numbers_text numbers.now }
    ensures len { array_vec_len into.new ≤ array_vec_len into.old + 42 * length numbers.now + 2 }
{
    match numbers.split_first() {
        None => append(into, b"[]"),
        Some((first, rest)) => {
            append(into, b"[");
            append_wide(into, *first);
            append_later_wide(into, rest);
            append(into, b"]");
        }
    }
}

fn append_later_wide(into: &mut ArrayVec<u8, LINE>, numbers: &[i128])
    requires { array_vec_len into.old + 42 * length numbers.now ≤ LINE }
    ensures text { into.new.items ≡ into.old.items ++ flat_map (later signed_decimal) numbers.now }
    ensures len { array_vec_len into.new ≤ array_vec_len into.old + 42 * length numbers.now }
{
    for number in numbers {
        append_separator(into);
        append_wide(into, *number);
    }
}

/// Appends a list of squares, each as an array of its weight and its vector.
pub(crate) fn append_squares<const N: usize>(into: &mut ArrayVec<u8, LINE>, squares: &Squares<N>)
    requires size { N < 6 }
    requires room { array_vec_len into.old + 1100 ≤ LINE }
    ensures text { into.new.items ≡ into.old.items ++ array_text (λ q. numbers_text (square_row q)) squares.now.list.items }
    ensures len { array_vec_len into.new ≤ array_vec_len into.old + 1100 }
{
    match squares.list.as_slice().split_first() {
        None => append(into, b"[]"),
        Some((first, rest)) => {
            append(into, b"[");
            append_square(into, first);
            append_later_squares(into, rest);
            append(into, b"]");
        }
    }
}

fn append_later_squares<const N: usize>(into: &mut ArrayVec<u8, LINE>, squares: &[Square<N>])
    requires size { N < 6 }
    requires room { array_vec_len into.old + 136 * length squares.now ≤ LINE }
    ensures text { into.new.items
        ≡ into.old.items ++ flat_map (later (λ q. numbers_text (square_row q))) squares.now }
    ensures len { array_vec_len into.new ≤ array_vec_len into.old + 136 * length squares.now }
{
    for square in squares {
        append_separator(into);
        append_square(into, square);
    }
}

fn append_square<const N: usize>(into: &mut ArrayVec<u8, LINE>, square: &Square<N>)
    requires size { N < 6 }
    requires room { array_vec_len into.old + 134 ≤ LINE }
    ensures text { into.new.items ≡ into.old.items ++ numbers_text (square_row square.now) }
    ensures len { array_vec_len into.new ≤ array_vec_len into.old + 134 }
{
    append(into, b"[");
    append_number(into, square.d);
    append_later(into, &square.l);
    append(into, b"]");
}

fn append_separator(into: &mut ArrayVec<u8, LINE>)
    requires { array_vec_len into.old + 2 ≤ LINE }
    ensures text { into.new.items ≡ into.old.items ++ codes ", " }
    ensures len { array_vec_len into.new ≤ array_vec_len into.old + 2 }
{
    append(into, b", ");
}
