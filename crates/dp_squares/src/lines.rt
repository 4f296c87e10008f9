//! The lines of a certificate as the plant file has them.
ghost use Rattle.std.specs.Prelude.{◌≡◌, ◌≤◌, ◌<◌, ◌+◌, ◌++◌, [], codes, length, slice_index_or};
ghost use Rattle.arrayvec.specs.ArrayVec.{array_vec_len};
ghost use Rattle.dp_plant.specs.declared.cert.Parts.TheVariants.{Three, Five};
ghost use Rattle.dp_plant.specs.PlantFile.{square_rows};
ghost use Rattle.dp_squares.specs.Text.{Row, cert_rows, cert_text, form_rows, line_at, number_rows, number, numbers, part_rows, row_line, rows, span_rows, step_rows, upper_five, upper_three, wave_span_rows};

use crate::arrays::{LINE, append_numbers, append_squares, append_wide_numbers};
use arrayvec::ArrayVec;
use dp_form::{Squares, Sym};
use dp_plant::{Cert, Lists, Parts};
use dp_text::{append, append_number};

/// A line, with its line feed.
pub type Line = ArrayVec<u8, LINE>;

/// How many lists of squares there are but for the coordinates'.
const STEPS: usize = 11;

/// How many lines a certificate has: the section's name, and one for each key.
#[tactic(auto, unfolding(crate::specs::Text::cert_text, crate::specs::Text::cert_rows, crate::specs::Text::number_rows, crate::specs::Text::step_rows, crate::specs::Text::span_rows, crate::specs::Text::wave_span_rows))]
pub fn line_count(c: &Cert) -> usize
    ensures { result ≡ length (cert_text c.now) }
{
    match &c.parts {
        Parts::Three(_) => 21,
        Parts::Five(_) => 23,
    }
}

/// Line `i` of a certificate as the plant file has it, with its line feed; empty past the last.
#[tactic(auto, unfolding(crate::specs::Text::cert_text))]
pub fn cert_line(c: &Cert, i: usize) -> Line
    ensures { result.items ≡ slice_index_or (cert_text c.now) i [] }
{
    if i == 0 { header() } else { row_line(c, i - 1) }
}

fn header() -> Line
    ensures { result.items ≡ codes "[cert]\n" }
{
    let mut line = ArrayVec::new();
    append(&mut line, b"[cert]\n");
    line
}

/// The line of key `i`.
#[tactic(auto, unfolding(crate::specs::Text::cert_rows, crate::specs::Text::number_rows))]
fn row_line(c: &Cert, i: usize) -> Line
    ensures { result.items ≡ line_at (cert_rows c.now) i }
{
    match i {
        0 => number_line(b"rho", c.rho),
        1 => number_line(b"b", c.b),
        2 => number_line(b"r", c.r),
        3 => numbers_line(b"g", &c.g),
        _ => part_line(&c.parts, i - 4),
    }
}

fn part_line(parts: &Parts, i: usize) -> Line
    ensures { result.items ≡ line_at (part_rows parts.now) i }
{
    match parts {
        Parts::Three(l) => three_line(l, i),
        Parts::Five(l) => five_line(l, i),
    }
}

fn three_line(l: &Lists<3>, i: usize) -> Line
    ensures { result.items ≡ line_at (part_rows (Three l.now)) i }
{
    match i {
        0 => wide_line(b"p", &upper_three(&l.p)),
        1 => numbers_line(b"span", &l.span),
        _ => three_list_line(l, i - 2),
    }
}

fn five_line(l: &Lists<5>, i: usize) -> Line
    ensures { result.items ≡ line_at (part_rows (Five l.now)) i }
{
    match i {
        0 => wide_line(b"p", &upper_five(&l.p)),
        1 => numbers_line(b"span", &l.span),
        _ => five_list_line(l, i - 2),
    }
}

/// The lines of the lists of squares.
fn three_list_line(l: &Lists<3>, i: usize) -> Line
    ensures { result.items ≡ line_at (step_rows l.now ++ span_rows l.now) i }
{
    if i < STEPS {
        step_line(l, i)
    } else {
        three_span_line(l, i - STEPS)
    }
}

fn five_list_line(l: &Lists<5>, i: usize) -> Line
    ensures { result.items
        ≡ line_at (step_rows l.now ++ (span_rows l.now ++ wave_span_rows l.now)) i }
{
    if i < STEPS {
        step_line(l, i)
    } else {
        five_span_line(l, i - STEPS)
    }
}

/// The lines of the coordinates' lists; empty past them.
#[tactic(auto, unfolding(crate::specs::Text::span_rows))]
fn three_span_line(l: &Lists<3>, i: usize) -> Line
    ensures { result.items ≡ line_at (span_rows l.now) i }
{
    match i {
        0 => squares_line(b"span0", &l.spans[0]),
        1 => squares_line(b"span1", &l.spans[1]),
        2 => squares_line(b"span2", &l.spans[2]),
        _ => ArrayVec::new(),
    }
}

#[tactic(auto, unfolding(crate::specs::Text::span_rows, crate::specs::Text::wave_span_rows))]
fn five_span_line(l: &Lists<5>, i: usize) -> Line
    ensures { result.items ≡ line_at (span_rows l.now ++ wave_span_rows l.now) i }
{
    match i {
        0 => squares_line(b"span0", &l.spans[0]),
        1 => squares_line(b"span1", &l.spans[1]),
        2 => squares_line(b"span2", &l.spans[2]),
        3 => squares_line(b"span3", &l.spans[3]),
        4 => squares_line(b"span4", &l.spans[4]),
        _ => ArrayVec::new(),
    }
}

/// The lines of the lists but for the coordinates'; empty past them.
#[tactic(auto, unfolding(crate::specs::Text::step_rows))]
fn step_line<const N: usize>(l: &Lists<N>, i: usize) -> Line
    requires { N < 6 }
    ensures { result.items ≡ line_at (step_rows l.now) i }
{
    let surge = &l.vertex[0];
    let sway = &l.vertex[1];
    let out_surge = &l.output[0];
    let out_sway = &l.output[1];
    match i {
        0 => squares_line(b"form", &l.form),
        1 => squares_line(b"surge0", &surge[0]),
        2 => squares_line(b"surge1", &surge[1]),
        3 => squares_line(b"surge2", &surge[2]),
        4 => squares_line(b"sway0", &sway[0]),
        5 => squares_line(b"sway1", &sway[1]),
        6 => squares_line(b"sway2", &sway[2]),
        7 => squares_line(b"out_surge0", &out_surge[0]),
        8 => squares_line(b"out_surge1", &out_surge[1]),
        9 => squares_line(b"out_sway0", &out_sway[0]),
        10 => squares_line(b"out_sway1", &out_sway[1]),
        _ => ArrayVec::new(),
    }
}

fn number_line(key: &[u8], value: i64) -> Line
    requires { length key.now ≤ 12 }
    ensures { result.items ≡ row_line (key.now, number value) }
{
    let mut line = begun(key);
    append_number(&mut line, value);
    append(&mut line, b"\n");
    line
}

fn numbers_line(key: &[u8], values: &[i64]) -> Line
    requires key { length key.now ≤ 12 }
    requires few { length values.now < 6 }
    ensures { result.items ≡ row_line (key.now, numbers values.now) }
{
    let mut line = begun(key);
    append_numbers(&mut line, values);
    append(&mut line, b"\n");
    line
}

fn wide_line(key: &[u8], values: &[i128]) -> Line
    requires key { length key.now ≤ 12 }
    requires few { length values.now ≤ 15 }
    ensures { result.items ≡ row_line (key.now, numbers values.now) }
{
    let mut line = begun(key);
    append_wide_numbers(&mut line, values);
    append(&mut line, b"\n");
    line
}

fn squares_line<const N: usize>(key: &[u8], squares: &Squares<N>) -> Line
    requires key { length key.now ≤ 12 }
    requires size { N < 6 }
    ensures { result.items ≡ row_line (key.now, rows (square_rows squares.now)) }
{
    let mut line = begun(key);
    append_squares(&mut line, squares);
    append(&mut line, b"\n");
    line
}

/// A key, and what stands before its value.
fn begun(key: &[u8]) -> Line
    requires { length key.now ≤ 12 }
    ensures text { result.items ≡ key.now ++ codes " = " }
    ensures len { array_vec_len result ≤ 15 }
{
    let mut line = ArrayVec::new();
    append(&mut line, key);
    append(&mut line, b" = ");
    line
}

/// The upper half of the form's matrix, row by row.
fn upper_three(p: &Sym<3>) -> [i128; 6]
    ensures { result ≡ upper_three p.now.at }
{
    let [a, b, c] = &p.at;
    [a[0], a[1], a[2], b[1], b[2], c[2]]
}

fn upper_five(p: &Sym<5>) -> [i128; 15]
    ensures { result ≡ upper_five p.now.at }
{
    let [a, b, c, d, e] = &p.at;
    [
        a[0], a[1], a[2], a[3], a[4], b[1], b[2], b[3], b[4], c[2], c[3], c[4], d[3], d[4], e[4],
    ]
}
