//! Worked rows: matrices of three and of five rows, and what squares leave of them.
ghost use Rattle.std.specs.Prelude.{◌≡◌, ◌<◌, ◌+◌, ◌^◌, pos, neg_ℤ, ◌≤ℤ◌, All, length};
ghost use Rattle.dp_form.specs.{IsSmallSquare, IsSymmetric, IsWithin};

use arrayvec::ArrayVec;
use dp_form::{NotShown, Square, Squares, Sym, is_nonneg, made};

fn entry(a: i64) -> i128
    ensures { IsWithin (2 ^ 121) result }
{
    a as i128
}

// The symmetric matrix with these entries on and above its diagonal.
fn three(a: i64, b: i64, c: i64, d: i64, e: i64, f: i64) -> Sym<3>
    ensures symmetric { IsSymmetric 3 result.at }
    ensures entries { All (All (IsWithin (2 ^ 121))) result.at }
{
    let (a, b, c) = (entry(a), entry(b), entry(c));
    let (d, e, f) = (entry(d), entry(e), entry(f));
    Sym {
        at: [[a, b, c], [b, d, e], [c, e, f]],
    }
}

// The same with two rows more, which have an entry on the diagonal alone.
fn five(a: i64, b: i64, c: i64, d: i64, e: i64, f: i64, g: i64, h: i64) -> Sym<5>
    ensures symmetric { IsSymmetric 5 result.at }
    ensures entries { All (All (IsWithin (2 ^ 121))) result.at }
{
    let (a, b, c) = (entry(a), entry(b), entry(c));
    let (d, e, f) = (entry(d), entry(e), entry(f));
    let (g, h) = (entry(g), entry(h));
    Sym {
        at: [
            [a, b, c, 0, 0],
            [b, d, e, 0, 0],
            [c, e, f, 0, 0],
            [0, 0, 0, g, 0],
            [0, 0, 0, 0, h],
        ],
    }
}

fn none<const N: usize>() -> Squares<N>
    ensures small { All IsSmallSquare result.list.items }
    ensures count { length result.list.items ≡ 0 }
{
    Squares {
        list: ArrayVec::new(),
    }
}

fn with<const N: usize>(squares: Squares<N>, square: Square<N>) -> Squares<N>
    requires room { length squares.list.items < 8 }
    requires squares_small { All IsSmallSquare squares.list.items }
    requires square_small { IsSmallSquare square }
    ensures small { All IsSmallSquare result.list.items }
    ensures count { length result.list.items ≡ length squares.entry.list.items + 1 }
{
    let mut list = squares.list;
    list.push(square);
    Squares { list }
}

fn square(d: i64, a: i64, b: i64, c: i64) -> Square<3>
    requires weight { (pos 0 ≤ℤ d) × (d ≤ℤ pos (2 ^ 40)) }
    requires first { (neg_ℤ (pos (2 ^ 40)) ≤ℤ a) × (a ≤ℤ pos (2 ^ 40)) }
    requires second { (neg_ℤ (pos (2 ^ 40)) ≤ℤ b) × (b ≤ℤ pos (2 ^ 40)) }
    requires third { (neg_ℤ (pos (2 ^ 40)) ≤ℤ c) × (c ≤ℤ pos (2 ^ 40)) }
    ensures { IsSmallSquare result }
{
    Square { d, l: [a, b, c] }
}

fn wide(square: Square<3>) -> Square<5>
    requires { IsSmallSquare square }
    ensures { IsSmallSquare result }
{
    let [a, b, c] = square.l;
    Square {
        d: square.d,
        l: [a, b, c, 0, 0],
    }
}

#[test]
fn small_matrices(rt: HostRuntime) {
    let s = three(1, 2, 0, 1, 0, 1);
    assert_eq!(rt; is_nonneg(&s, &none()), short(0, 1));
    assert_eq!(rt;
        is_nonneg(&s, &with(none(), square(1, 1, 1, 0))),
        short(0, 1)
    );

    let s = three(1024, 512, 0, 1024, 0, 1024);
    let w = with(with(none(), square(1020, 1, 1, 0)), square(4, 0, 1, 0));
    assert_eq!(rt; is_nonneg(&s, &w), short(0, 504));

    let s = three(1073741824, 536870912, 0, 1073741824, 0, 1073741824);
    let w = with(
        with(none(), square(1020, 1024, 514, 0)),
        square(764, 0, 1024, 0),
    );
    assert_eq!(rt; is_nonneg(&s, &w), Ok(()));
}

// The diagonal of the surge output matrix of the sample plant.
const PLACE: i64 = 4_016_652_556_016;

const BIAS: i64 = 7_920_196_908_193_153_024;

const VELOCITY: i64 = 1_245_504_038_145_884;

// The matrix with another diagonal.
fn output(place: i64, bias: i64, velocity: i64) -> Sym<3>
    ensures symmetric { IsSymmetric 3 result.at }
    ensures entries { All (All (IsWithin (2 ^ 121))) result.at }
{
    three(
        place,
        -1543292613296128,
        -16791595399512,
        bias,
        -83348990044667904,
        velocity,
    )
}

fn short(row: usize, short: i128) -> Result<(), NotShown> {
    Err(NotShown { row, short })
}

// The matrix with its two squares, which leave 413537556016, 107584615481524 and 38151742870849 on the diagonal: with nothing left there
// each row is short by the sizes of its other entries.
#[test]
fn output_matrix(rt: HostRuntime) {
    let s = output(PLACE, BIAS, VELOCITY);
    let first = square(300715, -1000, 5132010, -54007);
    let one = with(none(), first);
    assert_eq!(rt; is_nonneg(&s, &one), short(0, 29336598994624));

    let both = with(one, square(33024000000, 10, 0, -100));
    assert_eq!(rt; is_nonneg(&s, &both), Ok(()));
    let s = output(PLACE - 413537556016, BIAS, VELOCITY);
    assert_eq!(rt; is_nonneg(&s, &both), short(0, 28536550640));
    let s = output(PLACE, BIAS - 107584615481524, VELOCITY);
    assert_eq!(rt; is_nonneg(&s, &both), short(1, 1498458003982));
    let s = output(PLACE, BIAS, VELOCITY - 38151742870849);
    assert_eq!(rt; is_nonneg(&s, &both), short(2, 1486542262366));
}

// The sample plant's form, with two wave states: the last row is shown with 0, and is short by 1 with -1.
#[test]
fn five_rows(rt: HostRuntime) {
    let w = with(
        with(none(), wide(square(8, -1, 6656, -40))),
        wide(square(100, 1, 0, -8)),
    );
    let s = five(158, -53248, -480, 354418688, -2129920, 76800, 16, 0);
    assert_eq!(rt; is_nonneg(&s, &w), Ok(()));
    let s = five(158, -53248, -480, 354418688, -2129920, 76800, 16, -1);
    assert_eq!(rt; is_nonneg(&s, &w), short(4, 1));
}

// The squares that are made for the first matrix, with and without a factor of 2^20.
#[test]
fn made_squares(rt: HostRuntime) {
    let s = three(1073741824, 536870912, 0, 1073741824, 0, 1073741824);
    let w = made(&s);
    assert_eq!(rt;
        w.list.as_slice(),
        [square(1020, 1024, 514, 0), square(764, 0, 1024, 0)].as_slice()
    );
    assert_eq!(rt; is_nonneg(&s, &w), Ok(()));

    let s = three(1024, 512, 0, 1024, 0, 1024);
    let w = made(&s);
    assert_eq!(rt;
        w.list.as_slice(),
        [square(1020, 1, 1, 0), square(4, 0, 1, 0)].as_slice()
    );
    assert_eq!(rt; is_nonneg(&s, &w), short(0, 504));
}
