//! The sums of a window, and what a place more or less does to them.
ghost use Rattle.std.specs.Prelude.{◌≡◌, ℤ, pos, ◌*ℤ◌, ◌≤◌, ◌<◌, ◌^◌, ◌+◌, ◌-◌, ◌+ℤ◌, ◌-ℤ◌, ◌≤ℤ◌, Some, IfSome, int_lt, unsigned_abs};
ghost use Rattle.dp_plant.specs.{IsVectorWithin};
ghost use Rattle.dp_reftest.specs.Running.{pair};
ghost use Rattle.dp_reftest.specs.Totals.{AreSums, is_same, square_of};
ghost use Rattle.dp_reftest.specs.Verdict.{distance, is_jump};

use dp_fixed::{difference, less, more, sum};
use dp_plant::Place;

/// The sums of a window: how many samples, the sums of their north and of their east parts in nm, the sum of the squares of all these
/// parts in nm², how many neighbours differ by more than the jump limit in north or in east, and how many neighbours are equal.
#[derive(Clone, Copy, Debug, PartialEq, Eq)]
pub struct Sums {
    pub n: u8,
    pub x: i128,
    pub y: i128,
    pub square: i128,
    pub jumps: u8,
    pub same: u8,
}

impl Sums {
    /// Those of a list with one place more, which comes after this one.
    pub(crate) fn add(&mut self, before: Option<Place>, p: Place, limit: i64)
        requires sums { AreSums self.old }
        requires room { self.old.n < 32 }
        requires before { IfSome before (IsVectorWithin (2 ^ 43)) }
        requires near { IsVectorWithin (2 ^ 43) p }
        ensures n { self.new.n ≡ self.old.n + 1 }
        ensures x { self.new.x ≡ self.old.x +ℤ p.north }
        ensures y { self.new.y ≡ self.old.y +ℤ p.east }
        ensures square { self.new.square ≡ self.old.square +ℤ square_of p }
        ensures jumps { self.new.jumps ≡ self.old.jumps + pair (is_jump limit) before (Some p) }
        ensures same { self.new.same ≡ self.old.same + pair is_same before (Some p) }
    {
        self.n += 1;
        self.x = plus(self.x, p.north);
        self.y = plus(self.y, p.east);
        self.square = sum(self.square, square(&p));
        self.jumps += jumps_in(before, Some(p), limit);
        self.same += same_in(before, Some(p));
    }

    /// Those of a list into which one place came and from which another fell out, but for the counts of neighbours.
    pub(crate) fn exchange(&mut self, p: &Place, out: &Place)
        requires x { unsigned_abs self.old.x ≤ 2 ^ 48 }
        requires y { unsigned_abs self.old.y ≤ 2 ^ 48 }
        requires square { unsigned_abs self.old.square ≤ 2 ^ 92 }
        requires near { IsVectorWithin (2 ^ 43) p.now }
        requires out { IsVectorWithin (2 ^ 43) out.now }
        ensures n { self.new.n ≡ self.old.n }
        ensures x { self.new.x ≡ self.old.x +ℤ (p.now.north -ℤ out.now.north) }
        ensures y { self.new.y ≡ self.old.y +ℤ (p.now.east -ℤ out.now.east) }
        ensures square { self.new.square
            ≡ self.old.square +ℤ (square_of p.now -ℤ square_of out.now) }
        ensures jumps { self.new.jumps ≡ self.old.jumps }
        ensures same { self.new.same ≡ self.old.same }
    {
        self.x = exchanged(self.x, p.north, out.north);
        self.y = exchanged(self.y, p.east, out.east);
        self.square = sum(self.square, squares_apart(p, out));
    }

    /// Those with one pair of neighbours more.
    pub(crate) fn join(&mut self, before: Place, p: Place, limit: i64)
        requires jumps { self.old.jumps ≤ 32 }
        requires same { self.old.same ≤ 32 }
        requires before { IsVectorWithin (2 ^ 43) before }
        requires near { IsVectorWithin (2 ^ 43) p }
        ensures n { self.new.n ≡ self.old.n }
        ensures x { self.new.x ≡ self.old.x }
        ensures y { self.new.y ≡ self.old.y }
        ensures square { self.new.square ≡ self.old.square }
        ensures jumps { self.new.jumps
            ≡ self.old.jumps + pair (is_jump limit) (Some before) (Some p) }
        ensures same { self.new.same ≡ self.old.same + pair is_same (Some before) (Some p) }
    {
        self.jumps += jumps_in(Some(before), Some(p), limit);
        self.same += same_in(Some(before), Some(p));
    }

    /// Those with at most one pair of neighbours less.
    pub(crate) fn part(&mut self, p: Place, after: Option<Place>, limit: i64)
        requires jumps { pair (is_jump limit) (Some p) after ≤ self.old.jumps }
        requires same { pair is_same (Some p) after ≤ self.old.same }
        requires near { IsVectorWithin (2 ^ 43) p }
        requires after { IfSome after (IsVectorWithin (2 ^ 43)) }
        ensures n { self.new.n ≡ self.old.n }
        ensures x { self.new.x ≡ self.old.x }
        ensures y { self.new.y ≡ self.old.y }
        ensures square { self.new.square ≡ self.old.square }
        ensures jumps { self.new.jumps ≡ self.old.jumps - pair (is_jump limit) (Some p) after }
        ensures same { self.new.same ≡ self.old.same - pair is_same (Some p) after }
    {
        self.jumps -= jumps_in(Some(p), after, limit);
        self.same -= same_in(Some(p), after);
    }
}

/// A total into which one part came and from which another fell out.
fn exchanged(total: i128, part: i64, out: i64) -> i128
    requires total { unsigned_abs total ≤ 2 ^ 48 }
    requires part { unsigned_abs part ≤ 2 ^ 43 }
    requires out { unsigned_abs out ≤ 2 ^ 43 }
    ensures { result ≡ total +ℤ (part -ℤ out) }
{
    total + less(part, out) as i128
}

/// How far the squares of two places' parts are apart.
fn squares_apart(p: &Place, q: &Place) -> i128
    requires p { IsVectorWithin (2 ^ 43) p.now }
    requires q { IsVectorWithin (2 ^ 43) q.now }
    ensures value { result ≡ square_of p.now -ℤ square_of q.now }
    ensures bound { unsigned_abs result ≤ 2 ^ 89 }
{
    sum(square_apart(p.north, q.north), square_apart(p.east, q.east))
}

/// A square less another, as one product.
fn square_apart(a: i64, b: i64) -> i128
    requires a { unsigned_abs a ≤ 2 ^ 43 }
    requires b { unsigned_abs b ≤ 2 ^ 43 }
    ensures value { result ≡ a *ℤ a -ℤ b *ℤ b }
    ensures bound { unsigned_abs result ≤ 2 ^ 88 }
{
    wide_product(less(a, b), more(a, b))
}

fn wide_product(a: i64, b: i64) -> i128
    requires a { unsigned_abs a ≤ 2 ^ 44 }
    requires b { unsigned_abs b ≤ 2 ^ 44 }
    ensures value { result ≡ a *ℤ b }
    ensures bound { unsigned_abs result ≤ 2 ^ 88 }
{
    a as i128 * b as i128
}

fn plus(total: i128, part: i64) -> i128
    requires total { unsigned_abs total ≤ 2 ^ 48 }
    ensures { result ≡ total +ℤ part }
{
    total + part as i128
}

fn squared(z: i64) -> i128
    requires { unsigned_abs z ≤ 2 ^ 43 }
    ensures value { result ≡ z *ℤ z }
    ensures low { pos 0 ≤ℤ result }
    ensures high { result ≤ℤ pos (2 ^ 86) }
{
    z as i128 * z as i128
}

/// The sum of the squares of a place's parts.
#[tactic(auto, unfolding(crate::specs::Totals::square_of))]
fn square(p: &Place) -> i128
    requires { IsVectorWithin (2 ^ 43) p.now }
    ensures value { result ≡ square_of p.now }
    ensures low { pos 0 ≤ℤ result }
    ensures high { result ≤ℤ pos (2 ^ 87) }
{
    squared(p.north) + squared(p.east)
}

fn apart(a: i64, b: i64) -> i64
    requires a { unsigned_abs a ≤ 2 ^ 43 }
    requires b { unsigned_abs b ≤ 2 ^ 43 }
    ensures { result ≡ distance a b }
{
    (a - b).abs()
}

fn is_above(limit: i64, x: i64) -> bool
    ensures { result ≡ int_lt limit x }
{
    limit < x
}

/// Whether the parts of two places differ by more than a limit.
#[tactic(auto, unfolding(crate::specs::Verdict::is_jump))]
fn is_step(a: &Place, b: &Place, limit: i64) -> bool
    requires a { IsVectorWithin (2 ^ 43) a.now }
    requires b { IsVectorWithin (2 ^ 43) b.now }
    ensures { result ≡ is_jump limit a.now b.now }
{
    is_above(limit, apart(a.north, b.north)) || is_above(limit, apart(a.east, b.east))
}

fn is_still(a: &Place, b: &Place) -> bool
    requires a { IsVectorWithin (2 ^ 43) a.now }
    requires b { IsVectorWithin (2 ^ 43) b.now }
    ensures { result ≡ is_same a.now b.now }
{
    !is_step(a, b, 0)
}

/// How many of at most one pair jump.
fn jumps_in(p: Option<Place>, q: Option<Place>, limit: i64) -> u8
    requires p { IfSome p (IsVectorWithin (2 ^ 43)) }
    requires q { IfSome q (IsVectorWithin (2 ^ 43)) }
    ensures value { result ≡ pair (is_jump limit) p q }
    ensures one { result ≤ 1 }
{
    match (p, q) {
        (Some(p), Some(q)) => u8::from(is_step(&p, &q, limit)),
        _ => 0,
    }
}

/// How many of at most one pair are equal.
fn same_in(p: Option<Place>, q: Option<Place>) -> u8
    requires p { IfSome p (IsVectorWithin (2 ^ 43)) }
    requires q { IfSome q (IsVectorWithin (2 ^ 43)) }
    ensures value { result ≡ pair is_same p q }
    ensures one { result ≤ 1 }
{
    match (p, q) {
        (Some(p), Some(q)) => u8::from(is_still(&p, &q)),
        _ => 0,
    }
}
