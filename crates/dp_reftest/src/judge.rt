//! The verdict, read off the sums.
ghost use Rattle.std.specs.Prelude.{◌≡◌, ℕ, List, ◌≤◌, ◌<◌, ◌^◌, ◌+◌, ◌-◌, ◌*◌, ◌/◌, ◌-ℤ◌, ◌*ℤ◌, ◌≤ℤ◌, ◌<ℤ◌, pos, unsigned_abs};
ghost use Rattle.dp_fixed.specs.{IsFloor, floor_of};
ghost use Rattle.dp_plant.specs.declared.place.Place.{Place};
ghost use Rattle.dp_plant.specs.{AreRefLimits, IsVectorWithin};
ghost use Rattle.dp_reftest.specs.{AreNear, AreSums, EndsIn, IsVerdictWithin, is_frozen_by, kept_by, spread_by, square_millimetres, sums_of, variance_by, verdict_by, verdict_by_samples, verdict_by_variance, verdict_of, weight_of};

use crate::Sums;
use dp_fixed::{difference, floor_div, narrow, product};
use dp_plant::{Place, RefLimits, Verdict};

impl Sums {
    /// The verdict on a window with these sums, by the limits under which its jumps were counted, with its newest place and the frame
    /// that it came in, as of frame `now`. The sums must be such as places within ±2^43 nm can have, and no more than the window's.
    pub fn verdict(&self, limits: &RefLimits, newest: Place, last: u64, now: u64) -> Verdict
        requires limits { AreRefLimits limits.now }
        requires few { self.now.n ≤ limits.now.window }
        requires sums { AreSums self.now }
        requires last { last ≤ now }
        ensures value { (xs : List Place) → AreNear xs → self.now ≡ sums_of limits.now.jump xs
            → EndsIn newest xs → result ≡ verdict_of limits.now (kept_by last xs) now }
        ensures within { IsVectorWithin (2 ^ 43) newest → IsVerdictWithin result }
    {
        self.judged(limits, &newest, now - last)
    }

    /// The same for a newest place that is lent.
    pub(crate) fn judged(&self, limits: &RefLimits, newest: &Place, age: u64) -> Verdict
        requires limits { AreRefLimits limits.now }
        requires few { self.now.n ≤ limits.now.window }
        requires sums { AreSums self.now }
        ensures value { result ≡ verdict_by limits.now self.now newest.now age }
        ensures within { IsVectorWithin (2 ^ 43) newest.now → IsVerdictWithin result }
    {
        if self.n == 0 {
            return Verdict::Silent;
        }
        if limits.age < age {
            return Verdict::Stale { age };
        }
        self.by_samples(limits, newest)
    }

    /// The verdict on samples of which the newest isn't stale.
    #[tactic(auto, unfolding(crate::specs::Running::verdict_by_samples))]
    fn by_samples(&self, limits: &RefLimits, newest: &Place) -> Verdict
        requires limits { AreRefLimits limits.now }
        requires some { 0 < self.now.n }
        requires few { self.now.n ≤ limits.now.window }
        requires sums { AreSums self.now }
        ensures value { result ≡ verdict_by_samples limits.now self.now newest.now }
        ensures within { IsVectorWithin (2 ^ 43) newest.now → IsVerdictWithin result }
    {
        if self.is_frozen(limits.window) {
            return Verdict::Frozen;
        }
        if 0 < self.jumps {
            return Verdict::Jumped;
        }
        weighed(limits.noise, newest, self.variance())
    }

    /// Whether the window is full and all its samples are equal.
    #[tactic(auto, unfolding(crate::specs::Running::is_frozen_by))]
    fn is_frozen(&self, window: u8) -> bool
        requires { self.now.same ≤ 32 }
        ensures { result ≡ is_frozen_by window self.now }
    {
        self.n == window && self.same + 1 == self.n
    }

    /// The variance of the samples, north and east together, in mm², rounded down.
    #[tactic(auto, unfolding(crate::specs::Running::variance_by))]
    fn variance(&self) -> i128
        requires some { 0 < self.now.n }
        requires few { self.now.n ≤ 32 }
        requires sums { AreSums self.now }
        ensures { result ≡ variance_by self.now }
    {
        mean_spread(self.spread(), self.n)
    }

    /// Its square count times the variance, in nm².
    fn spread(&self) -> i128
        requires few { self.now.n ≤ 32 }
        requires sums { AreSums self.now }
        ensures { result ≡ spread_by self.now }
    {
        less_square(less_square(times(self.n, self.square), self.x), self.y)
    }
}

fn times(n: u8, z: i128) -> i128
    requires n { n ≤ 32 }
    requires z { unsigned_abs z ≤ 2 ^ 92 }
    ensures value { result ≡ pos n *ℤ z }
    ensures bound { unsigned_abs result ≤ 2 ^ 122 }
{
    product(n as i64, z)
}

/// A number less the square of another.
fn less_square(a: i128, z: i128) -> i128
    requires a { unsigned_abs a ≤ 2 ^ 123 }
    requires z { unsigned_abs z ≤ 2 ^ 48 }
    ensures value { result ≡ a -ℤ z *ℤ z }
    ensures bound { unsigned_abs result ≤ unsigned_abs a + 2 ^ 96 }
{
    difference(a, total_squared(z))
}

fn total_squared(z: i128) -> i128
    requires { unsigned_abs z ≤ 2 ^ 48 }
    ensures value { result ≡ z *ℤ z }
    ensures low { pos 0 ≤ℤ result }
    ensures high { result ≤ℤ pos (2 ^ 96) }
{
    let part = narrow(z);
    part as i128 * part as i128
}

/// A spread over the square of a count, in mm², rounded down. Most are short.
fn mean_spread(spread: i128, n: u8) -> i128
    requires some { 0 < n }
    requires few { n ≤ 32 }
    ensures { result ≡ floor_of spread (square_millimetres n) }
{
    if 0 <= spread && spread < SHORT_SPREAD {
        parted(shortened(spread), short_cells(n))
    } else {
        long_mean(spread, n)
    }
}

fn parted(part: u64, cells: u64) -> i128
    requires { 0 < cells }
    ensures { result ≡ pos (part / cells) }
{
    (part / cells) as i128
}

/// What is below it is below 2^63 when it is parted by 2^12.
const SHORT_SPREAD: i128 = 1 << 75;

/// A spread over 2^12, rounded down.
fn shortened(spread: i128) -> u64
    requires low { pos 0 ≤ℤ spread }
    requires high { spread <ℤ pos (2 ^ 75) }
    ensures { IsFloor spread (pos 4096) (pos result) }
{
    floor_div(spread, 4096) as u64
}

/// The square of a count, times 10^12 over 2^12.
fn short_cells(n: u8) -> u64
    requires some { 0 < n }
    requires few { n ≤ 32 }
    ensures value { result ≡ n * n * 244140625 }
    ensures some { 0 < result }
{
    n as u64 * n as u64 * 244_140_625
}

/// The same for any spread.
#[cold]
#[inline(never)]
fn long_mean(spread: i128, n: u8) -> i128
    requires some { 0 < n }
    requires few { n ≤ 32 }
    ensures { result ≡ floor_of spread (square_millimetres n) }
{
    floor_div(spread, cells(n))
}

/// The square of a count, times 10^12: by it nm² become mm².
fn cells(n: u8) -> i128
    requires some { 0 < n }
    requires few { n ≤ 32 }
    ensures value { result ≡ square_millimetres n }
    ensures low { pos 0 <ℤ result }
{
    product(n as i64, n as i128) * 1_000_000_000_000
}

/// The verdict by the variance, where all else is well.
#[tactic(auto, unfolding(crate::specs::Running::verdict_by_variance))]
fn weighed(noise: i128, newest: &Place, variance: i128) -> Verdict
    requires noise { noise ≤ℤ pos (10 ^ 12) }
    requires low { pos 0 ≤ℤ variance }
    ensures value { result ≡ verdict_by_variance noise newest.now variance }
    ensures within { IsVectorWithin (2 ^ 43) newest.now → IsVerdictWithin result }
{
    if noise < variance {
        return Verdict::Noisy { variance };
    }
    Verdict::Usable {
        at: *newest,
        weight: weight(variance),
    }
}

/// The weight of a reference: 2^20 over 1 more than its variance, rounded down, and at least 1.
fn weight(variance: i128) -> u32
    requires low { pos 0 ≤ℤ variance }
    ensures value { result ≡ weight_of variance }
    ensures low { 1 ≤ result }
    ensures high { result ≤ 2 ^ 20 }
{
    if variance < 1 << 20 {
        most_over(1 + whole(variance))
    } else {
        1
    }
}

fn whole(variance: i128) -> u32
    requires low { pos 0 ≤ℤ variance }
    requires high { variance <ℤ pos (2 ^ 20) }
    ensures { pos result ≡ variance }
{
    variance as u32
}

/// 2^20 over a number, rounded down.
fn most_over(d: u32) -> u32
    requires some { 0 < d }
    requires few { d ≤ 2 ^ 20 }
    ensures value { result ≡ 2 ^ 20 / d }
    ensures low { 1 ≤ result }
    ensures high { result ≤ 2 ^ 20 }
{
    (1u32 << 20) / d
}
