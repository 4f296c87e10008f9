ghost use Rattle.std.specs.Prelude.{◌≡◌, ◌≤◌, ◌<◌, ◌^◌, pos, ◌≤ℤ◌, IfSome, unsigned_abs};
ghost use Rattle.dp_plant.specs.{AreRefLimits, IsVectorWithin};

use arrayvec::ArrayVec;
use dp_plant::{Memory, Place, RefLimits, Verdict};
use dp_reftest::{RefTest, Sums};
use std::alloc::Global;
use std::process::Abort;

fn limits(rt: &impl Abort, window: u8) -> RefLimits
    ensures value { AreRefLimits result }
    ensures window { result.window ≡ window }
{
    assert!(rt; 4 <= window && window <= 32);
    RefLimits {
        window,
        jump: 5_000_000_000,
        noise: 4_000_000,
        age: 3,
    }
}

fn place(rt: &impl Abort, north: i64) -> Place
    ensures { IsVectorWithin (2 ^ 43) result }
{
    assert!(rt; north.unsigned_abs() <= 8_796_093_022_208);
    Place { north, east: 0 }
}

fn usable(north: i64, weight: u32) -> Verdict {
    Verdict::Usable {
        at: Place { north, east: 0 },
        weight,
    }
}

/// Feeds a test one word a cycle, a north part in nm or a `-` for no reading.
fn fed(rt: &impl Abort, alloc: Global, window: u8, words: &str) -> Result<RefTest, Memory> {
    let mut test = RefTest::new(alloc, &limits(rt, window))?;
    let mut cycle = 0;
    for word in words.split_whitespace() {
        assert!(rt; cycle < 1 << 20);
        let reading = match word.parse::<i64>() {
            Ok(north) => Some(place(rt, north)),
            Err(_) => None,
        };
        test.take(cycle, reading);
        cycle += 1;
    }
    Ok(test)
}

#[test]
fn gives_the_verdicts_of_the_table(rt: HostRuntime) -> Result<(), Memory> {
    for (window, words, wanted) in [
        (4, "", Verdict::Silent),
        (4, "-", Verdict::Silent),
        (4, "0", usable(0, 1048576)),
        (4, "0 2000000000", usable(2000000000, 1)),
        (
            4,
            "0 5000000000 0 5000000000",
            Verdict::Noisy { variance: 6250000 },
        ),
        (4, "0 5001000000", Verdict::Jumped),
        (4, "0 5001000000 5001000000", Verdict::Jumped),
        (4, "0 1 2 - - -", usable(2, 1048576)),
        (4, "0 1 2 - - - -", Verdict::Stale { age: 4 }),
        (8, "7 7 7 7 7 7 7", usable(7, 1048576)),
        (8, "7 7 7 7 7 7 7 7", Verdict::Frozen),
        (8, "7 7 7 7 7 7 7 7 7", Verdict::Frozen),
        (8, "7 7 7 7 7 7 7 7 8", usable(8, 1048576)),
    ] {
        let test = fed(&rt, rt.alloc(), window, words)?;
        assert_eq!(rt; test.usable(), wanted, "window {window}, {words}");
    }
    Ok(())
}

#[test]
fn lends_the_sums_of_the_window(rt: HostRuntime) -> Result<(), Memory> {
    let test = fed(&rt, rt.alloc(), 4, "0 5000000000 0 5000000000")?;
    let wanted = Sums {
        n: 4,
        x: 10000000000,
        y: 0,
        square: 50000000000000000000,
        jumps: 0,
        same: 0,
    };
    assert_eq!(rt; *test.sums(), wanted);
    let seen = wanted.verdict(&limits(&rt, 4), place(&rt, 5000000000), 3, 3);
    assert_eq!(rt; seen, Verdict::Noisy { variance: 6250000 });
    Ok(())
}

/// The last 32 samples in a list, and the frame of the newest.
#[derive(Drop)]
struct Plain {
    list: ArrayVec<Place, 32>,
    last: u64,
}

impl Plain {
    fn note(&mut self, cycle: u64, reading: Option<Place>) {
        if let Some(at) = reading {
            if self.list.is_full() {
                let _oldest = self.list.remove(0);
            }
            let _fits = self.list.try_push(at);
            self.last = cycle;
        }
    }

    /// The tests as they are written down, over the whole list.
    fn verdict(&self, now: u64) -> Verdict {
        let Some(newest) = self.list.as_slice().last().copied() else {
            return Verdict::Silent;
        };
        let age = now.saturating_sub(self.last);
        let (jumped, still) = steps(self.list.as_slice());
        let variance = variance(self.list.as_slice());
        if age > 3 {
            Verdict::Stale { age }
        } else if self.list.is_full() && still {
            Verdict::Frozen
        } else if jumped {
            Verdict::Jumped
        } else if variance > 4_000_000 {
            Verdict::Noisy { variance }
        } else {
            Verdict::Usable {
                at: newest,
                weight: weight(variance),
            }
        }
    }
}

/// Whether any two neighbours are more than 5 m apart, and whether all are equal.
fn steps(list: &[Place]) -> (bool, bool) {
    let (mut jumped, mut still) = (false, true);
    let mut before = list.first().copied();
    for at in list {
        if let Some(p) = before {
            jumped |= p.north.abs_diff(at.north) > 5_000_000_000;
            jumped |= p.east.abs_diff(at.east) > 5_000_000_000;
            still &= p == *at;
        }
        before = Some(*at);
    }
    (jumped, still)
}

fn variance(list: &[Place]) -> i128 {
    let n = list.len() as i128;
    let (mut x, mut y, mut square) = (0i128, 0i128, 0i128);
    for at in list {
        let (north, east) = (at.north as i128, at.east as i128);
        x = x.wrapping_add(north);
        y = y.wrapping_add(east);
        let both = north
            .wrapping_mul(north)
            .wrapping_add(east.wrapping_mul(east));
        square = square.wrapping_add(both);
    }
    let sums = x.wrapping_mul(x).wrapping_add(y.wrapping_mul(y));
    let spread = n.wrapping_mul(square).wrapping_sub(sums);
    divided(spread, n.wrapping_mul(n).wrapping_mul(1_000_000_000_000))
}

fn weight(variance: i128) -> u32 {
    let share = divided(1 << 20, variance.wrapping_add(1));
    let Ok(weight) = u32::try_from(share.max(1)) else {
        return 0;
    };
    weight
}

fn divided(n: i128, d: i128) -> i128 {
    if 0 < d { n.div_euclid(d) } else { 0 }
}

/// Either no reading, or a place up to so far from zero as the cycle's part of the run has it: still, quiet, rough, noisy, jumping.
fn generated(cycle: u64, bits: u64) -> Option<Place>
    ensures { IfSome result (IsVectorWithin (2 ^ 43)) }
{
    if cycle % 97 < 5 {
        return None;
    }
    let far = match cycle / 64 % 5 {
        0 => 0,
        1 => 3_000_000,
        2 => 1_000_000_000,
        3 => 2_400_000_000,
        _ => 3_000_000_000,
    };
    Some(Place {
        north: part(bits >> 8, far),
        east: part(bits >> 24, far),
    })
}

fn part(bits: u64, far: u32) -> i64
    ensures { unsigned_abs result ≤ 2 ^ 43 }
{
    (bits % (2 * far as u64 + 1)) as i64 - far as i64
}

#[test]
fn agrees_with_the_tests_over_the_whole_list(rt: HostRuntime) -> Result<(), Memory> {
    let mut test = RefTest::new(rt.alloc(), &limits(&rt, 32))?;
    let mut plain = Plain {
        list: ArrayVec::new(),
        last: 0,
    };
    let mut bits = 1u64;
    for cycle in 0..10_000 {
        bits = bits
            .wrapping_mul(6364136223846793005)
            .wrapping_add(1442695040888963407);
        let reading = generated(cycle, bits);
        test.take(cycle, reading);
        plain.note(cycle, reading);
        assert_eq!(rt; test.usable(), plain.verdict(cycle), "in cycle {cycle}");
    }
    Ok(())
}
