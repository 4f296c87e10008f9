//! Angles in degrees and minutes as they stand in fields, `4807.038`, read by one look at each byte.
ghost use Rattle.std.specs.Prelude.{◌≡◌, ◌+◌, ◌-◌, ◌*◌, ◌<◌, ◌≤◌, ◌^◌, ◌==◌, ◌&&◌, drop, length, nat_le, take, IfSome, MatchOption, false, true};
ghost use Rattle.std.specs.List.{list_all};
ghost use Rattle.std.specs.Char.{is_ascii_digit};
ghost use Rattle.dp_nav.specs.Decimals as Decimals;
ghost use Rattle.dp_nav.specs.Decimals.{is_decimal};

use crate::decimals::{MOST_DIGITS, all_digits, power, prefix};

/// Decimals of a minute that are kept.
const DECIMALS: usize = 7;

/// The most digits of a number.
const NUMBER_DIGITS: usize = 18;

/// The parts of an angle.
#[derive(Clone, Copy)]
pub(crate) struct AngleParts {
    /// Whole degrees.
    pub degrees: u64,
    /// Whole minutes, below 100.
    pub minutes: u64,
    /// The decimals of the minute, in 10^-7 minute.
    pub rest: u64,
}

/// The parts of an angle with this many digits of degrees and two of minutes.
pub(crate) fn angle_parts(text: &[u8], digits: usize) -> Option<AngleParts>
    requires few { digits ≤ 3 }
    ensures value { MatchOption result
        ((is_decimal text.now && length (Decimals.whole text.now) == digits + 2) ≡ false)
        (λ a. ((is_decimal text.now && length (Decimals.whole text.now) == digits + 2) ≡ true)
        × (a.degrees ≡ Decimals.number (take digits (Decimals.whole text.now)))
        × (a.minutes ≡ Decimals.number (drop digits (Decimals.whole text.now)))
        × (a.rest ≡ Decimals.kept 7 (Decimals.decimals text.now))) }
    ensures bound { IfSome result
        (λ a. (a.degrees < 10 ^ 3) × (a.minutes < 10 ^ 2) × (a.rest < 10 ^ 7)) }
{
    let decimals = decimals_behind(text, digits + 2)?;
    parts_of(&text[..digits], &text[digits..digits + 2], decimals)
}

/// The parts of an angle that is cut; none where another byte than a digit stands in it, or more than 20 digits.
fn parts_of(first: &[u8], second: &[u8], decimals: &[u8]) -> Option<AngleParts>
    requires first { length first.now ≤ 3 }
    requires second { length second.now ≤ 2 }
    ensures value { MatchOption result
        ((list_all is_ascii_digit first.now && (list_all is_ascii_digit second.now
        && (nat_le (length first.now + length second.now + length decimals.now) 20
        && list_all is_ascii_digit decimals.now))) ≡ false)
        (λ a. ((list_all is_ascii_digit first.now && (list_all is_ascii_digit second.now
        && (nat_le (length first.now + length second.now + length decimals.now) 20
        && list_all is_ascii_digit decimals.now))) ≡ true)
        × (a.degrees ≡ Decimals.number first.now) × (a.minutes ≡ Decimals.number second.now)
        × (a.rest ≡ Decimals.kept 7 decimals.now)) }
    ensures bound { IfSome result
        (λ a. (a.degrees < 10 ^ 3) × (a.minutes < 10 ^ 2) × (a.rest < 10 ^ 7)) }
{
    let degrees = plain_number(first)?;
    let minutes = plain_number(second)?;
    if decimals.len() > MOST_DIGITS - first.len() - second.len() {
        return None;
    }
    let rest = kept_of(decimals)?;
    Some(AngleParts {
        degrees,
        minutes,
        rest,
    })
}

/// What stands behind the first bytes, this many, and a point; nothing where the text ends with them.
fn decimals_behind(text: &[u8], count: usize) -> Option<&[u8]>
    requires { count ≤ 5 }
    ensures { MatchOption result ((length (Decimals.whole text.now) == count) ≡ false)
        (λ d. (count ≤ length text.now)
        × (length (Decimals.whole text.now) ≡ count
        → (Decimals.whole text.now ≡ take count text.now) × (Decimals.decimals text.now ≡ d.now))
        × (list_all is_ascii_digit (take count text.now) ≡ true
        → length (Decimals.whole text.now) ≡ count)) }
{
    if text.len() <= count {
        return if text.len() == count { Some(&[]) } else { None };
    }
    if text[count] == b'.' {
        Some(&text[count + 1..])
    } else {
        None
    }
}

/// The number of up to 18 digits, 0 where there are none; none where another byte stands among them.
fn plain_number(digits: &[u8]) -> Option<u64>
    requires { length digits.now ≤ 18 }
    ensures value { MatchOption result (list_all is_ascii_digit digits.now ≡ false)
        (λ n. (list_all is_ascii_digit digits.now ≡ true) × (n ≡ Decimals.number digits.now)) }
    ensures bound { IfSome result (λ n. n < 10 ^ length digits.now) }
{
    if digits.is_empty() {
        return Some(0);
    }
    dp_text::decimal(digits, NUMBER_DIGITS)
}

/// The first seven decimals as a whole number of 10^-7; none where another byte than a digit stands among all.
fn kept_of(decimals: &[u8]) -> Option<u64>
    ensures value { MatchOption result (list_all is_ascii_digit decimals.now ≡ false)
        (λ n. (list_all is_ascii_digit decimals.now ≡ true) × (n ≡ Decimals.kept 7 decimals.now)) }
    ensures bound { IfSome result (λ n. n < 10 ^ 7) }
{
    let first = prefix(decimals, DECIMALS);
    if !all_digits(&decimals[first.len()..]) {
        return None;
    }
    weighed(first)
}

/// Up to seven decimals as a whole number of 10^-7; none where another byte than a digit stands among them.
fn weighed(decimals: &[u8]) -> Option<u64>
    requires { length decimals.now ≤ 7 }
    ensures value { MatchOption result (list_all is_ascii_digit decimals.now ≡ false)
        (λ n. (list_all is_ascii_digit decimals.now ≡ true)
        × (n ≡ Decimals.number decimals.now * 10 ^ (7 - length decimals.now))) }
    ensures bound { IfSome result (λ n. n < 10 ^ 7) }
{
    let number = plain_number(decimals)?;
    Some(number * power(DECIMALS - decimals.len()))
}
