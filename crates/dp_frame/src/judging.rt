//! The judgement on one line.
ghost use Rattle.std.specs.Prelude.{◌≡◌, ◌<◌, ◌≤◌, IfSome, take};
ghost use Rattle.dp_frame.specs.{IsJudgedWithin, IsReadable, IsWire, judge, judge_rest, judge_time, judge_wire, name_len, number_of, time_len};

use crate::LineFault;
use crate::contents::content;
use crate::entry::{Entry, Judged};
use crate::settings::Settings;
use crate::wires::wire;
use dp_plant::Wire;

const SPACE: u8 = b' ';

const LONGEST: usize = 192;

const MOST_DIGITS: usize = 15;

const CYCLES: u64 = 1 << 20;

/// The judgement on a line, without its end, after a line of the time `last`.
#[tactic(auto, unfolding(crate::specs::Line::judge))]
pub(crate) fn judge(settings: &Settings, last: u64, line: &[u8]) -> Judged
    requires { IsReadable settings.now }
    ensures value { result ≡ judge settings.now last line.now }
    ensures within { IsJudgedWithin settings.now.groups result }
{
    if line.is_empty() {
        return Judged::Blank;
    }
    if line.len() > LONGEST {
        return Judged::Faulty(LineFault::LongLine);
    }
    judge_time(settings, last, line)
}

/// A line that isn't empty, nor too long.
#[tactic(auto, unfolding(crate::specs::Line::judge_time))]
fn judge_time(settings: &Settings, last: u64, line: &[u8]) -> Judged
    requires { IsReadable settings.now }
    ensures value { result ≡ judge_time settings.now last line.now }
    ensures within { IsJudgedWithin settings.now.groups result }
{
    let (count, now) = time(line);
    if count == 0 {
        return Judged::Faulty(LineFault::NoTime);
    }
    if count > MOST_DIGITS || count >= line.len() || line[count] != SPACE {
        return Judged::Faulty(LineFault::BadTime);
    }
    if now < last {
        return Judged::Faulty(LineFault::TimeBack { before: last, now });
    }
    judge_wire(settings, now, &line[count + 1..])
}

/// How many digits a line begins with, counted up to 16, and the number that they make.
fn time(line: &[u8]) -> (usize, u64)
    ensures few { result.0 ≤ 15 → result.0 ≡ time_len line.now }
    ensures many { 15 < result.0 → 15 < time_len line.now }
    ensures number { 0 < result.0 → result.0 ≤ 15 → result.1 ≡ number_of (take result.0 line.now) }
{
    let most = line.len().min(MOST_DIGITS + 1);
    let mut count = 0;
    let mut value = 0u64;
    while count < most {
        let byte = line[count];
        if !byte.is_ascii_digit() {
            return (count, value);
        }
        value = value * 10 + u64::from(byte - b'0');
        count += 1;
    }
    (count, value)
}

/// What stands after the time.
#[tactic(auto, unfolding(crate::specs::Line::judge_wire))]
fn judge_wire(settings: &Settings, time: u64, text: &[u8]) -> Judged
    requires { IsReadable settings.now }
    ensures value { result ≡ judge_wire settings.now time text.now }
    ensures within { IsJudgedWithin settings.now.groups result }
{
    let count = name_len(text);
    if count == 0 {
        return Judged::Faulty(LineFault::NoWire);
    }
    let rest = if count < text.len() {
        &text[count + 1..]
    } else {
        &[]
    };
    judge_rest(settings, time, rest, wire(settings.groups, &text[..count]))
}

/// How many bytes come before the next space, or the end.
fn name_len(text: &[u8]) -> usize
    ensures { result ≡ name_len text.now }
{
    text.iter().take_while(|byte| **byte != SPACE).count()
}

/// A line of a known wire, or of none.
#[tactic(auto, unfolding(crate::specs::Line::judge_rest))]
fn judge_rest(settings: &Settings, time: u64, rest: &[u8], wire: Option<Wire>) -> Judged
    requires readable { IsReadable settings.now }
    requires wire { IfSome wire (λ w. IsWire settings.now.groups w) }
    ensures value { result ≡ judge_rest settings.now time rest.now wire }
    ensures within { IsJudgedWithin settings.now.groups result }
{
    let Some(wire) = wire else {
        return Judged::Faulty(LineFault::UnknownWire);
    };
    let cycle = time / settings.cycle_ms;
    if cycle >= CYCLES {
        return Judged::TooMany { cycle };
    }
    Judged::Good(Entry {
        time,
        cycle,
        wire,
        content: content(settings, wire, rest),
    })
}
