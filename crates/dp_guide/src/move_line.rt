//! What a line of a list of moves says.
ghost use Rattle.std.specs.Prelude.{◌≡◌, ◌<◌, ◌≤◌, ◌^◌, ◌*ℤ◌, IfOk, pos, unsigned_abs};
ghost use Rattle.dp_text.specs.{texts_of};
ghost use Rattle.dp_guide.specs.MoveLines as lines;
ghost use Rattle.dp_guide.specs.MoveLines.{IsMoveWithin, below_of, near_of, move_of, move_within, numbers_of, numbers_of_parts, signed_of, whole_of};

use crate::MovesKind;
use crate::moves::Move;
use arrayvec::ArrayVec;
use dp_plant::{Place, Setpoint};
use dp_text::{decimal, number, split_parts};

/// The most bytes of a line.
const LONGEST: usize = 192;

/// Cycle, north, east and heading.
const PARTS: usize = 4;

/// Cycles are below 2^20.
const CYCLES: u64 = 1 << 20;

/// The farthest that a place is from the origin on an axis, in mm.
const FARTHEST: u64 = 8_796_093;

/// A turn in hundredths of a degree.
const TURN: u64 = 36_000;

/// The numbers of a line as they stand there: the cycle, north and east in mm, and the heading in hundredths of a degree.
#[derive(Clone, Copy)]
pub(crate) struct MoveNumbers {
    pub(crate) cycle: u64,
    pub(crate) north: i64,
    pub(crate) east: i64,
    pub(crate) heading: u64,
}

/// The move of a line that isn't skipped, judged alone.
#[tactic(auto, unfolding(crate::specs::MoveLines::move_of))]
pub(crate) fn move_read(line: &[u8]) -> Result<Move, MovesKind>
    ensures value { result ≡ move_of line.now }
    ensures within { IfOk result IsMoveWithin }
{
    let numbers = numbers_read(line)?;
    move_within(numbers)
}

/// The numbers of a line.
#[tactic(auto, unfolding(crate::specs::MoveLines::numbers_of))]
fn numbers_read(line: &[u8]) -> Result<MoveNumbers, MovesKind>
    ensures { result ≡ numbers_of line.now }
{
    if line.len() > LONGEST {
        return Err(MovesKind::Number);
    }
    let Some(parts) = split_parts::<PARTS>(line) else {
        return Err(MovesKind::Number);
    };
    parts_read(parts.as_slice())
}

/// The numbers of the parts of a line.
#[tactic(auto, unfolding(crate::specs::MoveLines::numbers_of_parts))]
fn parts_read(parts: &[&[u8]]) -> Result<MoveNumbers, MovesKind>
    ensures { result ≡ numbers_of_parts (texts_of parts.now) }
{
    let [cycle, north, east, heading] = parts else {
        return Err(MovesKind::Number);
    };
    let cycle = whole(cycle)?;
    let north = signed(north)?;
    let east = signed(east)?;
    let heading = whole(heading)?;
    Ok(MoveNumbers {
        cycle,
        north,
        east,
        heading,
    })
}

/// The move of numbers that are within their ranges.
#[tactic(auto, unfolding(crate::specs::MoveLines::move_within))]
fn move_within(numbers: MoveNumbers) -> Result<Move, MovesKind>
    ensures value { result ≡ move_within numbers }
    ensures within { IfOk result IsMoveWithin }
{
    let cycle = below(numbers.cycle, CYCLES)?;
    let north = near(numbers.north)?;
    let east = near(numbers.east)?;
    let heading = below(numbers.heading, TURN)?;
    Ok(Move {
        cycle,
        to: setpoint(north, east, heading),
    })
}

/// The setpoint of a place in mm and a heading in hundredths of a degree.
fn setpoint(north: i64, east: i64, heading: u64) -> Setpoint
    requires north { unsigned_abs north ≤ 8796093 }
    requires east { unsigned_abs east ≤ 8796093 }
    requires heading { heading < 36000 }
    ensures { result ≡ lines.setpoint_of north east heading }
{
    Setpoint {
        at: Place {
            north: nanometres(north),
            east: nanometres(east),
        },
        psi: nanodegrees(heading),
    }
}

/// A length in mm, in nanometres.
fn nanometres(mm: i64) -> i64
    requires { unsigned_abs mm ≤ 8796093 }
    ensures { result ≡ mm *ℤ pos 1000000 }
{
    mm * 1_000_000
}

/// A heading in hundredths of a degree, in nanodegrees.
fn nanodegrees(hundredths: u64) -> i64
    requires { hundredths < 36000 }
    ensures { result ≡ pos hundredths *ℤ pos 10000000 }
{
    hundredths as i64 * 10_000_000
}

fn whole(text: &[u8]) -> Result<u64, MovesKind>
    ensures { result ≡ whole_of text.now }
{
    decimal(text, 18).ok_or(MovesKind::Number)
}

fn signed(text: &[u8]) -> Result<i64, MovesKind>
    ensures { result ≡ signed_of text.now }
{
    number(text).ok_or(MovesKind::Number)
}

/// A number below a limit.
fn below(number: u64, limit: u64) -> Result<u64, MovesKind>
    ensures value { result ≡ below_of limit number }
    ensures bound { IfOk result (λ n. n < limit) }
{
    if number < limit {
        Ok(number)
    } else {
        Err(MovesKind::Range)
    }
}

/// A coordinate of a place within its range.
fn near(mm: i64) -> Result<i64, MovesKind>
    ensures value { result ≡ near_of 8796093 mm }
    ensures bound { IfOk result (λ z. unsigned_abs z ≤ 8796093) }
{
    if mm.unsigned_abs() <= FARTHEST {
        Ok(mm)
    } else {
        Err(MovesKind::Range)
    }
}
