//! The fault lines of a plant and its gains.
ghost use Rattle.std.specs.Prelude.{◌≡◌, ◌++◌, ◌≤◌, ◌+◌, length, codes};
ghost use Rattle.std.specs.Fmt.{decimal, signed_decimal};
ghost use Rattle.arrayvec.specs.ArrayVec.{array_vec_len};
ghost use Rattle.dp_accept.specs.Lines.{case_line, condition_line, count_part, gains_line, key_line, of_one, of_two, plant_line, short_line, word_part, whole_part};

use crate::refusals::{GainsRefusal, PlantRefusal};
use arrayvec::ArrayVec;
use dp_alloc::CaseFault;
use dp_cert::CertFault;
use dp_text::{append, append_decimal, append_number, append_wide};

/// Room for the longest fault line.
pub const LINE: usize = 128;

/// The line of a plant file that is refused.
#[tactic(auto, unfolding(crate::specs::Lines::plant_line))]
pub fn plant_line(why: &PlantRefusal) -> ArrayVec<u8, LINE>
    ensures { result.items ≡ plant_line why.now }
{
    match why {
        PlantRefusal::Toml => fixed_line(b"fault plant toml\n"),
        PlantRefusal::Missing { key } => key_line(b"fault plant missing", key),
        PlantRefusal::Kind { key } => key_line(b"fault plant kind", key),
        PlantRefusal::Range { key } => key_line(b"fault plant range", key),
        PlantRefusal::Case { refusal } => case_line(refusal.lost, refusal.fault),
    }
}

/// The line of a case that is refused.
#[tactic(auto, unfolding(crate::specs::Lines::case_line))]
fn case_line(lost: u8, fault: CaseFault) -> ArrayVec<u8, LINE>
    ensures { result.items ≡ case_line lost fault }
{
    match fault {
        CaseFault::CornerOver {
            thruster,
            need,
            limit,
        } => corner_line(lost, thruster, need, limit),
        CaseFault::OffDemand {
            axis,
            column,
            error,
        } => demand_line(lost, axis, column, error),
    }
}

/// The line of a case of which a corner asks too much of a thruster.
fn corner_line(lost: u8, thruster: usize, need: i64, limit: i64) -> ArrayVec<u8, LINE>
    ensures { result.items ≡ codes "fault plant corner" ++ (count_part lost ++ (count_part thruster
        ++ (whole_part need ++ (whole_part limit ++ codes "\n")))) }
{
    let mut line = ArrayVec::new();
    append(&mut line, b"fault plant corner");
    append_count(&mut line, usize::from(lost));
    append_count(&mut line, thruster);
    append_force(&mut line, need);
    append_force(&mut line, limit);
    append(&mut line, b"\n");
    line
}

/// The line of a case of which the thrusters don't give the demand.
fn demand_line(lost: u8, axis: usize, column: usize, error: i128) -> ArrayVec<u8, LINE>
    ensures { result.items ≡ codes "fault plant demand" ++ (count_part lost ++ (count_part axis
        ++ (count_part column ++ (whole_part error ++ codes "\n")))) }
{
    let mut line = ArrayVec::new();
    append(&mut line, b"fault plant demand");
    append_count(&mut line, usize::from(lost));
    append_count(&mut line, axis);
    append_count(&mut line, column);
    append(&mut line, b" ");
    append_wide(&mut line, error);
    append(&mut line, b"\n");
    line
}

/// The line of gains that are refused.
#[tactic(auto, unfolding(crate::specs::Lines::gains_line))]
pub fn gains_line(why: &GainsRefusal) -> ArrayVec<u8, LINE>
    ensures { result.items ≡ gains_line why.now }
{
    match why {
        GainsRefusal::Range { key } => key_line(b"fault gains range", key),
        GainsRefusal::Condition { fault } => condition_line(fault),
    }
}

/// The line of a certificate's condition that fails.
#[tactic(auto, unfolding(crate::specs::Lines::condition_line))]
fn condition_line(fault: &CertFault) -> ArrayVec<u8, LINE>
    ensures { result.items ≡ condition_line fault.now }
{
    match fault {
        CertFault::Range { name } => key_line(b"fault gains range", name.as_bytes()),
        CertFault::Rate => fixed_line(b"fault gains rate\n"),
        CertFault::FormNotShown { row, short } => { short_line(b"fault gains form", *row, *short) }
        CertFault::VertexNotShown {
            axis,
            vertex,
            row,
            short,
        } => short_line(&of_two(b"fault gains vertex", *axis, *vertex), *row, *short),
        CertFault::InputShort => fixed_line(b"fault gains input\n"),
        CertFault::RoundShort => fixed_line(b"fault gains round\n"),
        CertFault::OutputNotShown {
            axis,
            which,
            row,
            short,
        } => short_line(&of_two(b"fault gains output", *axis, *which), *row, *short),
        CertFault::SpanNotShown {
            coordinate,
            row,
            short,
        } => short_line(&of_one(b"fault gains span", *coordinate), *row, *short),
        CertFault::TooWide { coordinate } => wide_line(*coordinate),
    }
}

/// A line about a key: what is wrong with it, and its name.
fn key_line(what: &[u8], key: &[u8]) -> ArrayVec<u8, LINE>
    requires what { length what.now ≤ 32 }
    requires key { length key.now ≤ 48 }
    ensures { result.items ≡ key_line what.now key.now }
{
    let mut line = ArrayVec::new();
    append(&mut line, what);
    append(&mut line, b" ");
    append(&mut line, key);
    append(&mut line, b"\n");
    line
}

/// A line about a matrix that isn't shown: which, its first row that is short, and by how much.
fn short_line(which: &[u8], row: usize, short: i128) -> ArrayVec<u8, LINE>
    requires { length which.now ≤ 64 }
    ensures { result.items ≡ short_line which.now row short }
{
    let mut line = ArrayVec::new();
    append(&mut line, which);
    append_count(&mut line, row);
    append(&mut line, b" ");
    append_wide(&mut line, short);
    append(&mut line, b"\n");
    line
}

/// A line about the width of a coordinate.
fn wide_line(coordinate: usize) -> ArrayVec<u8, LINE>
    ensures { result.items ≡ of_one (codes "fault gains wide") coordinate ++ codes "\n" }
{
    let mut line = of_one(b"fault gains wide", coordinate);
    append(&mut line, b"\n");
    line
}

/// What a matrix of one number is of.
fn of_one(what: &[u8], first: usize) -> ArrayVec<u8, LINE>
    requires { length what.now ≤ 22 }
    ensures text { result.items ≡ of_one what.now first }
    ensures short { array_vec_len result ≤ 43 }
{
    let mut line = ArrayVec::new();
    append(&mut line, what);
    append_count(&mut line, first);
    line
}

/// The same of two numbers.
fn of_two(what: &[u8], first: usize, second: usize) -> ArrayVec<u8, LINE>
    requires { length what.now ≤ 22 }
    ensures text { result.items ≡ of_two what.now first second }
    ensures short { array_vec_len result ≤ 64 }
{
    let mut line = ArrayVec::new();
    append(&mut line, what);
    append_count(&mut line, first);
    append_count(&mut line, second);
    line
}

/// A number after a space.
fn append_count(line: &mut ArrayVec<u8, LINE>, number: usize)
    requires { array_vec_len line.old + 21 ≤ LINE }
    ensures text { line.new.items ≡ line.old.items ++ count_part number }
    ensures len { array_vec_len line.new ≤ array_vec_len line.old + 21 }
{
    append(line, b" ");
    append_decimal(line, number as u64);
}

/// A force after a space.
fn append_force(line: &mut ArrayVec<u8, LINE>, force: i64)
    requires { array_vec_len line.old + 21 ≤ LINE }
    ensures text { line.new.items ≡ line.old.items ++ whole_part force }
    ensures len { array_vec_len line.new ≤ array_vec_len line.old + 21 }
{
    append(line, b" ");
    append_number(line, force);
}

/// A line that names nothing.
fn fixed_line(text: &[u8]) -> ArrayVec<u8, LINE>
    requires { length text.now ≤ 32 }
    ensures { result.items ≡ text.now }
{
    let mut line = ArrayVec::new();
    append(&mut line, text);
    line
}
