ghost use Rattle.std.specs.Prelude.{◌≡◌, ◌<◌, ◌≤◌, ◌^◌, IfOk, unsigned_abs};
ghost use Rattle.dp_script.specs.{IsGiven, acts_of, below_of, instruction_of, near_of, other_of, single_of, told_of};

use crate::ScriptKind;
use crate::act::Act;
use crate::command::{Command, Message, Single, phrase_read};

/// Computers are 0 to 2.
const COMPUTERS: u8 = 3;
/// Voters are 0 to 11.
const VOTERS: u8 = 12;
/// A coordinate of a place is within this many nanometres of zero.
const FARTHEST: u64 = 1 << 43;
/// A force is within this many newtons of zero.
const STRONGEST: u64 = 1 << 62;
/// Cycles are below 2^20.
const CYCLES: u64 = 1 << 20;

/// The acts that a line gives.
#[derive(Drop)]
pub enum Acts {
    Usual,
    One(Act),
}

/// What a line without a fault of its own says.
#[derive(Drop)]
pub struct Instruction {
    pub cycle: u64,
    pub acts: Acts,
}

/// What a line says that isn't skipped, judged alone.
#[tactic(auto, unfolding(crate::specs::Instructions::instruction_of))]
pub fn instruction_read(line: &[u8]) -> Result<Instruction, ScriptKind>
    ensures value { result ≡ instruction_of line.now }
    ensures within { IfOk result (λ instruction. IsGiven instruction.acts) }
    ensures bound { IfOk result (λ instruction. instruction.cycle < 2 ^ 20) }
{
    let said = phrase_read(line)?;
    let acts = acts_read(said.command)?;
    let cycle = cycle(said.cycle)?;
    Ok(Instruction { cycle, acts })
}

/// The acts of a command whose numbers are within their ranges.
#[tactic(auto, unfolding(crate::specs::Instructions::acts_of))]
fn acts_read(command: Command) -> Result<Acts, ScriptKind>
    ensures { result ≡ acts_of command }
{
    Ok(Acts::One(match command {
        Command::Usual => return Ok(Acts::Usual),
        Command::Order { c, k } => Act::Order {
            c: below(c, COMPUTERS)?,
            k: below(k, VOTERS)?,
        },
        Command::Skew { c, north, east } => Act::Skew {
            c: below(c, COMPUTERS)?,
            at: (near(north, FARTHEST)?, near(east, FARTHEST)?),
        },
        Command::Say { c, k, force } => Act::Say {
            c: below(c, COMPUTERS)?,
            k: below(k, VOTERS)?,
            force: near(force, STRONGEST)?,
        },
        Command::Single { verb, c } => single(verb, below(c, COMPUTERS)?),
        Command::Exchange { a, b, message } => {
            let a = below(a, COMPUTERS)?;
            told(a, other(a, b)?, message)?
        }
    }))
}

/// The act of a verb that names one computer alone.
fn single(verb: Single, c: u8) -> Act
    ensures { result ≡ single_of verb c }
{
    match verb {
        Single::Run => Act::Run { c },
        Single::Orders => Act::Orders { c },
        Single::Stop => Act::Stop { c },
        Single::Restart => Act::Restart { c },
        Single::Upgrade => Act::Upgrade { c },
    }
}

/// The act in which computer `a` tells computer `b`.
#[tactic(auto, unfolding(crate::specs::Instructions::told_of))]
fn told(a: u8, b: u8, message: Message) -> Result<Act, ScriptKind>
    ensures { result ≡ told_of a b message }
{
    Ok(match message {
        Message::Own => Act::Tell { a, b },
        Message::AtRest { north, east } => {
            let at = (near(north, FARTHEST)?, near(east, FARTHEST)?);
            Act::Lie { a, b, at }
        }
        Message::Bytes(bytes) => {
            let bytes = bytes.ok_or(ScriptKind::Range)?;
            Act::Junk { a, b, bytes }
        }
    })
}

/// A number below a limit.
fn below(number: u64, limit: u8) -> Result<u8, ScriptKind>
    ensures value { result ≡ below_of limit number }
    ensures bound { IfOk result (λ n. n < limit) }
{
    if number < u64::from(limit) {
        Ok(number as u8)
    } else {
        Err(ScriptKind::Range)
    }
}

/// Another computer than `a`.
fn other(a: u8, number: u64) -> Result<u8, ScriptKind>
    ensures { result ≡ other_of a number }
{
    if number == u64::from(a) {
        return Err(ScriptKind::Range);
    }
    below(number, COMPUTERS)
}

/// A number at most a limit away from zero.
fn near(number: i64, limit: u64) -> Result<i64, ScriptKind>
    ensures value { result ≡ near_of limit number }
    ensures bound { IfOk result (λ n. unsigned_abs n ≤ limit) }
{
    if number.unsigned_abs() <= limit {
        Ok(number)
    } else {
        Err(ScriptKind::Range)
    }
}

/// A cycle below 2^20.
fn cycle(number: u64) -> Result<u64, ScriptKind>
    ensures value { result ≡ below_of (2 ^ 20) number }
    ensures bound { IfOk result (λ n. n < 2 ^ 20) }
{
    if number < CYCLES {
        Ok(number)
    } else {
        Err(ScriptKind::Range)
    }
}
