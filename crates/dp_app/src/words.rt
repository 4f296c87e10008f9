//! The command that words ask for.
ghost use Rattle.std.specs.Prelude.{◌≡◌, option_map};
ghost use Rattle.dp_shell.specs.{texts_of};
ghost use Rattle.dp_app.specs.Words.{GivesCommand, command_by, command_in, cycles_number, limit_number, record_number, shown_command, with_four, with_one, with_three, with_two};

use crate::command_line::{WordsFault, words_of};
use dp_text::decimal;
use std::alloc::Global;

/// The most digits of a record's number, and of a limit.
const DIGITS: usize = 10;

/// The most digits of a number of cycles.
const CYCLES_DIGITS: usize = 7;

/// A command, with the names of its files.
#[derive(Clone, Copy, Debug)]
pub enum Command<'a> {
    /// Replays a record on a plant's three computers, with the faults that a script says.
    Replay {
        plant: &'a str,
        record: &'a str,
        script: &'a str,
    },
    /// Tells how far a bad position reference can move each thruster of a plant.
    Check {
        plant: &'a str,
    },
    /// Writes the record that is made of a number.
    Make {
        number: u32,
    },
    /// Replays that record on a plant, and sums it up.
    Trial {
        plant: &'a str,
        number: u32,
    },
    /// Tells how far the loss of each further group would let the vessel drift at the end of a record: the limit in millimetres, and
    /// the number of cycles that are looked at.
    Drift {
        plant: &'a str,
        record: &'a str,
        limit: u32,
        cycles: u32,
    },
}

/// The command of a command line, unless its words are no command.
#[tactic(auto, unfolding(crate::specs::Words::command_in))]
pub fn command_in<'a>(alloc: Global, words: &'a [&'a str]) -> Result<Command<'a>, WordsFault>
    ensures { GivesCommand result (command_in (texts_of words.entry.now)) }
{
    let words = words_of(alloc, words)?;
    command_by(&words).ok_or(WordsFault::Usage)
}

/// The command of these words: a verb, and the names of its files.
#[tactic(auto, unfolding(crate::specs::Words::command_by))]
fn command_by<'a>(words: &[&'a str]) -> Option<Command<'a>>
    ensures { option_map shown_command result ≡ command_by (texts_of words.now) }
{
    if words.len() == 2 {
        return with_one(words[0], words[1]);
    }
    if words.len() == 3 {
        return with_two(words[0], words[1], words[2]);
    }
    if words.len() == 4 {
        return with_three(words[0], words[1], words[2], words[3]);
    }
    if words.len() == 5 {
        return with_four(words[0], words[1], words[2], words[3], words[4]);
    }
    None
}

fn with_one<'a>(verb: &str, word: &'a str) -> Option<Command<'a>>
    ensures { option_map shown_command result ≡ with_one verb.now word.now }
{
    if verb == "check" {
        return Some(Command::Check { plant: word });
    }
    if verb == "make" {
        return Some(Command::Make {
            number: number_of(word)?,
        });
    }
    None
}

fn with_two<'a>(verb: &str, plant: &'a str, word: &str) -> Option<Command<'a>>
    ensures { option_map shown_command result ≡ with_two verb.now plant.now word.now }
{
    if verb == "trial" {
        return Some(Command::Trial {
            plant,
            number: number_of(word)?,
        });
    }
    None
}

fn with_three<'a>(
    verb: &str,
    plant: &'a str,
    record_name: &'a str,
    script: &'a str,
) -> Option<Command<'a>>
    ensures { option_map shown_command result
        ≡ with_three verb.now plant.now record_name.now script.now }
{
    if verb == "replay" {
        return Some(Command::Replay {
            plant,
            record: record_name,
            script,
        });
    }
    None
}

fn with_four<'a>(
    verb: &str,
    plant: &'a str,
    record_name: &'a str,
    limit: &str,
    cycles: &str,
) -> Option<Command<'a>>
    ensures { option_map shown_command result
        ≡ with_four verb.now plant.now record_name.now limit.now cycles.now }
{
    if verb == "drift" {
        return Some(Command::Drift {
            plant,
            record: record_name,
            limit: limit_of(limit)?,
            cycles: cycles_of(cycles)?,
        });
    }
    None
}

/// A limit of drift in millimetres: 1 to 10 decimal digits, and at most 1000 km.
#[tactic(auto, unfolding(crate::specs::Words::limit_number))]
fn limit_of(word: &str) -> Option<u32>
    ensures { result ≡ limit_number word.now }
{
    let limit = decimal(word.as_bytes(), DIGITS)?;
    if limit <= 1_000_000_000 {
        Some(limit as u32)
    } else {
        None
    }
}

/// A number of cycles: 1 to 7 decimal digits, from 1 to 2^20.
#[tactic(auto, unfolding(crate::specs::Words::cycles_number))]
fn cycles_of(word: &str) -> Option<u32>
    ensures { result ≡ cycles_number word.now }
{
    let cycles = decimal(word.as_bytes(), CYCLES_DIGITS)?;
    if 1 <= cycles && cycles <= 1 << 20 {
        Some(cycles as u32)
    } else {
        None
    }
}

/// The number of a record: 1 to 10 decimal digits, and at most 4294967295.
#[tactic(auto, unfolding(crate::specs::Words::record_number))]
fn number_of(word: &str) -> Option<u32>
    ensures { result ≡ record_number word.now }
{
    let number = decimal(word.as_bytes(), DIGITS)?;
    if number <= u64::from(u32::MAX) {
        Some(number as u32)
    } else {
        None
    }
}
