//! The words of a command line, read with `clap` as one simple command: a word that has to be there, and any number of others.
ghost use Rattle.std.specs.Prelude.{◌≡◌, ◌<◌, [], length, Some, None, IfOk, option_map};
ghost use Rattle.std.specs.Option.{option_to_list};
ghost use Rattle.clap.specs.Words.{app_of, found_of, rows_of};
ghost use Rattle.dp_shell.specs.{texts_of};
ghost use Rattle.dp_app.specs.CommandLine.{ArePlainWords, GivesWords, dp, read_words, words_found};
ghost use Rattle.dp_app.specs.declared.command_line.WordsFault.TheVariants.{Memory, Usage};

use clap::error::ErrorKind;
use clap::{Arg, ArgMatches, Command};
use std::alloc::{AllocError, AllocFailed, Global};

/// Why there are no words.
#[derive(Debug, Drop)]
pub enum WordsFault {
    /// The words are no command line.
    Usage,
    Memory,
}

impl From<AllocError> for WordsFault {
    ghost from_gives = { λ _ e. e ≡ Memory };

    fn from(_e: AllocError) -> WordsFault {
        WordsFault::Memory
    }
}

impl<T: Drop> From<AllocFailed<T>> for WordsFault {
    ghost from_gives = { λ _ e. e ≡ Memory };

    fn from(_e: AllocFailed<T>) -> WordsFault {
        WordsFault::Memory
    }
}

/// The words, the first one first: where none begins with a hyphen as they stand, and others as `clap` reads the simple command.
///
/// All that `clap` refuses but for want of memory is no command line, a request for help among it.
pub fn words_of<'a>(alloc: Global, words: &'a [&'a str]) -> Result<Vec<&'a str>, WordsFault>
    ensures exact { GivesWords result (read_words (texts_of words.entry.now)) }
    ensures plain { 0 < length words.entry.now
        → ArePlainWords (texts_of words.entry.now)
        → GivesWords result (Some (texts_of words.entry.now)) }
    ensures none { words.entry.now ≡ [] → GivesWords result None }
{
    // The proof of `plain` takes from here that the number of words fits.
    let length = words.len();
    prove!(length <= usize::MAX);
    read(alloc, words)
}

fn read<'a>(alloc: Global, words: &'a [&'a str]) -> Result<Vec<&'a str>, WordsFault>
    ensures { GivesWords result (read_words (texts_of words.entry.now)) }
{
    let command = simple_command(alloc)?;
    let matches = match command.try_get_matches_from(words) {
        Ok(matches) => matches,
        Err(error) => return Err(refusal_of(error.kind())),
    };
    let all = words_found(alloc, &matches)?;
    Ok(all)
}

/// The simple command.
fn simple_command<'a>(alloc: Global) -> Result<Command<'a>, AllocError>
    ensures { IfOk result (λ c. app_of c ≡ dp) }
{
    let first = Arg::new(alloc, "command").required(true);
    let rest = Arg::new(alloc, "rest").num_args(0..);
    let command = Command::new(alloc, "dp")
        .no_binary_name(true)
        .disable_help_flag(true);
    command.arg(first)?.arg(rest)
}

fn refusal_of(kind: ErrorKind) -> WordsFault
    ensures memory { kind ≡ ErrorKind.OutOfMemory → result ≡ Memory }
    ensures usage { (kind ≡ ErrorKind.OutOfMemory → ⊥) → result ≡ Usage }
{
    if kind == ErrorKind::OutOfMemory {
        WordsFault::Memory
    } else {
        WordsFault::Usage
    }
}

/// The words that were found, the first one first.
#[tactic(auto, using(crate::proofs::ReadWords::found))]
fn words_found<'a>(alloc: Global, matches: &ArgMatches<'a>) -> Result<Vec<&'a str>, AllocError>
    ensures { IfOk result (λ v. texts_of v.items ≡ words_found (rows_of (found_of matches.now))) }
{
    let mut all = listed(alloc, matches.get_str("command"))?;
    match matches.get_strs("rest") {
        Some(rest) => {
            all.extend_from_slice(rest)?;
            Ok(all)
        }
        None => Ok(all),
    }
}

/// A list of the word, if there is one.
fn listed<'a>(alloc: Global, word: Option<&'a str>) -> Result<Vec<&'a str>, AllocError>
    ensures { IfOk result (λ v. texts_of v.items
        ≡ option_to_list (option_map (λ s. s.now) word.entry)) }
{
    match word {
        Some(word) => {
            let mut one = Vec::new(alloc);
            one.push(word)?;
            Ok(one)
        }
        None => Ok(Vec::new(alloc)),
    }
}
