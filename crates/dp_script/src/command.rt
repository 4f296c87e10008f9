ghost use Rattle.std.specs.Prelude.{◌≡◌, map};
ghost use Rattle.dp_script.specs.declared.command.Exchange.TheVariants.{Tell, Lie, Junk};
ghost use Rattle.dp_text.specs.{texts_of};
ghost use Rattle.dp_script.specs.{command_of, exchange_of, message_of, phrase_of, phrase_of_parts, signed_of, verb_of, whole_of};

use crate::ScriptKind;
use crate::hexadecimal::{MOST, bytes_read};
use arrayvec::ArrayVec;
use dp_text::{decimal, number, split_parts};

/// The most bytes of a line.
const LONGEST: usize = 192;

/// Room for the parts of a line: no verb has more than four arguments.
const PARTS: usize = 6;

/// A verb of the table.
#[derive(Clone, Copy)]
pub enum Verb {
    Usual,
    Order,
    Skew,
    Say,
    Single(Single),
    Exchange(Exchange),
}

/// A verb that names one computer and nothing else.
#[derive(Clone, Copy)]
pub enum Single {
    Run,
    Orders,
    Stop,
    Restart,
    Upgrade,
}

/// A verb by which one computer tells another something.
#[derive(Clone, Copy)]
pub enum Exchange {
    Tell,
    Lie,
    Junk,
}

/// What one computer is to tell another.
#[derive(Drop)]
pub enum Message {
    /// Its state.
    Own,
    /// Its state at rest at a place.
    AtRest { north: i64, east: i64 },
    /// These bytes; none where their number isn't within its range.
    Bytes(Option<ArrayVec<u8, MOST>>),
}

/// A verb with its numbers as they stand in the line.
#[derive(Drop)]
pub enum Command {
    Usual,
    Order { c: u64, k: u64 },
    Skew { c: u64, north: i64, east: i64 },
    Say { c: u64, k: u64, force: i64 },
    Single { verb: Single, c: u64 },
    Exchange { a: u64, b: u64, message: Message },
}

/// What a line says, before any number's range is looked at.
#[derive(Drop)]
pub struct Phrase {
    pub cycle: u64,
    pub command: Command,
}

/// What a line says, before any number's range is looked at.
#[tactic(auto, unfolding(crate::specs::Commands::phrase_of))]
pub fn phrase_read(line: &[u8]) -> Result<Phrase, ScriptKind>
    ensures { result ≡ phrase_of line.now }
{
    if line.len() > LONGEST {
        return Err(ScriptKind::Verb);
    }
    let Some(parts) = split_parts::<PARTS>(line) else {
        return Err(ScriptKind::Verb);
    };
    parts_read(parts.as_slice())
}

/// What the parts of a line say.
#[tactic(auto, unfolding(crate::specs::Commands::phrase_of_parts))]
fn parts_read(parts: &[&[u8]]) -> Result<Phrase, ScriptKind>
    ensures { result ≡ phrase_of_parts (texts_of parts.now) }
{
    let [cycle, word, arguments @ ..] = parts else {
        return Err(ScriptKind::Verb);
    };
    let verb = verb_named(word).ok_or(ScriptKind::Verb)?;
    let command = command_read(verb, arguments)?;
    let cycle = whole(cycle)?;
    Ok(Phrase { cycle, command })
}

/// The verb of a word.
fn verb_named(word: &[u8]) -> Option<Verb>
    ensures { result ≡ verb_of word.now }
{
    if word == b"usual".as_slice() {
        Some(Verb::Usual)
    } else if word == b"run".as_slice() {
        Some(Verb::Single(Single::Run))
    } else if word == b"order".as_slice() {
        Some(Verb::Order)
    } else if word == b"orders".as_slice() {
        Some(Verb::Single(Single::Orders))
    } else if word == b"tell".as_slice() {
        Some(Verb::Exchange(Exchange::Tell))
    } else if word == b"skew".as_slice() {
        Some(Verb::Skew)
    } else if word == b"say".as_slice() {
        Some(Verb::Say)
    } else if word == b"lie".as_slice() {
        Some(Verb::Exchange(Exchange::Lie))
    } else if word == b"junk".as_slice() {
        Some(Verb::Exchange(Exchange::Junk))
    } else if word == b"stop".as_slice() {
        Some(Verb::Single(Single::Stop))
    } else if word == b"restart".as_slice() {
        Some(Verb::Single(Single::Restart))
    } else if word == b"upgrade".as_slice() {
        Some(Verb::Single(Single::Upgrade))
    } else {
        None
    }
}

/// What a verb says with its arguments.
#[tactic(auto, unfolding(crate::specs::Commands::command_of))]
fn command_read(verb: Verb, arguments: &[&[u8]]) -> Result<Command, ScriptKind>
    ensures { result ≡ command_of verb (texts_of arguments.now) }
{
    Ok(match (verb, arguments) {
        (Verb::Usual, []) => Command::Usual,
        (Verb::Order, [c, k]) => Command::Order {
            c: whole(c)?,
            k: whole(k)?,
        },
        (Verb::Skew, [c, north, east]) => Command::Skew {
            c: whole(c)?,
            north: signed(north)?,
            east: signed(east)?,
        },
        (Verb::Say, [c, k, force]) => Command::Say {
            c: whole(c)?,
            k: whole(k)?,
            force: signed(force)?,
        },
        (Verb::Single(verb), [c]) => Command::Single { verb, c: whole(c)? },
        (Verb::Exchange(verb), _) => return exchange_read(verb, arguments),
        _ => return Err(ScriptKind::Verb),
    })
}

/// What a verb that names two computers says with its arguments.
#[tactic(auto, unfolding(crate::specs::Commands::exchange_of))]
fn exchange_read(verb: Exchange, arguments: &[&[u8]]) -> Result<Command, ScriptKind>
    ensures { result ≡ exchange_of verb (texts_of arguments.now) }
{
    let [a, b, rest @ ..] = arguments else {
        return Err(ScriptKind::Verb);
    };
    let message = message_read(verb, rest)?;
    let a = whole(a)?;
    let b = whole(b)?;
    Ok(Command::Exchange { a, b, message })
}

/// What a verb has one computer tell another, with the arguments that follow the two.
fn message_read(verb: Exchange, arguments: &[&[u8]]) -> Result<Message, ScriptKind>
    ensures { result ≡ message_of verb (texts_of arguments.now) }
{
    match verb {
        Exchange::Tell => own_read(arguments),
        Exchange::Lie => at_rest_read(arguments),
        Exchange::Junk => junk_read(arguments),
    }
}

/// `tell` has no further arguments.
#[tactic(auto, unfolding(crate::specs::Commands::message_of))]
fn own_read(arguments: &[&[u8]]) -> Result<Message, ScriptKind>
    ensures { result ≡ message_of Tell (texts_of arguments.now) }
{
    if arguments.is_empty() {
        Ok(Message::Own)
    } else {
        Err(ScriptKind::Verb)
    }
}

/// `lie` has a place.
#[tactic(auto, unfolding(crate::specs::Commands::message_of))]
fn at_rest_read(arguments: &[&[u8]]) -> Result<Message, ScriptKind>
    ensures { result ≡ message_of Lie (texts_of arguments.now) }
{
    let [north, east] = arguments else {
        return Err(ScriptKind::Verb);
    };
    let north = signed(north)?;
    let east = signed(east)?;
    Ok(Message::AtRest { north, east })
}

/// `junk` has hexadecimal text.
#[tactic(auto, unfolding(crate::specs::Commands::message_of))]
fn junk_read(arguments: &[&[u8]]) -> Result<Message, ScriptKind>
    ensures { result ≡ message_of Junk (texts_of arguments.now) }
{
    let [text] = arguments else {
        return Err(ScriptKind::Verb);
    };
    Ok(Message::Bytes(bytes_read(text)?))
}

/// A number without a sign.
fn whole(text: &[u8]) -> Result<u64, ScriptKind>
    ensures { result ≡ whole_of text.now }
{
    decimal(text, 18).ok_or(ScriptKind::Number)
}

/// A number that may be below zero.
fn signed(text: &[u8]) -> Result<i64, ScriptKind>
    ensures { result ≡ signed_of text.now }
{
    number(text).ok_or(ScriptKind::Number)
}
