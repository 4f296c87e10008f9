//! The fault lines of words, files, scripts and records.
ghost use Rattle.std.specs.Prelude.{◌≡◌, ◌++◌, ◌≤◌, length, codes};
ghost use Rattle.std.specs.Fmt.{decimal};
ghost use Rattle.dp_app.specs.FaultLines.{file_line, file_word, kind_word, line_kind_word, named_line};

use crate::fault::File;
use arrayvec::ArrayVec;
use dp_accept::LINE;
use dp_frame::LineFault;
use dp_script::ScriptKind;
use dp_text::{append, append_decimal};

/// Room for the longest word of a record line's fault.
const WORD: usize = 48;

/// A line that names nothing.
pub fn fixed_line(text: &[u8]) -> ArrayVec<u8, LINE>
    requires { length text.now ≤ 32 }
    ensures { result.items ≡ text.now }
{
    let mut line = ArrayVec::new();
    append(&mut line, text);
    line
}

/// A line that names a file.
pub fn file_line(what: &[u8], file: File) -> ArrayVec<u8, LINE>
    requires { length what.now ≤ 32 }
    ensures { result.items ≡ file_line what.now file }
{
    let mut line = ArrayVec::new();
    append(&mut line, b"fault ");
    append(&mut line, what);
    append(&mut line, b" ");
    append(&mut line, file_word(file));
    append(&mut line, b"\n");
    line
}

/// A line that names a line of a file.
pub fn named_line(file: File, number: u64, kind: &[u8]) -> ArrayVec<u8, LINE>
    requires { length kind.now ≤ 48 }
    ensures { result.items ≡ named_line file number kind.now }
{
    let mut line = ArrayVec::new();
    append(&mut line, b"fault ");
    append(&mut line, file_word(file));
    append(&mut line, b" ");
    append_decimal(&mut line, number);
    append(&mut line, b" ");
    append(&mut line, kind);
    append(&mut line, b"\n");
    line
}

pub fn long_cycles_line(cycle: u64) -> ArrayVec<u8, LINE>
    ensures { result.items ≡ codes "fault long cycles " ++ (decimal cycle ++ codes "\n") }
{
    let mut line = ArrayVec::new();
    append(&mut line, b"fault long cycles ");
    append_decimal(&mut line, cycle);
    append(&mut line, b"\n");
    line
}

fn file_word(file: File) -> &'static [u8]
    ensures word { result.now ≡ file_word file }
    ensures short { length result.now ≤ 6 }
{
    match file {
        File::Plant => b"plant",
        File::Script => b"script",
        File::Record => b"record",
        File::First => b"first",
        File::Second => b"second",
        File::Moves => b"moves",
    }
}

pub fn kind_word(kind: ScriptKind) -> &'static [u8]
    ensures word { result.now ≡ kind_word kind }
    ensures short { length result.now ≤ 6 }
{
    match kind {
        ScriptKind::Verb => b"verb",
        ScriptKind::Number => b"number",
        ScriptKind::Range => b"range",
        ScriptKind::Order => b"order",
    }
}

/// The word of a record line's fault; of a time that falls with the time before and this one.
pub fn line_kind_word(kind: LineFault) -> ArrayVec<u8, WORD>
    ensures word { result.items ≡ line_kind_word kind }
    ensures short { length result.items ≤ 48 }
{
    let mut word = ArrayVec::new();
    match kind {
        LineFault::LongLine => append(&mut word, b"long"),
        LineFault::NoTime => append(&mut word, b"notime"),
        LineFault::BadTime => append(&mut word, b"badtime"),
        LineFault::TimeBack { before, now } => {
            append(&mut word, b"back ");
            append_decimal(&mut word, before);
            append(&mut word, b" ");
            append_decimal(&mut word, now);
        }
        LineFault::NoWire => append(&mut word, b"nowire"),
        LineFault::UnknownWire => append(&mut word, b"unknown"),
    }
    word
}
