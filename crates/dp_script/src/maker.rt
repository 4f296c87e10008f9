//! The record that is made of a number.
ghost use Rattle.std.specs.Prelude.{◌≡◌, ◌∷◌, [], MatchBool, OnOk, OnErr};
ghost use Rattle.std.specs.Bool.{OnFalse};
ghost use Rattle.std.specs.Io.KnownBytes.{Appends};
ghost use Rattle.dp_shell.specs.{AppendsCut, HasWriteCause};
ghost use Rattle.dp_script.specs.{made, made_lines};

use crate::generator::Generator;
use crate::made_line::{LINE, write_line};
use arrayvec::ArrayVec;
use dp_shell::{Sink, Trouble, write_all};
use std::marker::Model;

/// How many lines the record has: nine in each of 3600 seconds.
const LINES: u64 = 32_400;

/// Makes the record of a number, line by line. A contract sees a maker as the list of the lines that it still gives.
#[derive(Drop)]
pub struct Maker {
    given: u64,
    generator: Generator,
}

impl Model for Maker {
    ghost use Rattle.std.specs.Prelude.{ℕ, List, ◌≤◌};
    ghost use Rattle.dp_script.specs.Left.{lines_left};

    ghost Value = { List (List ℕ) };

    ghost view = { λ m. lines_left m.given m.generator.state };

    ghost invariant = { λ m. m.given ≤ 32400 };
}

impl Maker {
    /// A maker that gives all lines of the record of a number.
    pub fn new(number: u32) -> Maker
        ensures { result ≡ made_lines number }
    {
        Maker {
            given: 0,
            generator: Generator {
                state: u64::from(number),
            },
        }
    }

    /// Replaces the content by the next line, with its line feed; false, and nothing changes, after the last one.
    pub fn next_line(&mut self, into: &mut ArrayVec<u8, LINE>) -> bool
        ensures next { MatchBool result (self.old ≡ into.new.items ∷ self.new) (self.old ≡ []) }
        ensures end { OnFalse result (self.new ≡ self.old) }
        ensures content { OnFalse result (into.new.items ≡ into.old.items) }
    {
        if self.given == LINES {
            return false;
        }
        write_line(into, self.given / 9, self.given % 9, &mut self.generator);
        self.given += 1;
        true
    }
}

/// Writes the record of a number. After a trouble a prefix of it was taken, and not all of it.
pub fn make<K: Sink>(number: u32, out: &mut K) -> Result<(), Trouble>
    ensures ok { OnOk result (Appends (K.taken out.old) (K.taken out.new) (made number)) }
    ensures err { OnErr result (AppendsCut (K.taken out.old) (K.taken out.new) (made number)) }
    ensures cause { HasWriteCause (K.faults out.old) (K.faults out.new) result }
{
    let mut maker = Maker::new(number);
    let mut line = ArrayVec::new();
    while maker.next_line(&mut line) {
        write_all(out, &line)?;
    }
    Ok(())
}
