//! The script of a replay, which says what acts happen in which cycle, and records that are made of a number.
//!
//! # Scripts
//!
//! A script is a text of lines `CYCLE VERB ARGUMENTS`, the parts separated by one space. A line ends with a line feed, and a carriage
//! return before it is dropped; a last line without a line feed is a line as it stands. A line that is empty or begins with `#` is
//! skipped, however long it is, and counted.
//!
//! | Line | Act, in this cycle |
//! |---|---|
//! | `7 usual` | computers 0, 1 and 2 run, then the orders of 0, 1 and 2 go to all voters: six acts |
//! | `7 run C` | computer C runs |
//! | `7 order C K` | the order of computer C goes to voter K |
//! | `7 orders C` | the order of computer C goes to each voter, in rising order |
//! | `7 tell A B` | computer A tells computer B its state |
//! | `7 skew C NORTH EAST` | computer C goes on from another place, in nanometres |
//! | `7 say C K FORCE` | voter K hears an order of computer C for this cycle with this force, in newtons |
//! | `7 lie A B NORTH EAST` | computer B is told, as if by computer A, A's state at rest at another place, in nanometres |
//! | `7 junk A B HEX` | computer B is told these bytes, as if by computer A |
//! | `7 stop C` | computer C stops |
//! | `7 restart C` | computer C begins anew, without a state, and hears frames from the next cycle on |
//! | `7 upgrade C` | the same, and computer C has version 2 of the software from then on |
//!
//! So `7 skew 1 1000000000 -5` moves computer 1 to one metre north and 5 nm west of the origin in cycle 7.
//!
//! Numbers are decimal, of 1 to 18 digits, with an optional `-` for places and forces only, and no `+`. Cycles are below 2^20,
//! computers 0 to 2, voters 0 to 11; a coordinate is within ±2^43, a force within ±2^62. Where two computers are named, they differ. HEX is
//! 2 to 128 hexadecimal digits in lower case, an even number; two make a byte, so `01ff` are the bytes 1 and 255.
//!
//! The acts of a cycle are those of the lines that name it, in order. A cycle that no line names has the usual six.
//!
//! The first faulty line is named, lines counted from 1. Its fault is the first of these:
//!
//! 1. `Verb`: no verb of the table, a wrong number of parts, or more than 192 bytes.
//! 2. `Number`: a part isn't a number, or HEX has another byte than such a digit.
//! 3. `Range`: a number is outside its range, A and B are equal, HEX has a wrong length, or 2^16 lines before it weren't skipped.
//! 4. `Order`: the cycle is less than that of the last line before it that wasn't skipped.
//!
//! `specs/` has this as definitions on the whole text: what a line says (`Commands`, `Instructions`), the first faulty line, each judged with
//! the lines before it (`Faults`), and the acts of a cycle (`TimedActs`). [`laws`] says that what is read of a line is what the line was
//! written from (`Written`). `Script::of` reads the bytes once; `len` and `act` search for the
//! cycle and take no memory.
//!
//! # Made records
//!
//! A number makes a record of 3600 seconds, as an input of full length that is the same each time. [`Maker`] gives it line by line, and
//! [`make`] writes it to a sink. Each second has nine lines, here those of second 0 of the record of 0:
//!
//! ```text
//! 0 pos0 L -477 -254                          places, each coordinate from -500 to 500 mm
//! 0 pos1 L -186 -8
//! 0 pos2 L -382 158
//! 0 gyro0 $HEHDT,000.4,T*2B                   headings from 0 to 0.9 degrees
//! 0 gyro1 $HEHDT,000.5,T*2A
//! 0 gyro2 $HEHDT,000.4,T*2B
//! 0 wind0 $WIMWV,045.0,R,09.0,M,A*18          wind at 45 degrees, from 0 to 9 m/s
//! 0 wind1 $WIMWV,045.0,R,03.0,M,A*12
//! 0 wind2 $WIMWV,045.0,R,02.0,M,A*13
//! ```
//!
//! What changes is drawn from a generator of 64 bits (Knuth's MMIX multiplier and increment), whose state begins with the number
//! (`specs/Generator`). `specs/Made` defines the record. That [`Maker`] gives exactly its lines, and [`make`] writes exactly its text, or
//! a prefix of it where it answers a trouble, is proved. A line takes no memory.
#![tactic(auto)]

mod act;
mod command;
mod draft;
mod fault;
mod generator;
mod hexadecimal;
mod instruction;
pub mod laws;
mod made_line;
mod maker;
mod script;
mod timed_act;
mod usual;

pub use act::{Act, P2};
pub use fault::{ScriptFault, ScriptKind};
pub use maker::{Maker, make};
pub use script::Script;
