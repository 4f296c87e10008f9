//! The readings of a record's lines: what a sentence of IEC 61162-1, or a plain form, says on the wire that it came on.
//!
//! [`sensed`] reads a sentence that [`dp_sentence::read`] took for sound. Four formatters are read, each on one kind of wire; any
//! other sentence is [`Skip::OtherFormatter`].
//!
//! | Formatter | Wire | Gives | Its fields, in the order in which they are checked |
//! |---|---|---|---|
//! | GGA | position | [`Reading::Fix`] | 6 quality, 2 latitude, 3 `N` or `S`, 4 longitude, 5 `E` or `W` |
//! | HDT | gyro | [`Reading::Heading`] | 1 heading, 2 `T` |
//! | THS | gyro | [`Reading::Heading`] | 2 mode, 1 heading |
//! | MWV | wind | [`Reading::Wind`] | 5 status, 2 `R`, 1 angle, 3 speed, 4 unit, and then the range of the speed, as field 3 |
//!
//! Data fields are numbered from 1 after the address. The first check that fails names the reason: a field that is missing, not of its form
//! or out of its range is [`Skip::BadField`] with its number, and data that the sender calls invalid are [`Skip::NotValid`]. Fields that are
//! not named are not read, so there may be more of them, or fewer.
//!
//! [`sensed_first`] says the same of a sentence's formatter and its first [`FIELDS_READ`] fields.
//!
//! [`plain`] reads this project's own plain forms, which begin with `L` or `G`; on any other kind of wire each is [`Skip::OtherFormatter`].
//! Parts are separated by one space.
//!
//! - `L NORTH EAST` on a position wire is [`Reading::Local`], the numbers in millimetres. `BadField` has 1 where `L` is followed by another
//!   byte than a space, 1 or 2 where that part is missing, no number of 1 to 18 digits with an optional `-`, or outside ±8796093, and 3
//!   where more follows.
//! - `G 1` and `G 0` on the wire of a group are [`Reading::Group`], ready and lost. `BadField` has 1 for anything else after `G`.
//!
//! # What is proved
//!
//! Each call gives exactly what its definition says of all lines (`value`): `specs/Sensed`, `Gga`, `Hdt`, `Ths` and `Mwv` for sentences,
//! `specs/Plain` for plain forms. What it gives is within the ranges of [`Reading`] (`within`, `specs/ReadingRanges`). No call takes memory.
//! [`laws`] says of a fix that it is the place that the fields name, and of a place that it is read (`specs/Named`).
//!
//! # How to read another formatter
//!
//! Write its fields into a file of its own, as `gga.rt` with `specs/Gga`, and give it a case in [`sensed`] and in `specs/Sensed`.
#![tactic(auto)]

mod angles;
mod decimals;
mod fields;
mod gga;
mod hdt;
pub mod laws;
mod mwv;
mod plain_forms;
mod reading;
mod sensing;
mod ths;
mod turns;

pub use plain_forms::plain;
pub use reading::{Reading, Skip, WireKind};
pub use sensing::{FIELDS_READ, sensed, sensed_first};
