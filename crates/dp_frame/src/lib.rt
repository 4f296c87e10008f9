//! A record of sensor lines, read piece by piece or byte by byte into frames, and the local frame that places are read in.
//!
//! A record is a text of lines `TIME WIRE REST`, the parts separated by one space, with times in milliseconds that never fall. A line
//! ends with a line feed, and a carriage return before it is dropped; a last line without a line feed is a line as it stands. An empty
//! line is skipped and counted.
//!
//! ```text
//! 0 pos0 $GPGGA,123519,4807.038,N,01131.000,E,1,08,0.9,545.4,M,46.9,M,,*47
//! 0 pos1 L 1000 -250
//! 1000 grp2 G 0
//! ```
//!
//! The wires are pos0 to pos2, gyro0 to gyro2, wind0 to wind2, and grp0 on for the plant's groups. What stands after the wire is a plain form
//! where it begins with `L` or `G` ([`dp_nav::plain`]), and else a sentence ([`dp_sentence::read_first`], [`dp_nav::sensed_first`]). A line
//! that is no sentence is damage of its wire; a sound line that gives no reading, or a fix outside the local frame, is skipped.
//!
//! Cycle n has the lines with a time of n cycles up to, but not including, n + 1. Its [`dp_plant::Frame`] holds for each wire the last
//! reading, the number of damaged lines and the number of skipped ones; one wire's lines never count on another. A cycle without lines
//! between two others has an empty frame.
//!
//! A record is read up to the first line that can't be taken, by the first of these, lines counted from 1:
//!
//! 1. [`LineFault::LongLine`]: more than 192 bytes.
//! 2. [`LineFault::NoTime`]: the first byte is no digit.
//! 3. [`LineFault::BadTime`]: more than 15 digits, or no space after them.
//! 4. [`LineFault::TimeBack`]: the time is before that of the last line that isn't empty.
//! 5. [`LineFault::NoWire`]: nothing, or another space, after that space.
//! 6. [`LineFault::UnknownWire`]: what follows, up to the next space or the end, names no wire of the plant.
//! 7. [`Feed::TooMany`]: none of these, and a cycle of 2^20 or more.
//!
//! # What is proved
//!
//! The definitions of `specs/` speak of the whole text: its lines, each judged with those before it, and frames that are filtered out of
//! all good lines (`Record`, `Line`, `Frames`). A [`Lines`] keeps no text but the first 193 bytes of the line that hasn't ended; it
//! represents a text where what it keeps is what the definitions say of that text (`Represents`). After [`Lines::new`] it represents the
//! empty text, after [`Lines::feed`] each text that it represented with this byte behind it, and each answer is the definitions' answer.
//! [`Lines::feed_piece`] takes many bytes at once, up to the first that brings something, and answers what `feed` would to the last of them.
//! Closed frames are in range. [`laws`] says what follows: the frames that the answers give are those of the whole record in order, however
//! it goes on, the line that is named is the first, and a line is judged by the time, the wire and the rest that it was written from (`Told`).
//!
//! [`Origin`] is the origin of the local frame, and [`Origin::local`] the place of a latitude and a longitude in it (`LocalFrame`).
//!
//! Not proved: that no call takes memory, and that each byte is looked at a fixed number of times.
#![tactic(auto)]

mod contents;
mod entry;
mod fault;
mod feed;
mod frames;
mod judging;
pub mod laws;
mod lines;
mod origin;
mod progress;
mod settings;
mod wires;

pub use fault::{LineFault, Refusal};
pub use feed::{Ended, Fed, Feed, Phase};
pub use frames::empty_frame;
pub use lines::Lines;
pub use origin::Origin;
