//! Reads one sentence of IEC 61162-1, the standard for messages between navigation devices on board.
//!
//! # The form of a sentence
//!
//! ```text
//! $GPGGA,123519,4807.038,N,01131.000,E,1,08,0.9,545.4,M,46.9,M,,*47
//! ```
//!
//! - **Sentence structure**: `$`, the address field, the data fields with a comma before each, `*`, and the checksum field.
//!   All characters are printable, of codes 32 to 126.
//! - **Address field**: here `GPGGA`, a talker identifier of two characters, `GP`, and a sentence formatter of three, `GGA`.
//!   `P` is kept for proprietary sentences, so an address that begins with it, or that has not five characters, is taken whole as the talker, and the
//!   formatter is empty.
//! - **Data fields**: here 14 of them. A null field has no characters, as the last one of these. What the fields mean is left to the caller.
//! - **Checksum field**: two hexadecimal digits, the first of them the higher, which say the exclusive-or of all bytes between `$` and `*`.
//!
//! # What is this project's own, and not the standard's
//!
//! - A line of up to 160 bytes is accepted, where the standard's longest sentence has 82 characters.
//! - At most 24 data fields are accepted.
//! - The digits of the checksum field may be in lower case, and the field has to be there.
//! - The line comes without its end: a CR or an LF in it is a bad byte.
//! - An address may be of any length, none too, and of any printable characters; `*`, `$` and the other reserved characters may stand in a field.
//!   So `$*00` is a sentence, with an empty talker and no data fields.
//! - Sentences that begin with `!`, tag blocks and escaped characters are not read.
//!
//! # What is proved, and what is not
//!
//! [`read`] gives a sentence exactly where the line is one, and else exactly the first [`Damage`] in their order, with its numbers.
//! What it gives are slices of the line, which stand in it one after another.
//! [`read_first`] does the same and keeps the first data fields alone.
//! [`laws`] has what follows for every line: a sentence written back is its line but for the case of the two digits, and a sentence
//! with one byte of its body changed is none.
//!
//! Not proved: that `read` takes no memory and looks at each byte three times at most.
#![tactic(auto)]

mod address;
mod checksum;
mod fields;
pub mod laws;
mod looking;
mod reading;

use arrayvec::ArrayVec;
pub use reading::{read, read_first};

/// What is wrong with a line, in the order of the checks: the first that holds is reported.
#[derive(Clone, Copy, Debug, PartialEq, Eq)]
pub enum Damage {
    /// The line has more than 160 bytes; `length` is how many it has.
    TooLong { length: usize },
    /// The line is empty, or its first byte is not `$`.
    NoStart,
    /// A byte is not from 32 to 126; `place` is the index of the first such byte.
    BadByte { place: usize },
    /// The line has fewer than 4 bytes, or its last three are not `*` and two hexadecimal digits.
    NoSum,
    /// The two digits are `said`, and the exclusive-or of the body's bytes is `found`, another number.
    BadSum { said: u8, found: u8 },
    /// More than 24 data fields follow the address.
    TooManyFields,
}

/// The address of a sentence, as slices of its line.
#[derive(Clone, Copy)]
pub struct AddressField<'a> {
    /// As in [`Sentence`].
    pub talker: &'a [u8],
    /// As in [`Sentence`].
    pub formatter: &'a [u8],
}

/// A sentence, as slices of its line.
#[derive(Drop)]
pub struct Sentence<'a> {
    /// The talker identifier: the first two characters of an address of five that does not begin with `P`,
    /// and of any other address the whole.
    pub talker: &'a [u8],
    /// The sentence formatter: the last three characters of an address of five that does not begin with `P`,
    /// and of any other address nothing.
    pub formatter: &'a [u8],
    /// The data fields in their order, a null field as an empty slice.
    pub fields: ArrayVec<&'a [u8], 24>,
}
