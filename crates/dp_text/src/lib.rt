//! Text that every format shares: lines, parts between spaces, and decimal numbers, read and printed.
//!
//! Each is one definition in `specs/`: a text's lines are its pieces between line feeds, a carriage return before a line feed dropped;
//! a number has 1 to 18 decimal digits and, where negative values are allowed, an optional `-` in front; a number is printed as
//! std prints it. Reading takes no memory and answers slices of the text; printing appends to a buffer of fixed capacity.
#![tactic(auto)]

pub mod laws;
mod lines;
mod numbers;
mod parts;
mod printing;
mod repeated;
mod spelling;

pub use lines::next_line;
pub use numbers::{decimal, number};
pub use parts::{cut, split_parts};
pub use printing::{append, append_decimal, append_number, append_wide};
pub use repeated::append_four_times;
