//! The spelling of a machine's state as bytes, by which computers exchange their states.
//!
//! A state has one spelling in each of two versions. Both begin with a mark of four bytes, `DPS1` or `DPS2`. Spelling 2 has the whole
//! length next, in four bytes. Then come the parts, of which `specs/Parts` is the one table, for reading and for writing: the count, the
//! plane, yaw, the bases of heading and wind, the mask of lost groups, the window of each reference and the last demands. Numbers stand
//! with the highest byte first, signed ones in two's complement. Spelling 2 always has the plane's wave states, spelling 1 only for a
//! plant with a wave filter. Software 1 writes and reads spelling 1; software 2 writes spelling 2, and reads both.
//!
//! [`write_state`] writes the spelling of a machine's state, [`write_at`] that of the state with its plane at rest at a place.
//! [`read_state`] answers Ok exactly for the spellings of states of the machine's plant, as far as its software knows the version, and
//! the machine then has that state. Else it names the offset of the first part that is missing, wrong or out of range, and the machine
//! is as before. The plane's form V is judged right after the plane, and its fault is at the plane's first part (12, in spelling 2 16);
//! a wrong length is at 4. [`laws`] says that what is written is read, and that spellings keep states apart.
//!
//! The shortest spelling has 121 bytes, the longest 3133. No call takes memory.
#![tactic(auto)]

pub mod laws;
mod numbers;
mod reading;
mod states;
mod writing;

pub use states::{NotState, read_state, write_at, write_state};
