//! What the programs of this repository meet outside: named texts to read, and a sink to write to.
//!
//! A [`Shelf`] holds texts under names, and a [`Sink`] takes bytes. A generic function over them is
//! proved against what the two traits promise, so its contract can say what was read and written,
//! and that a fault is answered only where a failure was counted.
//!
//! - [`PlainShelf`] and [`PlainSink`] keep their bytes in memory and fail by no fault of their own.
//! - [`MemoryShelf`] and [`MemorySink`] do the same and fail at the calls whose numbers they are given, so that a test can have each
//! - [`FileShelf`] and [`StdSink`] are real files and standard output. They tell nothing of content: what a file holds, and what
//! - [`read_whole`] reads a text to its end or up to a limit of bytes, [`next_piece`] reads one as a stream, and [`write_all`] writes
//!
//! Failures are counted in a number that never falls and stays at 2^64 - 1 once it is there.
//! `Failed` is answered only where the number of the name, or of the sink, rose in that call, or
//! stands at 2^64 - 1. Want of memory is an answer of its own, and needs no cause.
#![tactic(auto)]

mod file_shelf;
mod memory_files;
mod memory_shelf;
mod memory_sink;
mod pieces;
mod plain_shelf;
mod plain_sink;
mod reading;
mod settling;
mod shelf;
mod sink;
mod std_sink;
mod writing;

pub use file_shelf::FileShelf;
pub use memory_files::fits_shelf;
pub use memory_shelf::MemoryShelf;
pub use memory_sink::MemorySink;
pub use pieces::{Piece, next_piece};
pub use plain_shelf::PlainShelf;
pub use plain_sink::PlainSink;
pub use reading::{FilePart, ReadTrouble, read_whole};
pub use shelf::{Failed, Shelf};
pub use sink::{Sink, Trouble};
pub use std_sink::StdSink;
pub use writing::write_all;
