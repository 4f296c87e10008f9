//! The text of one cycle of output, and which alarms the computers agree on.
//!
//! A [`Block`] is what a cycle's text tells: how each of the three computers takes part, what each thruster is given, which orders that was
//! voted on, and what is warned of. [`write_block`] writes it as lines that end with a line feed, their parts separated by one space:
//!
//! ```text
//! cycle N MMM
//! tK X FORCE O0 O1 O2
//! alarm WORDS
//! ```
//!
//! The first line has the cycle and a letter for each computer: `L` live, `A` aligning, `O` off. Then each thruster has a line, numbered
//! from 0: `X` is `F` for a fresh ballot, `H` for a held one and `Z` for none, `FORCE` the voted force in newtons (0 at `Z`), and `O0`,
//! `O1` and `O2` are the orders that its voter holds from computers 0, 1 and 2, or `-`. So `t1 H -329 - - -` says that thruster 1
//! goes on with -329 N, and that no computer ordered anything in this cycle.
//!
//! Then each alarm has a line, in this order; `alarm unknown` stands alone where they aren't known.
//!
//! | Words | Warns that |
//! |---|---|
//! | `ref I CAUSE` | position reference I is not usable: `silent`, `stale`, `frozen`, `jumped` or `noisy` |
//! | `damage WIRE` | a damaged line came on `pos0` to `pos2`, `gyro0` to `gyro2`, `wind0` to `wind2`, `grp0` to `grp7` |
//! | `blind`, `gyro`, `wind` | no position reference is usable; no heading was read; no wind was read |
//! | `limit AXIS` | the demand on `surge`, `sway` or `yaw` was cut to its box |
//! | `nocase` | the plant has no case for the groups that are lost |
//! | `consequence G` | the loss of group G, which is ready, would not be survived |
//!
//! [`agree`] says which alarms at least two of the three computers raise.
//!
//! What is proved: the text is exactly the one that `specs/Block` defines over the whole lists, for every block, and the alarms agreed on
//! are exactly those of `specs/Agreement`. No call fails, allocates or writes past its room: the line of a cycle has at most 31 bytes, that of
//! a thruster at most 108, and the alarms have at most 1187.
#![tactic(auto)]

mod agreement;
mod alarms;
mod block;
mod forces;
mod text;

pub use agreement::agree;
pub use block::{Block, write_block};

/// Room for the text of a cycle.
const TEXT: usize = 4096;
