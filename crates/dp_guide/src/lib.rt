//! A setpoint that moves to a target with limited rates and accelerations, and the list of moves that it follows.
//!
//! A [`Guide`] is at rest on a setpoint until [`Guide::go`] gives it a target; each [`Guide::step`] is one cycle. North, east and the
//! heading move each for itself: the velocity of the next cycle is the greatest one toward the target that keeps the coordinate's rate
//! and acceleration, and from which it can still slow down to stand on the target. The heading turns the shorter way round, across
//! north too. `specs/Course` defines one coordinate, `specs/Motion` all three.
//!
//! What is proved: each setpoint is exactly the one defined; in every cycle each velocity is within its rate and differs from the one
//! before by at most the acceleration, no coordinate passes its target, and each that isn't there yet moves by at least the least of
//! its acceleration, its rate and the way left. So from rest at distance D it stands exactly on its target after at most
//! ceil(D / min(acceleration, rate)) cycles, and stays ([`laws`]).
//!
//! [`limits_of`] reads the rates and accelerations from the table `[guide]` of a plant file, by `specs/Limits`. A list of moves is a text
//! of lines `CYCLE NORTH EAST HEADING`, in mm and hundredths of a degree; a line that is empty or begins with `#` is skipped and counted.
//! [`Moves::of`] answers its moves, or its first faulty line with the first of the faults of [`MovesKind`], as `specs/MoveLines` and
//! `specs/Moves` define them. A [`Passage`] gives the setpoint of each cycle: where the guide rests and a move of this or an earlier cycle
//! waits, the first such move becomes its target, and then it steps once. Its setpoints are exactly those of `specs/Passage`, which
//! depend on the limits, the start and the moves alone. [`append_cycle`] writes the line of a cycle. Only [`limits_of`] and [`Moves::of`]
//! take memory.
#![tactic(auto)]

mod ahead;
mod guide;
pub mod laws;
mod limits;
mod line;
mod motion;
mod move_line;
mod moves;
mod moves_draft;
mod moves_fault;
mod passage;
mod stopping;
mod velocity;

pub use guide::Guide;
pub use limits::limits_of;
pub use line::append_cycle;
pub use motion::{GuideLimits, Motion, Velocity};
pub use moves::{Move, Moves};
pub use moves_fault::{MovesFault, MovesKind};
pub use passage::Passage;

#[cfg(test)]
mod tests;
