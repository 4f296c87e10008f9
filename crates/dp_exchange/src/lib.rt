//! One computer of three: how it takes part, the frames that wait, and how it comes back by the states of the others.
//!
//! Three computers run the same control side by side. Each holds its own [`dp_machine::Machine`], and each hears the same frames. A
//! [`Computer`] is live, aligning or off ([`Mode`]). Live, it controls from the state of its machine. Aligning, it has no state to go on
//! from, and waits for the others to give it one. Off, it does nothing until it is started again.
//!
//! **Frames.** [`Computer::hear`] takes in the frame of the next cycle, and [`Computer::run`] steps the machine over the oldest one that
//! waits, which gives an [`Issue`]. Up to 16 frames wait. A live computer in which 16 wait already fell behind: one more is an overrun, and
//! it has to be aligned. An aligning computer keeps the newest 16 frames, so that it can catch up when it comes back. [`Computer::advance`]
//! does both, and copies no frame where none waited. [`Computer::last`] is what it issued last since it started.
//!
//! **Coming back.** [`Computer::tell`] writes a live computer's state as bytes (`dp_codec`), and [`Computer::offer`] takes such bytes from
//! another computer. No computer is believed alone: the first state is kept, and only where another computer has offered the same state
//! since the last frame does this one go on from it. It then is live, and the frames that the state hasn't seen wait to be run, so no
//! frame is skipped and none is run twice. A state that has seen frames which this computer hasn't heard is too new; one that hasn't seen a
//! frame which doesn't wait any more is too old; bytes that spell no state of the plant are refused with the place of their first
//! fault. Each frame makes it forget all offers, so that states of two cycles never meet.
//!
//! **Software.** A computer begins with software 1. [`Computer::upgrade`] starts it again with software 2, which tells its state in the
//! second spelling and reads both; software 1 reads the first alone. States are compared as states, whatever spelling they came in: each
//! offer is kept in the second. So three computers may be upgraded one after the other while two stay live, and the first to be upgraded
//! is aligned by the two that are not. A computer with software 1 can't be aligned by one with software 2.
//!
//! **What is promised.** A computer is seen as the record `ComputerState` of `specs/ComputerState`: its plant, its state where it is live,
//! the frames that wait, the number of the frame that comes next, the states that were offered in this cycle, its last issue, how often
//! it was stepped, and its software. Each call's contract says just what it makes of that record and what it answers, with nothing left
//! open. A machine's state that is of no use, since the computer isn't live, can't be seen, and nothing depends on it. `specs/SameState`
//! compares two states part by part, and [`laws`] says that this is equality. `specs/Inside` has what always holds: the frames that wait
//! are the last ones before the next, with no gap; a live computer's state has seen just the frames before those; each offer that is kept
//! is the one spelling of a state of the plant.
//!
//! [`Computer::stop`], [`Computer::restart`] and [`Computer::upgrade`] are the operator's calls. [`Computer::skew`] is for trials: it puts a
//! computer's estimate at rest at a false place, and [`Computer::spell_at`] writes what it would tell then. [`Computer::end`] gives up the
//! machine, which was stepped just as often as the computer ran over a frame. No call but [`Computer::new`] takes memory.
#![tactic(auto)]

mod answers;
mod computer;
pub mod laws;
mod offers;

pub use answers::{Heard, Offer, Ran};
pub use computer::Computer;
pub use dp_machine::{Issue, State};
pub use dp_plant::Mode;
