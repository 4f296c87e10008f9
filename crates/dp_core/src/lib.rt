//! The core: three computers that run the same control side by side, and a voter for each thruster.
//!
//! A [`World`] takes one event at a time, in any order, by a call of the event's kind, or as an [`Event`] by [`World::apply`], which is
//! answered with what is [`Seen`]. A Wire brings the frame of the next cycle to each computer, and each voter's next cycle begins. A Run
//! lets one computer step over the oldest frame that it has been given and not done, which gives an [`Issue`]. An Order delivers a
//! computer's last issue to one voter, a Vote asks a voter for the ballot of this cycle. A Restart and an Upgrade start a computer again,
//! the latter with the newer software: it waits until two others offer it the same state by a Tell each, and goes on from that one. Skew,
//! Say, Lie and Stop are faults: a computer's estimate is put at rest at a false place, a computer orders any force, it offers any bytes
//! as its state, it is switched off. Nothing is promised of the order of events: frames may wait, orders and offers may get lost.
//! [`World::advance`] and [`World::order_all`] are several events in a row, and take fewer steps than those events one by one.
//!
//! No history is stored, and yet the contracts speak of it. `specs/History` looks back over a list of events, the newest first: each
//! stands beside what was seen of it. What a computer's mode, trajectory and last issue are, and which orders and ballots a voter gave,
//! is found by a search from the newest moment on (`Mode`, `Trajectory`, `HeldOffers`, `Voting`). A world `Represents` a list of events where its parts
//! are what the list's history says; [`World::new`] represents the empty list, and after [`World::apply`] of an event a world represents
//! its list followed by that event, with the answer that the history gives; so it is with the call of each kind.
//!
//! A computer is faulty from a Skew, a Say or a Lie of it on, until it breaks: is stopped, restarted or upgraded, or overruns. So a skewed
//! computer counts as faulty, though its orders are what it believes. [`laws`] says, for every list of events in which at most one
//! computer is faulty in any cycle, that a live computer that isn't skewed has come to the state of the reference run, one computer alone
//! over all the frames; that a computer which adopts a state goes on as the reference run does, with no bump; and that every fresh ballot
//! is the reference run's force; that two computers that aren't faulty and are heard make a ballot fresh; and, whatever is faulty, whose
//! force it is that a voter takes. The laws ask nothing of a plant but that none of its cases is refused: offers are of states, so
//! whether a state is within its ranges doesn't matter to them.
//!
//! [`World::new`] asks that no case of the plant is refused, and for the answer of [`dp_cert::accept`] to the plant's own gains and
//! certificate. [`World::alarms`] shows what the computers' issues of this cycle warn of, [`World::spell_at`] spells a
//! false state for a Lie, and [`World::end`] gives up the three machines.
#![tactic(auto)]

mod event;
pub mod laws;
mod world;

pub use dp_exchange::{Heard, Offer, Ran};
pub use dp_machine::{Alarms, Issue, Machine, State};
pub use dp_plant::{Ballot, Mode, Place};
pub use dp_voter::Took;
pub use event::{Event, Seen};
pub use world::World;
