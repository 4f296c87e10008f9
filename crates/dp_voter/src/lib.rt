//! The voter of one thruster.
//!
//! Three computers each send the thruster an order a cycle; the voter takes at most one of each, and gives a ballot. A ballot is fresh
//! where three orders were taken, with their middle, or where just two were taken and are equal, with that force. So where at most one
//! computer orders another force than the right one, a fresh force is the right one, whatever that computer orders. Where the orders agree
//! on no force, the last fresh one is held for up to five cycles in a row; after that the ballot is zero.
//!
//! [`Voter::order`] says why it takes an order or refuses it; a refused order changes nothing. A second vote in a cycle gives the same
//! ballot and changes nothing. A contract sees a voter as the record `VoterState` of `specs/`: its limits, its cycle, the orders held,
//! this cycle's ballot, the last fresh force, and how many cycles in a row have no fresh ballot. [`laws`] says what follows from these rules.
#![tactic(auto)]

pub mod laws;
mod order;
mod voter;

pub use dp_plant::Ballot;
pub use order::Took;
pub use voter::Voter;
