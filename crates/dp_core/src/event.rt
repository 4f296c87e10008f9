use crate::{Ballot, Heard, Offer, Place, Ran, Took};
use arrayvec::ArrayVec;
use dp_plant::Frame;

/// What happens to the world: one thing at a time, in any order. Computers are numbered 0 to 2, voters as the plant's thrusters.
#[derive(Debug, Drop)]
pub enum Event {
    /// The frame of the next cycle is on the wires: all computers hear it, and the voters' next cycle begins.
    Wire(Frame),
    /// A computer processes the frame that waits longest.
    Run {
        c: u8,
    },
    /// The last issue of a computer is delivered to a voter, as an order of the issue's cycle.
    Order {
        from: u8,
        voter: u8,
    },
    /// A live computer offers its state to another one, in the spelling of its own software.
    Tell {
        from: u8,
        to: u8,
    },
    /// A voter gives the ballot of this cycle.
    Vote {
        voter: u8,
    },
    /// A fault: a live computer's estimate of the plane is put at rest at a place.
    Skew {
        c: u8,
        at: Place,
    },
    /// A fault: a computer, whatever its mode, orders any force, in newtons, of any cycle.
    Say {
        from: u8,
        voter: u8,
        cycle: u64,
        force: i64,
    },
    /// A fault: a computer, whatever its mode, offers any bytes as its state to another one.
    Lie {
        from: u8,
        to: u8,
        bytes: ArrayVec<u8, 4096>,
    },
    /// A computer is switched off.
    Stop {
        c: u8,
    },
    /// A computer is started again: it waits for two others to offer the same state.
    Restart {
        c: u8,
    },
    /// A computer is started again with the newer software.
    Upgrade {
        c: u8,
    },
}

/// What an event is answered.
#[derive(Debug, Drop)]
pub enum Seen {
    /// Of a Wire: what each computer did with the frame.
    Heard([Heard; 3]),
    /// Of a Run.
    Ran(Ran),
    /// Of an Order and a Say: the voter's answer; none where the computer has no last issue, so of an Order alone.
    Sent(Option<Took>),
    /// Of a Tell and a Lie: the answer of the one that is offered a state; none where the sender isn't live, so of a Tell alone.
    Offered(Option<Offer>),
    /// Of a Vote.
    Voted(Ballot),
    /// Of a Skew: whether the computer was live.
    Skewed(bool),
    /// Of a Stop, a Restart and an Upgrade.
    Done,
}
