ghost use Rattle.std.specs.Prelude.{◌≡◌};

use arrayvec::ArrayVec;
use dp_text::append;

/// A place: north and east, in nanometres.
pub type P2 = (i64, i64);

/// What a script has happen in a cycle. Computers are 0 to 2, voters 0 to 11; where two computers are named, they differ.
#[derive(Drop, PartialEq, Eq)]
pub enum Act {
    /// Computer `c` runs its oldest waiting frame.
    Run {
        c: u8,
    },
    /// Voter `k` hears the order of computer `c`.
    Order {
        c: u8,
        k: u8,
    },
    /// Each voter hears the order of computer `c`, in rising order.
    Orders {
        c: u8,
    },
    /// Computer `a` tells computer `b` its state.
    Tell {
        a: u8,
        b: u8,
    },
    /// Computer `c` goes on from another place, within ±2^43 nm.
    Skew {
        c: u8,
        at: P2,
    },
    /// Voter `k` hears, as if of computer `c`, an order of this force, in newtons, within ±2^62.
    Say {
        c: u8,
        k: u8,
        force: i64,
    },
    /// Computer `b` is told, as if by computer `a`, the state of `a` at rest at another place, within ±2^43 nm.
    Lie {
        a: u8,
        b: u8,
        at: P2,
    },
    /// Computer `b` is told, as if by computer `a`, these bytes, one to 64.
    Junk {
        a: u8,
        b: u8,
        bytes: ArrayVec<u8, 64>,
    },
    /// Computer `c` stops.
    Stop {
        c: u8,
    },
    /// Computer `c` begins anew, without a state; it hears frames from the next cycle on.
    Restart {
        c: u8,
    },
    /// The same, and from now on with version 2 of the software.
    Upgrade {
        c: u8,
    },
}

impl Act {
    /// An equal act.
    pub(crate) fn copy(&self) -> Act
        ensures { result ≡ self.now }
    {
        match self {
            Act::Run { c } => Act::Run { c: *c },
            Act::Order { c, k } => Act::Order { c: *c, k: *k },
            Act::Orders { c } => Act::Orders { c: *c },
            Act::Tell { a, b } => Act::Tell { a: *a, b: *b },
            Act::Skew { c, at } => Act::Skew { c: *c, at: *at },
            Act::Say { c, k, force } => Act::Say {
                c: *c,
                k: *k,
                force: *force,
            },
            Act::Lie { a, b, at } => Act::Lie {
                a: *a,
                b: *b,
                at: *at,
            },
            Act::Junk { a, b, bytes } => Act::Junk {
                a: *a,
                b: *b,
                bytes: bytes_copy(bytes),
            },
            Act::Stop { c } => Act::Stop { c: *c },
            Act::Restart { c } => Act::Restart { c: *c },
            Act::Upgrade { c } => Act::Upgrade { c: *c },
        }
    }
}

/// The same bytes.
fn bytes_copy(bytes: &ArrayVec<u8, 64>) -> ArrayVec<u8, 64>
    ensures { result ≡ bytes.now }
{
    let mut copy = ArrayVec::new();
    append(&mut copy, bytes.as_slice());
    copy
}
