//! The tests of one position reference.
//!
//! A reference's samples are the readings of its wire, in the order of frames. Its window is the last W of them, or all where there are
//! fewer. [`RefTest`] takes what each cycle brings, keeps the window ([`Kept`]) in a ring beside its sums ([`Sums`]), and says in
//! [`RefTest::usable`] what the tests make of it: the first of these that holds.
//!
//! 1. Silent: there is no sample.
//! 2. Stale: the newest sample is older than the limit, by cycles.
//! 3. Frozen: the window is full and all its samples are equal.
//! 4. Jumped: two neighbours in the window differ by more than the limit, in north or in east.
//! 5. Noisy: the variance of the window, north and east together, is above the limit.
//! 6. Usable: the newest sample, with a weight from 1 to 2^20 that falls as the variance grows.
//!
//! `specs/Verdict` has them over the list of samples, `specs/Window` the window, `specs/Totals` the sums. A verdict rests on the
//! reference's own wire alone: see [`laws`].
//!
//! Places are whole nanometres north and east, within ±2^43; a variance is whole mm², rounded down. No call but [`RefTest::new`] takes
//! memory, and none depends on the window's length: the verdict is read off the sums.
//!
//! The tests of a reference before its use follow IMO MSC.1/Circ.1580, on position reference systems: rejection of references that are
//! frozen, jump or are noisy, each judged by itself.
#![tactic(auto)]

mod judge;
mod kept;
pub mod laws;
mod reference;
mod sums;

pub use kept::Kept;
pub use reference::RefTest;
pub use sums::Sums;
