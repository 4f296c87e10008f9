/// What a voter answers to an order: the first refusal that holds, or that the order was taken.
#[derive(Clone, Copy, Debug, PartialEq, Eq)]
pub enum Took {
    /// The order is held.
    Taken,
    /// It is of another cycle than the voter's, or the vote of this cycle was given; with the voter's cycle, 0 before the first.
    Stale { cycle: u64 },
    /// The force passes a limit of the thruster; with that limit.
    Unfit { limit: i64 },
    /// An order of that computer is held.
    Repeated,
}
