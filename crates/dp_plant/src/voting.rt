/// How a computer takes part: it issues demands, it waits for a state that two others agree on, or it is stopped.
#[derive(Clone, Copy, Debug, PartialEq, Eq)]
pub enum Mode {
    Live,
    Aligning,
    Off,
}

/// What a voter gives its thruster for a cycle, in newtons: a force that the orders of this cycle agree on, the last such force, or none.
#[derive(Clone, Copy, Debug, Default, PartialEq, Eq)]
pub enum Ballot {
    Fresh(i64),
    Held(i64),
    #[default]
    Zero,
}
