/// The first condition on a case that fails.
#[derive(Clone, Copy, Debug, PartialEq, Eq)]
pub enum CaseFault {
    /// A corner of the box asks a thruster, by its number, for `need` newtons, past its limit of `limit` newtons.
    CornerOver {
        thruster: usize,
        need: i64,
        limit: i64,
    },
    /// The thrusters together miss what they are to give on an axis, for a demand on the column's axis, by `error` (over 2^50).
    OffDemand {
        axis: usize,
        column: usize,
        error: i128,
    },
}

/// A case that is refused: its mask of lost groups, and why.
#[derive(Clone, Copy, Debug, PartialEq, Eq)]
pub struct CaseRefusal {
    pub lost: u8,
    pub fault: CaseFault,
}
