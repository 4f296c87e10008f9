use crate::refusals::{GainsRefusal, PlantRefusal};

/// Why a file gives no plant.
#[derive(Debug, Drop)]
pub enum PlantTrouble {
    /// It can't be read.
    Read,
    /// Memory was wanted.
    Memory,
    /// It is longer than its limit.
    Long,
    /// A key is refused, or a case.
    Plant { why: PlantRefusal },
    /// The gains are refused.
    Gains { why: GainsRefusal },
}
