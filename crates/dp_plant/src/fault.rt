ghost use Rattle.std.specs.Prelude.{◌≡◌, option_map};
ghost use Rattle.dp_plant.specs.Keys.{key_of};

use crate::Key;

/// Why a plant file is refused. A key's name is its path, such as `plant.cycle_ms`, `thruster.0.max` or `gains.kp`; an entry of an
/// array has its array's name.
#[derive(Debug, Drop)]
pub enum PlantFault {
    /// The bytes are no TOML document, or one with a whole number outside 64 bits.
    Toml,
    /// Nothing stands at the key; or, for `case`, a case that is needed is not there.
    Missing { key: Key },
    /// What stands at the key is not of its kind, or an array is not of its length.
    Kind { key: Key },
    /// A number at the key is out of its range.
    Range { key: Key },
    /// Memory was wanted and not found.
    Memory,
}

impl PlantFault {
    /// The key that the fault is about, where it is about one.
    pub fn key(&self) -> Option<&Key>
        ensures { option_map (λ k. k.now.bytes) result ≡ key_of self.now }
    {
        match self {
            PlantFault::Missing { key } | PlantFault::Kind { key } | PlantFault::Range { key } => {
                Some(key)
            }
            _ => None,
        }
    }
}
