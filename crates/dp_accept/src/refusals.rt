//! Why a plant is refused: its file, a case, or its gains.
ghost use Rattle.std.specs.Prelude.{◌≡◌};
ghost use Rattle.dp_accept.specs.Refusals.{condition_refusal};

use arrayvec::ArrayVec;
use dp_alloc::CaseRefusal;
use dp_cert::CertFault;
use dp_plant::Key;

/// The name of a key, as `plant.cycle_ms`.
pub type Name = ArrayVec<u8, 48>;

/// Why a plant file is refused.
#[derive(Debug, Drop)]
pub enum PlantRefusal {
    /// The bytes are no TOML document.
    Toml,
    /// Nothing stands at the key.
    Missing { key: Name },
    /// What stands at the key is not of its kind.
    Kind { key: Name },
    /// A number at the key is out of its range.
    Range { key: Name },
    /// The first of the plant's cases that is refused.
    Case { refusal: CaseRefusal },
}

/// Why a plant's gains are refused.
#[derive(Debug, Drop)]
pub enum GainsRefusal {
    /// A number at the key is out of its range.
    Range { key: Name },
    /// The first condition of their certificate that fails.
    Condition { fault: CertFault },
}

impl GainsRefusal {
    /// What a fault of the certificate is told as.
    pub fn of(fault: CertFault) -> GainsRefusal
        ensures { result ≡ condition_refusal fault }
    {
        match fault {
            CertFault::Range { name } => GainsRefusal::Range {
                key: name_of(&name),
            },
            fault => GainsRefusal::Condition { fault },
        }
    }
}

/// The bytes of a key's name.
pub fn name_of(key: &Key) -> Name
    ensures { result.items ≡ key.now.bytes }
{
    let mut name = ArrayVec::new();
    let Ok(()) = name.try_extend_from_slice(key.as_bytes()) else {
        unreachable!();
    };
    name
}
