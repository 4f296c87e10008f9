ghost use Rattle.std.specs.Prelude.{◌<◌, ◌≡◌};
ghost use Rattle.toml.specs.View.{view};
ghost use Rattle.dp_plant.specs.Keys.{Gives, seen};
ghost use Rattle.dp_plant.specs.PlantFile as File;
ghost use Rattle.dp_plant.specs.Vectors.{entry};

use crate::file::units::nanometres;
use crate::keys::{count_at, section_of, tables_at, whole_at, wholes_at};
use crate::{P2, PlantFault, RefLimits};
use toml::Value;

/// What a table `[[ref]]` says of a position reference.
#[derive(Clone, Copy)]
pub(crate) struct Reference {
    pub(crate) limits: RefLimits,
    pub(crate) lever: P2,
}

#[tactic(auto, unfolding(crate::specs::PlantFile::refs_at))]
pub(crate) fn refs_of(document: Option<&Value>) -> Result<[Reference; 3], PlantFault>
    ensures { Gives (λ rs. rs) result (File.refs_at (seen document.entry)) }
{
    let tables = tables_at(document, "ref", 3, 3)?;
    let first = ref_of(&tables[0], 0)?;
    let second = ref_of(&tables[1], 1)?;
    let third = ref_of(&tables[2], 2)?;
    Ok([first, second, third])
}

#[tactic(auto, unfolding(crate::specs::PlantFile::ref_at))]
fn ref_of(table: &Value, index: usize) -> Result<Reference, PlantFault>
    requires { index < 3 }
    ensures { Gives (λ r. r) result (File.ref_at index (view table.now)) }
{
    let key = section_of("ref", index);
    let section = key.as_str();
    let window = count_at(Some(table), section, "window", 4, 32)? as u8;
    let jump = nanometres(whole_at(Some(table), section, "jump_mm", 0, 1_000_000)?);
    let noise = i128::from(whole_at(Some(table), section, "noise_mm2", 0, 1_000_000_000_000)?);
    let age = u64::from(count_at(Some(table), section, "age", 0, 60)?);
    let lever = wholes_at(Some(table), section, "lever", &[(-500_000, 500_000); 2])?;
    Ok(Reference {
        limits: RefLimits {
            window,
            jump,
            noise,
            age,
        },
        lever: lever_of(&lever),
    })
}

fn lever_of(lever: &[i64; 2]) -> P2
    ensures { result ≡ (entry lever.now 0, entry lever.now 1) }
{
    (lever[0], lever[1])
}
