ghost use Rattle.std.specs.Prelude.{length, map, ◌<◌, ◌≤◌};
ghost use Rattle.toml.specs.View.{view};
ghost use Rattle.dp_plant.specs.{Gives, each_from, seen};
ghost use Rattle.dp_plant.specs.PlantFile as File;

use crate::keys::{count_at, section_of, tables_at, whole_at, wholes_at};
use crate::{PlantFault, Thruster};
use arrayvec::ArrayVec;
use toml::Value;

/// The greatest force in newtons.
const FORCE: i64 = 2_147_483_648;

#[tactic(auto, unfolding(crate::specs::PlantFile::thrusters_at))]
pub(crate) fn thrusters_of(
    document: Option<&Value>,
    groups: u8,
) -> Result<ArrayVec<Thruster, 12>, PlantFault>
    requires { (1 ≤ groups) × (groups ≤ 8) }
    ensures { Gives (λ v. v.items) result (File.thrusters_at (seen document.entry) groups) }
{
    let tables = tables_at(document, "thruster", 1, 12)?;
    each_thruster(tables, groups)
}

fn each_thruster(tables: &[Value], groups: u8) -> Result<ArrayVec<Thruster, 12>, PlantFault>
    requires tables { length tables.now ≤ 12 }
    requires groups { (1 ≤ groups) × (groups ≤ 8) }
    ensures { Gives (λ v. v.items) result
        (each_from (File.thruster_at groups) 0 (map view tables.now)) }
{
    let mut thrusters = ArrayVec::new();
    for (i, table) in tables.iter().enumerate() {
        thrusters.push(thruster_of(table, i, groups)?);
    }
    Ok(thrusters)
}

#[tactic(auto, unfolding(crate::specs::PlantFile::thruster_at))]
fn thruster_of(table: &Value, index: usize, groups: u8) -> Result<Thruster, PlantFault>
    requires index { index < 12 }
    requires groups { (1 ≤ groups) × (groups ≤ 8) }
    ensures { Gives (λ t. t) result (File.thruster_at groups index (view table.now)) }
{
    let key = section_of("thruster", index);
    let section = key.as_str();
    let last = u32::from(groups) - 1;
    let group = count_at(Some(table), section, "group", 0, last)? as u8;
    let at = wholes_at(Some(table), section, "at", &[(-500_000, 500_000); 2])?;
    let azimuth = count_at(Some(table), section, "azimuth", 0, 35_999)?;
    let min = whole_at(Some(table), section, "min", -FORCE, 0)?;
    let max = whole_at(Some(table), section, "max", 0, FORCE)?;
    Ok(Thruster {
        group,
        at,
        azimuth,
        min,
        max,
    })
}
