ghost use Rattle.std.specs.Prelude.{[], length, map, ◌<◌, ◌≡◌, ◌≤◌};
ghost use Rattle.std.specs.List.{list_all};
ghost use Rattle.toml.specs.View.{view};
ghost use Rattle.dp_plant.specs.{Gives, has_case, in_section, seen};
ghost use Rattle.dp_plant.specs.PlantFile as File;

use crate::keys::{count_at, key_of, rows_at, section_of, tables_at, whole_key, wholes_at};
use crate::{Box3, PlantFault, RawCase};
use arrayvec::ArrayVec;
use toml::Value;

const LIMIT: i64 = 2_147_483_648;

const YAW_LIMIT: i64 = 274_877_906_944;

/// No group is lost, and then each single one.
const SINGLE_MASKS: [u8; 9] = [0, 1, 2, 4, 8, 16, 32, 64, 128];

#[tactic(auto, unfolding(crate::specs::PlantFile::cases_at))]
pub(crate) fn cases_of(
    document: Option<&Value>,
    groups: u8,
    thrusters: usize,
) -> Result<ArrayVec<RawCase, 32>, PlantFault>
    requires groups { (1 ≤ groups) × (groups ≤ 8) }
    requires thrusters { thrusters ≤ 12 }
    ensures { Gives (λ v. v.items) result (File.cases_at (seen document.entry) groups thrusters) }
{
    let tables = tables_at(document, "case", 1, 32)?;
    let cases = each_case(tables, groups, thrusters)?;
    if !are_there(cases.as_slice(), groups) {
        return Err(PlantFault::Missing {
            key: whole_key("case"),
        });
    }
    Ok(cases)
}

fn each_case(
    tables: &[Value],
    groups: u8,
    thrusters: usize,
) -> Result<ArrayVec<RawCase, 32>, PlantFault>
    requires tables { length tables.now ≤ 32 }
    requires groups { (1 ≤ groups) × (groups ≤ 8) }
    requires thrusters { thrusters ≤ 12 }
    ensures { Gives (λ v. v.items) result
        (File.cases_after groups thrusters [] (map view tables.now)) }
{
    let mut cases: ArrayVec<RawCase, 32> = ArrayVec::new();
    for table in tables {
        let case = case_of(table, cases.as_slice(), groups, thrusters)?;
        cases.push(case);
    }
    Ok(cases)
}

#[tactic(auto, unfolding(crate::specs::PlantFile::case_at))]
fn case_of(
    table: &Value,
    before: &[RawCase],
    groups: u8,
    thrusters: usize,
) -> Result<RawCase, PlantFault>
    requires before { length before.now < 32 }
    requires groups { (1 ≤ groups) × (groups ≤ 8) }
    requires thrusters { thrusters ≤ 12 }
    ensures { Gives (λ c. c) result (File.case_at groups thrusters before.now (view table.now)) }
{
    let key = section_of("case", before.len());
    let section = key.as_str();
    let lost = lost_of(Some(table), section, before, groups)?;
    let lows = [(-LIMIT, 0), (-LIMIT, 0), (-YAW_LIMIT, 0)];
    let lo = wholes_at(Some(table), section, "lo", &lows)?;
    let highs = [(0, LIMIT), (0, LIMIT), (0, YAW_LIMIT)];
    let hi = wholes_at(Some(table), section, "hi", &highs)?;
    let b = rows_at(Some(table), section, "b", thrusters, &[(-LIMIT, LIMIT); 3])?;
    Ok(RawCase {
        lost,
        bounds: Box3 { lo, hi },
        b,
    })
}

/// The mask of lost groups, which no case before has.
#[tactic(auto, unfolding(crate::specs::PlantFile::lost_at))]
fn lost_of(
    table: Option<&Value>,
    section: &str,
    before: &[RawCase],
    groups: u8,
) -> Result<u8, PlantFault>
    requires section { length section.now ≤ 20 }
    requires groups { (1 ≤ groups) × (groups ≤ 8) }
    ensures { Gives (λ m. m) result
        (File.lost_at groups before.now (in_section section.now table.entry)) }
{
    let most = 2_u32.pow(u32::from(groups)) - 1;
    let lost = count_at(table, section, "lost", 0, most)? as u8;
    if has_case(before, lost) {
        return Err(PlantFault::Range {
            key: key_of(section, "lost"),
        });
    }
    Ok(lost)
}

fn has_case(cases: &[RawCase], mask: u8) -> bool
    ensures { result ≡ has_case cases.now mask }
{
    cases.iter().any(|case| case.lost == mask)
}

/// There is a case for no group lost, and for each single one.
fn are_there(cases: &[RawCase], groups: u8) -> bool
    requires { groups ≤ 8 }
    ensures { result ≡ list_all (has_case cases.now) (File.single_masks groups) }
{
    let masks = &SINGLE_MASKS[..usize::from(groups) + 1];
    masks.iter().all(
        |mask| -> bool
            ensures { result ≡ has_case cases.entry.now mask.now }
        { has_case(cases, *mask) },
    )
}
