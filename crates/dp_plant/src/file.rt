ghost use Rattle.std.specs.Prelude.{IsErrAnd, IsSome, IsUtf8, Ok, Some, ◌≡◌};
ghost use Rattle.toml.specs.Data.{Members, table};
ghost use Rattle.toml.specs.Parse.{parse_document};
ghost use Rattle.toml.specs.View.{view};
ghost use Rattle.dp_plant.specs.{Gives, IsNoDocument, plant_at, plant_view, seen};

mod cases;
mod certificate;
mod gains;
mod references;
mod thrusters;
mod units;
mod vessel;

use crate::{Plant, PlantFault};
use std::alloc::Global;
use toml::Value;
use vessel::Vessel;

/// The plant of a file, which is a TOML document.
///
/// Keys are read in the order of the table in `specs/PlantFile`, and the first fault is the answer: for each key first Missing, then
/// Kind, then Range. A table that isn't there makes its first key Missing. Other keys are ignored. The ranges of `[gains]`, `[yaw]`
/// and `[cert]` are judged with the certificate, and not here.
pub fn plant_of(alloc: Global, bytes: &[u8]) -> Result<Plant, PlantFault>
    // A document's plant is what the table of keys makes of it; where a key is at fault, the answer is the first such fault.
    ensures document { (ms : Members) → IsUtf8 bytes.now → parse_document bytes.now ≡ Some ms
        → Gives plant_view result (plant_at (Some (table ms))) }
    // Other bytes are no document.
    ensures no_document { ¬ (IsUtf8 bytes.now × IsSome (parse_document bytes.now)) → IsErrAnd result IsNoDocument }
{
    let document = document_of(alloc, bytes)?;
    plant_in(Some(&document))
}

/// What the bytes are as a document.
fn document_of(alloc: Global, bytes: &[u8]) -> Result<Value, PlantFault>
    ensures document { (ms : Members) → IsUtf8 bytes.now → parse_document bytes.now ≡ Some ms
        → Gives view result (Ok (table ms)) }
    ensures no_document { ¬ (IsUtf8 bytes.now × IsSome (parse_document bytes.now)) → IsErrAnd result IsNoDocument }
{
    match toml::table_from_slice(alloc, bytes) {
        Ok(table) => Ok(Value::Table(table)),
        Err(error) if error.is_memory() => Err(PlantFault::Memory),
        Err(_) => Err(PlantFault::Toml),
    }
}

#[tactic(auto, unfolding(crate::specs::PlantFile::plant_at))]
fn plant_in(document: Option<&Value>) -> Result<Plant, PlantFault>
    ensures { Gives plant_view result (plant_at (seen document.entry)) }
{
    let Vessel {
        version,
        cycle_ms,
        origin,
        start,
        setpoint,
        groups,
        mass,
        tol,
    } = vessel::vessel_of(document)?;
    let [first, second, third] = references::refs_of(document)?;
    let wind = vessel::wind_of(document)?;
    let thrusters = thrusters::thrusters_of(document, groups)?;
    let cases = cases::cases_of(document, groups, thrusters.len())?;
    let gains = gains::gains_of(document, version)?;
    let yaw = gains::yaw_of(document)?;
    let cert = certificate::cert_of(document, version)?;
    Ok(Plant {
        version,
        cycle_ms,
        origin,
        start,
        setpoint,
        groups,
        mass,
        tol,
        refs: [first.limits, second.limits, third.limits],
        levers: [first.lever, second.lever, third.lever],
        wind,
        thrusters,
        cases,
        gains,
        yaw,
        cert,
    })
}
