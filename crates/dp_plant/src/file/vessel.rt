ghost use Rattle.std.specs.Prelude.{IfOk, length, ◌≡◌, ◌≤◌};
ghost use Rattle.dp_plant.specs.Keys.{AreBetween, Gives, seen};
ghost use Rattle.dp_plant.specs.PlantFile as File;
ghost use Rattle.dp_plant.specs.Vectors.{entry};

use crate::file::units::{nanodegrees, nanometres};
use crate::keys::{count_at, field, rows_at, wholes_at};
use crate::{Place, PlantFault, Setpoint, WindTable};
use arrayvec::ArrayVec;
use toml::Value;

/// Latitude and longitude in 10^-7 minutes: 89 and 180 degrees.
const ORIGIN: [(i64, i64); 2] = [
    (-53_400_000_000, 53_400_000_000),
    (-108_000_000_000, 108_000_000_000),
];

/// North and east in mm, and a heading in hundredths of a degree.
const SPOT: [(i64, i64); 3] = [
    (-8_796_093, 8_796_093),
    (-8_796_093, 8_796_093),
    (0, 35_999),
];

/// Over 2^20, for each unit of acceleration.
const FORCE: (i64, i64) = (0, 1_099_511_627_776);

/// A push for each square of a speed, over 2^20.
const PUSH: (i64, i64) = (-16_777_216, 16_777_216);

/// What `[plant]` says of the vessel.
#[derive(Clone, Copy)]
pub(crate) struct Vessel {
    pub(crate) version: u8,
    pub(crate) cycle_ms: u64,
    pub(crate) origin: [i64; 2],
    pub(crate) start: Setpoint,
    pub(crate) setpoint: Setpoint,
    pub(crate) groups: u8,
    pub(crate) mass: [i64; 3],
    pub(crate) tol: [i64; 3],
}

#[tactic(auto, unfolding(crate::specs::PlantFile::vessel_at))]
pub(crate) fn vessel_of(document: Option<&Value>) -> Result<Vessel, PlantFault>
    ensures exact { Gives (λ v. v) result (File.vessel_at (seen document.entry)) }
    ensures groups { IfOk result (λ v. (1 ≤ v.groups) × (v.groups ≤ 8)) }
{
    let plant = field(document, "plant");
    let version = count_at(plant, "plant", "version", 1, 2)? as u8;
    let cycle_ms = u64::from(count_at(plant, "plant", "cycle_ms", 100, 10_000)?);
    let origin = wholes_at(plant, "plant", "origin", &ORIGIN)?;
    let start = wholes_at(plant, "plant", "start", &SPOT)?;
    let setpoint = wholes_at(plant, "plant", "setpoint", &SPOT)?;
    let groups = count_at(plant, "plant", "groups", 1, 8)? as u8;
    let mass = wholes_at(plant, "plant", "mass", &[FORCE; 3])?;
    let tol = wholes_at(plant, "plant", "tol", &[FORCE; 3])?;
    Ok(Vessel {
        version,
        cycle_ms,
        origin,
        start: setpoint_of(&start),
        setpoint: setpoint_of(&setpoint),
        groups,
        mass,
        tol,
    })
}

fn setpoint_of(numbers: &[i64; 3]) -> Setpoint
    requires { AreBetween File.spot (entry numbers.now) }
    ensures { result ≡ File.setpoint_of numbers.now }
{
    Setpoint {
        at: Place {
            north: nanometres(numbers[0]),
            east: nanometres(numbers[1]),
        },
        psi: nanodegrees(numbers[2]),
    }
}

#[tactic(auto, unfolding(crate::specs::PlantFile::wind_at))]
pub(crate) fn wind_of(document: Option<&Value>) -> Result<WindTable, PlantFault>
    ensures { Gives (λ w. w) result (File.wind_at (seen document.entry)) }
{
    let wind = field(document, "wind");
    let rows: ArrayVec<[i64; 3], 12> = rows_at(wind, "wind", "push", 12, &[PUSH; 3])?;
    Ok(WindTable {
        push: all_twelve(rows.as_slice()),
    })
}

fn all_twelve(rows: &[[i64; 3]]) -> [[i64; 3]; 12]
    requires { length rows.now ≡ 12 }
    ensures { result ≡ rows.now }
{
    let mut all = [[0; 3]; 12];
    for (i, row) in rows.iter().enumerate() {
        all[i] = *row;
    }
    all
}
