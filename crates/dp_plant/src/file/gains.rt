ghost use Rattle.std.specs.Prelude.{codes};
ghost use Rattle.dp_plant.specs.Keys.{Gives, in_section, seen};
ghost use Rattle.dp_plant.specs.PlantFile as File;

use crate::keys::{field, number_at, numbers_at};
use crate::{Gains, PlantFault, YawGains};
use toml::Value;

/// The gains of the wave filter.
#[derive(Clone, Copy)]
pub(crate) struct WaveGains {
    pub(crate) wave: [i64; 4],
    pub(crate) k1: [i64; 2],
}

#[tactic(auto, unfolding(crate::specs::PlantFile::gains_at))]
pub(crate) fn gains_of(document: Option<&Value>, version: u8) -> Result<Gains, PlantFault>
    ensures { Gives (λ g. g) result (File.gains_at version (seen document.entry)) }
{
    let gains = field(document, "gains");
    let k2 = number_at(gains, "gains", "k2")?;
    let k3 = number_at(gains, "gains", "k3")?;
    let k4 = number_at(gains, "gains", "k4")?;
    let leak = number_at(gains, "gains", "leak")?;
    let damp = number_at(gains, "gains", "damp")?;
    let kp = numbers_at(gains, "gains", "kp")?;
    let kd = numbers_at(gains, "gains", "kd")?;
    let bias = numbers_at(gains, "gains", "bias")?;
    let WaveGains { wave, k1 } = waves_of(gains, version)?;
    Ok(Gains {
        k2,
        k3,
        k4,
        leak,
        damp,
        kp,
        kd,
        bias,
        wave,
        k1,
    })
}

/// A plant of version 1 has no wave filter.
#[tactic(auto, unfolding(crate::specs::PlantFile::waves_at))]
fn waves_of(gains: Option<&Value>, version: u8) -> Result<WaveGains, PlantFault>
    ensures { Gives (λ w. w) result (File.waves_at version (in_section (codes "gains") gains.entry)) }
{
    if version == 1 {
        return Ok(WaveGains {
            wave: [0; 4],
            k1: [0; 2],
        });
    }
    filter_of(gains)
}

#[tactic(auto, unfolding(crate::specs::PlantFile::filter_at))]
fn filter_of(gains: Option<&Value>) -> Result<WaveGains, PlantFault>
    ensures { Gives (λ w. w) result (File.filter_at (in_section (codes "gains") gains.entry)) }
{
    let wave = numbers_at(gains, "gains", "wave")?;
    let k1 = numbers_at(gains, "gains", "k1")?;
    Ok(WaveGains { wave, k1 })
}

#[tactic(auto, unfolding(crate::specs::PlantFile::yaw_at))]
pub(crate) fn yaw_of(document: Option<&Value>) -> Result<YawGains, PlantFault>
    ensures { Gives (λ g. g) result (File.yaw_at (seen document.entry)) }
{
    let yaw = field(document, "yaw");
    let k2 = number_at(yaw, "yaw", "k2")?;
    let kp = number_at(yaw, "yaw", "kp")?;
    let kd = number_at(yaw, "yaw", "kd")?;
    let k3 = number_at(yaw, "yaw", "k3")?;
    let k4 = number_at(yaw, "yaw", "k4")?;
    let leak = number_at(yaw, "yaw", "leak")?;
    let damp = number_at(yaw, "yaw", "damp")?;
    let bias = number_at(yaw, "yaw", "bias")?;
    Ok(YawGains {
        k2,
        k3,
        k4,
        kp,
        kd,
        leak,
        damp,
        bias,
    })
}
