ghost use Rattle.std.specs.Prelude.{◌≡◌, option_copied};
ghost use Rattle.dp_plant.specs.PlantRanges.{IsWithinFile, within_file};

use crate::lists::copied;
use crate::{Cert, Gains, P2, RawCase, RefLimits, Setpoint, Thruster, WindTable, YawGains};
use arrayvec::ArrayVec;

/// A vessel, its references and thrusters, and how it is to be controlled. Each number is within the range of its key in a plant file,
/// but for the gains and the certificate.
///
/// `cycle_ms` is a cycle's length in milliseconds (100 to 10000). `origin` is the latitude and longitude of the local frame's origin,
/// in 10^-7 minutes. `start` is the place and heading before the first cycle, `setpoint` where the vessel is to be kept. `groups` is
/// the number of groups of thrusters (1 to 8). `mass` and `tol` are, for surge, sway and yaw, the force (newtons; for yaw N mm) for
/// each unit of acceleration and the error that a case may make in it, over 2^20 (0 to 2^40). `levers` are the references' lever
/// arms ahead and to starboard of the vessel's origin, in mm (within ±500000). There are 1 to 12 thrusters, each of one of the groups,
/// and no two cases for one set of lost groups; there is a case where none is lost, and where any single one is. Version 1 has gains
/// without a wave filter and a certificate of three states, version 2 one of five.
#[derive(Debug, Drop)]
pub struct Plant {
    pub version: u8,
    pub cycle_ms: u64,
    pub origin: [i64; 2],
    pub start: Setpoint,
    pub setpoint: Setpoint,
    pub groups: u8,
    pub mass: [i64; 3],
    pub tol: [i64; 3],
    pub refs: [RefLimits; 3],
    pub levers: [P2; 3],
    pub wind: WindTable,
    pub thrusters: ArrayVec<Thruster, 12>,
    pub cases: ArrayVec<RawCase, 32>,
    pub gains: Gains,
    pub yaw: YawGains,
    pub cert: Cert,
    pub ghost within: { IsWithinFile version cycle_ms origin start setpoint groups mass tol refs levers
        wind thrusters.items cases.items gains cert.parts } by { Prim.hlevel within_file },
}

fn copied_cases(cases: &ArrayVec<RawCase, 32>) -> ArrayVec<RawCase, 32>
    ensures { result.items ≡ cases.now.items }
{
    let mut copy = ArrayVec::new();
    for case in cases.as_slice() {
        copy.push(case.copy());
    }
    copy
}

impl Plant {
    ghost use Rattle.std.specs.Prelude.{IfSome, length};
    ghost use Rattle.dp_plant.specs.Cases.{case_of};
    ghost use Rattle.dp_plant.specs.PlantRanges.{IsCaseWithin};

    /// The case in which just the groups of a mask are lost.
    #[tactic(auto, using(crate::proofs::PlantFacts::plant_cases))]
    pub fn case_of(&self, lost: u8) -> Option<&RawCase>
        ensures value { option_copied result ≡ case_of self.now lost }
        ensures within { IfSome result (λ c. IsCaseWithin (length self.now.thrusters.items) c.now) }
    {
        self.cases.as_slice().iter().find(|case| case.lost == lost)
    }

    /// An equal plant, which takes no memory: each field is equal, and each list has the same items.
    pub fn copy(&self) -> Self
        ensures { result ≡ self.now }
    {
        Plant {
            version: self.version,
            cycle_ms: self.cycle_ms,
            origin: self.origin,
            start: self.start,
            setpoint: self.setpoint,
            groups: self.groups,
            mass: self.mass,
            tol: self.tol,
            refs: self.refs,
            levers: self.levers,
            wind: self.wind,
            thrusters: copied(&self.thrusters),
            cases: copied_cases(&self.cases),
            gains: self.gains,
            yaw: self.yaw,
            cert: self.cert.copy(),
        }
    }
}
