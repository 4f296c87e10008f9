//! Gains and frames that the tests of several crates are about.
ghost use Rattle.std.specs.Prelude.{◌≡◌};
ghost use Rattle.dp_plant.specs.{IsYawGains};
ghost use Rattle.dp_machine.specs.Accepted.{IsAcceptedPlant};

use dp_alloc::first_refused;
use dp_cert::{Accepted, accept};
use dp_plant::{Plant, Slot, YawGains};
use dp_trig::Trig;
use std::process::Abort;

/// A plant's gains with their certificate, which are accepted as all its cases are.
pub fn accepted(rt: &impl Abort, plant: &Plant) -> Accepted
    ensures { IsAcceptedPlant plant.now result }
{
    assert!(rt; first_refused(plant, &Trig::new()).is_none());
    accept(&plant.gains, &plant.yaw, &plant.cert).expect(rt, "accepted gains")
}

/// The sample plants' gains in yaw.
pub fn yaw_gains() -> YawGains
    ensures { IsYawGains result }
{
    YawGains {
        k2: 67_108_864,
        k3: 20_972,
        k4: 1_677_722,
        kp: 167_772,
        kd: 26_843_546,
        leak: 1_342_177,
        damp: 1_342_177,
        bias: 20_000_000,
    }
}

/// What a wire says whose last reading this is, with no line damaged and none skipped.
pub fn heard<T: Copy>(last: Option<T>) -> Slot<T>
    ensures { result.last ≡ last }
{
    Slot {
        last,
        damage: 0,
        skipped: 0,
    }
}
