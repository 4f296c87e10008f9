//! What a state holds beside its lists.
ghost use Rattle.std.specs.Prelude.{◌≡◌, ◌<◌, ◌/◌, ◌^◌, pos, ◌≤ℤ◌, ◌<ℤ◌, unsigned_abs};
ghost use Rattle.dp_plant.specs.{turn};

use crate::State;
use dp_cert::Accepted;
use dp_cert::laws::rest_is_inside;
use dp_plant::{PlaneState, Plant, YawState};

/// What a state holds beside its lists.
#[derive(Clone, Copy, Debug, PartialEq, Eq)]
pub(crate) struct Estimates {
    pub count: u64,
    pub plane: PlaneState,
    pub yaw: YawState,
    pub heading: u32,
    pub wind: u32,
    pub lost: u8,
}

impl Estimates {
    ghost use Rattle.std.specs.Prelude.{◌≡◌};
    ghost use Rattle.dp_plant.specs.{IsSoundPlant};
    ghost use Rattle.dp_machine.specs.Accepted.{IsAcceptedPlant};
    ghost use Rattle.dp_machine.specs.Parts.{AreEstimates, estimates_of};
    ghost use Rattle.dp_machine.specs.Step.{first_state};

    /// Those of the plant's first state.
    #[tactic(auto, unfolding(crate::specs::Step::first_state))]
    pub(crate) fn first(plant: &Plant, accepted: &Accepted) -> Estimates
        requires plant { IsSoundPlant plant.now }
        requires accepted { IsAcceptedPlant plant.now accepted.now }
        ensures value { result ≡ estimates_of (first_state plant.now) }
        ensures within { AreEstimates plant.now result }
    {
        // a law: at rest at its start the plane is in the certified set
        rest_is_inside(accepted);
        Estimates {
            count: 0,
            plane: PlaneState::rest(plant.start.at),
            yaw: YawState {
                psi: plant.start.psi,
                beta: 0,
                rate: 0,
            },
            heading: hundredths_of(plant.start.psi),
            wind: 0,
            lost: 0,
        }
    }

    /// Those of a state.
    pub(crate) fn of(s: &State) -> Estimates
        ensures { result ≡ estimates_of s.now }
    {
        Estimates {
            count: s.count,
            plane: s.plane,
            yaw: s.yaw,
            heading: s.heading,
            wind: s.wind,
            lost: s.lost,
        }
    }
}

/// A heading in nanodegrees, in whole hundredths of a degree.
fn hundredths_of(psi: i64) -> u32
    requires low { pos 0 ≤ℤ psi }
    requires high { psi <ℤ turn }
    ensures value { result ≡ unsigned_abs psi / 10 ^ 7 }
    ensures within { result < 36000 }
{
    (psi / 10_000_000) as u32
}
