//! One cycle: what is demanded, and the estimates after it.
ghost use Rattle.std.specs.Prelude.{◌≡◌, ◌<◌, ◌^◌, IfSome, Option, ℕ};
ghost use Rattle.dp_plant.specs.declared.place.Place.{Place};
ghost use Rattle.dp_plant.specs.{IsGustWithin, IsInBox, IsMeasuredPlace, IsPair, IsPlaneWithin, IsSetpointWithin, IsSoundPlant, box_of, case_of};
ghost use Rattle.dp_alloc.specs.{IsDemandWithin, cases_of};
ghost use Rattle.dp_pid.specs.{IsWindPush};
ghost use Rattle.dp_machine.specs.Accepted.{IsAcceptedPlant};
ghost use Rattle.dp_machine.specs.Parts.{AreEstimates, estimates_by, limited_cycle, plane_cycle, yaw_cycle};
ghost use Rattle.dp_machine.specs.Step.{limited_by, plane_by, push_by, whole_demand, yaw_by};

use crate::advance::{count_on, move_plane, move_yaw};
use crate::estimates::Estimates;
use crate::sensed::Sensed;
use dp_alloc::Cases;
use dp_cert::Accepted;
use dp_cert::laws::inside_is_narrow;
use dp_pid::{Asked, issue, wind_push};
use dp_plant::{Gust, Place, Plant, Setpoint};

/// What a cycle demands of surge, sway and yaw, and which of them its box limits.
#[derive(Clone, Copy, Debug, PartialEq, Eq)]
pub(crate) struct Cycle {
    pub demand: [i64; 3],
    pub limited: [bool; 3],
}

impl Cycle {
    /// The cycle at a setpoint, by what is sensed, the sine pair of the heading, and the measured place. It brings the estimates to the
    /// next cycle, where they lie.
    pub(crate) fn of(
        plant: &Plant,
        accepted: &Accepted,
        cases: &Cases,
        at: &Setpoint,
        now: &mut Estimates,
        sensed: Sensed,
        pair: (i64, i64),
        place: Option<Place>,
    ) -> Cycle
        requires plant { IsSoundPlant plant.now }
        requires accepted { IsAcceptedPlant plant.now accepted.now }
        requires cases { cases.now ≡ cases_of plant.now }
        requires setpoint { IsSetpointWithin at.now }
        requires now { AreEstimates plant.now now.old }
        requires count { now.old.count < 2 ^ 20 }
        requires heading { IfSome sensed.heading (λ a. a < 36000) }
        requires gust { IfSome sensed.gust IsGustWithin }
        requires lost { sensed.lost < 2 ^ plant.now.groups }
        requires pair { IsPair pair }
        requires place { IfSome place IsMeasuredPlace }
        ensures demand { result.demand ≡ whole_demand
            (plane_cycle plant.now at.now now.old sensed pair place)
            (yaw_cycle plant.now at.now now.old sensed) }
        ensures limited { result.limited ≡ limited_cycle plant.now at.now now.old sensed pair }
        ensures next { now.new ≡ estimates_by now.old sensed
            (plane_cycle plant.now at.now now.old sensed pair place).next
            (yaw_cycle plant.now at.now now.old sensed).next }
        ensures in_box { IsInBox (box_of (case_of plant.now sensed.lost)) result.demand }
        ensures whole { IsDemandWithin result.demand }
        ensures within { AreEstimates plant.now now.new }
    {
        // a law: the plane is within the control law's range
        inside_is_narrow(accepted);
        let wind = push_by(plant, sensed.gust);
        let Asked { a: demand, limited } = asked_of(plant, cases, at, now, sensed.lost, pair, wind);
        move_plane(&mut now.plane, plant, accepted, place, demand, wind, pair);
        move_yaw(&mut now.yaw, plant, sensed.heading, demand, wind);
        count_on(now, sensed);
        Cycle { demand, limited }
    }
}

/// What the wind pushes on surge, sway and yaw.
#[tactic(auto, unfolding(crate::specs::Step::push_by))]
fn push_by(plant: &Plant, gust: Option<Gust>) -> [i64; 3]
    requires plant { IsSoundPlant plant.now }
    requires gust { IfSome gust IsGustWithin }
    ensures value { result ≡ push_by plant.now gust }
    ensures within { IsWindPush result }
{
    match gust {
        Some(gust) => wind_push(&plant.wind, gust.angle, gust.speed),
        None => [0; 3],
    }
}

/// What is demanded of surge, sway and yaw while a set of groups is lost, and which of them the box limits.
#[tactic(auto, unfolding(crate::specs::Step::plane_by, crate::specs::Step::yaw_by, crate::specs::Step::limited_by))]
fn asked_of(
    plant: &Plant,
    cases: &Cases,
    at: &Setpoint,
    now: &Estimates,
    lost: u8,
    pair: (i64, i64),
    wind: [i64; 3],
) -> Asked
    requires plant { IsSoundPlant plant.now }
    requires cases { cases.now ≡ cases_of plant.now }
    requires setpoint { IsSetpointWithin at.now }
    requires now { AreEstimates plant.now now.now }
    requires plane { IsPlaneWithin now.now.plane }
    requires pair { IsPair pair }
    requires wind { IsWindPush wind }
    ensures demand { (y : Option Place) (h : Option ℕ) → result.a ≡ whole_demand
        (plane_by plant.now at.now lost pair wind now.now.plane y)
        (yaw_by plant.now at.now lost wind now.now.yaw h) }
    ensures limited { result.limited
        ≡ limited_by plant.now at.now lost pair wind now.now.plane now.now.yaw }
    ensures in_box { IsInBox (box_of (case_of plant.now lost)) result.a }
    ensures within { IsDemandWithin result.a }
{
    let bounds = cases.bounds(lost);
    issue(
        &plant.gains,
        &plant.yaw,
        &bounds,
        &now.plane,
        &now.yaw,
        at,
        pair,
        wind,
    )
}
