//! The estimates after a cycle.
ghost use Rattle.std.specs.Prelude.{◌≡◌, ◌≤◌, ◌<◌, ◌^◌, ◌+ℤ◌, IfSome, unwrap_or, unsigned_abs};
ghost use Rattle.std.specs.Option.{option_map};
ghost use Rattle.dp_plant.specs.{IsGustWithin, IsMeasuredPlace, IsPair, IsPush, IsSoundPlant, IsYawPush, entry, plane_next, push_of, yaw_next};
ghost use Rattle.dp_cert.specs.{IsInCertifiedSet};
ghost use Rattle.dp_pid.specs.{IsWindPush};
ghost use Rattle.dp_alloc.specs.{IsDemandWithin};
ghost use Rattle.dp_machine.specs.{IsAcceptedPlant, IsYawInRange, estimates_by};

use crate::estimates::Estimates;
use crate::sensed::Sensed;
use dp_cert::Accepted;
use dp_cert::laws::{cycle_stays_inside, inside_is_narrow};
use dp_fixed::more;
use dp_observer::{plane, yaw};
use dp_plant::{Gust, Place, PlaneState, Plant, YawState};

/// The plane moves by a cycle: it stays in the certified set.
pub(crate) fn move_plane(
    plane: &mut PlaneState,
    plant: &Plant,
    accepted: &Accepted,
    place: Option<Place>,
    demand: [i64; 3],
    wind: [i64; 3],
    pair: (i64, i64),
)
    requires plant { IsSoundPlant plant.now }
    requires accepted { IsAcceptedPlant plant.now accepted.now }
    requires plane { IsInCertifiedSet plant.now.cert plane.old }
    requires place { IfSome place IsMeasuredPlace }
    requires demand { IsDemandWithin demand }
    requires wind { IsWindPush wind }
    requires pair { IsPair pair }
    ensures value { plane.new
        ≡ plane_next plant.now.gains plane.old place (push_of demand wind) pair }
    ensures inside { IsInCertifiedSet plant.now.cert plane.new }
{
    // laws: the next state is in the set too, so within the observer's range
    cycle_stays_inside(accepted);
    inside_is_narrow(accepted);
    plane::update(plane, &plant.gains, place, push_of(demand, wind), pair);
}

/// Yaw moves by a cycle: it stays in its ranges.
pub(crate) fn move_yaw(
    yaw: &mut YawState,
    plant: &Plant,
    heading: Option<u32>,
    demand: [i64; 3],
    wind: [i64; 3],
)
    requires plant { IsSoundPlant plant.now }
    requires yaw { IsYawInRange yaw.old }
    requires heading { IfSome heading (λ a. a < 36000) }
    requires demand { IsDemandWithin demand }
    requires wind { IsWindPush wind }
    ensures value { yaw.new
        ≡ yaw_next plant.now.yaw yaw.old heading (entry demand 2 +ℤ entry wind 2) }
    ensures within { IsYawInRange yaw.new }
{
    yaw::update(yaw, &plant.yaw, heading, turning_push(demand, wind));
}

/// What pushes in surge and sway: the demand and the wind together.
fn push_of(demand: [i64; 3], wind: [i64; 3]) -> [i64; 2]
    requires demand { IsDemandWithin demand }
    requires wind { IsWindPush wind }
    ensures value { result ≡ push_of demand wind }
    ensures within { IsPush result }
{
    [more(demand[0], wind[0]), more(demand[1], wind[1])]
}

/// What pushes in yaw.
fn turning_push(demand: [i64; 3], wind: [i64; 3]) -> i64
    requires demand { IsDemandWithin demand }
    requires wind { IsWindPush wind }
    ensures value { result ≡ entry demand 2 +ℤ entry wind 2 }
    ensures within { IsYawPush result }
{
    more(demand[2], wind[2])
}

/// The estimates of the next cycle beside plane and yaw, by what is sensed.
pub(crate) fn count_on(now: &mut Estimates, sensed: Sensed)
    requires count { now.old.count < 2 ^ 20 }
    requires heading { IfSome sensed.heading (λ a. a < 36000) }
    requires gust { IfSome sensed.gust IsGustWithin }
    requires last_heading { now.old.heading < 36000 }
    requires last_wind { now.old.wind < 36000 }
    ensures value { now.new ≡ estimates_by now.old sensed now.old.plane now.old.yaw }
    ensures heading { now.new.heading < 36000 }
    ensures wind { now.new.wind < 36000 }
{
    now.count += 1;
    now.heading = sensed.heading.unwrap_or(now.heading);
    now.wind = angle_of(sensed.gust, now.wind);
    now.lost = sensed.lost;
}

/// The angle of the wind, or what it was where none is known.
fn angle_of(gust: Option<Gust>, wind: u32) -> u32
    requires gust { IfSome gust IsGustWithin }
    requires wind { wind < 36000 }
    ensures value { result ≡ unwrap_or (option_map (λ g. g.angle) gust) wind }
    ensures within { result < 36000 }
{
    match gust {
        Some(gust) => gust.angle,
        None => wind,
    }
}
