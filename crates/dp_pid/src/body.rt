//! A state's error, velocity and bias along the vessel's axes.
ghost use Rattle.std.specs.Prelude.{◌≡◌, ◌≤◌, ◌^◌, ◌-ℤ◌, unsigned_abs};
ghost use Rattle.dp_fixed.specs.{wrap_of};
ghost use Rattle.dp_plant.specs.{IsPair, IsPlaneSetpoint, IsPlaneWithin, IsVectorWithin, IsYawSetpoint, IsYawWithin, along_surge, along_sway, offset, turn};
ghost use Rattle.dp_pid.specs.Axis.{IsAlongWithin, IsTurnWithin};
ghost use Rattle.dp_pid.specs.Body.{surge_of, sway_of, yaw_of};

use crate::axis::Along;
use dp_fixed::{difference, less, product, sum, wrap_near};
use dp_plant::{Place, PlaneState, Setpoint, YawState};

/// 360 degrees in nanodegrees.
const TURN: i64 = 360_000_000_000;

/// What the plane's state is along surge and sway.
#[derive(Clone, Copy)]
pub(crate) struct Body {
    pub surge: Along,
    pub sway: Along,
}

/// What the plane's state is along surge and sway, each part times the scale.
pub(crate) fn in_body(setpoint: &Setpoint, pair: (i64, i64), x: &PlaneState) -> Body
    requires setpoint { IsPlaneSetpoint setpoint.now }
    requires pair { IsPair pair }
    requires state { IsPlaneWithin x.now }
    ensures surge { result.surge ≡ surge_of setpoint.now pair x.now }
    ensures sway { result.sway ≡ sway_of setpoint.now pair x.now }
    ensures surge_within { IsAlongWithin result.surge }
    ensures sway_within { IsAlongWithin result.sway }
{
    let error = offset(setpoint.at, x.eta);
    Body {
        surge: Along {
            error: along_surge(pair, error),
            velocity: along_surge(pair, x.vel),
            bias: along_surge(pair, x.beta),
        },
        sway: Along {
            error: along_sway(pair, error),
            velocity: along_sway(pair, x.vel),
            bias: along_sway(pair, x.beta),
        },
    }
}

/// What is between two places.
fn offset(from: Place, to: Place) -> Place
    requires from { IsVectorWithin (2 ^ 43) from }
    requires to { IsVectorWithin (2 ^ 56) to }
    ensures value { result ≡ offset from to }
    ensures bound { IsVectorWithin (2 ^ 57) result }
{
    Place {
        north: to.north - from.north,
        east: to.east - from.east,
    }
}

/// A vector's part ahead, times the scale.
#[tactic(auto, using(dp_plant::proofs::Pairs::shorts))]
fn along_surge(pair: (i64, i64), v: Place) -> i128
    requires pair { IsPair pair }
    requires vector { IsVectorWithin (2 ^ 57) v }
    ensures value { result ≡ along_surge pair v }
    ensures bound { unsigned_abs result ≤ 2 ^ 88 }
{
    sum(
        product(pair.0, v.north as i128),
        product(pair.1, v.east as i128),
    )
}

/// A vector's part to starboard, times the scale.
#[tactic(auto, using(dp_plant::proofs::Pairs::shorts))]
fn along_sway(pair: (i64, i64), v: Place) -> i128
    requires pair { IsPair pair }
    requires vector { IsVectorWithin (2 ^ 57) v }
    ensures value { result ≡ along_sway pair v }
    ensures bound { unsigned_abs result ≤ 2 ^ 88 }
{
    difference(
        product(pair.0, v.east as i128),
        product(pair.1, v.north as i128),
    )
}

/// What yaw's state is: the error is the nearer way round.
pub(crate) fn in_yaw(setpoint: &Setpoint, x: &YawState) -> Along
    requires setpoint { IsYawSetpoint setpoint.now }
    requires state { IsYawWithin x.now }
    ensures value { result ≡ yaw_of setpoint.now x.now }
    ensures within { IsTurnWithin result }
{
    Along {
        error: wrap_near(less(x.psi, setpoint.psi), TURN) as i128,
        velocity: x.rate as i128,
        bias: x.beta as i128,
    }
}
