//! One cycle of the plane's observer.
ghost use Rattle.std.specs.Prelude.{◌≡◌, ◌≤◌, ◌^◌, unsigned_abs, IfSome, Some};
ghost use Rattle.dp_plant.specs.{IsMeasuredPlace, IsObserverGains, IsPair, IsPlaneWithin, IsPush, along_east, along_north, plane_next};

use crate::component::component;
use dp_fixed::{difference, product, sum};
use dp_plant::{Gains, Place, PlaneState};

/// Takes one cycle: the measured place, if there is one, what pushes in body axes, and the sine pair of the heading. Each coordinate of the
/// next state has to lie within ±2^56, which it does where the gains have a certificate (`dp_cert::laws`).
pub fn update(x: &mut PlaneState, gains: &Gains, y: Option<Place>, push: [i64; 2], pair: (i64, i64))
    requires gains { IsObserverGains gains.now }
    requires state { IsPlaneWithin x.old }
    requires place { IfSome y (λ p. IsMeasuredPlace p) }
    requires push { IsPush push }
    requires pair { IsPair pair }
    requires next { IsPlaneWithin (plane_next gains.now x.old y push pair) }
    ensures { x.new ≡ plane_next gains.now x.old y push pair }
{
    let Some(place) = y else {
        return;
    };
    *x = next(x, gains, place, push, pair);
}

/// A cycle later, by the measured place.
fn next(x: &PlaneState, gains: &Gains, place: Place, push: [i64; 2], pair: (i64, i64)) -> PlaneState
    requires gains { IsObserverGains gains.now }
    requires state { IsPlaneWithin x.now }
    requires place { IsMeasuredPlace place }
    requires push { IsPush push }
    requires pair { IsPair pair }
    requires next { IsPlaneWithin (plane_next gains.now x.now (Some place) push pair) }
    ensures { result ≡ plane_next gains.now x.now (Some place) push pair }
{
    let north = component(gains, x.north(), place.north, north_push(pair, push));
    let east = component(gains, x.east(), place.east, east_push(pair, push));
    PlaneState::of(north, east)
}

/// The part to the north of what pushes in body axes.
#[tactic(auto, using(dp_plant::proofs::Pairs::shorts))]
fn north_push(pair: (i64, i64), push: [i64; 2]) -> i128
    requires push { IsPush push }
    requires pair { IsPair pair }
    ensures value { result ≡ along_north pair push }
    ensures bound { unsigned_abs result ≤ 2 ^ 92 }
{
    difference(
        product(pair.0, push[0] as i128),
        product(pair.1, push[1] as i128),
    )
}

/// The part to the east.
#[tactic(auto, using(dp_plant::proofs::Pairs::shorts))]
fn east_push(pair: (i64, i64), push: [i64; 2]) -> i128
    requires push { IsPush push }
    requires pair { IsPair pair }
    ensures value { result ≡ along_east pair push }
    ensures bound { unsigned_abs result ≤ 2 ^ 92 }
{
    sum(
        product(pair.1, push[0] as i128),
        product(pair.0, push[1] as i128),
    )
}
