//! The local frame: places in nanometres north and east of an origin.
ghost use Rattle.std.specs.Prelude.{◌≡◌, ◌^◌, ◌≤◌, ◌-ℤ◌, ◌*ℤ◌, IfSome, pos, unsigned_abs};
ghost use Rattle.dp_fixed.specs.{floor_of, full_scale, wrap_of};
ghost use Rattle.dp_plant.specs.{IsVectorWithin};
ghost use Rattle.dp_frame.specs.LocalFrame as LocalFrame;
ghost use Rattle.dp_frame.specs.LocalFrame.{IsCosineAt, IsOrigin, local_of, origin_of};

use dp_fixed::{Q, difference, floor_div, less, narrow, product, wrap, wrap_near};
use dp_plant::{Place, Plant};
use dp_trig::Trig;
use std::marker::Model;

/// The length of 10^-7 minute of latitude in nanometres.
const ARC_LENGTH: i64 = 185_200;

/// All degrees of longitude, in 10^-7 minutes.
const WHOLE_TURN: i64 = 216_000_000_000;

/// A hundredth of a degree, in 10^-7 minutes.
const HUNDREDTH: u64 = 6_000_000;

/// How far a coordinate may be from the origin, in nanometres.
const LIMIT: u64 = 1 << 43;

/// No angle is above this, in 10^-7 minutes.
const MOST: u64 = 1 << 37;

/// The origin of the local frame; a contract sees its latitude and longitude, in 10^-7 minutes.
///
/// A place is north of the origin by 1852 m for each minute of latitude, and east of it by the same for each minute of longitude, times
/// the cosine of the origin's latitude: the frame is flat, and every parallel in it is as long as the origin's.
#[derive(Debug, Drop)]
pub struct Origin {
    lat: i64,
    lon: i64,
    cosine: i64,
}

impl Model for Origin {
    ghost use Rattle.std.specs.Prelude.{ℤ};

    ghost Value = { ℤ × ℤ };

    ghost use Rattle.dp_frame.specs.LocalFrame.{IsCosineAt, IsOrigin};

    ghost view = { λ o. (o.lat, o.lon) };

    ghost invariant = { λ o. IsOrigin (o.lat, o.lon) × IsCosineAt o.lat o.cosine };
}

impl Origin {
    /// The origin of a plant's frame.
    pub fn of(plant: &Plant, trig: &Trig) -> Origin
        requires { IsOrigin (origin_of plant.now) }
        ensures { result ≡ origin_of plant.now }
    {
        let lat = plant.origin[0];
        Origin {
            lat,
            lon: plant.origin[1],
            cosine: cosine_of(lat, trig),
        }
    }

    /// The place of a latitude and a longitude in 10^-7 minutes, north and east above 0; `None` where a coordinate lies farther than
    /// 2^43 nm (about 8.8 km) from the origin.
    ///
    /// The longitude counts the short way round, so a frame may lie across the date line. The cosine is that of the origin's latitude in
    /// whole hundredths of a degree, and the eastward distance is rounded down to a whole nanometre.
    #[tactic(auto, unfolding(crate::specs::LocalFrame::local_of))]
    pub fn local(&self, lat: i64, lon: i64) -> Option<Place>
        ensures value { result ≡ local_of self.now lat lon }
        ensures within { IfSome result (λ p. IsVectorWithin (2 ^ 43) p) }
    {
        place_from(self.lat, self.lon, self.cosine, lat, lon)
    }
}

/// The place of a latitude and a longitude, seen from an origin's, where parallels have this cosine.
#[tactic(auto, using(crate::proofs::FarNorth::far_north))]
fn place_from(lat0: i64, lon0: i64, cosine: i64, lat: i64, lon: i64) -> Option<Place>
    requires lat0 { unsigned_abs lat0 ≤ 53400000000 }
    requires lon0 { unsigned_abs lon0 ≤ 2 ^ 37 }
    requires cosine { unsigned_abs cosine ≤ 2 ^ 30 }
    ensures value { result ≡ LocalFrame.place_in_frame (LocalFrame.northing lat0 lat)
        (LocalFrame.easting cosine lon0 lon) }
    ensures within { IfSome result (λ p. IsVectorWithin (2 ^ 43) p) }
{
    if lat.unsigned_abs() > MOST {
        return None;
    }
    place_in_frame(northing(lat0, lat), easting(cosine, lon0, lon))
}

/// The cosine of a latitude, from the sine pairs of whole hundredths of a degree.
fn cosine_of(lat: i64, trig: &Trig) -> i64
    requires { unsigned_abs lat ≤ 53400000000 }
    ensures { IsCosineAt lat result }
{
    let (cosine, _) = trig.pair((lat.unsigned_abs() / HUNDREDTH) as u32);
    cosine
}

/// How far `lat` is north of `lat0`.
fn northing(lat0: i64, lat: i64) -> i64
    requires origin { unsigned_abs lat0 ≤ 2 ^ 37 }
    requires place { unsigned_abs lat ≤ 2 ^ 37 }
    ensures { result ≡ LocalFrame.northing lat0 lat }
{
    along(less(lat, lat0))
}

/// How far `lon` is east of `lon0` along a parallel whose cosine this is.
fn easting(cosine: i64, lon0: i64, lon: i64) -> i64
    requires cosine { unsigned_abs cosine ≤ 2 ^ 30 }
    requires origin { unsigned_abs lon0 ≤ 2 ^ 37 }
    ensures { result ≡ LocalFrame.easting cosine lon0 lon }
{
    shortened(cosine, along(nearest(lon0, lon)))
}

/// The length of an angle along the equator, in nanometres.
fn along(minutes: i64) -> i64
    requires { unsigned_abs minutes ≤ 2 ^ 38 }
    ensures value { result ≡ LocalFrame.arc_length *ℤ minutes }
    ensures bound { unsigned_abs result ≤ 2 ^ 56 }
{
    ARC_LENGTH * minutes
}

/// A length along the equator, shortened to a parallel of this cosine, and rounded down.
fn shortened(cosine: i64, length: i64) -> i64
    requires cosine { unsigned_abs cosine ≤ 2 ^ 30 }
    requires length { unsigned_abs length ≤ 2 ^ 56 }
    ensures { result ≡ floor_of (cosine *ℤ length) full_scale }
{
    narrow(floor_div(product(cosine, length as i128), Q))
}

/// How far `lon` is from `lon0`, the short way round.
fn nearest(lon0: i64, lon: i64) -> i64
    requires origin { unsigned_abs lon0 ≤ 2 ^ 37 }
    ensures value { result ≡ wrap_of (lon -ℤ lon0) (pos 216000000000) }
    ensures bound { unsigned_abs result ≤ 2 ^ 37 }
{
    if lon.unsigned_abs() <= MOST {
        wrap_near(less(lon, lon0), WHOLE_TURN)
    } else {
        narrow(wrap(difference(lon as i128, lon0 as i128), WHOLE_TURN as i128))
    }
}

/// The place with these coordinates, if both lie in the frame.
fn place_in_frame(north: i64, east: i64) -> Option<Place>
    ensures value { result ≡ LocalFrame.place_in_frame north east }
    ensures within { IfSome result (λ p. IsVectorWithin (2 ^ 43) p) }
{
    if north.unsigned_abs() <= LIMIT && east.unsigned_abs() <= LIMIT {
        Some(Place { north, east })
    } else {
        None
    }
}
