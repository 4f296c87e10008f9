ghost use Rattle.std.specs.Prelude.{◌≡◌, ◌≤◌, ◌^◌, ◌*◌, All, IfSome, pos, ◌-ℤ◌, ◌+ℤ◌, ◌*ℤ◌, unsigned_abs, []};
ghost use Rattle.std.specs.List.{AllByRecursion, cons_option};
ghost use Rattle.std.specs.Option.{option_map};
ghost use Rattle.dp_fixed.specs.{floor_of, full_scale, mid3_of};
ghost use Rattle.dp_plant.specs.{IsLever, IsMeasuredPlace, IsPair, IsVectorWithin};
ghost use Rattle.dp_fuse.specs.Places.{arm_east, arm_north, fused_place, fused_position, origin_by, origins_by, place_in, place_of, weighted_east, weighted_north, without_lever};
ghost use Rattle.dp_fuse.specs.Ranges.{IsUsable, IsVerdictWithin, IsWeighted, IsWeightedPlace};

use crate::weighted::{Weighted, fuse};
use dp_fixed::{Q, floor_div, less, middle, more, narrow, product};
use dp_plant::{P2, Place, Verdict};

/// Where the vessel is, by how many usable references: the place of its origin in nm, within ±2^44.
#[derive(Clone, Copy, Debug, PartialEq, Eq)]
pub enum Fused {
    /// Of three, in each coordinate the middle.
    Three(Place),
    /// Of two, in each coordinate the weighted mean, rounded down.
    Two(Place),
    /// The place of the only usable reference.
    One(Place),
    /// No reference is usable.
    Blind,
}

impl Fused {
    /// The place, however many references it is made of.
    pub fn place(self) -> Option<Place>
        ensures { result ≡ place_in self }
    {
        match self {
            Fused::Three(at) | Fused::Two(at) | Fused::One(at) => Some(at),
            Fused::Blind => None,
        }
    }
}

/// Where a usable reference says that the vessel is, and how much it counts.
#[derive(Clone, Copy, Debug, PartialEq, Eq)]
pub struct WeightedPlace {
    pub weight: i64,
    pub at: Place,
}

/// Where the vessel is, by what the tests say of the three position references.
///
/// From each usable place its lever arm is taken off, in mm ahead and to starboard (within ±500000), by the sine pair of the heading,
/// cosine first. A usable verdict has a place within ±2^43 nm and a weight from 1 to 2^20.
pub fn position(v: &[Verdict; 3], levers: &[P2; 3], pair: (i64, i64)) -> Fused
    requires verdicts { AllByRecursion IsVerdictWithin v.now }
    requires levers { All IsLever levers.now }
    requires pair { IsPair pair }
    ensures value { result ≡ fused_position (origins_by pair levers.now v.now) }
    ensures place { place_in result ≡ fused_place (origins_by pair levers.now v.now) }
    ensures within { IfSome (place_in result) IsMeasuredPlace }
{
    fused_by(
        origin(pair, levers[0], v[0]),
        origin(pair, levers[1], v[1]),
        origin(pair, levers[2], v[2]),
    )
}

/// Where the vessel is, by where each reference that is there says that it is.
fn fused_by(a: Option<WeightedPlace>, b: Option<WeightedPlace>, c: Option<WeightedPlace>) -> Fused
    requires first { IfSome a IsWeightedPlace }
    requires second { IfSome b IsWeightedPlace }
    requires third { IfSome c IsWeightedPlace }
    ensures value { result ≡ fused_position (cons_option a (cons_option b (cons_option c []))) }
    ensures place { place_in result
        ≡ fused_place (cons_option a (cons_option b (cons_option c []))) }
    ensures within { IfSome (place_in result) IsMeasuredPlace }
{
    match (a, b, c) {
        (Some(a), Some(b), Some(c)) => Fused::Three(middle_place(a.at, b.at, c.at)),
        _ => fused_by_fewer(a, b, c),
    }
}

/// Of three places, in each coordinate the middle.
fn middle_place(a: Place, b: Place, c: Place) -> Place
    requires first { IsMeasuredPlace a }
    requires second { IsMeasuredPlace b }
    requires third { IsMeasuredPlace c }
    ensures value { result ≡ record
        { north = mid3_of a.north b.north c.north; east = mid3_of a.east b.east c.east } }
    ensures within { IsMeasuredPlace result }
{
    Place {
        north: middle(a.north, b.north, c.north),
        east: middle(a.east, b.east, c.east),
    }
}

/// The same, where most often not all three are there.
#[cold]
#[inline(never)]
fn fused_by_fewer(
    a: Option<WeightedPlace>,
    b: Option<WeightedPlace>,
    c: Option<WeightedPlace>,
) -> Fused
    requires first { IfSome a IsWeightedPlace }
    requires second { IfSome b IsWeightedPlace }
    requires third { IfSome c IsWeightedPlace }
    ensures value { result ≡ fused_position (cons_option a (cons_option b (cons_option c []))) }
    ensures place { place_in result
        ≡ fused_place (cons_option a (cons_option b (cons_option c []))) }
    ensures within { IfSome (place_in result) IsMeasuredPlace }
{
    match (fused_place(a, b, c), (a, b, c)) {
        (Some(at), (Some(_), Some(_), Some(_))) => Fused::Three(at),
        (Some(at), (Some(_), None, None) | (None, Some(_), None) | (None, None, Some(_))) => {
            Fused::One(at)
        }
        (Some(at), _) => Fused::Two(at),
        (None, _) => Fused::Blind,
    }
}

/// The place of each coordinate by itself.
fn fused_place(
    a: Option<WeightedPlace>,
    b: Option<WeightedPlace>,
    c: Option<WeightedPlace>,
) -> Option<Place>
    requires first { IfSome a IsWeightedPlace }
    requires second { IfSome b IsWeightedPlace }
    requires third { IfSome c IsWeightedPlace }
    ensures value { result ≡ fused_place (cons_option a (cons_option b (cons_option c []))) }
    ensures within { IfSome result IsMeasuredPlace }
{
    let north = fuse(weighted_north(a), weighted_north(b), weighted_north(c))?;
    let east = fuse(weighted_east(a), weighted_east(b), weighted_east(c))?;
    Some(Place { north, east })
}

fn weighted_north(p: Option<WeightedPlace>) -> Option<Weighted>
    requires { IfSome p IsWeightedPlace }
    ensures value { result ≡ option_map weighted_north p }
    ensures within { IfSome result IsWeighted }
{
    match p {
        Some(p) => Some(Weighted {
            weight: p.weight,
            value: p.at.north,
        }),
        None => None,
    }
}

fn weighted_east(p: Option<WeightedPlace>) -> Option<Weighted>
    requires { IfSome p IsWeightedPlace }
    ensures value { result ≡ option_map weighted_east p }
    ensures within { IfSome result IsWeighted }
{
    match p {
        Some(p) => Some(Weighted {
            weight: p.weight,
            value: p.at.east,
        }),
        None => None,
    }
}

/// Where a reference says that the vessel is, if it is usable.
fn origin(pair: (i64, i64), lever: P2, verdict: Verdict) -> Option<WeightedPlace>
    requires pair { IsPair pair }
    requires lever { IsLever lever }
    requires verdict { IsVerdictWithin verdict }
    ensures value { result ≡ origin_by pair lever verdict }
    ensures within { IfSome result IsWeightedPlace }
{
    match verdict {
        Verdict::Usable { at, weight } => Some(WeightedPlace {
            weight: weight as i64,
            at: without_lever(pair, lever, at),
        }),
        _ => None,
    }
}

/// The place of the vessel's origin, by that of a reference and its lever arm.
fn without_lever(pair: (i64, i64), lever: P2, at: Place) -> Place
    requires pair { IsPair pair }
    requires lever { IsLever lever }
    requires place { IsVectorWithin (2 ^ 43) at }
    ensures value { result ≡ without_lever pair lever at }
    ensures within { IsMeasuredPlace result }
{
    Place {
        north: less(at.north, arm_north(pair, lever)),
        east: less(at.east, arm_east(pair, lever)),
    }
}

/// How far north a lever arm reaches, in nm.
#[tactic(auto, using(dp_plant::proofs::Pairs::shorts), unfolding(crate::specs::Places::arm_north))]
fn arm_north(pair: (i64, i64), lever: P2) -> i64
    requires pair { IsPair pair }
    requires lever { IsLever lever }
    ensures value { result ≡ arm_north pair lever }
    ensures bound { unsigned_abs result ≤ 2 ^ 40 }
{
    let ahead = turned(pair.0, lever.0);
    let starboard = turned(pair.1, lever.1);
    nanometres(less(ahead, starboard))
}

/// How far east it reaches, in nm.
#[tactic(auto, using(dp_plant::proofs::Pairs::shorts), unfolding(crate::specs::Places::arm_east))]
fn arm_east(pair: (i64, i64), lever: P2) -> i64
    requires pair { IsPair pair }
    requires lever { IsLever lever }
    ensures value { result ≡ arm_east pair lever }
    ensures bound { unsigned_abs result ≤ 2 ^ 40 }
{
    let ahead = turned(pair.1, lever.0);
    let starboard = turned(pair.0, lever.1);
    nanometres(more(ahead, starboard))
}

/// A part of a lever arm times a part of a sine pair.
fn turned(share: i64, part: i64) -> i64
    requires share { unsigned_abs share ≤ 2 ^ 30 }
    requires part { unsigned_abs part ≤ 500000 }
    ensures value { result ≡ share *ℤ part }
    ensures bound { unsigned_abs result ≤ 2 ^ 30 * 500000 }
{
    narrow(product(share, part as i128))
}

/// Millimetres times the scale, in whole nanometres.
fn nanometres(millimetres: i64) -> i64
    requires { unsigned_abs millimetres ≤ 2 ^ 30 * 1000000 }
    ensures value { result ≡ floor_of (pos (10 ^ 6) *ℤ millimetres) full_scale }
    ensures bound { unsigned_abs result ≤ 2 ^ 40 }
{
    narrow(floor_div(millionfold(millimetres), Q))
}

fn millionfold(x: i64) -> i128
    requires { unsigned_abs x ≤ 2 ^ 30 * 1000000 }
    ensures value { result ≡ pos (10 ^ 6) *ℤ x }
    ensures bound { unsigned_abs result ≤ 2 ^ 30 * 1000000000000 }
{
    1_000_000 * x as i128
}
