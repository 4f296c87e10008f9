//! The two conditions on a case.
ghost use Rattle.std.specs.Prelude.{◌≡◌, ◌≤◌, ◌<◌, length, map, All};
ghost use Rattle.dp_plant.specs.{
  AreMasses,
  IsCaseWithin,
  IsPlaneBox,
  IsShareRow,
  IsThrusterWithin,
  IsYawBox,
  is_lost,
};
ghost use Rattle.dp_alloc.specs.Conditions.{case_fault, first_off, first_over, limits_of, off_axis, off_demand, over};

use crate::CaseFault;
use crate::balance::{error_of, scaled};
use crate::corners::{greatest_thrust, least_thrust};
use arrayvec::ArrayVec;
use dp_plant::{Box3, Plant, RawCase, Thruster};
use dp_trig::Trig;

/// The first condition that a case of a plant fails.
#[tactic(auto, using(dp_plant::proofs::PlantFacts::plant_thrusters, dp_plant::proofs::PlantFacts::plant_within), unfolding(crate::specs::Conditions::case_fault))]
pub(crate) fn case_fault(raw: &RawCase, plant: &Plant, trig: &Trig) -> Option<CaseFault>
    requires { IsCaseWithin (length plant.now.thrusters.items) raw.now }
    ensures { result ≡ case_fault plant.now raw.now }
{
    let thrusters = plant.thrusters.as_slice();
    let rows = raw.b.as_slice();
    let limits = all_limits(raw.lost, thrusters);
    let over = first_over(&raw.bounds, limits.as_slice(), rows);
    over.or(first_off(trig, &plant.mass, &plant.tol, thrusters, rows))
}

/// The limits of each thruster while groups are lost.
pub(crate) fn all_limits(lost: u8, thrusters: &[Thruster]) -> ArrayVec<(i64, i64), 12>
    requires thrusters { All IsThrusterWithin thrusters.now }
    requires few { length thrusters.now ≤ 12 }
    ensures { result.items ≡ map (limits_of lost) thrusters.now }
{
    let mut limits = ArrayVec::new();
    for thruster in thrusters {
        limits.push(limits_of(lost, thruster));
    }
    limits
}

/// A thruster's limits, none to push where its group is lost.
fn limits_of(lost: u8, t: &Thruster) -> (i64, i64)
    requires { IsThrusterWithin t.now }
    ensures { result ≡ limits_of lost t.now }
{
    if is_lost(lost, t.group) {
        (0, 0)
    } else {
        (t.min, t.max)
    }
}

fn is_lost(lost: u8, group: u8) -> bool
    requires { group < 8 }
    ensures { result ≡ is_lost lost group }
{
    (lost >> group) % 2 == 1
}

/// The first thruster that a corner of the box asks too much of.
fn first_over(bounds: &Box3, limits: &[(i64, i64)], rows: &[[i64; 3]]) -> Option<CaseFault>
    requires plane { IsPlaneBox bounds.now }
    requires yaw { IsYawBox bounds.now }
    requires rows { All IsShareRow rows.now }
    requires same { length limits.now ≡ length rows.now }
    ensures { result ≡ first_over 0 bounds.now limits.now rows.now }
{
    for k in 0..rows.len() {
        let fault = over(k, &rows[k], bounds, limits[k]);
        if fault.is_some() {
            return fault;
        }
    }
    None
}

/// A corner that asks too much of a thruster.
fn over(thruster: usize, row: &[i64; 3], bounds: &Box3, limits: (i64, i64)) -> Option<CaseFault>
    requires plane { IsPlaneBox bounds.now }
    requires yaw { IsYawBox bounds.now }
    requires row { IsShareRow row.now }
    ensures { result ≡ over thruster row.now bounds.now limits }
{
    let need = greatest_thrust(row, bounds);
    if limits.1 < need {
        return Some(CaseFault::CornerOver {
            thruster,
            need,
            limit: limits.1,
        });
    }
    let need = least_thrust(row, bounds);
    if need < limits.0 {
        return Some(CaseFault::CornerOver {
            thruster,
            need,
            limit: limits.0,
        });
    }
    None
}

/// The first axis, and on it the first column, where all thrusters together miss the demand.
#[tactic(auto, unfolding(crate::specs::Conditions::first_off))]
fn first_off(
    trig: &Trig,
    mass: &[i64; 3],
    tol: &[i64; 3],
    thrusters: &[Thruster],
    rows: &[[i64; 3]],
) -> Option<CaseFault>
    requires mass { AreMasses mass.now }
    requires tol { AreMasses tol.now }
    requires thrusters { All IsThrusterWithin thrusters.now }
    requires rows { All IsShareRow rows.now }
    requires same { length rows.now ≡ length thrusters.now }
    requires few { length rows.now ≤ 12 }
    ensures { result ≡ first_off mass.now tol.now thrusters.now rows.now }
{
    off_axis(trig, mass, tol, thrusters, rows, 0)
        .or(off_axis(trig, mass, tol, thrusters, rows, 1))
        .or(off_axis(trig, mass, tol, thrusters, rows, 2))
}

/// The first column of an axis.
#[tactic(auto, unfolding(crate::specs::Conditions::off_axis))]
fn off_axis(
    trig: &Trig,
    mass: &[i64; 3],
    tol: &[i64; 3],
    thrusters: &[Thruster],
    rows: &[[i64; 3]],
    axis: usize,
) -> Option<CaseFault>
    requires mass { AreMasses mass.now }
    requires tol { AreMasses tol.now }
    requires thrusters { All IsThrusterWithin thrusters.now }
    requires rows { All IsShareRow rows.now }
    requires same { length rows.now ≡ length thrusters.now }
    requires few { length rows.now ≤ 12 }
    requires axis { axis < 3 }
    ensures { result ≡ off_axis mass.now tol.now thrusters.now rows.now axis }
{
    off_demand(trig, mass, tol, thrusters, rows, axis, 0)
        .or(off_demand(trig, mass, tol, thrusters, rows, axis, 1))
        .or(off_demand(trig, mass, tol, thrusters, rows, axis, 2))
}

/// They miss it on an axis, for a demand on a column's axis, by more than the tolerance.
#[tactic(auto, unfolding(crate::specs::Conditions::off_demand))]
fn off_demand(
    trig: &Trig,
    mass: &[i64; 3],
    tol: &[i64; 3],
    thrusters: &[Thruster],
    rows: &[[i64; 3]],
    axis: usize,
    column: usize,
) -> Option<CaseFault>
    requires mass { AreMasses mass.now }
    requires tol { AreMasses tol.now }
    requires thrusters { All IsThrusterWithin thrusters.now }
    requires rows { All IsShareRow rows.now }
    requires same { length rows.now ≡ length thrusters.now }
    requires few { length rows.now ≤ 12 }
    requires axis { axis < 3 }
    requires column { column < 3 }
    ensures { result ≡ off_demand mass.now tol.now thrusters.now rows.now axis column }
{
    let error = error_of(trig, mass, thrusters, rows, axis, column);
    if scaled(tol[axis]) < error {
        Some(CaseFault::OffDemand {
            axis,
            column,
            error,
        })
    } else {
        None
    }
}
