//! One case.
ghost use Rattle.std.specs.Prelude.{◌≡◌, ◌<◌, ◌↔◌, ℕ, pos, IfErr, IfOk, IsOk, None, Some, length, map, slice_index_or};
ghost use Rattle.dp_plant.specs.{IsCaseWithin, IsInBox};
ghost use Rattle.dp_alloc.specs.Conditions.{case_fault, first_over, limits_of};
ghost use Rattle.dp_alloc.specs.Ranges.{IsWithinLimits};
ghost use Rattle.dp_alloc.specs.Refusals.{IsCaseOf};
ghost use Rattle.dp_alloc.specs.Thrust.{thrust_of};

use crate::CaseFault;
use crate::conditions::{all_limits, case_fault};
use crate::thrust::add_thrusts;
use arrayvec::ArrayVec;
use dp_plant::{Box3, Plant, RawCase};
use dp_trig::Trig;

/// An accepted case, with the limits of each thruster in it.
#[derive(Debug, Drop)]
pub struct Case {
    pub(crate) raw: RawCase,
    limits: ArrayVec<(i64, i64), 12>,
    ghost ranges: { IsCaseWithin (length limits.items) raw },
    ghost allowed: { first_over 0 raw.bounds limits.items raw.b.items ≡ None },
}

impl Case {
    /// One of the plant's cases, where each corner of its box is within the limits of each thruster and the thrusters together give the
    /// demand, to the plant's tolerance. Else the first condition that fails: `CornerOver` comes first, by the number of the thruster, its
    /// greatest force before its least; then `OffDemand`, axis by axis, and on an axis column by column.
    #[tactic(auto, using(dp_plant::proofs::PlantFacts::plant_thrusters))]
    pub fn accept(raw: &RawCase, plant: &Plant, trig: &Trig) -> Result<Case, CaseFault>
        requires { IsCaseOf plant.now raw.now }
        ensures accepted { IsOk result ↔ (case_fault plant.now raw.now ≡ None) }
        ensures refused { IfErr result (λ fault. case_fault plant.now raw.now ≡ Some fault) }
        ensures kept { IfOk result (λ c. c.raw ≡ raw.now) }
        ensures limits { IfOk result (λ c.
            c.limits.items ≡ map (limits_of raw.now.lost) plant.now.thrusters.items) }
    {
        match case_fault(raw, plant, trig) {
            Some(fault) => Err(fault),
            None => Ok(Case {
                raw: raw.copy(),
                limits: all_limits(raw.lost, plant.thrusters.as_slice()),
            }),
        }
    }

    /// The box of the demands that the case can meet.
    pub fn bounds(&self) -> Box3
        ensures { result ≡ self.now.raw.bounds }
    {
        self.raw.bounds
    }

    /// The force of each thruster, in newtons, for a demand in the box. Each is within its thruster's limits in this case: 0 for one of a
    /// lost group.
    pub fn forces(&self, a: [i64; 3]) -> ArrayVec<i64, 12>
        requires { IsInBox self.now.raw.bounds a }
        ensures value { result.items ≡ map (thrust_of a) self.now.raw.b.items }
        ensures within { (k : ℕ) → k < length self.now.raw.b.items → IsWithinLimits
            (slice_index_or self.now.limits.items k (pos 0, pos 0))
            (slice_index_or result.items k (pos 0)) }
    {
        let mut forces = ArrayVec::new();
        add_thrusts(&self.raw.b, a, &mut forces);
        forces
    }
}
