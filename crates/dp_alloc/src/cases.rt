//! The accepted cases of a plant.
ghost use Rattle.std.specs.Prelude.{◌≡◌, ◌==◌, IfOk, find, is_some, option_copied};
ghost use Rattle.std.specs.Option.{option_map};
ghost use Rattle.dp_plant.specs.{IsPlaneBox, IsYawBox, box_of};

use crate::Case;
use crate::thrust::{add_no_thrusts, add_thrusts};
use arrayvec::ArrayVec;
use dp_plant::{Box3, Memory, Plant, Thruster};
use dp_trig::Trig;
use std::alloc::Global;
use std::marker::Model;

/// All cases of a plant, each of them accepted, by their masks of lost groups. It is seen as the record `CasesValue`: the plant's thrusters
/// and its cases.
#[derive(Drop)]
pub struct Cases {
    thrusters: ArrayVec<Thruster, 12>,
    list: Vec<Case>,
}

impl Model for Cases {
    ghost use Rattle.dp_alloc.specs.Cases.{CasesValue, value_of};

    ghost Value = { CasesValue };

    ghost view = { value_of };
}

impl Cases {
    ghost use Rattle.dp_alloc.specs.{AreAccepted, IsDemandWithin, case_in, cases_of, forces_of};

    /// The cases of a plant of which none is refused. No later call takes memory.
    pub fn of(alloc: Global, plant: &Plant, trig: &Trig) -> Result<Cases, Memory>
        requires { AreAccepted plant.now }
        ensures { IfOk result (λ cases. cases ≡ cases_of plant.now) }
    {
        let mut list = Vec::new(alloc);
        for raw in plant.cases.as_slice() {
            let Ok(case) = Case::accept(raw, plant, trig) else {
                unreachable!();
            };
            let Ok(()) = list.push(case) else {
                return Err(Memory);
            };
        }
        let mut thrusters = ArrayVec::new();
        // at most twelve
        let _fits = thrusters.try_extend_from_slice(plant.thrusters.as_slice());
        Ok(Cases { thrusters, list })
    }

    /// There is a case in which just these groups are lost.
    pub fn has(&self, lost: u8) -> bool
        ensures { result ≡ is_some (case_in self.now lost) }
    {
        self.case_of(lost).is_some()
    }

    /// The box of the demands that can be met while these groups are lost; without a case it holds zero alone.
    pub fn bounds(&self, lost: u8) -> Box3
        ensures value { result ≡ box_of (case_in self.now lost) }
        ensures plane { IsPlaneBox result }
        ensures yaw { IsYawBox result }
    {
        match self.case_of(lost) {
            Some(case) => case.bounds(),
            None => Box3 {
                lo: [0; 3],
                hi: [0; 3],
            },
        }
    }

    /// The forces of all thrusters, in newtons, for a demand within ±2^31 on surge and sway and ±2^38 on yaw, while these groups are lost;
    /// without a case each is 0. Each force of a demand in the box is within its thruster's limits ([`crate::laws`]).
    pub fn forces(&self, lost: u8, a: [i64; 3]) -> ArrayVec<i64, 12>
        requires { IsDemandWithin a }
        ensures { result.items ≡ forces_of self.now.thrusters (case_in self.now lost) a }
    {
        let mut forces = ArrayVec::new();
        self.share_out(lost, a, &mut forces);
        forces
    }

    /// The forces that [`Cases::forces`] gives, into a list that is emptied first.
    pub fn share_out(&self, lost: u8, a: [i64; 3], forces: &mut ArrayVec<i64, 12>)
        requires { IsDemandWithin a }
        ensures { forces.new.items ≡ forces_of self.now.thrusters (case_in self.now lost) a }
    {
        forces.clear();
        match self.case_of(lost) {
            Some(case) => add_thrusts(&case.raw.b, a, forces),
            None => add_no_thrusts(&self.thrusters, forces),
        }
    }

    fn case_of(&self, lost: u8) -> Option<&Case>
        ensures { option_map (λ c. c.raw) (option_copied result) ≡ case_in self.now lost }
    {
        found(self.list.as_slice(), lost)
    }
}

/// The case of a list in which just these groups are lost.
fn found(list: &[Case], lost: u8) -> Option<&Case>
    ensures { option_copied result ≡ find (λ c. c.raw.lost == lost) list.now }
{
    list.iter().find(|case| case.raw.lost == lost)
}
