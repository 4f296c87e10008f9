//! The tests of the three position references.
ghost use Rattle.std.specs.Prelude.{◌≡◌, ◌≤◌, ◌<◌, ◌^◌, ◌+◌, ◌-◌, ◌∷◌, [], All, IfOk, IfSome, length};
ghost use Rattle.std.specs.List.{AllByRecursion};
ghost use Rattle.dp_plant.specs.{AreRefLimits, IsMeasuredPlace, IsPair, IsPlaceSlotWithin, IsSoundPlant};
ghost use Rattle.dp_reftest.specs.{IsKept, tested_by, untested};
ghost use Rattle.dp_fuse.specs.{IsVerdictWithin};
ghost use Rattle.dp_machine.specs.Parts.{AreTaken, windows_by, verdicts_by};
ghost use Rattle.dp_machine.specs.Step.{kept_at, limits_in, measured_by};

use dp_plant::{Memory, Place, Plant, RefLimits, Slot, Verdict};
use dp_reftest::{Kept, RefTest};
use std::alloc::Global;

/// The tests of the three references.
#[derive(Drop)]
pub(crate) struct References {
    pub first: RefTest,
    pub second: RefTest,
    pub third: RefTest,
}

impl References {
    /// Tests that have taken no cycle.
    pub(crate) fn new(alloc: Global, limits: &[RefLimits; 3]) -> Result<References, Memory>
        requires { All AreRefLimits limits.now }
        ensures first { IfOk result (λ r. r.first ≡ untested (limits_in limits.now 0)) }
        ensures second { IfOk result (λ r. r.second ≡ untested (limits_in limits.now 1)) }
        ensures third { IfOk result (λ r. r.third ≡ untested (limits_in limits.now 2)) }
    {
        let [first, second, third] = limits;
        Ok(References {
            first: RefTest::new(alloc, first)?,
            second: RefTest::new(alloc, second)?,
            third: RefTest::new(alloc, third)?,
        })
    }

    /// Takes what a cycle brought on the three wires.
    pub(crate) fn take(&mut self, cycle: u64, pos: &[Slot<Place>; 3])
        requires first { self.old.first.next ≡ cycle }
        requires second { self.old.second.next ≡ cycle }
        requires third { self.old.third.next ≡ cycle }
        requires cycle { cycle < 2 ^ 20 }
        requires places { AllByRecursion IsPlaceSlotWithin pos.now }
        ensures { AreTaken self.old self.new cycle pos.now }
    {
        let [first, second, third] = pos;
        self.first.take(cycle, first.last);
        self.second.take(cycle, second.last);
        self.third.take(cycle, third.last);
    }

    /// What the tests say.
    pub(crate) fn verdicts(&self) -> [Verdict; 3]
        ensures value { result ≡ verdicts_by self.now }
        ensures within { All IsVerdictWithin result }
    {
        [
            self.first.usable(),
            self.second.usable(),
            self.third.usable(),
        ]
    }

    /// The windows.
    pub(crate) fn kept(&self) -> [Kept; 3]
        ensures value { result ≡ windows_by self.now }
        ensures first { let t = self.now.first in IsKept t.limits.window t.next (kept_at result 0) }
        ensures second { let t = self.now.second in IsKept t.limits.window t.next
            (kept_at result 1) }
        ensures third { let t = self.now.third in IsKept t.limits.window t.next (kept_at result 2) }
    {
        [self.first.kept(), self.second.kept(), self.third.kept()]
    }

    /// Gives the tests these windows, as of all cycles below `next`.
    pub(crate) fn set(&mut self, next: u64, kept: &[Kept; 3])
        requires first { IsKept self.old.first.limits.window next (kept_at kept.now 0) }
        requires second { IsKept self.old.second.limits.window next (kept_at kept.now 1) }
        requires third { IsKept self.old.third.limits.window next (kept_at kept.now 2) }
        ensures first { self.new.first ≡ tested_by self.old.first.limits next (kept_at kept.now 0) }
        ensures second { self.new.second
            ≡ tested_by self.old.second.limits next (kept_at kept.now 1) }
        ensures third { self.new.third ≡ tested_by self.old.third.limits next (kept_at kept.now 2) }
        ensures samples { windows_by self.new ≡ kept.now }
    {
        let [first, second, third] = kept;
        self.first.set(next, first);
        self.second.set(next, second);
        self.third.set(next, third);
    }
}

/// Where the vessel's origin is, by what the tests say.
#[tactic(auto, unfolding(crate::specs::Step::measured_by))]
pub(crate) fn measured_by(plant: &Plant, pair: (i64, i64), verdicts: &[Verdict; 3]) -> Option<Place>
    requires plant { IsSoundPlant plant.now }
    requires pair { IsPair pair }
    requires verdicts { All IsVerdictWithin verdicts.now }
    ensures value { result ≡ measured_by plant.now pair verdicts.now }
    ensures within { IfSome result IsMeasuredPlace }
{
    dp_fuse::position(verdicts, &plant.levers, pair).place()
}
