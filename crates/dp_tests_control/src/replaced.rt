//! Two runs that differ in what one position reference tells. The expected values come from a separate program.
ghost use Rattle.std.specs.Prelude.{◌≡◌, ◌<◌, ◌^◌};
ghost use Rattle.dp_plant.specs.{IsFrameInRange, IsVectorWithin};

use crate::samples::{accepted, heard};
use dp_machine::{Issue, Machine};
use dp_plant::{Frame, Place};
use dp_test_rows::plant_with;
use dp_test_rows::samples::S1;
use std::alloc::Global;
use std::process::Abort;

/// A place this many millimetres north of the origin.
fn place(north: i16) -> Place
    ensures { IsVectorWithin (2 ^ 43) result }
{
    Place {
        north: i64::from(north) * 1_000_000,
        east: 0,
    }
}

/// A frame in which the first two references are 100 mm apart, and the third is anywhere.
fn frame(cycle: u64, third: i16) -> Frame
    requires cycle { cycle < 2 ^ 20 }
    ensures range { IsFrameInRange 2 result }
    ensures cycle { result.cycle ≡ cycle }
{
    Frame {
        cycle,
        pos: [
            heard(Some(place(0))),
            heard(Some(place(100))),
            heard(Some(place(third))),
        ],
        gyro: [heard(None); 3],
        wind: [heard(None); 3],
        group: [heard(None); 8],
    }
}

/// What is issued in the second of two such cycles.
fn second_issue(rt: &impl Abort, alloc: Global, third: i16) -> Issue {
    let plant = plant_with(alloc, S1).expect(rt, "a plant");
    let mut machine = Machine::new(alloc, &plant, &accepted(rt, &plant)).expect(rt, "memory");
    step(rt, &mut machine, third);
    step(rt, &mut machine, third)
}

fn step(rt: &impl Abort, machine: &mut Machine, third: i16) -> Issue {
    let n = machine.count();
    assert!(rt; n < 2 && machine.groups() == 2);
    machine.step(&frame(n, third))
}

/// The third reference is 5 m north in one run and 5 m south in the other. The first thruster's numbers, 895 and 22759835, allow its
/// force 2^20 times this difference at 100 mm.
#[test]
fn moves_forces_within_the_bound(rt: HostRuntime) {
    for (third, surge, force) in [(5000, -6836, -18), (-5000, 0, 0)] {
        let issue = second_issue(&rt, rt.alloc(), third);
        assert_eq!(rt; issue.demand, [surge, 0, 0]);
        assert!(rt; issue.forces.as_slice() == [force, force, 0, 0, 0, 0].as_slice());
    }
    let bound = 895 * 100_000_000 + 22_759_835;
    assert_eq!(rt; bound, 89_522_759_835_i64);
    assert!(rt; 18 << 20 <= bound);
}
