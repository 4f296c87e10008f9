//! Cycles of the sample plants. The expected values come from a separate program.
ghost use Rattle.std.specs.Prelude.{◌≡◌, ◌<◌, ◌^◌, IfSome};
ghost use Rattle.dp_plant.specs.{IsFrameInRange, IsGustWithin, IsVectorWithin};

use crate::samples::{accepted, heard};
use dp_machine::{Alarms, Cause, Issue, Machine};
use dp_plant::{Frame, Gust, Place, PlaneState, Slot};
use dp_test_rows::plant_with;
use dp_test_rows::samples::{S1, S2};
use std::alloc::Global;
use std::process::Abort;

fn machine(rt: &impl Abort, alloc: Global, lines: &[&str]) -> Machine {
    let plant = plant_with(alloc, lines).expect(rt, "a plant");
    Machine::new(alloc, &plant, &accepted(rt, &plant)).expect(rt, "memory")
}

/// What comes in a cycle: a place on all three references, a wind on the first sensor, and the states of two groups.
#[derive(Clone, Copy)]
struct Coming {
    place: Option<Place>,
    gust: Option<Gust>,
    first: Option<bool>,
    second: Option<bool>,
}

const NOTHING: Coming = Coming {
    place: None,
    gust: None,
    first: None,
    second: None,
};

/// A metre north of the setpoint.
const NORTH: Option<Place> = Some(Place {
    north: 1_000_000_000,
    east: 0,
});

/// The frame, in which one line of the second gyro and one of the second group are damaged.
fn frame(cycle: u64, coming: Coming) -> Frame
    requires cycle { cycle < 2 ^ 20 }
    requires place { IfSome coming.place (IsVectorWithin (2 ^ 43)) }
    requires gust { IfSome coming.gust IsGustWithin }
    ensures range { IsFrameInRange 2 result }
    ensures cycle { result.cycle ≡ cycle }
{
    let Coming {
        place,
        gust,
        first,
        second,
    } = coming;
    let none = heard(None);
    Frame {
        cycle,
        pos: [heard(place), heard(place), heard(place)],
        gyro: [heard(None), damaged(None), heard(None)],
        wind: [heard(gust), heard(None), heard(None)],
        group: [
            heard(first),
            damaged(second),
            none,
            none,
            none,
            none,
            none,
            none,
        ],
    }
}

fn damaged<T: Copy>(last: Option<T>) -> Slot<T>
    ensures { result.last ≡ last }
{
    Slot {
        last,
        damage: 1,
        skipped: 0,
    }
}

fn step(rt: &impl Abort, machine: &mut Machine, coming: Coming) -> Issue
    requires place { IfSome coming.place (IsVectorWithin (2 ^ 43)) }
    requires gust { IfSome coming.gust IsGustWithin }
{
    let n = machine.count();
    assert!(rt; n < 1000 && machine.groups() == 2);
    machine.step(&frame(n, coming))
}

/// Cycles with a place a metre north: the demand on surge, the force of the first two thrusters, and the plane's numbers in north after
/// it, those of the wave filter last.
fn come_back(rt: &impl Abort, mut machine: Machine, rows: [(i64, i64, [i64; 5]); 3]) {
    let coming = Coming {
        place: NORTH,
        ..NOTHING
    };
    for (surge, force, north) in rows {
        let issue = step(rt, &mut machine, coming);
        assert_eq!(rt; issue.demand, [surge, 0, 0]);
        assert!(rt; issue.forces.as_slice() == [force, force, 0, 0, 0, 0].as_slice());
        assert_eq!(rt; north_of(&machine.state().plane), north);
    }
    assert_eq!(rt; machine.count(), 3);
    assert_eq!(rt; machine.steps(), 3);
}

fn north_of(x: &PlaneState) -> [i64; 5] {
    let north = x.north();
    [north.eta, north.beta, north.vel, north.wave_p, north.wave_q]
}

#[test]
fn comes_back_from_a_metre_north(rt: HostRuntime) {
    let machine = machine(&rt, rt.alloc(), S1);
    assert_eq!(rt; machine.version(), 1);
    let rows = [
        (0, 0, [62_500_000, 19_531, 1_562_500, 0, 0]),
        (-68_360, -171, [122_656_250, 37_817, 2_976_561, 0, 0]),
        (-131_397, -329, [180_466_795, 54_905, 4_250_110, 0, 0]),
    ];
    come_back(&rt, machine, rows);
}

#[test]
fn comes_back_with_a_wave_filter(rt: HostRuntime) {
    let machine = machine(&rt, rt.alloc(), S2);
    assert_eq!(rt; machine.version(), 2);
    let rows = [
        (0, 0, [62_500_000, 19_531, 1_562_500, 0, 3_906_250]),
        (
            -68_360,
            -171,
            [122_412_109, 37_741, 2_970_458, 0, 5_599_975],
        ),
        (
            -131_130,
            -328,
            [179_881_811, 54_725, 4_235_837, 0, 6_206_190],
        ),
    ];
    come_back(&rt, machine, rows);
}

/// Of two groups one and both are lost, and one is ready again: the forces of the first two thrusters, one of each group, whether there
/// is no case, and the groups that must not be lost too.
#[test]
fn goes_on_with_the_groups_that_are_ready(rt: HostRuntime) {
    let lost = Some(false);
    let runs = [
        [
            (lost, None, [0, 0], false, 2),
            (None, None, [0, -342], false, 2),
            (None, None, [0, -658], false, 2),
        ],
        [
            (lost, lost, [0, 0], true, 0),
            (None, None, [0, 0], true, 0),
            (Some(true), None, [-666, 0], false, 1),
        ],
    ];
    for rows in runs {
        let mut machine = machine(&rt, rt.alloc(), S1);
        for (first, second, forces, nocase, unsurvived) in rows {
            let coming = Coming {
                place: NORTH,
                first,
                second,
                ..NOTHING
            };
            let issue = step(&rt, &mut machine, coming);
            let [first, second] = forces;
            assert!(rt; issue.forces.as_slice() == [first, second, 0, 0, 0, 0].as_slice());
            assert_eq!(rt; issue.alarms.nocase, nocase);
            assert_eq!(rt; issue.alarms.lost, unsurvived);
        }
    }
}

/// A wind from ahead and starboard is met in the same cycle, also where nothing else is heard.
#[test]
fn meets_the_wind(rt: HostRuntime) {
    let mut machine = machine(&rt, rt.alloc(), S1);
    let coming = Coming {
        gust: Some(Gust {
            angle: 4500,
            speed: 5144,
        }),
        ..NOTHING
    };
    let issue = step(&rt, &mut machine, coming);
    assert_eq!(rt; issue.demand, [3_280_541, 4_037_588, 0]);
    assert_eq!(rt;
        issue.alarms,
        Alarms {
            refs: [Cause::Silent; 3],
            damaged: 1 << 4 | 1 << 10,
            blind: true,
            gyro: true,
            wind: false,
            limited: [false; 3],
            nocase: false,
            lost: 0,
        }
    );
    assert_eq!(rt; machine.state().wind, 4500);
}

/// At rest at 2^43 nm on both axes the plane is in the certified set of each sample plant, at 2^56 nm on north it isn't.
#[test]
fn knows_the_certified_set(rt: HostRuntime) {
    for lines in [S1, S2] {
        let machine = machine(&rt, rt.alloc(), lines);
        let near = Place {
            north: 1 << 43,
            east: 1 << 43,
        };
        let far = Place {
            north: 1 << 56,
            east: 0,
        };
        assert!(rt; machine.inside(&PlaneState::rest(near)));
        assert!(rt; !machine.inside(&PlaneState::rest(far)));
    }
}
