//! Demands of the sample plant's gains and box, but for sway's own gains; the values come from a separate program in Python.
ghost use Rattle.std.specs.Prelude.{◌<◌};
ghost use Rattle.dp_plant.specs.{IsLawGains, IsPair, IsPlaneBox, IsPlaneSetpoint, IsPlaneWithin, IsYawBox, IsYawSetpoint, IsYawWithin};
ghost use Rattle.dp_pid.specs.{IsWindPush};

use crate::samples::yaw_gains;
use dp_pid::{Asked, issue, wind_push};
use dp_plant::{Box3, Gains, Place, PlaneState, Plant, Setpoint, YawState};
use dp_test_rows::plant_with;
use dp_test_rows::samples::S1;
use std::process::Abort;

fn gains() -> Gains
    ensures { IsLawGains result }
{
    Gains {
        k2: 67_108_864,
        k3: 20_972,
        k4: 1_677_722,
        leak: 1_342_177,
        damp: 1_342_177,
        kp: [167_772, 300_000],
        kd: [26_843_546, 9_000_000],
        bias: [20_000_000, 15_000_000],
        wave: [0; 4],
        k1: [0; 2],
    }
}

fn bounds() -> Box3
    ensures plane { IsPlaneBox result }
    ensures yaw { IsYawBox result }
{
    Box3 {
        lo: [-50_000_000, -30_000_000, -60_000_000],
        hi: [50_000_000, 30_000_000, 60_000_000],
    }
}

/// The demands and limited axes of one cycle.
fn check(
    rt: &impl Abort,
    plane: &PlaneState,
    yaw: &YawState,
    setpoint: &Setpoint,
    pair: (i64, i64),
    wind: [i64; 3],
    want: ([i64; 3], [bool; 3]),
)
    requires plane { IsPlaneWithin plane.now }
    requires yaw { IsYawWithin yaw.now }
    requires place { IsPlaneSetpoint setpoint.now }
    requires heading { IsYawSetpoint setpoint.now }
    requires pair { IsPair pair }
    requires wind { IsWindPush wind }
{
    let asked = issue(
        &gains(),
        &yaw_gains(),
        &bounds(),
        plane,
        yaw,
        setpoint,
        pair,
        wind,
    );
    let (a, limited) = want;
    assert_eq!(rt; asked, Asked { a, limited });
}

const ZERO: Place = Place { north: 0, east: 0 };

const REST: PlaneState = PlaneState {
    eta: ZERO,
    beta: ZERO,
    vel: ZERO,
    wave_p: ZERO,
    wave_q: ZERO,
};

const STILL: YawState = YawState {
    psi: 0,
    beta: 0,
    rate: 0,
};

const HOME: Setpoint = Setpoint { at: ZERO, psi: 0 };

/// One metre north of the state.
const NORTH: Setpoint = Setpoint {
    at: Place {
        north: 1_000_000_000,
        east: 0,
    },
    psi: 0,
};

const AHEAD: (i64, i64) = (1 << 30, 0);

const NONE: [bool; 3] = [false; 3];

#[test]
fn goes_to_the_setpoint(rt: HostRuntime) {
    let calm = [0; 3];
    check(
        &rt,
        &REST,
        &STILL,
        &NORTH,
        AHEAD,
        calm,
        ([156_249, 0, 0], NONE),
    );
    // the bow east, north is to port
    let east = (0, 1 << 30);
    check(
        &rt,
        &REST,
        &STILL,
        &NORTH,
        east,
        calm,
        ([0, -279_397, 0], NONE),
    );
}

#[test]
fn turns_the_nearer_way(rt: HostRuntime) {
    let west = YawState {
        psi: 359_000_000_000,
        beta: 0,
        rate: 0,
    };
    let to = Setpoint {
        at: ZERO,
        psi: 1_000_000_000,
    };
    check(
        &rt,
        &REST,
        &west,
        &to,
        AHEAD,
        [0; 3],
        ([0, 0, 312_499], NONE),
    );
}

#[test]
fn holds_against_the_wind(rt: HostRuntime) {
    let push = [-3_280_541, -4_037_588, 0];
    check(
        &rt,
        &REST,
        &STILL,
        &HOME,
        AHEAD,
        push,
        ([3_280_541, 4_037_588, 0], NONE),
    );
    // on the ends of the box, and past one of them
    let ends = [50_000_000, -30_000_000, 60_000_000];
    let push = [-50_000_000, 30_000_000, -60_000_000];
    check(&rt, &REST, &STILL, &HOME, AHEAD, push, (ends, NONE));
    let push = [-50_000_000, 30_000_001, -60_000_000];
    check(
        &rt,
        &REST,
        &STILL,
        &HOME,
        AHEAD,
        push,
        (ends, [false, true, false]),
    );
}

#[test]
fn holds_against_the_bias_within_its_limit(rt: HostRuntime) {
    let plane = PlaneState {
        beta: Place {
            north: 30_000_000,
            east: -16_000_000,
        },
        ..REST
    };
    let yaw = YawState {
        psi: 0,
        beta: -30_000_000,
        rate: 0,
    };
    let want = [-20_000_000, 15_000_000, 20_000_000];
    check(&rt, &plane, &yaw, &HOME, AHEAD, [0; 3], (want, NONE));
}

#[test]
fn damps_what_moves(rt: HostRuntime) {
    let plane = PlaneState {
        eta: Place {
            north: 12_345_678_901,
            east: -9_876_543_210,
        },
        beta: Place {
            north: 1_234_567,
            east: -7_654_321,
        },
        vel: Place {
            north: 23_456_789,
            east: 98_765_432,
        },
        ..REST
    };
    let yaw = YawState {
        psi: 123_456_789_012,
        beta: -3_456_789,
        rate: 765_432,
    };
    let setpoint = Setpoint {
        at: Place {
            north: 1_000_000_000,
            east: -2_000_000_000,
        },
        psi: 120_000_000_000,
    };
    let pair = (-759_382_588, 759_117_385);
    let wind = [-3_280_541, -4_037_588, 4242];
    let want = [10_358_076, 906_226, 2_893_288];
    check(&rt, &plane, &yaw, &setpoint, pair, wind, (want, NONE));
}

#[tactic(auto, using(dp_plant::proofs::PlantFacts::plant_wind))]
fn check_wind(rt: &impl Abort, plant: &Plant, angle: u32, speed: u32, want: [i64; 3])
    requires angle { angle < 36000 }
    requires speed { speed < 100000 }
{
    assert_eq!(rt; wind_push(&plant.wind, angle, speed), want);
}

#[test]
fn takes_the_row_of_the_angle(rt: HostRuntime) {
    let plant = plant_with(rt.alloc(), S1).expect(&rt, "a plant");
    check_wind(&rt, &plant, 4500, 5144, [-3_280_541, -4_037_588, 0]);
    check_wind(&rt, &plant, 2999, 5144, [-4_542_287, -1_514_096, 0]);
    check_wind(
        &rt,
        &plant,
        35_999,
        99_999,
        [-1_716_579_438, 572_193_145, 0],
    );
}
