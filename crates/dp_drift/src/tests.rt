//! The worked rows: a mean demand of 46 mm/s² on surge against a greatest one of 45, and the lines of the table.
ghost use Rattle.std.specs.Prelude.{◌≤◌, ◌^◌, unsigned_abs};

use super::*;
use arrayvec::ArrayVec;
use dp_plant::Box3;

const DAMP: i64 = 1_342_177;

const LIMIT: i64 = 5_000_000;

const FORCES: Box3 = Box3 {
    lo: [-45_000_000, -20_000_000, -40_000_000],
    hi: [45_000_000, 20_000_000, 40_000_000],
};

fn after(surge: i64, cycles: u32) -> Drift
    requires { unsigned_abs surge ≤ 2 ^ 31 }
{
    drift_of([surge, 0, 0], &FORCES, DAMP, LIMIT, cycles)
}

#[test]
fn is_past_in_the_third_cycle(rt: HostRuntime) {
    assert_eq!(rt; after(46_000_000, 3), Drift::Past { cycle: 3 });
    assert_eq!(rt; after(46_000_000, 60), Drift::Past { cycle: 3 });
    assert_eq!(rt; after(-46_000_000, 3), Drift::Past { cycle: 3 });
}

#[test]
fn is_within_for_two_cycles(rt: HostRuntime) {
    assert_eq!(rt;
        after(46_000_000, 2),
        Drift::Within {
            at: [-2_998_751, 0]
        }
    );
}

#[test]
fn is_held_by_enough_force(rt: HostRuntime) {
    assert_eq!(rt; after(45_000_000, 3), Drift::Held);
    assert_eq!(rt; after(0, 60), Drift::Held);
}

#[test]
fn writes_the_lines(rt: HostRuntime) {
    assert!(rt; is_written(None, b"group 7 nocase\n"));
    assert!(rt; is_written(Some(Drift::Held), b"group 7 held\n"));
    assert!(rt; is_written(Some(Drift::Past { cycle: 3 }), b"group 7 past 3\n"));
    let within = Drift::Within {
        at: [-2_998_751, 0],
    };
    assert!(rt; is_written(Some(within), b"group 7 within -2998751 0\n"));
}

fn is_written(drift: Option<Drift>, wanted: &[u8]) -> bool {
    let mut line = ArrayVec::new();
    append_group(&mut line, 7, drift);
    line.as_slice() == wanted
}
