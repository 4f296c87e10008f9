//! Cases of the sample plant, and of plants that differ from it in one place. The expected answers come from a separate program.
ghost use Rattle.std.specs.Prelude.{IsTrue, ◌↔◌};
ghost use Rattle.dp_plant.specs.{IsInBox, IsInRange};

use dp_alloc::{Case, CaseFault, CaseRefusal, Cases, first_refused};
use dp_plant::Box3;
use dp_test_rows::samples::S1;
use dp_test_rows::{edited, plant_with};
use dp_trig::Trig;

/// The last share of the case with no lost group is one more, so a demand of yaw makes some sway.
const MORE_SWAY: &str =
    "69 b = [[2622, 0, 0], [2621, 0, 0], [0, 2097, 458], [0, 2097, 458], [0, 2097, -458], [0, 2097, -457]]";

fn corner(lost: u8, thruster: usize, need: i64, limit: i64) -> Option<CaseRefusal> {
    let fault = CaseFault::CornerOver {
        thruster,
        need,
        limit,
    };
    Some(CaseRefusal { lost, fault })
}

fn off(lost: u8, axis: usize, column: usize, error: i128) -> Option<CaseRefusal> {
    let fault = CaseFault::OffDemand {
        axis,
        column,
        error,
    };
    Some(CaseRefusal { lost, fault })
}

fn is_in_range(lo: i64, hi: i64, a: i64) -> bool
    ensures { IsTrue result ↔ IsInRange lo hi a }
{
    lo <= a && a <= hi
}

fn is_in_box(bounds: &Box3, a: [i64; 3]) -> bool
    ensures { IsTrue result → IsInBox bounds.now a }
{
    let surge = is_in_range(bounds.lo[0], bounds.hi[0], a[0]);
    let sway = is_in_range(bounds.lo[1], bounds.hi[1], a[1]);
    let yaw = is_in_range(bounds.lo[2], bounds.hi[2], a[2]);
    if !surge {
        return false;
    }
    if !sway {
        return false;
    }
    yaw
}

#[test]
fn first_faults_are_named(rt: HostRuntime) {
    let trig = Trig::new();
    let rows = [
        ("", None),
        ("34 max = 100", corner(0, 0, 125026, 100)),
        ("34 max = 125025", corner(0, 0, 125026, 125025)),
        ("34 max = 125026", corner(2, 0, 225005, 125026)),
        ("33 min = -125026", corner(0, 0, -125027, -125026)),
        ("33 min = -125027", corner(2, 0, -225006, -125027)),
        ("33 min = -100;34 max = 100", corner(0, 0, 125026, 100)),
        ("36 group = 0", corner(1, 1, 225005, 0)),
        (MORE_SWAY, off(0, 1, 2, 1 << 30)),
        ("7 mass = [5243, 8388, 54960001]", off(0, 2, 2, 1 << 30)),
        ("7 mass = [5243, 8388, 54960001];8 tol = [0, 0, 1]", None),
    ];
    for (edits, want) in rows {
        let plant = edited(rt.alloc(), S1, edits).expect(&rt, "a plant");
        assert_eq!(rt; (edits, first_refused(&plant, &trig)), (edits, want));
    }
}

#[test]
fn a_case_is_accepted(rt: HostRuntime) {
    let plant = plant_with(rt.alloc(), S1).expect(&rt, "a plant");
    let raw = plant.cases.as_slice().get(2).expect(&rt, "three cases");
    assert_eq!(rt; raw.lost, 2);
    let case = Case::accept(raw, &plant, &Trig::new()).expect(&rt, "accepted");
    let bounds = case.bounds();
    assert_eq!(rt; bounds, raw.bounds);
    assert!(rt; is_in_box(&bounds, [-68360, 0, 0]));
    assert!(rt; !is_in_box(&bounds, [-45_000_001, 0, 0]));
    assert_eq!(rt;
        case.forces([-68360, 0, 0]).as_slice(),
        [-342, 0, 0, 0, 0, 0].as_slice()
    );
}

#[test]
fn masks_have_their_box_and_forces(rt: HostRuntime) {
    let plant = plant_with(rt.alloc(), S1).expect(&rt, "a plant");
    let trig = Trig::new();
    assert!(rt; first_refused(&plant, &trig).is_none());
    let cases = Cases::of(rt.alloc(), &plant, &trig).expect(&rt, "no memory");
    let rows = [
        (0, 30_000_000, [-171, -171, 0, 0, 0, 0]),
        (1, 20_000_000, [0, -342, 0, 0, 0, 0]),
        (2, 20_000_000, [-342, 0, 0, 0, 0, 0]),
        (3, 0, [0; 6]),
    ];
    for (lost, sway, forces) in rows {
        assert_eq!(rt; (lost, cases.has(lost)), (lost, sway > 0));
        assert_eq!(rt; (lost, cases.bounds(lost).hi[1]), (lost, sway));
        assert_eq!(rt;
            cases.forces(lost, [-68360, 0, 0]).as_slice(),
            forces.as_slice()
        );
    }
}
