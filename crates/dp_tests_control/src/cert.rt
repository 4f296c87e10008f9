//! The sample plants' gains, accepted and refused by their certificates, and their bounds.
ghost use Rattle.std.specs.Prelude.{◌≡◌, ◌<◌, ◌+◌, All, length};
ghost use Rattle.dp_cert.specs.{IsShareRow};

use arrayvec::ArrayVec;
use dp_cert::{Accepted, CertFault, accept};
use dp_plant::{Box3, Gains, Plant, RawCase};
use dp_test_rows::samples::{S1, S2};
use dp_test_rows::{edited, plant_with};
use std::alloc::Global;
use std::process::Abort;

fn judged(plant: &Plant) -> Result<Accepted, CertFault> {
    accept(&plant.gains, &plant.yaw, &plant.cert)
}

/// Why the gains of an edited sample aren't accepted.
fn fault(rt: &impl Abort, alloc: Global, lines: &[&str], edits: &str) -> Option<CertFault> {
    judged(&edited(alloc, lines, edits).expect(rt, "a plant")).err()
}

#[test]
fn samples(rt: HostRuntime) {
    for lines in [S1, S2] {
        assert_eq!(rt; fault(&rt, rt.alloc(), lines, ""), None);
    }
}

#[test]
fn rates_and_roundings(rt: HostRuntime) {
    let rate = "99 rho = 1073741824";
    assert_eq!(rt; fault(&rt, rt.alloc(), S1, rate), Some(CertFault::Rate));
    let rounding = "101 r = 27129";
    assert_eq!(rt;
        fault(&rt, rt.alloc(), S1, rounding),
        Some(CertFault::RoundShort)
    );
    let input = "100 b = 0";
    assert_eq!(rt;
        fault(&rt, rt.alloc(), S1, input),
        Some(CertFault::InputShort)
    );
    let wide = "100 b = 1125899906842624";
    let expected = CertFault::TooWide { coordinate: 0 };
    assert_eq!(rt; fault(&rt, rt.alloc(), S1, wide), Some(expected));
}

fn vertex(short: i128) -> Option<CertFault> {
    Some(CertFault::VertexNotShown {
        axis: 0,
        vertex: 0,
        row: 0,
        short,
    })
}

/// Without a leak, without the last entry of the form, and with one square in place of two.
#[test]
fn matrices_not_shown(rt: HostRuntime) {
    let leak = "84 leak = 0";
    assert_eq!(rt;
        fault(&rt, rt.alloc(), S1, leak),
        vertex(75152154165916840304)
    );
    let form =
        "105 p = [158, -53248, -480, 0, 0, 354418688, -2129920, 0, 0, 76800, 0, 0, 16, 0, 0]";
    assert_eq!(rt;
        fault(&rt, rt.alloc(), S2, form),
        vertex(2135281172997597184)
    );
    let square = "112 out_surge0 = [[300715, -1000, 5132010, -54007]]";
    let expected = CertFault::OutputNotShown {
        axis: 0,
        which: 0,
        row: 0,
        short: 29336598994624,
    };
    assert_eq!(rt; fault(&rt, rt.alloc(), S1, square), Some(expected));
}

fn is_range_of(fault: Option<CertFault>, key: &str) -> bool {
    match fault {
        Some(fault) => names(fault, key),
        None => false,
    }
}

fn names(fault: CertFault, key: &str) -> bool {
    match fault {
        CertFault::Range { name } => name.as_str() == key,
        _ => false,
    }
}

#[test]
fn out_of_range(rt: HostRuntime) {
    for (lines, edits, key) in [
        (
            S1,
            "84 leak = -1;99 rho = 1073741824;100 b = 1125899906842625",
            "gains.leak",
        ),
        (S1, "99 rho = 1073741824;100 b = 1125899906842625", "cert.b"),
        (S2, "90 k1 = [0, 1073741825]", "gains.k1"),
    ] {
        let fault = fault(&rt, rt.alloc(), lines, edits);
        assert!(rt; is_range_of(fault, key), "{edits}");
    }
}

/// Gains that filter waves, in a plant without a filter.
#[test]
fn a_filter_that_is_not_there(rt: HostRuntime) {
    let plant = edited(rt.alloc(), S1, "99 rho = 1073741824").expect(&rt, "a plant");
    let gains = Gains {
        wave: [1, 0, 0, 1],
        ..plant.gains
    };
    let fault = accept(&gains, &plant.yaw, &plant.cert).err();
    assert!(rt; is_range_of(fault, "gains.wave"));
}

fn row(shares: [i32; 3]) -> [i64; 3]
    ensures { IsShareRow result }
{
    let [surge, sway, yaw] = shares;
    [surge as i64, sway as i64, yaw as i64]
}

fn with(rows: ArrayVec<[i64; 3], 12>, row: [i64; 3]) -> ArrayVec<[i64; 3], 12>
    requires room { length rows.items < 12 }
    requires rows { All IsShareRow rows.items }
    requires row { IsShareRow row }
    ensures rows { All IsShareRow result.items }
    ensures count { length result.items ≡ length rows.items + 1 }
{
    let mut rows = rows;
    rows.push(row);
    rows
}

fn none() -> ArrayVec<[i64; 3], 12>
    ensures rows { All IsShareRow result.items }
    ensures count { length result.items ≡ 0 }
{
    ArrayVec::new()
}

// A case with these shares of six thrusters.
fn case(rows: [[i32; 3]; 6]) -> RawCase
    ensures rows { All IsShareRow result.b.items }
{
    let [t0, t1, t2, t3, t4, t5] = rows;
    let three = with(with(with(none(), row(t0)), row(t1)), row(t2));
    let b = with(with(with(three, row(t3)), row(t4)), row(t5));
    RawCase {
        lost: 0,
        bounds: Box3 {
            lo: [0; 3],
            hi: [0; 3],
        },
        b,
    }
}

fn check_bounds(
    rt: &impl Abort,
    accepted: &Result<Accepted, CertFault>,
    rows: [[i32; 3]; 6],
    want: [(i128, i128); 6],
) {
    match accepted {
        Ok(accepted) => {
            let bounds = accepted.copy().bounds(&case(rows));
            assert_eq!(rt; bounds.as_slice(), want.as_slice());
        }
        Err(_) => assert!(rt; false, "refused"),
    }
}

// With no group lost, with the first and with the second: of both sample plants alike.
#[test]
fn bounds(rt: HostRuntime) {
    let still = (0, 1048576);
    for lines in [S1, S2] {
        let accepted = judged(&plant_with(rt.alloc(), lines).expect(&rt, "a plant"));
        let (ahead, abeam) = ([5243, 0, 0], (1431, 35776654));
        check_bounds(
            &rt,
            &accepted,
            [
                [2622, 0, 0],
                [2621, 0, 0],
                [0, 2097, 458],
                [0, 2097, 458],
                [0, 2097, -458],
                [0, 2097, -458],
            ],
            [
                (895, 22759835),
                (894, 22751555),
                (716, 18412615),
                (716, 18412615),
                (716, 18412615),
                (716, 18412615),
            ],
        );
        let (bow, stern) = ([0, 4194, 916], [0, 4194, -916]);
        check_bounds(
            &rt,
            &accepted,
            [[0; 3], ahead, [0; 3], bow, [0; 3], stern],
            [still, (1789, 44462814), still, abeam, still, abeam],
        );
        check_bounds(
            &rt,
            &accepted,
            [ahead, [0; 3], bow, [0; 3], stern, [0; 3]],
            [(1789, 44462814), still, abeam, still, abeam, still],
        );
    }
}
