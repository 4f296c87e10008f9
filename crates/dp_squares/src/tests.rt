//! Certificates that are made of the sample plants' forms: the worked rows.
ghost use Rattle.std.specs.Prelude.{◌≡◌};

use crate::{cert_line, line_count, make_in_range};
use dp_cert::{CertFault, accept};
use dp_plant::{Cert, Parts, Plant};
use dp_test_rows::edited;
use dp_test_rows::samples::{S1, S2};
use std::alloc::Global;
use std::process::Abort;

/// The first sample with its roots 0 and every list but the form's empty.
const BARE: &str =
    "100 b = 0;101 r = 0;106 surge0 = [];107 surge1 = [];108 surge2 = [];109 sway0 = [];110 sway1 = [];111 sway2 = [];112 out_surge0 = [];113 out_surge1 = [];114 out_sway0 = [];115 out_sway1 = [];116 span0 = [];117 span1 = [];118 span2 = []";

fn plant(rt: &impl Abort, alloc: Global, lines: &[&str], edits: &str) -> Plant {
    edited(alloc, lines, edits).expect(rt, "a plant")
}

fn made(rt: &impl Abort, plant: &Plant) -> Cert {
    make_in_range(&plant.gains, &plant.yaw, &plant.cert).expect(rt, "numbers in range")
}

/// Whether a line is printed as a line of a plant file, from line 0 on.
fn prints(c: &Cert, i: usize, wanted: &str) -> bool {
    cert_line(c, i).as_slice() == wanted.as_bytes()
}

#[test]
fn roots_and_lists_of_a_bare_form(rt: HostRuntime) {
    let plant = plant(&rt, rt.alloc(), S1, BARE);
    let made = made(&rt, &plant);
    assert_eq!(rt; line_count(&made), 21);
    assert!(rt; prints(&made, 0, "[cert]\n"));
    assert!(rt; prints(&made, 1, "rho = 1073217536\n"));
    assert!(rt; prints(&made, 2, "b = 1162558252\n"));
    assert!(rt; prints(&made, 3, "r = 27130\n"));
    assert!(rt; prints(&made, 4, "g = [160000, 160000]\n"));
    assert!(rt;
        prints(
            &made,
            5,
            "p = [158, -53248, -480, 354418688, -2129920, 76800]\n"
        )
    );
    assert!(rt; prints(&made, 7, "form = [[8, -1, 6656, -40], [100, 1, 0, -8]]\n"));
    assert!(rt;
        prints(
            &made,
            8,
            "surge0 = [[983, 134217728, 6815069217, -888772575], [284, 0, 137438953472, -623834793]]\n"
        )
    );
    assert!(rt;
        prints(
            &made,
            20,
            "span2 = [[790, 2097152, -709973299, -6400000], [401, 0, 4294967296, -29402596]]\n"
        )
    );
    assert!(rt; prints(&made, 21, ""));
    assert!(rt; prints(&plant.cert, 8, "surge0 = []\n"));
    assert!(rt; accept(&plant.gains, &plant.yaw, &made).is_ok());
}

#[test]
fn a_rate_of_one_is_made_and_refused(rt: HostRuntime) {
    let plant = plant(&rt, rt.alloc(), S1, "99 rho = 1073741824");
    let made = made(&rt, &plant);
    assert_eq!(rt;
        accept(&plant.gains, &plant.yaw, &made).err(),
        Some(CertFault::Rate)
    );
}

/// A number out of range is refused.
#[test]
fn a_number_out_of_range(rt: HostRuntime) {
    let plant = plant(&rt, rt.alloc(), S1, "101 r = -1");
    assert!(rt; make_in_range(&plant.gains, &plant.yaw, &plant.cert).is_err());
}

/// Whether two certificates are printed alike.
fn same_text(a: &Cert, b: &Cert, from: usize) -> bool {
    for i in from..23 {
        if cert_line(a, i).as_slice() != cert_line(b, i).as_slice() {
            return false;
        }
    }
    true
}

/// The second sample's lists were made; only its `b` leaves room.
#[test]
fn lists_of_the_second_sample(rt: HostRuntime) {
    let plant = plant(&rt, rt.alloc(), S2, "");
    let made = made(&rt, &plant);
    assert_eq!(rt; line_count(&made), 23);
    assert!(rt; matches!(made.parts, Parts::Five(_)));
    assert!(rt; same_text(&made, &plant.cert, 3));
}

#[test]
fn made_of_a_made_one(rt: HostRuntime) {
    for lines in [S1, S2] {
        let plant = plant(&rt, rt.alloc(), lines, "");
        let once = made(&rt, &plant);
        let twice = make_in_range(&plant.gains, &plant.yaw, &once).expect(&rt, "roots in range");
        assert!(rt; same_text(&once, &twice, 0));
    }
}
