//! By hand: a coordinate with a rate of 5 and an acceleration of 3 whose target is 20 ahead; moves that wait for one another, across
//! north, and by half a turn; lists of moves with a faulty line; the limits of a file.
use super::*;
use arrayvec::ArrayVec;
use dp_plant::{Place, PlantFault, Setpoint};
use std::alloc::Global;

const SLOW: GuideLimits = GuideLimits {
    rate: [5, 5, 5],
    accel: [3, 3, 3],
};

const ORIGIN: Setpoint = Setpoint {
    at: Place { north: 0, east: 0 },
    psi: 0,
};

const AHEAD: Setpoint = Setpoint {
    at: Place {
        north: 20,
        east: -20,
    },
    psi: 0,
};

fn at(north: i64, east: i64, psi: i64) -> Setpoint {
    Setpoint {
        at: Place { north, east },
        psi,
    }
}

#[test]
fn goes_twenty_ahead(rt: HostRuntime) {
    let mut guide = Guide::new(&SLOW, &ORIGIN);
    assert!(rt; guide.resting());
    assert!(rt; guide.go(&AHEAD));
    let places: &[i64] = &[3, 8, 13, 18, 20];
    for place in places {
        let here = guide.step();
        assert_eq!(rt; here, at(*place, -*place, 0));
        assert!(rt; !guide.go(&ORIGIN));
    }
    assert_eq!(rt; guide.step(), at(20, -20, 0));
    assert!(rt; guide.go(&ORIGIN));
}

const FILE: &[u8] =
    b"[guide]\nrate = [1000000000, 1000000000, 1000000000]\naccel = [1000000000, 1000000000, 1000000000]\n";

#[test]
fn follows_moves_that_wait(rt: HostRuntime) {
    let limits = limits_of(rt.alloc(), FILE).expect(&rt, "limits");
    let moves = Moves::of(
        rt.alloc(),
        b"# a list\n0 1000 0 0\n0 0 -500 35950\n\n3 2000 0 18000",
    )
    .expect(&rt, "moves");
    assert_eq!(rt; moves.len(), 3);
    assert_eq!(rt; moves.get(1), (0, at(0, -500_000_000, 359_500_000_000)));
    let mut passage = Passage::new(&limits, &ORIGIN, moves);
    let rows: &[[i64; 3]] = &[
        [1_000_000_000, 0, 0],
        [1_000_000_000, 0, 0],
        [0, -500_000_000, 359_500_000_000],
        [0, -500_000_000, 359_500_000_000],
        [1_000_000_000, 0, 358_500_000_000],
        [2_000_000_000, 0, 357_500_000_000],
        [2_000_000_000, 0, 356_500_000_000],
    ];
    for row in rows {
        let [north, east, psi] = *row;
        assert!(rt; passage.cycle() < 1 << 20);
        assert_eq!(rt; passage.next(), at(north, east, psi));
    }
}

#[test]
fn names_the_first_faulty_line(rt: HostRuntime) {
    let alloc = rt.alloc();
    assert_eq!(rt;
        fault_of(alloc, b"5 0 0 0\n4 0 0 0\n"),
        Some((2, MovesKind::Order))
    );
    assert_eq!(rt;
        fault_of(alloc, b"# c\n\n5 0 0 0\n4 9000000 0 0\n"),
        Some((4, MovesKind::Range))
    );
    assert_eq!(rt;
        fault_of(alloc, b"5 0 0 36000"),
        Some((1, MovesKind::Range))
    );
    assert_eq!(rt;
        fault_of(alloc, b"1048576 0 0 0"),
        Some((1, MovesKind::Range))
    );
    assert_eq!(rt;
        fault_of(alloc, b"5 0 x 36000"),
        Some((1, MovesKind::Number))
    );
    assert_eq!(rt; fault_of(alloc, b"0 0 0 -5"), Some((1, MovesKind::Number)));
    assert_eq!(rt; fault_of(alloc, b"1048575 -8796093 8796093 35999"), None);
}

fn fault_of(alloc: Global, text: &[u8]) -> Option<(u64, MovesKind)> {
    match Moves::of(alloc, text) {
        Err(MovesFault::Line { line, kind }) => Some((line, kind)),
        _ => None,
    }
}

#[test]
fn names_the_key_of_a_limit(rt: HostRuntime) {
    let alloc = rt.alloc();
    assert!(rt; is_refused(alloc, b"[guide]\nrate = [1, 1, 1]\n", "guide.accel"));
    assert!(rt; is_refused(alloc, b"[guide]\nrate = [1, 0, 1]\n", "guide.rate"));
    assert!(rt; is_refused(alloc, b"[guide]\nrate = [1, 1]\naccel = 1\n", "guide.rate"));
}

fn is_refused(alloc: Global, text: &[u8], wanted: &str) -> bool {
    match limits_of(alloc, text) {
        Err(fault) => is_about(&fault, wanted),
        Ok(_) => false,
    }
}

fn is_about(fault: &PlantFault, wanted: &str) -> bool {
    match fault.key() {
        Some(key) => key.as_str() == wanted,
        None => false,
    }
}

#[test]
fn writes_a_line(rt: HostRuntime) {
    let mut line = ArrayVec::new();
    append_cycle(&mut line, 0, &at(1_000_000_000, 0, 0), &[156_249, 0, -1]);
    assert!(rt; line.as_slice() == b"cycle 0 set 1000000000 0 0 demand 156249 0 -1\n".as_slice());
}
