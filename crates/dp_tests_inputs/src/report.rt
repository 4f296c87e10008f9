//! Blocks with their text, and the alarms that computers agree on.
ghost use Rattle.std.specs.Prelude.{◌≡◌, ◌<◌, ◌+◌, [], length};
ghost use Rattle.arrayvec.specs.ArrayVec.{array_vec_len};

use arrayvec::ArrayVec;
use dp_plant::{Alarms, Ballot, Cause, Mode};
use dp_report::{Block, agree, write_block};
use std::process::Abort;

const QUIET: Alarms = Alarms {
    refs: [Cause::Good; 3],
    damaged: 0,
    blind: false,
    gyro: false,
    wind: false,
    limited: [false; 3],
    nocase: false,
    lost: 0,
};

/// Raises all there is.
const LOUD: Alarms = Alarms {
    refs: [Cause::Silent, Cause::Frozen, Cause::Jumped],
    damaged: 0x1ffff,
    blind: true,
    gyro: true,
    wind: true,
    limited: [true; 3],
    nocase: true,
    lost: 255,
};

/// A block without thrusters in which nothing is raised.
fn block(cycle: u64, modes: [Mode; 3]) -> Block
    ensures ballots { array_vec_len result.ballots ≡ 0 }
    ensures held { array_vec_len result.held ≡ 0 }
{
    Block {
        cycle,
        modes,
        ballots: ArrayVec::new(),
        held: ArrayVec::new(),
        alarms: Some(QUIET),
    }
}

fn add(b: &mut Block, ballot: Ballot, orders: [Option<i64>; 3])
    requires ballots { array_vec_len b.old.ballots < 12 }
    requires held { array_vec_len b.old.held < 12 }
    ensures ballots { array_vec_len b.new.ballots ≡ array_vec_len b.old.ballots + 1 }
    ensures held { array_vec_len b.new.held ≡ array_vec_len b.old.held + 1 }
{
    b.ballots.push(ballot);
    b.held.push(orders);
}

fn check(rt: &impl Abort, b: &Block, want: &[u8])
    requires { array_vec_len b.now.ballots ≡ array_vec_len b.now.held }
{
    let mut text = ArrayVec::new();
    text.push(b'?');
    write_block(b, &mut text);
    assert_eq!(rt; text.as_slice(), want);
}

#[test]
fn writes_ballots_and_orders(rt: HostRuntime) {
    let mut b = block(0, [Mode::Live; 3]);
    add(&mut b, Ballot::Fresh(0), [Some(0); 3]);
    add(&mut b, Ballot::Held(-329), [None; 3]);
    check(&rt, &b, b"cycle 0 LLL\nt0 F 0 0 0 0\nt1 H -329 - - -\n");
}

#[test]
fn writes_a_letter_for_each_mode(rt: HostRuntime) {
    check(
        &rt,
        &block(1048575, [Mode::Off, Mode::Live, Mode::Aligning]),
        b"cycle 1048575 OLA\n",
    );
    check(
        &rt,
        &block(7, [Mode::Aligning, Mode::Off, Mode::Live]),
        b"cycle 7 AOL\n",
    );
}

#[test]
fn writes_a_dash_where_no_order_is_held(rt: HostRuntime) {
    let mut b = block(41, [Mode::Live, Mode::Off, Mode::Live]);
    add(&mut b, Ballot::Fresh(-12), [Some(-12), None, Some(-11)]);
    add(&mut b, Ballot::Zero, [None, Some(5), None]);
    add(&mut b, Ballot::Held(60000000), [Some(0), None, None]);
    check(
        &rt,
        &b,
        b"cycle 41 LOL\nt0 F -12 -12 - -11\nt1 Z 0 - 5 -\nt2 H 60000000 0 - -\n",
    );
}

#[test]
fn writes_orders_in_the_order_of_the_computers(rt: HostRuntime) {
    let mut b = block(10, [Mode::Live; 3]);
    add(&mut b, Ballot::Fresh(2), [Some(1), Some(2), Some(3)]);
    check(&rt, &b, b"cycle 10 LLL\nt0 F 2 1 2 3\n");
}

fn check_alarms(rt: &impl Abort, alarms: Option<Alarms>, want: &[u8]) {
    let mut b = block(8, [Mode::Live; 3]);
    b.alarms = alarms;
    let mut text = ArrayVec::new();
    write_block(&b, &mut text);
    assert_eq!(rt; text.as_slice().strip_prefix(b"cycle 8 LLL\n"), Some(want));
}

#[test]
fn writes_alarms_in_their_order(rt: HostRuntime) {
    check_alarms(&rt, None, b"alarm unknown\n");
    check_alarms(&rt, Some(QUIET), b"");
    check_alarms(
        &rt,
        Some(LOUD),
        b"alarm ref 0 silent\nalarm ref 1 frozen\nalarm ref 2 jumped\n\
alarm damage pos0\nalarm damage pos1\nalarm damage pos2\n\
alarm damage gyro0\nalarm damage gyro1\nalarm damage gyro2\n\
alarm damage wind0\nalarm damage wind1\nalarm damage wind2\n\
alarm damage grp0\nalarm damage grp1\nalarm damage grp2\nalarm damage grp3\n\
alarm damage grp4\nalarm damage grp5\nalarm damage grp6\nalarm damage grp7\n\
alarm blind\nalarm gyro\nalarm wind\nalarm limit surge\nalarm limit sway\nalarm limit yaw\nalarm nocase\n\
alarm consequence 0\nalarm consequence 1\nalarm consequence 2\nalarm consequence 3\n\
alarm consequence 4\nalarm consequence 5\nalarm consequence 6\nalarm consequence 7\n",
    );
}

#[test]
fn writes_single_alarms(rt: HostRuntime) {
    let refs = [Cause::Good, Cause::Stale, Cause::Noisy];
    let alarms = Alarms { refs, ..QUIET };
    check_alarms(&rt, Some(alarms), b"alarm ref 1 stale\nalarm ref 2 noisy\n");
    let limited = [false, true, false];
    let alarms = Alarms {
        damaged: 0x10008,
        limited,
        lost: 0x82,
        ..QUIET
    };
    check_alarms(
        &rt,
        Some(alarms),
        b"alarm damage gyro0\nalarm damage grp7\nalarm limit sway\nalarm consequence 1\nalarm consequence 7\n",
    );
}

#[test]
fn two_computers_agree(rt: HostRuntime) {
    assert_eq!(rt; agree(&[None, None, None]), None);
    assert_eq!(rt; agree(&[None, Some(LOUD), None]), None);
    assert_eq!(rt; agree(&[Some(LOUD), None, Some(LOUD)]), Some(LOUD));
    assert_eq!(rt; agree(&[Some(LOUD), Some(QUIET), Some(LOUD)]), Some(LOUD));
    assert_eq!(rt; agree(&[Some(QUIET), Some(LOUD), Some(QUIET)]), Some(QUIET));
    assert_eq!(rt; agree(&[Some(LOUD), Some(QUIET), None]), Some(QUIET));
    // two causes of one reference that differ are no agreement; wires and groups are taken one by one
    let one = Alarms {
        refs: [Cause::Silent, Cause::Stale, Cause::Good],
        damaged: 0b011,
        lost: 0b101,
        ..QUIET
    };
    let other = Alarms {
        refs: [Cause::Frozen, Cause::Stale, Cause::Good],
        damaged: 0b110,
        lost: 0b100,
        ..QUIET
    };
    let both = Alarms {
        refs: [Cause::Good, Cause::Stale, Cause::Good],
        damaged: 0b010,
        lost: 0b100,
        ..QUIET
    };
    assert_eq!(rt; agree(&[Some(one), None, Some(other)]), Some(both));
}

#[test]
fn writes_the_longest_block(rt: HostRuntime) {
    let b = Block {
        cycle: u64::MAX,
        modes: [Mode::Off; 3],
        ballots: ArrayVec::from_array_in((), [Ballot::Held(i64::MIN); 12]),
        held: ArrayVec::from_array_in((), [[Some(i64::MIN); 3]; 12]),
        alarms: Some(LOUD),
    };
    let mut text = ArrayVec::new();
    write_block(&b, &mut text);
    assert_eq!(rt; text.len(), 1728);
    assert!(rt;
        text.as_slice().starts_with(b"cycle 18446744073709551615 OOO\nt0 H -9223372036854775808 ")
    );
    assert!(rt;
        text.as_slice()
            .ends_with(b"\nalarm consequence 6\nalarm consequence 7\n")
    );
}
