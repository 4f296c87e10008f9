//! The spelling of a state, written and read back. The expected values come from a separate program.
ghost use Rattle.std.specs.Prelude.{◌≡◌, ◌<◌, ◌⊎◌, ◌^◌};
ghost use Rattle.dp_plant.specs.{IsFrameInRange};
ghost use Rattle.dp_codec.specs.{IsSoftware};

use crate::samples::{accepted, heard};
use arrayvec::ArrayVec;
use dp_codec::{NotState, read_state, write_at, write_state};
use dp_machine::Machine;
use dp_plant::{Frame, Place};
use dp_test_rows::samples::{S1, S2};
use dp_test_rows::{cut, natural, plant_with};
use std::alloc::Global;
use std::process::Abort;

/// Of the sample plant S1 after its first cycle, in spelling 1: an offset, the bytes that are put there, and the offset of the fault or `ok`.
/// Each part is put one below its range, at its ends, and one above.
const PARTS: &[&str] = &[
    "4 0000000000000000 94",
    "4 0000000000100000 168",
    "4 0000000000100001 4",
    "12 feffffffffffffff 12",
    "12 ff00000000000000 12",
    "12 0100000000000000 12",
    "12 0100000000000001 12",
    "20 feffffffffffffff 20",
    "20 ff00000000000000 12",
    "20 0100000000000000 12",
    "20 0100000000000001 20",
    "28 feffffffffffffff 28",
    "28 ff00000000000000 12",
    "28 0100000000000000 12",
    "28 0100000000000001 28",
    "36 feffffffffffffff 36",
    "36 ff00000000000000 12",
    "36 0100000000000000 12",
    "36 0100000000000001 36",
    "44 feffffffffffffff 44",
    "44 ff00000000000000 12",
    "44 0100000000000000 12",
    "44 0100000000000001 44",
    "52 feffffffffffffff 52",
    "52 ff00000000000000 12",
    "52 0100000000000000 12",
    "52 0100000000000001 52",
    "60 ffffffffffffffff 60",
    "60 0000000000000000 ok",
    "60 00000053d1ac0fff ok",
    "60 00000053d1ac1000 60",
    "68 ffffffbfffffffff 68",
    "68 ffffffc000000000 ok",
    "68 0000004000000000 ok",
    "68 0000004000000001 68",
    "76 ffdfffffffffffff 76",
    "76 ffe0000000000000 ok",
    "76 0020000000000000 ok",
    "76 0020000000000001 76",
    "84 00000000 ok",
    "84 00008c9f ok",
    "84 00008ca0 84",
    "88 00000000 ok",
    "88 00008c9f ok",
    "88 00008ca0 88",
    "92 00 ok",
    "92 03 ok",
    "92 04 92",
    "93 00 103",
    "93 08 94",
    "93 09 93",
    "94 0000000000000000 ok",
    "94 0000000000000001 94",
    "102 fffff7ffffffffff 102",
    "102 fffff80000000000 ok",
    "102 0000080000000000 ok",
    "102 0000080000000001 102",
    "110 fffff7ffffffffff 110",
    "110 fffff80000000000 ok",
    "110 0000080000000000 ok",
    "110 0000080000000001 110",
    "118 00 128",
    "118 08 119",
    "118 09 118",
    "119 0000000000000000 ok",
    "119 0000000000000001 119",
    "127 fffff7ffffffffff 127",
    "127 fffff80000000000 ok",
    "127 0000080000000000 ok",
    "127 0000080000000001 127",
    "135 fffff7ffffffffff 135",
    "135 fffff80000000000 ok",
    "135 0000080000000000 ok",
    "135 0000080000000001 135",
    "143 00 152",
    "143 08 144",
    "143 09 143",
    "144 0000000000000000 ok",
    "144 0000000000000001 144",
    "152 fffff7ffffffffff 152",
    "152 fffff80000000000 ok",
    "152 0000080000000000 ok",
    "152 0000080000000001 152",
    "160 fffff7ffffffffff 160",
    "160 fffff80000000000 ok",
    "160 0000080000000000 ok",
    "160 0000080000000001 160",
    "168 00 168",
    "168 01 ok",
    "168 02 168",
    "169 ffffffff7fffffff 169",
    "169 ffffffff80000000 ok",
    "169 0000000080000000 ok",
    "169 0000000080000001 169",
    "177 ffffffff7fffffff 177",
    "177 ffffffff80000000 ok",
    "177 0000000080000000 ok",
    "177 0000000080000001 177",
    "185 ffffffbfffffffff 185",
    "185 ffffffc000000000 ok",
    "185 0000004000000000 ok",
    "185 0000004000000001 185",
];

/// In spelling 2, where it differs: the length, and wave states, which have to be 0.
const LONG_PARTS: &[&str] = &[
    "4 000000e4 4",
    "4 000000e5 ok",
    "4 000000e6 4",
    "64 ffffffffffffffff 64",
    "64 0000000000000000 ok",
    "64 0000000000000001 64",
    "72 ffffffffffffffff 72",
    "72 0000000000000000 ok",
    "72 0000000000000001 72",
    "80 ffffffffffffffff 80",
    "80 0000000000000000 ok",
    "80 0000000000000001 80",
    "88 ffffffffffffffff 88",
    "88 0000000000000000 ok",
    "88 0000000000000001 88",
    "96 ffffffffffffffff 96",
    "96 0000000000000000 ok",
    "96 00000053d1ac0fff ok",
    "96 00000053d1ac1000 96",
    "104 ffffffbfffffffff 104",
    "104 ffffffc000000000 ok",
    "104 0000004000000000 ok",
    "104 0000004000000001 104",
];

/// Of the sample plant S2, which has a wave filter, in spelling 1.
const WAVE_PARTS: &[&str] = &[
    "4 0000000000000000 126",
    "4 0000000000100000 200",
    "4 0000000000100001 4",
    "60 feffffffffffffff 60",
    "60 ff00000000000000 12",
    "60 0100000000000000 12",
    "60 0100000000000001 60",
    "68 feffffffffffffff 68",
    "68 ff00000000000000 12",
    "68 0100000000000000 12",
    "68 0100000000000001 68",
    "76 feffffffffffffff 76",
    "76 ff00000000000000 12",
    "76 0100000000000000 12",
    "76 0100000000000001 76",
    "84 feffffffffffffff 84",
    "84 ff00000000000000 12",
    "84 0100000000000000 12",
    "84 0100000000000001 84",
    "92 ffffffffffffffff 92",
    "92 0000000000000000 ok",
    "92 00000053d1ac0fff ok",
    "92 00000053d1ac1000 92",
    "100 ffffffbfffffffff 100",
    "100 ffffffc000000000 ok",
    "100 0000004000000000 ok",
    "100 0000004000000001 100",
];

/// Of the first state of S1: marks, the plane's form V, which is judged after the plane and before yaw, and counts that don't fit.
const FIRST_PARTS: &[&str] = &[
    "0 45 0",
    "0 44505330 0",
    "0 44505332 0",
    "4 0000000000000001 120",
    "12 0100000000000000 12",
    "12 00000800000000000000080000000000 ok",
    "12 fffff800000000000000080000000000 ok",
    "20 0100000000000000 12",
    "12 0100000000000000000000000000000000000000000000000100000000000001 36",
    "12 010000000000000000000000000000000000000000000000000000000000000000000000000000000000000000000000ffffffffffffffff 12",
    "92 04 92",
    "93 01 94",
    "120 01 120",
];

/// Where the parts of the spelling of S1 after its first cycle begin, and where they end.
const STARTS: [usize; 31] = [
    0, 4, 12, 20, 28, 36, 44, 52, 60, 68, 76, 84, 88, 92, 93, 94, 102, 110, 118, 119, 127, 135,
    143, 144, 152, 160, 168, 169, 177, 185, 193,
];

/// A machine of a sample plant.
fn machine(rt: &impl Abort, alloc: Global, lines: &[&str]) -> Machine {
    let plant = plant_with(alloc, lines).expect(rt, "a plant");
    Machine::new(alloc, &plant, &accepted(rt, &plant)).expect(rt, "memory")
}

/// The frame of the first cycle, with a metre north of the setpoint on all three references.
fn frame() -> Frame
    ensures range { IsFrameInRange 2 result }
    ensures cycle { result.cycle ≡ 0 }
{
    let north = Place {
        north: 1_000_000_000,
        east: 0,
    };
    Frame {
        cycle: 0,
        pos: [heard(Some(north)), heard(Some(north)), heard(Some(north))],
        gyro: [heard(None), heard(None), heard(None)],
        wind: [heard(None), heard(None), heard(None)],
        group: [
            heard(None),
            heard(None),
            heard(None),
            heard(None),
            heard(None),
            heard(None),
            heard(None),
            heard(None),
        ],
    }
}

/// The machine after its first cycle.
fn stepped(rt: &impl Abort, alloc: Global, lines: &[&str]) -> Machine {
    let mut machine = machine(rt, alloc, lines);
    assert!(rt; machine.count() == 0 && machine.groups() == 2);
    machine.step(&frame());
    machine
}

fn spelled(machine: &Machine, software: u8) -> ArrayVec<u8, 4096>
    requires { IsSoftware software }
{
    let mut text = ArrayVec::new();
    write_state(machine, software, &mut text);
    text
}

fn digit(c: u8) -> u8
    ensures { result < 16 }
{
    if c >= b'0' && c <= b'9' {
        c - b'0'
    } else if c >= b'a' && c <= b'f' {
        c - b'a' + 10
    } else {
        0
    }
}

/// The bytes that a hexadecimal word says, up to 64.
fn hex(rt: &impl Abort, word: &str) -> ArrayVec<u8, 64> {
    let digits = word.as_bytes();
    let mut bytes = ArrayVec::new();
    for k in 0..digits.len() / 2 {
        let byte = 16 * digit(digits[2 * k]) + digit(digits[2 * k + 1]);
        assert!(rt; bytes.try_push(byte).is_ok());
    }
    bytes
}

/// A text with other bytes at an offset.
fn changed(rt: &impl Abort, text: &[u8], at: usize, bytes: &[u8]) -> ArrayVec<u8, 4096> {
    let mut all = ArrayVec::new();
    for k in 0..text.len() {
        let put = match k.checked_sub(at) {
            Some(i) => bytes.get(i).copied().unwrap_or(text[k]),
            None => text[k],
        };
        assert!(rt; all.try_push(put).is_ok());
    }
    all
}

/// Whether a machine takes a text, or refuses it at an offset and stays as it is.
fn is_answer(machine: &mut Machine, software: u8, text: &[u8], wanted: &str) -> bool
    requires { IsSoftware software }
{
    let before = spelled(machine, software);
    let answer = read_state(text, software, machine);
    let after = spelled(machine, software);
    if wanted == "ok" {
        answer == Ok(()) && after.as_slice() == text
    } else {
        let place = natural(wanted) as usize;
        answer == Err(NotState { place }) && after.as_slice() == before.as_slice()
    }
}

/// Each row's text is answered as the row says. The machine has the first text again before the next row.
fn judge(rt: &impl Abort, machine: &mut Machine, software: u8, rows: &[&str])
    requires { IsSoftware software }
{
    let text = spelled(machine, software);
    for row in rows {
        let (at, rest) = cut(*row, ' ');
        let (bytes, wanted) = cut(rest, ' ');
        let at = natural(at) as usize;
        let put = hex(rt, bytes);
        let told = changed(rt, text.as_slice(), at, put.as_slice());
        assert!(rt;
            is_answer(machine, software, told.as_slice(), wanted),
            "{row}"
        );
        assert!(rt; read_state(text.as_slice(), software, machine).is_ok());
    }
}

#[test]
fn judges_each_part(rt: HostRuntime) {
    let mut machine = stepped(&rt, rt.alloc(), S1);
    judge(&rt, &mut machine, 1, PARTS);
}

#[test]
fn judges_the_length_and_absent_waves(rt: HostRuntime) {
    let mut machine = stepped(&rt, rt.alloc(), S1);
    judge(&rt, &mut machine, 2, LONG_PARTS);
}

#[test]
fn judges_waves(rt: HostRuntime) {
    let mut machine = stepped(&rt, rt.alloc(), S2);
    judge(&rt, &mut machine, 1, WAVE_PARTS);
}

#[test]
fn judges_the_first_state(rt: HostRuntime) {
    let mut machine = machine(&rt, rt.alloc(), S1);
    assert_eq!(rt; spelled(&machine, 1).len(), 121);
    judge(&rt, &mut machine, 1, FIRST_PARTS);
}

/// A spelling of this length begins so.
fn begins(rt: &impl Abort, text: &[u8], length: usize, begin: &str) {
    assert_eq!(rt; text.len(), length);
    assert!(rt; text.starts_with(hex(rt, begin).as_slice()));
}

/// After the first cycle: mark and count, in spelling 2 with the length, and the plane.
#[test]
fn begins_with_mark_and_count(rt: HostRuntime) {
    let machine = stepped(&rt, rt.alloc(), S1);
    begins(
        &rt,
        spelled(&machine, 1).as_slice(),
        193,
        "4450533100000000000000010000000003b9aca000000000000000000000000000004c4b0000000000000000000000000017d7840000000000000000",
    );
    begins(
        &rt,
        spelled(&machine, 2).as_slice(),
        229,
        "44505332000000e50000000000000001",
    );
}

/// Cut after each byte the fault is at the part that is cut; with a byte more it is at the end.
#[test]
fn refuses_a_part_of_a_spelling_and_more_than_one(rt: HostRuntime) {
    let mut machine = stepped(&rt, rt.alloc(), S1);
    let mut text = spelled(&machine, 1);
    assert!(rt; text.try_push(0).is_ok());
    for length in 0..text.len() + 1 {
        let mut place = 0;
        for start in STARTS {
            if start <= length {
                place = start;
            }
        }
        if length != 193 {
            let answer = read_state(&text.as_slice()[..length], 1, &mut machine);
            assert_eq!(rt; answer, Err(NotState { place }));
        }
    }
}

/// Software 1 doesn't know spelling 2. Software 2 reads both, and writes the second.
#[test]
fn reads_the_versions_that_it_knows(rt: HostRuntime) {
    let first = stepped(&rt, rt.alloc(), S1);
    let mut second = machine(&rt, rt.alloc(), S1);
    let short = spelled(&first, 1);
    let long = spelled(&first, 2);
    assert_eq!(rt;
        read_state(long.as_slice(), 1, &mut second),
        Err(NotState { place: 0 })
    );
    assert_eq!(rt; second.count(), 0);
    assert_eq!(rt; read_state(short.as_slice(), 2, &mut second), Ok(()));
    assert!(rt; spelled(&second, 2).as_slice() == long.as_slice());
    assert_eq!(rt; read_state(long.as_slice(), 2, &mut second), Ok(()));
    assert!(rt; spelled(&second, 1).as_slice() == short.as_slice());
}

/// The state with its plane at rest at a place: as the spelling of a machine that was put there.
#[test]
fn writes_a_plane_at_rest(rt: HostRuntime) {
    let mut machine = stepped(&rt, rt.alloc(), S2);
    let at = Place {
        north: 2_000_000_000,
        east: -1,
    };
    let mut text = ArrayVec::new();
    write_at(&machine, at, 2, &mut text);
    machine.skew(at);
    assert!(rt; text.as_slice() == spelled(&machine, 2).as_slice());
}
