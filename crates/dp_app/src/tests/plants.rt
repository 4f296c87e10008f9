//! Plants: the sample plants whole, and files, cases and gains that are refused.
use super::{all_told, cut_at, is_same, named, told};
use dp_test_rows::cut;
use dp_test_rows::samples::{S1, S2, text_of};
use std::alloc::Global;
use std::process::Abort;
use std::test::Fail;

/// Replays of the sample plant, with all of their text: `words~script~record~code~text`.
#[test]
fn the_sample_plant_is_played(rt: HostRuntime) -> Result<(), Fail> {
    let plant = text_of(rt.alloc(), S1)?;
    let rows: &[&str] = &[
        // no cycle
        "replay plant record script~\
         ~\
         ~0~end 0\n",
        // three cycles at one place
        "replay plant record script~\
         ~0 pos0 L 1000 0\n0 pos1 L 1000 0\n0 pos2 L 1000 0\n1000 pos0 L 1000 0\n1000 pos1 L 1000 0\n1000 pos2 L 1000 0\n2000 pos0 L 1000 0\n2000 pos1 L 1000 0\n2000 pos2 L 1000 0\n\
         ~0~cycle 0 LLL\nt0 F 0 0 0 0\nt1 F 0 0 0 0\nt2 F 0 0 0 0\nt3 F 0 0 0 0\nt4 F 0 0 0 0\nt5 F 0 0 0 0\nalarm gyro\nalarm wind\ncycle 1 LLL\nt0 F -171 -171 -171 -171\nt1 F -171 -171 -171 -171\nt2 F 0 0 0 0\nt3 F 0 0 0 0\nt4 F 0 0 0 0\nt5 F 0 0 0 0\nalarm gyro\nalarm wind\ncycle 2 LLL\nt0 F -329 -329 -329 -329\nt1 F -329 -329 -329 -329\nt2 F 0 0 0 0\nt3 F 0 0 0 0\nt4 F 0 0 0 0\nt5 F 0 0 0 0\nalarm gyro\nalarm wind\nend 3\n",
        // a skewed computer is outvoted
        "replay plant record script~1 skew 1 1000000000 0\n1 usual\n\
         ~0 pos0 L 0 0\n0 pos1 L 0 0\n0 pos2 L 0 0\n1000 pos0 L 0 0\n1000 pos1 L 0 0\n1000 pos2 L 0 0\n2000 pos0 L 0 0\n2000 pos1 L 0 0\n2000 pos2 L 0 0\n\
         ~0~cycle 0 LLL\nt0 F 0 0 0 0\nt1 F 0 0 0 0\nt2 F 0 0 0 0\nt3 F 0 0 0 0\nt4 F 0 0 0 0\nt5 F 0 0 0 0\nalarm gyro\nalarm wind\ncycle 1 LLL\nt0 F 0 0 -391 0\nt1 F 0 0 -391 0\nt2 F 0 0 0 0\nt3 F 0 0 0 0\nt4 F 0 0 0 0\nt5 F 0 0 0 0\nalarm gyro\nalarm wind\ncycle 2 LLL\nt0 F 0 0 -211 0\nt1 F 0 0 -210 0\nt2 F 0 0 0 0\nt3 F 0 0 0 0\nt4 F 0 0 0 0\nt5 F 0 0 0 0\nalarm gyro\nalarm wind\nend 3\n",
        // a time that falls
        "replay plant record script~\
         ~0 pos0 L 0 0\n1000 pos0 L 0 0\n2000 pos0 L 0 0\n3000 pos0 L 0 0\n4000 pos0 L 0 0\n5000 pos0 L 0 0\n4000 pos0 L 0 0\n\
         ~7~cycle 0 LLL\nt0 F 0 0 0 0\nt1 F 0 0 0 0\nt2 F 0 0 0 0\nt3 F 0 0 0 0\nt4 F 0 0 0 0\nt5 F 0 0 0 0\nalarm ref 1 silent\nalarm ref 2 silent\nalarm gyro\nalarm wind\ncycle 1 LLL\nt0 F 0 0 0 0\nt1 F 0 0 0 0\nt2 F 0 0 0 0\nt3 F 0 0 0 0\nt4 F 0 0 0 0\nt5 F 0 0 0 0\nalarm ref 1 silent\nalarm ref 2 silent\nalarm gyro\nalarm wind\ncycle 2 LLL\nt0 F 0 0 0 0\nt1 F 0 0 0 0\nt2 F 0 0 0 0\nt3 F 0 0 0 0\nt4 F 0 0 0 0\nt5 F 0 0 0 0\nalarm ref 1 silent\nalarm ref 2 silent\nalarm gyro\nalarm wind\ncycle 3 LLL\nt0 F 0 0 0 0\nt1 F 0 0 0 0\nt2 F 0 0 0 0\nt3 F 0 0 0 0\nt4 F 0 0 0 0\nt5 F 0 0 0 0\nalarm ref 1 silent\nalarm ref 2 silent\nalarm gyro\nalarm wind\ncycle 4 LLL\nt0 F 0 0 0 0\nt1 F 0 0 0 0\nt2 F 0 0 0 0\nt3 F 0 0 0 0\nt4 F 0 0 0 0\nt5 F 0 0 0 0\nalarm ref 1 silent\nalarm ref 2 silent\nalarm gyro\nalarm wind\nfault record 7 back 5000 4000\n",
        // the same without its last line, and without a line feed
        "replay plant record script~\
         ~0 pos0 L 0 0\n1000 pos0 L 0 0\n2000 pos0 L 0 0\n3000 pos0 L 0 0\n4000 pos0 L 0 0\n5000 pos0 L 0 0\
         ~0~cycle 0 LLL\nt0 F 0 0 0 0\nt1 F 0 0 0 0\nt2 F 0 0 0 0\nt3 F 0 0 0 0\nt4 F 0 0 0 0\nt5 F 0 0 0 0\nalarm ref 1 silent\nalarm ref 2 silent\nalarm gyro\nalarm wind\ncycle 1 LLL\nt0 F 0 0 0 0\nt1 F 0 0 0 0\nt2 F 0 0 0 0\nt3 F 0 0 0 0\nt4 F 0 0 0 0\nt5 F 0 0 0 0\nalarm ref 1 silent\nalarm ref 2 silent\nalarm gyro\nalarm wind\ncycle 2 LLL\nt0 F 0 0 0 0\nt1 F 0 0 0 0\nt2 F 0 0 0 0\nt3 F 0 0 0 0\nt4 F 0 0 0 0\nt5 F 0 0 0 0\nalarm ref 1 silent\nalarm ref 2 silent\nalarm gyro\nalarm wind\ncycle 3 LLL\nt0 F 0 0 0 0\nt1 F 0 0 0 0\nt2 F 0 0 0 0\nt3 F 0 0 0 0\nt4 F 0 0 0 0\nt5 F 0 0 0 0\nalarm ref 1 silent\nalarm ref 2 silent\nalarm gyro\nalarm wind\ncycle 4 LLL\nt0 F 0 0 0 0\nt1 F 0 0 0 0\nt2 F 0 0 0 0\nt3 F 0 0 0 0\nt4 F 0 0 0 0\nt5 F 0 0 0 0\nalarm ref 1 silent\nalarm ref 2 silent\nalarm gyro\nalarm wind\ncycle 5 LLL\nt0 F 0 0 0 0\nt1 F 0 0 0 0\nt2 F 0 0 0 0\nt3 F 0 0 0 0\nt4 F 0 0 0 0\nt5 F 0 0 0 0\nalarm ref 1 silent\nalarm ref 2 silent\nalarm gyro\nalarm wind\nend 6\n",
        // lost groups, damage, and computers of which too few issue
        "replay plant record script~1 run 0\n1 orders 0\n\
         ~0 grp0 G 0\n0 pos0 L 0 0\n0 pos1 L 0 0\n0 pos2 L 0 0\n1000 grp1 G 0\n1000 gyro0 $HEHDT,90.0,T*17\n\
         ~0~cycle 0 LLL\nt0 F 0 0 0 0\nt1 F 0 0 0 0\nt2 F 0 0 0 0\nt3 F 0 0 0 0\nt4 F 0 0 0 0\nt5 F 0 0 0 0\nalarm gyro\nalarm wind\nalarm consequence 1\ncycle 1 LLL\nt0 H 0 0 - -\nt1 H 0 0 - -\nt2 H 0 0 - -\nt3 H 0 0 - -\nt4 H 0 0 - -\nt5 H 0 0 - -\nalarm unknown\nend 2\n",
        // both groups lost, and a sentence with a wrong check
        "replay plant record script~\
         ~0 grp0 G 0\n0 grp1 G 0\n\
         ~0~cycle 0 LLL\nt0 F 0 0 0 0\nt1 F 0 0 0 0\nt2 F 0 0 0 0\nt3 F 0 0 0 0\nt4 F 0 0 0 0\nt5 F 0 0 0 0\nalarm ref 0 silent\nalarm ref 1 silent\nalarm ref 2 silent\nalarm blind\nalarm gyro\nalarm wind\nalarm nocase\nend 1\n",
        "replay plant record script~\
         ~0 pos0 $GPGGA,123519,4807.038,N,01131.000,E,1,08,0.9,545.4,M,46.9,M,,*46\n\
         ~0~cycle 0 LLL\nt0 F 0 0 0 0\nt1 F 0 0 0 0\nt2 F 0 0 0 0\nt3 F 0 0 0 0\nt4 F 0 0 0 0\nt5 F 0 0 0 0\nalarm ref 0 silent\nalarm ref 1 silent\nalarm ref 2 silent\nalarm damage pos0\nalarm blind\nalarm gyro\nalarm wind\nend 1\n",
        // 2^20 cycles
        "replay plant record script~\
         ~1048576000 pos0 L 0 0\n\
         ~10~fault long cycles 1048576\n",
        // a script out of order
        "replay plant record script~3 usual\n2 usual\n\
         ~0 pos0 L 1000 0\n0 pos1 L 1000 0\n0 pos2 L 1000 0\n1000 pos0 L 1000 0\n1000 pos1 L 1000 0\n1000 pos2 L 1000 0\n2000 pos0 L 1000 0\n2000 pos1 L 1000 0\n2000 pos2 L 1000 0\n\
         ~8~fault script 2 order\n",
    ];
    all_told(&rt, rt.alloc(), &plant, rows)
}

/// How far a bad reference can move the thrusters of the sample plants.
#[test]
fn the_sample_plants_are_checked(rt: HostRuntime) -> Result<(), Fail> {
    is_checked(&rt, rt.alloc(), S1, 0, CHECKED)?;
    is_checked(&rt, rt.alloc(), S2, 0, CHECKED)
}

/// A plant file of the most bytes that it may have, and one byte more.
#[test]
fn long_plant_files_are_refused(rt: HostRuntime) -> Result<(), Fail> {
    is_checked(&rt, rt.alloc(), S1, 1 << 20, CHECKED)?;
    is_checked(&rt, rt.alloc(), S1, (1 << 20) + 1, "10~fault long plant\n")
}

/// Checks the plant file of these lines, filled up with empty ones to so many bytes, and looks for the code and the text.
fn is_checked(
    rt: &impl Abort,
    alloc: Global,
    lines: &[&str],
    size: usize,
    wanted: &str,
) -> Result<(), Fail> {
    let mut plant = text_of(alloc, lines)?;
    for _ in plant.len()..size {
        plant.push('\n')?;
    }
    let files = named(alloc, &plant, b"", b"")?;
    let seen = told(rt, alloc, "check plant", files)?;
    is_same(rt, &seen, wanted, "a whole plant");
    Ok(())
}

/// The two sample plants have the same gains and cases, but for the wave filter.
const CHECKED: &str =
    "0~accepted\ncase 0\nt0 C 895 R 22759835\nt1 C 894 R 22751555\nt2 C 716 R 18412615\nt3 C 716 R 18412615\nt4 C 716 R 18412615\nt5 C 716 R 18412615\ncase 1\nt0 C 0 R 1048576\nt1 C 1789 R 44462814\nt2 C 0 R 1048576\nt3 C 1431 R 35776654\nt4 C 0 R 1048576\nt5 C 1431 R 35776654\ncase 2\nt0 C 1789 R 44462814\nt1 C 0 R 1048576\nt2 C 1431 R 35776654\nt3 C 0 R 1048576\nt4 C 1431 R 35776654\nt5 C 0 R 1048576\nend 3\n";

/// Plant files that are refused: `edits~words~code~text`. The edits are parted by `;`, up to two, and each is the text whose first place gives
/// way, `>`, and to what.
#[test]
fn plants_are_refused(rt: HostRuntime) -> Result<(), Fail> {
    let rows: &[&str] = &[
        "[plant]>a =~check plant~5~fault plant toml\n",
        "cycle_ms = 1000\n>~check plant~5~fault plant missing plant.cycle_ms\n",
        "cycle_ms = 1000>cycle_ms = \"x\"~check plant~5~fault plant kind plant.cycle_ms\n",
        "cycle_ms = 1000>cycle_ms = 99~check plant~5~fault plant range plant.cycle_ms\n",
        "lost = 2>lost = 1~check plant~5~fault plant range case.2.lost\n",
        "lost = 1>lost = 3~check plant~5~fault plant missing case\n",
        "max = 250000>max = 100~check plant~5~fault plant corner 0 0 125026 100\n",
        "min = -250000>min = -100~check plant~5~fault plant corner 0 0 -125027 -100\n",
        "mass = [5243, 8388, 54960000]>mass = [5243, 8389, 54960000]~check plant~5~fault plant demand 0 1 1 1073741824\n",
        "leak = 1342177>leak = -1~check plant~6~fault gains range gains.leak\n",
        "rho = 1073217536>rho = 1073741825~check plant~6~fault gains range cert.rho\n",
        "rho = 1073217536>rho = 1073741824~check plant~6~fault gains rate\n",
        "form = [[8, -1, 6656, -40], [100, 1, 0, -8]]>form = []~check plant~6~fault gains form 0 53570\n",
        "leak = 1342177>leak = 0~check plant~6~fault gains vertex 0 0 0 75152154165916840304\n",
        "sway2 = [[1401000, -100000, 665600000, -4000000], [4600000000, -26000, 0, 1000000]]>sway2 = []~check plant~6~fault gains vertex 1 2 0 194771055047771080704\n",
        "b = 1200000000>b = 1~check plant~6~fault gains input\n",
        "r = 27130>r = 27000~check plant~6~fault gains round\n",
        "g = [160000, 160000]>g = [160000, 100000]~check plant~6~fault gains output 1 0 0 840179525893344\n",
        "span = [100000000, 70000, 4700000]>span = [100000000, 60000, 4700000]~check plant~6~fault gains span 1 0 69568660000000\n",
        "b = 1200000000>b = 1125899906842624~check plant~6~fault gains wide 0\n",
    ];
    all_refused(&rt, rt.alloc(), rows)
}

/// Which of several refusals is told.
#[test]
fn the_first_refusal_is_told(rt: HostRuntime) -> Result<(), Fail> {
    let rows: &[&str] = &[
        // a case comes before the gains, and both before the script
        "max = 250000>max = 100;rho = 1073217536>rho = 1073741824~check plant~5~fault plant corner 0 0 125026 100\n",
        "rho = 1073217536>rho = 1073741824~replay plant none none~6~fault gains rate\n",
        // the script comes before the record
        "~replay plant none script~8~fault script 1 verb\n",
        "~replay plant record record~7~fault record 1 notime\n",
    ];
    all_refused(&rt, rt.alloc(), rows)
}

fn all_refused(rt: &impl Abort, alloc: Global, rows: &[&str]) -> Result<(), Fail> {
    for row in rows {
        is_refused(rt, alloc, row)?;
    }
    Ok(())
}

/// Such a row, over a record and a script that are refused too.
fn is_refused(rt: &impl Abort, alloc: Global, row: &str) -> Result<(), Fail> {
    let (edits, rest) = cut(row, '~');
    let (line, wanted) = cut(rest, '~');
    let (first, second) = cut(edits, ';');
    let plant = text_of(alloc, S1)?;
    let plant = edited(alloc, &plant, first)?;
    let plant = edited(alloc, &plant, second)?;
    let files = named(alloc, &plant, b"# no line\n", b"fly\n")?;
    let seen = told(rt, alloc, line, files)?;
    is_same(rt, &seen, wanted, row);
    Ok(())
}

/// A text in which the first place of another has given way; the same where there is no edit.
fn edited(alloc: Global, text: &str, edit: &str) -> Result<String, Fail> {
    let (old, new) = cut(edit, '>');
    if old.is_empty() {
        return Ok(String::from_str(alloc, text)?);
    }
    let (before, after) = cut_at(text, old);
    Ok(format!(in alloc; "{before}{new}{after}")?)
}
