//! The program over files and an output in memory, and over doubles of them that fail.
//!
//! Most tests are a table of rows: one string each, of which `~` parts what is asked from what is told, the exit code and the text. What a
//! row asks for stands in one helper for each kind of row, and each kind has one loop.
use super::*;
use dp_shell::{MemoryShelf, MemorySink, Sink, fits_shelf};
use dp_test_rows::samples::{S1, text_of};
use dp_test_rows::{cut, natural};
use std::process::Abort;
use std::test::Fail;

mod drift;
mod hostile;
mod plants;
mod readings;
mod refusals;
mod replays;
mod streams;
mod trials;
mod vessels;

/// What a replay of these files is asked with.
const REPLAY: &str = "replay plant record script";

/// What a unit of demand takes, in place of the sample plant's.
const UNIT_MASSES: &str = "mass = [1048576, 0, 0]\ntol = [1048576, 0, 0]";

/// A thruster for each axis, of which the force is the demand itself while its group is not lost.
const ONE_AN_AXIS: &str = "[[thruster]]
group = 0
at = [0, 0]
azimuth = 0
min = -50000000
max = 50000000
[[thruster]]
group = 0
at = [0, 0]
azimuth = 0
min = -30000000
max = 30000000
[[thruster]]
group = 0
at = [0, 0]
azimuth = 0
min = -60000000
max = 60000000
[[case]]
lost = 0
lo = [-50000000, -30000000, -60000000]
hi = [50000000, 30000000, 60000000]
b = [[1048576, 0, 0], [0, 1048576, 0], [0, 0, 1048576]]
[[case]]
lost = 1
lo = [-50000000, -30000000, -60000000]
hi = [50000000, 30000000, 60000000]
b = [[0, 0, 0], [0, 0, 0], [0, 0, 0]]
[[case]]
lost = 2
lo = [-50000000, -30000000, -60000000]
hi = [50000000, 30000000, 60000000]
b = [[1048576, 0, 0], [0, 1048576, 0], [0, 0, 1048576]]";

/// The file of a plant with the gains of the sample plant and one thruster for each axis.
fn plain_plant(alloc: Global) -> Result<String, Fail> {
    let sample = text_of(alloc, S1)?;
    let (vessel, rest) = cut_at(&sample, "mass = ");
    let (_, rest) = cut_at(rest, "[[ref]]");
    let (sensors, rest) = cut_at(rest, "[[thruster]]");
    let (_, gains) = cut_at(rest, "[gains]");
    let lines = [
        vessel,
        UNIT_MASSES,
        "[[ref]]",
        sensors,
        ONE_AN_AXIS,
        "[gains]",
        gains,
    ];
    Ok(text_of(alloc, &lines)?)
}

/// What stands before the first place of a text, and what stands behind it; nothing where there is none.
fn cut_at<'a>(text: &'a str, place: &str) -> (&'a str, &'a str) {
    text.split_once(place).unwrap_or(("", ""))
}

/// The words of a line, between its spaces.
fn words_in(alloc: Global, line: &str) -> Result<Vec<&str>, Fail> {
    let mut words = Vec::new(alloc);
    for word in line.split_whitespace() {
        words.push(word)?;
    }
    Ok(words)
}

/// A plant, a record and a script, as files.
fn named(
    alloc: Global,
    plant: &str,
    record: &[u8],
    script: &[u8],
) -> Result<Vec<(String, Vec<u8>)>, Fail> {
    let plant = named_one(alloc, "plant", plant.as_bytes())?;
    let record = named_one(alloc, "record", record)?;
    let script = named_one(alloc, "script", script)?;
    Ok(vec![in alloc; plant, record, script]?)
}

/// One file.
fn named_one(alloc: Global, name: &str, bytes: &[u8]) -> Result<(String, Vec<u8>), Fail> {
    Ok((String::from_str(alloc, name)?, bytes.to_vec(alloc)?))
}

/// Runs the words of a line over files that never fail, and shows the exit code, a `~` and what was written.
fn told(
    rt: &impl Abort,
    alloc: Global,
    line: &str,
    files: Vec<(String, Vec<u8>)>,
) -> Result<String, Fail> {
    told_failing(rt, alloc, line, files, [0, 0], usize::MAX)
}

/// The same where the read and the write of these numbers fail, 0 for none, and where a read gives at most so many bytes.
fn told_failing(
    rt: &impl Abort,
    alloc: Global,
    line: &str,
    files: Vec<(String, Vec<u8>)>,
    failing: [u64; 2],
    step: usize,
) -> Result<String, Fail> {
    let words = words_in(alloc, line)?;
    let read = vec![in alloc; failing[0]]?;
    let write = vec![in alloc; failing[1]]?;
    assert!(rt; fits_shelf(&files) && step > 0);
    let mut shelf = MemoryShelf::in_steps(files, read, step);
    let mut out = MemorySink::new(alloc, write);
    let code = code_over(alloc, &words, &mut shelf, &mut out);
    shown(alloc, code, out.bytes())
}

/// Runs these words, and gives the exit code. It says nothing of the run, so that what a test calls brings no clause of `run` into its proof.
fn code_over<F: Shelf, K: Sink>(alloc: Global, words: &[&str], shelf: &mut F, out: &mut K) -> u8 {
    run(alloc, words, shelf, out).code()
}

/// An exit code, a `~` and what was written.
fn shown(alloc: Global, code: u8, written: &[u8]) -> Result<String, Fail> {
    let text = String::from_utf8(written.to_vec(alloc)?)?;
    Ok(format!(in alloc; "{code}~{text}")?)
}

/// What was written, but for the lines of alarms.
fn without_alarms(alloc: Global, text: &str) -> Result<String, Fail> {
    let mut rest = String::new(alloc);
    for line in text.lines() {
        if !line.starts_with("alarm ") {
            rest.push_str(line)?;
            rest.push('\n')?;
        }
    }
    Ok(rest)
}

/// Plays a record and a script on the plain plant, and shows the same but for the lines of alarms.
fn played(rt: &impl Abort, alloc: Global, record: &[u8], script: &[u8]) -> Result<String, Fail> {
    let plant = plain_plant(alloc)?;
    let files = named(alloc, &plant, record, script)?;
    let text = told(rt, alloc, REPLAY, files)?;
    without_alarms(alloc, &text)
}

/// Looks for what is wanted.
fn is_same(rt: &impl Abort, seen: &str, wanted: &str, row: &str) {
    assert_eq!(rt; seen, wanted, "on {row}");
}

/// Plays each row, `script~record~code~text`, on the plain plant, and looks for its code and text, in which alarms are left out.
fn all_play(rt: &impl Abort, alloc: Global, rows: &[&str]) -> Result<(), Fail> {
    for row in rows {
        plays(rt, alloc, row)?;
    }
    Ok(())
}

/// Such a row.
fn plays(rt: &impl Abort, alloc: Global, row: &str) -> Result<(), Fail> {
    let (script, rest) = cut(row, '~');
    let (record, wanted) = cut(rest, '~');
    let seen = played(rt, alloc, record.as_bytes(), script.as_bytes())?;
    is_same(rt, &seen, wanted, row);
    Ok(())
}

/// Asks for each row, `words~script~record~code~text`, on a plant, and looks for its code and text.
fn all_told(rt: &impl Abort, alloc: Global, plant: &str, rows: &[&str]) -> Result<(), Fail> {
    for row in rows {
        is_told(rt, alloc, plant, row)?;
    }
    Ok(())
}

/// Such a row.
fn is_told(rt: &impl Abort, alloc: Global, plant: &str, row: &str) -> Result<(), Fail> {
    let (line, rest) = cut(row, '~');
    let (script, rest) = cut(rest, '~');
    let (record, wanted) = cut(rest, '~');
    let files = named(alloc, plant, record.as_bytes(), script.as_bytes())?;
    let seen = told(rt, alloc, line, files)?;
    is_same(rt, &seen, wanted, row);
    Ok(())
}

/// A record that is cut after each of its bytes.
#[test]
fn a_cut_record_is_played(rt: HostRuntime) -> Result<(), Fail> {
    let rows: &[&str] = &[
        "record~0~0~0~end 0\n",
        "record~1~1~7~fault record 1 badtime\n",
        "record~2~2~7~fault record 1 nowire\n",
        "record~3~5~7~fault record 1 unknown\n",
        "record~6~17~0~cycle 0 LLL\nt0 F 0 0 0 0\nt1 F 0 0 0 0\nt2 F 0 0 0 0\nend 1\n",
        "record~18~21~7~fault record 3 badtime\n",
        "record~22~22~7~fault record 3 nowire\n",
        "record~23~25~7~fault record 3 unknown\n",
        "record~26~63~0~cycle 0 LLL\nt0 F 0 0 0 0\nt1 F 0 0 0 0\nt2 F 0 0 0 0\ncycle 1 LLL\nt0 F -6836 -6836 -6836 -6836\nt1 F 0 0 0 0\nt2 F 0 0 0 0\nend 2\n",
        "record~64~67~7~cycle 0 LLL\nt0 F 0 0 0 0\nt1 F 0 0 0 0\nt2 F 0 0 0 0\nfault record 4 badtime\n",
        "record~68~68~7~cycle 0 LLL\nt0 F 0 0 0 0\nt1 F 0 0 0 0\nt2 F 0 0 0 0\nfault record 4 nowire\n",
        "record~69~71~7~cycle 0 LLL\nt0 F 0 0 0 0\nt1 F 0 0 0 0\nt2 F 0 0 0 0\nfault record 4 unknown\n",
        "record~72~76~0~cycle 0 LLL\nt0 F 0 0 0 0\nt1 F 0 0 0 0\nt2 F 0 0 0 0\ncycle 1 LLL\nt0 F -6836 -6836 -6836 -6836\nt1 F 0 0 0 0\nt2 F 0 0 0 0\ncycle 2 LLL\nt0 F -642733 -642733 -642733 -642733\nt1 F 0 0 0 0\nt2 F 0 0 0 0\nend 3\n",
    ];
    hostile::all_hurt(&rt, rt.alloc(), rows)
}

/// A script that is cut after each of its bytes.
#[test]
fn a_cut_script_is_played(rt: HostRuntime) -> Result<(), Fail> {
    let rows: &[&str] = &[
        "script~0~0~0~cycle 0 LLL\nt0 F 0 0 0 0\nt1 F 0 0 0 0\nt2 F 0 0 0 0\ncycle 1 LLL\nt0 F -68360 -68360 -68360 -68360\nt1 F 0 0 0 0\nt2 F 0 0 0 0\nend 2\n",
        "script~1~9~8~fault script 1 verb\n",
        "script~10~10~8~fault script 1 number\n",
        "script~11~11~0~cycle 0 LLL\nt0 F 0 0 0 0\nt1 F 0 0 0 0\nt2 F 0 0 0 0\ncycle 1 LLL\nt0 H 0 - - 9\nt1 H 0 - - -\nt2 H 0 - - -\nend 2\n",
        "script~12~12~8~fault script 1 number\n",
        "script~13~14~0~cycle 0 LLL\nt0 F 0 0 0 0\nt1 F 0 0 0 0\nt2 F 0 0 0 0\ncycle 1 LLL\nt0 H 0 - - 9\nt1 H 0 - - -\nt2 H 0 - - -\nend 2\n",
        "script~15~20~8~fault script 3 verb\n",
        "script~21~21~0~cycle 0 LLL\nt0 F 0 0 0 0\nt1 F 0 0 0 0\nt2 F 0 0 0 0\ncycle 1 LLL\nt0 F -68360 -68360 -68360 9\nt1 F 0 0 0 0\nt2 F 0 0 0 0\nend 2\n",
    ];
    hostile::all_hurt(&rt, rt.alloc(), rows)
}

/// Bytes that are no text.
#[test]
fn bytes_are_judged(rt: HostRuntime) -> Result<(), Fail> {
    let seen = played(&rt, rt.alloc(), b"0 pos0 \xff\xfe\n\xff pos0\n", b"")?;
    is_same(&rt, &seen, "7~fault record 2 notime\n", "a record");
    let seen = played(&rt, rt.alloc(), b"\xff\n", b"0 usual\n\xc3\x28\n")?;
    is_same(&rt, &seen, "8~fault script 2 verb\n", "a script");
    Ok(())
}

/// Words that are no command, and files that aren't there.
#[test]
fn words_are_told(rt: HostRuntime) -> Result<(), Fail> {
    let plant = plain_plant(rt.alloc())?;
    let rows: &[&str] = &[
        "~~~2~fault usage\n",
        "replay~~~2~fault usage\n",
        "replay record script~~~2~fault usage\n",
        "replay plant record script~~~0~end 0\n",
        "replay -- plant record script~~~0~end 0\n",
        "replay plant record script more~~~2~fault usage\n",
        "replay plant record script -x~~~2~fault usage\n",
        "Replay plant record script~~~2~fault usage\n",
        "check~~~2~fault usage\n",
        "check plant record~~~2~fault usage\n",
        "check script~~~5~fault plant missing plant.version\n",
        "check none~~~3~fault read plant\n",
        "--help~~~2~fault usage\n",
        "check --help~~~2~fault usage\n",
        "replay none none none~~~3~fault read plant\n",
        "replay plant none none~~~3~fault read script\n",
        "replay plant none script~~~3~fault read record\n",
        "replay plant script script~~~0~end 0\n",
    ];
    all_told(&rt, rt.alloc(), &plant, rows)
}

/// The read, or the write, of each number fails: `script~read~write~code~text`, without alarms.
#[test]
fn failures_are_told(rt: HostRuntime) -> Result<(), Fail> {
    let rows: &[&str] = &[
        "1 usual\n~1~0~3~fault read plant\n",
        "1 usual\n~2~0~3~fault read plant\n",
        "1 usual\n~3~0~3~fault read script\n",
        "1 usual\n~4~0~3~fault read script\n",
        "1 usual\n~5~0~3~fault read record\n",
        "1 usual\n~6~0~3~cycle 0 LLL\nt0 F 0 0 0 0\nt1 F 0 0 0 0\nt2 F 0 0 0 0\nfault read record\n",
        "1 usual\n~7~0~0~cycle 0 LLL\nt0 F 0 0 0 0\nt1 F 0 0 0 0\nt2 F 0 0 0 0\ncycle 1 LLL\nt0 F -68360 -68360 -68360 -68360\nt1 F 0 0 0 0\nt2 F 0 0 0 0\nend 2\n",
        "1 usual\n~0~1~4~\n",
        "1 usual\n~0~2~4~cycle 0 LLL\nt0 F 0 0 0 0\nt1 F 0 0 0 0\nt2 F 0 0 0 0\n",
        "1 usual\n~0~3~4~cycle 0 LLL\nt0 F 0 0 0 0\nt1 F 0 0 0 0\nt2 F 0 0 0 0\ncycle 1 LLL\nt0 F -68360 -68360 -68360 -68360\nt1 F 0 0 0 0\nt2 F 0 0 0 0\n",
        "1 usual\n~0~4~0~cycle 0 LLL\nt0 F 0 0 0 0\nt1 F 0 0 0 0\nt2 F 0 0 0 0\ncycle 1 LLL\nt0 F -68360 -68360 -68360 -68360\nt1 F 0 0 0 0\nt2 F 0 0 0 0\nend 2\n",
        "1 usual\n~1~1~4~\n",
        "1 usual\n~3~2~3~fault read script\n",
        // an empty script is read once
        "~4~0~3~fault read record\n",
    ];
    all_fail(&rt, rt.alloc(), rows)
}

/// Two cycles.
const TWO_CYCLES: &[u8] = b"0 pos0 L 1000 0\n1000 pos0 L 1000 0\n";

/// Plays two cycles by each row over a shelf and a sink that fail.
fn all_fail(rt: &impl Abort, alloc: Global, rows: &[&str]) -> Result<(), Fail> {
    for row in rows {
        fails(rt, alloc, row)?;
    }
    Ok(())
}

/// Such a row.
fn fails(rt: &impl Abort, alloc: Global, row: &str) -> Result<(), Fail> {
    let (script, rest) = cut(row, '~');
    let (read, rest) = cut(rest, '~');
    let (write, wanted) = cut(rest, '~');
    let plant = plain_plant(alloc)?;
    let files = named(alloc, &plant, TWO_CYCLES, script.as_bytes())?;
    let failing = [natural(read), natural(write)];
    let text = told_failing(rt, alloc, REPLAY, files, failing, usize::MAX)?;
    let seen = without_alarms(alloc, &text)?;
    is_same(rt, &seen, wanted, row);
    Ok(())
}

/// The exit code of each ending.
#[test]
fn codes_are_told(rt: HostRuntime) {
    has_code(&rt, Status::Ok, 0);
    has_code(&rt, Status::Usage, 2);
    has_code(&rt, Status::ReadFault, 3);
    has_code(&rt, Status::WriteFault, 4);
    has_code(&rt, Status::BadPlant, 5);
    has_code(&rt, Status::GainsRefused, 6);
    has_code(&rt, Status::BadRecord, 7);
    has_code(&rt, Status::BadScript, 8);
    has_code(&rt, Status::Memory, 9);
    has_code(&rt, Status::TooLong, 10);
}

/// The exit code of an ending.
fn has_code(rt: &impl Abort, status: Status, code: u8) {
    assert_eq!(rt; status.code(), code);
}
