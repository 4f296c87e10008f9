//! Hostile use: the sample plant over a record that is cut, over a shelf and a sink that fail, and under floods of lines; and the plain plant
//! over a record and a script that are cut.
use super::streams::{FIRST, SECOND, THIRD, THREE_CYCLES};
use super::*;

/// Three cycles, hurt in the ways of the table.
///
/// A row is `WHAT~FIRST~LAST~CODE~BLOCKS~LINE~ALARMS`. From FIRST to LAST goes the number of bytes that are left of the record (`cut`), or of the
/// call of the shelf (`read`) or of the sink (`write`) that fails. Then come the code, the number of blocks, the last line, and what alarms
/// the last block has more than in the whole record. For the cut records they are those of a program that was written apart from this one.
#[test]
fn hurt_replays_are_told(rt: HostRuntime) -> Result<(), Fail> {
    all_hurt(&rt, rt.alloc(), ROWS)
}

/// Looks for what each row of a table of hurt replays tells.
pub fn all_hurt(rt: &impl Abort, alloc: Global, rows: &[&str]) -> Result<(), Fail> {
    for row in rows {
        is_hurt(rt, alloc, row)?;
    }
    Ok(())
}

/// Such a row, from the first to the last of its numbers.
fn is_hurt(rt: &impl Abort, alloc: Global, row: &str) -> Result<(), Fail> {
    let (what, rest) = cut(row, '~');
    let (first, rest) = cut(rest, '~');
    let (last, wanted) = cut(rest, '~');
    let wanted = wanted_of(alloc, what, wanted)?;
    for at in natural(first)..natural(last).saturating_add(1) {
        let seen = hurt(rt, alloc, what, at)?;
        is_same(rt, &seen, &wanted, row);
    }
    Ok(())
}

/// What is wanted of a way to hurt: as it stands for the cut record and script of the plain plant.
fn wanted_of(alloc: Global, what: &str, wanted: &str) -> Result<String, Fail> {
    if what == "record" || what == "script" {
        return Ok(String::from_str(alloc, wanted)?);
    }
    wanted_text(alloc, wanted)
}

/// The code and the text of `CODE~BLOCKS~LINE~ALARMS`.
fn wanted_text(alloc: Global, row: &str) -> Result<String, Fail> {
    let (code, rest) = cut(row, '~');
    let (count, rest) = cut(rest, '~');
    let (line, alarms) = cut(rest, '~');
    let (before, between, last) = blocks_of(count);
    if last.is_empty() {
        return Ok(format!(in alloc; "{code}~{line}")?);
    }
    let (forces, own) = cut_at(last, "alarm gyro");
    Ok(format!(in alloc; "{code}~{before}{between}{forces}{alarms}alarm gyro{own}{line}")?)
}

/// So many of the three blocks, up to three; the last one stands at the end.
fn blocks_of(count: &str) -> (&str, &str, &str) {
    match natural(count) {
        0 => ("", "", ""),
        1 => ("", "", FIRST),
        2 => (FIRST, "", SECOND),
        _ => (FIRST, SECOND, THIRD),
    }
}

/// What a replay tells that is hurt in this way.
fn hurt(rt: &impl Abort, alloc: Global, what: &str, at: u64) -> Result<String, Fail> {
    match what {
        "record" => played(rt, alloc, first_of(CUT_RECORD, at).as_bytes(), b""),
        "script" => played(rt, alloc, TWO_CYCLES, first_of(CUT_SCRIPT, at).as_bytes()),
        "cut" => over_failing(rt, alloc, first_of(THREE_CYCLES, at), 0, 0),
        "read" => over_failing(rt, alloc, THREE_CYCLES, at, 0),
        "write" => over_failing(rt, alloc, THREE_CYCLES, 0, at),
        _ => streams::in_steps(rt, alloc, 1, at, THREE_CYCLES),
    }
}

/// So many bytes of a text; all of it where it is shorter.
fn first_of(text: &str, count: u64) -> &str {
    text.get(..count as usize).unwrap_or(text)
}

/// A record of three cycles on the plain plant.
const CUT_RECORD: &str =
    "0 pos0 L 100 0\r\n\n1000 pos2 $GPGGA,,4807.048,N,01131.000,E,1*59\n2000 pos1 L 9";

/// A script for two cycles.
const CUT_SCRIPT: &str = "1 say 2 0 9\r\n\n1 usual";

/// What a replay on the sample plant tells over a shelf and a sink that fail at the calls of these numbers.
fn over_failing(
    rt: &impl Abort,
    alloc: Global,
    record: &str,
    read: u64,
    write: u64,
) -> Result<String, Fail> {
    asked_failing(rt, alloc, REPLAY, record, [read, write])
}

/// What the words of a line tell over such a shelf and such a sink.
fn asked_failing(
    rt: &impl Abort,
    alloc: Global,
    line: &str,
    record: &str,
    failing: [u64; 2],
) -> Result<String, Fail> {
    let plant = text_of(alloc, S1)?;
    let files = named(alloc, &plant, record.as_bytes(), b"")?;
    told_failing(rt, alloc, line, files, failing, usize::MAX)
}

/// The other commands, and words that are none, where the read or the write of a number fails: `WORDS~READ~WRITE~CODE~TEXT`. Where the row
/// ends with two points this is how the text begins.
#[test]
fn failures_of_each_command_are_told(rt: HostRuntime) -> Result<(), Fail> {
    let rows: &[&str] = &[
        "check plant~1~0~3~fault read plant\n",
        "check plant~2~0~3~fault read plant\n",
        "check plant~3~0~0~accepted\ncase 0\n..",
        "check plant~0~1~4~",
        "check plant~0~2~4~accepted\n",
        "check plant~1~1~4~",
        "make 0~1~0~0~0 pos0 L -477 -254\n..",
        "make 0~0~1~4~",
        "trial plant 0~1~0~3~fault read plant\n",
        "trial plant 0~2~0~3~fault read plant\n",
        "trial plant 0~3~1~4~",
        "play plant~1~0~2~fault usage\n",
        "play plant~0~1~4~",
    ];
    all_commands_fail(&rt, rt.alloc(), rows)
}

fn all_commands_fail(rt: &impl Abort, alloc: Global, rows: &[&str]) -> Result<(), Fail> {
    for row in rows {
        command_fails(rt, alloc, row)?;
    }
    Ok(())
}

/// Such a row.
fn command_fails(rt: &impl Abort, alloc: Global, row: &str) -> Result<(), Fail> {
    let (line, rest) = cut(row, '~');
    let (read, rest) = cut(rest, '~');
    let (write, wanted) = cut(rest, '~');
    let failing = [natural(read), natural(write)];
    let seen = asked_failing(rt, alloc, line, "", failing)?;
    match wanted.strip_suffix("..") {
        Some(first) => begins(rt, &seen, first, row),
        None => is_same(rt, &seen, wanted, row),
    }
    Ok(())
}

/// Looks for how a text begins.
fn begins(rt: &impl Abort, seen: &str, first: &str, row: &str) {
    assert!(rt; seen.starts_with(first), "on {row}");
}

/// So many lines before those of two cycles, which are read in many pieces: `COUNT~LINE~ALARM`, with the alarm that the first block has more
/// than without them.
#[test]
fn floods_are_played(rt: HostRuntime) -> Result<(), Fail> {
    let rows: &[&str] = &[
        "0~~",
        "5000~0 pos0 L 9 9\n~",
        "100000~0 pos0 L 9 9\n~",
        "5000~0 wind2 $WIMWV,045.0,R,05.0,M,A*00\n~alarm damage wind2\n",
    ];
    all_flood(&rt, rt.alloc(), rows)
}

fn all_flood(rt: &impl Abort, alloc: Global, rows: &[&str]) -> Result<(), Fail> {
    for row in rows {
        floods(rt, alloc, row)?;
    }
    Ok(())
}

/// Such a row.
fn floods(rt: &impl Abort, alloc: Global, row: &str) -> Result<(), Fail> {
    let (count, rest) = cut(row, '~');
    let (line, alarm) = cut(rest, '~');
    let record = flooded(alloc, natural(count), line)?;
    let seen = over_failing(rt, alloc, &record, 0, 0)?;
    let wanted = format!(in alloc;
        "0~{FLOODED_FORCES}{alarm}alarm gyro\nalarm wind\n{FLOODED_END}"
    )?;
    is_same(rt, &seen, &wanted, row);
    Ok(())
}

/// So many lines, and then two cycles.
fn flooded(alloc: Global, count: u64, line: &str) -> Result<String, Fail> {
    let mut record = String::new(alloc);
    for _ in 0..count {
        record.push_str(line)?;
    }
    record.push_str("0 pos0 L 1000 0\n1000 pos0 L 1000 0\n")?;
    Ok(record)
}

/// The first block of two cycles with one position reference, up to the alarms of damage.
const FLOODED_FORCES: &str =
    "cycle 0 LLL\nt0 F 0 0 0 0\nt1 F 0 0 0 0\nt2 F 0 0 0 0\nt3 F 0 0 0 0\nt4 F 0 0 0 0\nt5 F 0 0 0 0\nalarm ref 1 silent\nalarm ref 2 silent\n";

/// The second block, and the last line.
const FLOODED_END: &str =
    "cycle 1 LLL\nt0 F -171 -171 -171 -171\nt1 F -171 -171 -171 -171\nt2 F 0 0 0 0\nt3 F 0 0 0 0\nt4 F 0 0 0 0\nt5 F 0 0 0 0\nalarm ref 1 silent\nalarm ref 2 silent\nalarm gyro\nalarm wind\nend 2\n";

const ROWS: &[&str] = &[
    "cut~0~0~0~0~end 0\n~",
    "cut~1~1~7~0~fault record 1 badtime\n~",
    "cut~2~2~7~0~fault record 1 nowire\n~",
    "cut~3~5~7~0~fault record 1 unknown\n~",
    "cut~6~7~0~1~end 1\n~alarm ref 0 silent\nalarm ref 1 silent\nalarm ref 2 silent\nalarm damage pos0\nalarm blind\n",
    "cut~8~14~0~1~end 1\n~alarm ref 0 silent\nalarm ref 1 silent\nalarm ref 2 silent\nalarm blind\n",
    "cut~15~16~0~1~end 1\n~alarm ref 1 silent\nalarm ref 2 silent\n",
    "cut~17~17~7~0~fault record 2 badtime\n~",
    "cut~18~18~7~0~fault record 2 nowire\n~",
    "cut~19~21~7~0~fault record 2 unknown\n~",
    "cut~22~23~0~1~end 1\n~alarm ref 1 silent\nalarm ref 2 silent\nalarm damage pos1\n",
    "cut~24~30~0~1~end 1\n~alarm ref 1 silent\nalarm ref 2 silent\n",
    "cut~31~32~0~1~end 1\n~alarm ref 2 silent\n",
    "cut~33~33~7~0~fault record 3 badtime\n~",
    "cut~34~34~7~0~fault record 3 nowire\n~",
    "cut~35~37~7~0~fault record 3 unknown\n~",
    "cut~38~39~0~1~end 1\n~alarm ref 2 silent\nalarm damage pos2\n",
    "cut~40~46~0~1~end 1\n~alarm ref 2 silent\n",
    "cut~47~48~0~1~end 1\n~",
    "cut~49~52~7~0~fault record 4 badtime\n~",
    "cut~53~53~7~0~fault record 4 nowire\n~",
    "cut~54~56~7~0~fault record 4 unknown\n~",
    "cut~57~58~0~2~end 2\n~alarm damage pos0\n",
    "cut~59~67~0~2~end 2\n~",
    "cut~68~71~7~1~fault record 5 badtime\n~",
    "cut~72~72~7~1~fault record 5 nowire\n~",
    "cut~73~75~7~1~fault record 5 unknown\n~",
    "cut~76~77~0~2~end 2\n~alarm damage pos1\n",
    "cut~78~86~0~2~end 2\n~",
    "cut~87~90~7~1~fault record 6 badtime\n~",
    "cut~91~91~7~1~fault record 6 nowire\n~",
    "cut~92~94~7~1~fault record 6 unknown\n~",
    "cut~95~96~0~2~end 2\n~alarm damage pos2\n",
    "cut~97~105~0~2~end 2\n~",
    "cut~106~109~7~1~fault record 7 badtime\n~",
    "cut~110~110~7~1~fault record 7 nowire\n~",
    "cut~111~113~7~1~fault record 7 unknown\n~",
    "cut~114~115~0~3~end 3\n~alarm damage pos0\n",
    "cut~116~124~0~3~end 3\n~",
    "cut~125~128~7~2~fault record 8 badtime\n~",
    "cut~129~129~7~2~fault record 8 nowire\n~",
    "cut~130~132~7~2~fault record 8 unknown\n~",
    "cut~133~134~0~3~end 3\n~alarm damage pos1\n",
    "cut~135~143~0~3~end 3\n~",
    "cut~144~147~7~2~fault record 9 badtime\n~",
    "cut~148~148~7~2~fault record 9 nowire\n~",
    "cut~149~151~7~2~fault record 9 unknown\n~",
    "cut~152~153~0~3~end 3\n~alarm damage pos2\n",
    "cut~154~162~0~3~end 3\n~",
    "read~1~2~3~0~fault read plant\n~",
    "read~3~3~3~0~fault read script\n~",
    "read~4~4~3~0~fault read record\n~",
    "read~5~5~3~2~fault read record\n~",
    "read~6~20~0~3~end 3\n~",
    "write~1~1~4~0~~",
    "write~2~2~4~1~~",
    "write~3~3~4~2~~",
    "write~4~4~4~3~~",
    "write~5~20~0~3~end 3\n~",
];
