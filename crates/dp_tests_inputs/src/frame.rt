//! Records, with the answers that the format's description gives them; `origin` has the places of fixes.
use dp_frame::LineFault::{BadTime, LongLine, NoTime, NoWire, TimeBack, UnknownWire};
use dp_frame::{Feed, Lines, Phase, empty_frame};
use dp_plant::{Frame, Gust, Place};
use dp_test_rows::plant_with;
use dp_test_rows::samples::S1;
use dp_trig::Trig;
use std::alloc::{AllocError, Global};
use std::process::Abort;
use std::test::Fail;

mod origin;

/// A reader of records, by the sample plant.
#[tactic(auto, using(dp_plant::proofs::PlantFacts::plant_facts))]
fn reader(rt: &impl Abort, alloc: Global) -> Lines {
    let plant = plant_with(alloc, S1).expect(rt, "a plant");
    assert!(rt; plant.cycle_ms > 0 && plant.groups <= 8);
    Lines::new(&plant, &Trig::new())
}

/// The answers to the bytes of a record, without `More` and without one that is the same as that before it, and then those of four
/// calls of `finish`.
fn answers(rt: &impl Abort, alloc: Global, record: &[u8]) -> Result<Vec<Feed>, Fail> {
    let mut lines = reader(rt, alloc);
    let mut said = Vec::new(alloc);
    let mut last = Feed::More;
    for byte in record {
        assert!(rt; matches!(lines.phase(), Phase::Open) && lines.bytes() < 1 << 40);
        let answer = lines.feed(*byte);
        if answer != Feed::More && answer != last {
            said.push(answer)?;
        }
        last = answer;
    }
    for _ in 0..4 {
        said.push(lines.finish())?;
    }
    Ok(said)
}

/// A record is answered so, and the last four answers are those of `finish`.
fn check(rt: &impl Abort, alloc: Global, record: &[u8], wanted: &[Feed]) -> Result<(), Fail> {
    let said = answers(rt, alloc, record)?;
    assert_eq!(rt; said.as_slice(), wanted);
    Ok(())
}

fn closed(frame: Frame, empty: u64) -> Feed {
    Feed::Closed { frame, empty }
}

/// A frame with one place.
fn placed(cycle: u64, reference: usize, north: i64, east: i64) -> Frame {
    let mut frame = empty_frame(cycle);
    if reference < 3 {
        frame.pos[reference].last = Some(Place { north, east });
    }
    frame
}

#[test]
fn frames_of_a_record(rt: HostRuntime) -> Result<(), Fail> {
    let record = b"0 pos0 $GPGGA,123519,4807.038,N,01131.000,E,1,08,0.9,545.4,M,46.9,M,,*47\r\n\
        \n\
        10 pos0 $GPGGA,123519,4807.038,N,01131.000,E,1,08,0.9,545.4,M,46.9,M,,*46\n\
        900 pos1 $GPGGA,123519,4807.038,N,01131.000,E,0,08,0.9,545.4,M,46.9,M,,*46\n\
        900 grp1 G 0\n\
        999 pos2 $GPGGA,123519,4807.038,N,01131.000,E,1,08,0.9,545.4,M,46.9,M,,*47\n\
        999 pos2 L 1000 -250\n\
        5000 pos2 L 7 8\n\
        5001 wind2 L 7 8\n\
        5001 wind0 $WIMWV,045.0,R,10.0,N,A*13\n\
        5001 gyro0 $HEHDT,90.0,T*16\n\
        5001 gyro1";
    let mut first = placed(0, 0, 0, 0);
    first.pos[0].damage = 1;
    first.pos[1].skipped = 1;
    first.pos[2].last = Some(Place {
        north: 1_000_000_000,
        east: -250_000_000,
    });
    first.group[1].last = Some(false);
    let mut last = placed(5, 2, 7_000_000, 8_000_000);
    last.wind[2].skipped = 1;
    last.wind[0].last = Some(Gust {
        angle: 4500,
        speed: 5144,
    });
    last.gyro[0].last = Some(9000);
    last.gyro[1].damage = 1;
    check(
        &rt,
        rt.alloc(),
        record,
        &[
            closed(first, 4),
            closed(last, 0),
            Feed::More,
            Feed::More,
            Feed::More,
        ],
    )?;
    Ok(())
}

#[test]
fn frames_at_the_ends_of_a_record(rt: HostRuntime) -> Result<(), Fail> {
    let more = Feed::More;
    for nothing in [b"".as_slice(), b"\n", b"\r\n\n"] {
        check(&rt, rt.alloc(), nothing, &[more; 4])?;
    }
    // The last line has no line feed and opens a later cycle.
    check(
        &rt,
        rt.alloc(),
        b"0 pos0 L 1 2\n1999 pos1 L 3 4",
        &[
            closed(placed(0, 0, 1_000_000, 2_000_000), 0),
            closed(placed(1, 1, 3_000_000, 4_000_000), 0),
            more,
            more,
        ],
    )?;
    // The first line is of a later cycle than 0.
    check(
        &rt,
        rt.alloc(),
        b"3000 pos0 L 1 2\n",
        &[
            closed(empty_frame(0), 2),
            closed(placed(3, 0, 1_000_000, 2_000_000), 0),
            more,
            more,
            more,
        ],
    )?;
    // The last cycle that there can be.
    check(
        &rt,
        rt.alloc(),
        b"1048575999 pos0 L 1 2\n",
        &[
            closed(empty_frame(0), 1_048_574),
            closed(placed(1_048_575, 0, 1_000_000, 2_000_000), 0),
            more,
            more,
            more,
        ],
    )?;
    Ok(())
}

/// A damaged line of so many bytes, and then its end.
fn long_line(alloc: Global, length: usize, end: &[u8]) -> Result<Vec<u8>, AllocError> {
    let mut record = Vec::from_slice(alloc, b"0 pos0 ")?;
    for _ in 7..length {
        record.push(b'x')?;
    }
    record.extend_from_slice(end)?;
    Ok(record)
}

#[test]
fn lines_of_192_bytes_are_good(rt: HostRuntime) -> Result<(), Fail> {
    let mut damaged = empty_frame(0);
    damaged.pos[0].damage = 1;
    let more = Feed::More;
    for end in [b"".as_slice(), b"\n", b"\r\n"] {
        let record = long_line(rt.alloc(), 192, end)?;
        check(
            &rt,
            rt.alloc(),
            record.as_slice(),
            &[closed(damaged, 0), more, more, more],
        )?;
    }
    Ok(())
}

const LONG: Feed = Feed::Fault {
    line: 1,
    kind: LongLine,
};

#[test]
fn longer_lines_are_too_long(rt: HostRuntime) -> Result<(), Fail> {
    for (length, end) in [
        (193, b"\n".as_slice()),
        (193, b"\r\n"),
        (192, b"\r\r\n"),
        (300, b"\r\n"),
    ] {
        let record = long_line(rt.alloc(), length, end)?;
        check(&rt, rt.alloc(), record.as_slice(), &[LONG; 5])?;
    }
    Ok(())
}

#[test]
fn longer_last_lines_are_too_long(rt: HostRuntime) -> Result<(), Fail> {
    for (length, end) in [
        (193, b"".as_slice()),
        (192, b"\r"),
        (300, b""),
        (300, b"\r"),
    ] {
        let record = long_line(rt.alloc(), length, end)?;
        check(&rt, rt.alloc(), record.as_slice(), &[LONG; 4])?;
    }
    Ok(())
}

#[test]
fn the_first_line_that_cannot_be_taken_is_named(rt: HostRuntime) -> Result<(), Fail> {
    for (record, line, kind) in [
        (b"x\n".as_slice(), 1, NoTime),
        (b"\n\n 0 pos0\n9\n", 3, NoTime),
        (b"-1 pos0\n", 1, NoTime),
        (b"1234567890123456 pos0\n", 1, BadTime),
        (b"12\n", 1, BadTime),
        (b"12,5 pos0\nx\n", 1, BadTime),
        (b"5 pos0\n\n4 pos0\n", 3, TimeBack { before: 5, now: 4 }),
        (b"5 pos0\r\n4 pos9\r\n", 2, TimeBack { before: 5, now: 4 }),
        (b"5 \n", 1, NoWire),
        (b"5  pos0\n", 1, NoWire),
        (b"5 pos3\n", 1, UnknownWire),
        (b"5 pos0x 1\n", 1, UnknownWire),
        (b"5 gyro\n", 1, UnknownWire),
        (b"5 grp2 G 1\n", 1, UnknownWire),
        (b"1048576000 pos9\n", 1, UnknownWire),
    ] {
        let fault = Feed::Fault { line, kind };
        check(&rt, rt.alloc(), record, &[fault; 5])?;
    }
    let far = Feed::TooMany {
        line: 1,
        cycle: 1_048_576,
    };
    check(&rt, rt.alloc(), b"1048576000 pos0 L 0 0\n", &[far; 5])?;
    let early = Feed::Fault {
        line: 3,
        kind: BadTime,
    };
    let first = closed(placed(0, 0, 1_000_000, 2_000_000), 0);
    check(
        &rt,
        rt.alloc(),
        b"0 pos0 L 1 2\n1000 pos0\n999",
        &[first, early, early, early, early],
    )
}

/// The same answers of a record that is cut into pieces of so many bytes.
fn answers_in_pieces(
    rt: &impl Abort,
    alloc: Global,
    record: &[u8],
    size: usize,
) -> Result<Vec<Feed>, Fail> {
    let mut lines = reader(rt, alloc);
    let mut said = Vec::new(alloc);
    let mut last = Feed::More;
    let mut fed = 0;
    while fed < record.len() {
        let end = fed + size.min(record.len() - fed);
        let piece = &record[fed..end];
        assert!(rt; !piece.is_empty() && piece.len() < 1 << 20);
        assert!(rt; matches!(lines.phase(), Phase::Open) && lines.bytes() < 1 << 39);
        let answer = lines.feed_piece(piece);
        if answer.feed != Feed::More && answer.feed != last {
            said.push(answer.feed)?;
        }
        last = answer.feed;
        fed += answer.taken;
    }
    for _ in 0..4 {
        said.push(lines.finish())?;
    }
    Ok(said)
}

#[test]
fn pieces_say_what_bytes_say(rt: HostRuntime) -> Result<(), Fail> {
    for record in [
        b"0 pos0 L 1 2\r\n\n1999 pos1 L 3 4\r\n2000 gyro0 $HEHDT,90.0,T*16\r\n2000 pos0 L 5 6".as_slice(),
        b"0 pos0 L 1 2\n1000 pos0 L 1 2\n1000 pos0\n999 pos0 L 1 2\n2000 pos0 L 1 2\n",
        b"\n\n3000 pos0 L 1 2\n1048576000 pos0 L 0 0\n",
    ] {
        let want = answers(&rt, rt.alloc(), record)?;
        for size in [1, 7, 4096] {
            assert_eq!(rt;
                answers_in_pieces(&rt, rt.alloc(), record, size)?.as_slice(),
                want.as_slice()
            );
        }
    }
    Ok(())
}
