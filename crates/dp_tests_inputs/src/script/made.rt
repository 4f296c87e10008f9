//! Made records. The expected lines and sums come from a maker that was written apart from this one.
use arrayvec::ArrayVec;
use dp_script::{Maker, make};
use dp_shell::{MemorySink, PlainSink, Trouble};
use std::alloc::AllocError;
use std::process::Abort;
use std::test::Fail;

/// The first second of the record of 0.
const FIRST_LINES: [&[u8]; 9] = [
    b"0 pos0 L -477 -254\n",
    b"0 pos1 L -186 -8\n",
    b"0 pos2 L -382 158\n",
    b"0 gyro0 $HEHDT,000.4,T*2B\n",
    b"0 gyro1 $HEHDT,000.5,T*2A\n",
    b"0 gyro2 $HEHDT,000.4,T*2B\n",
    b"0 wind0 $WIMWV,045.0,R,09.0,M,A*18\n",
    b"0 wind1 $WIMWV,045.0,R,03.0,M,A*12\n",
    b"0 wind2 $WIMWV,045.0,R,02.0,M,A*13\n",
];

/// The hash FNV-1a of 64 bits, with more bytes.
fn hashed(hash: u64, bytes: &[u8]) -> u64 {
    let mut hash = hash;
    for byte in bytes {
        hash = (hash ^ u64::from(*byte)).wrapping_mul(0x100_0000_01b3);
    }
    hash
}

/// The first two numbers that are drawn for the record of 0 are 167951807 and 218396424: what is left of them by 1001, less 500, is the
/// first place.
#[test]
fn numbers_are_drawn(rt: HostRuntime) -> Result<(), Fail> {
    let mut maker = Maker::new(0);
    let mut line = ArrayVec::new();
    assert!(rt; maker.next_line(&mut line));
    let (north, east) = (167_951_807 % 1001 - 500, 218_396_424 % 1001 - 500);
    let wanted = format!(in rt.alloc(); "0 pos0 L {north} {east}\n")?;
    assert_eq!(rt; line.as_slice(), wanted.as_bytes());
    Ok(())
}

#[test]
fn first_lines_are_made(rt: HostRuntime) {
    let mut maker = Maker::new(0);
    let mut line = ArrayVec::new();
    line.push(b'?');
    for want in FIRST_LINES {
        assert!(rt; maker.next_line(&mut line));
        assert_eq!(rt; line.as_slice(), want);
    }
    assert!(rt; maker.next_line(&mut line));
    assert_eq!(rt; line.as_slice(), b"1000 pos0 L -467 391\n".as_slice());
}

/// Makes the whole record of a number, and looks at how many lines it has, at their hash, and at the last one.
fn check_record(rt: &impl Abort, number: u32, hash: u64, last: &[u8]) {
    let mut maker = Maker::new(number);
    let mut line = ArrayVec::new();
    let mut sum = 0xcbf2_9ce4_8422_2325;
    for _ in 0..32_400 {
        assert!(rt; maker.next_line(&mut line));
        sum = hashed(sum, line.as_slice());
    }
    assert_eq!(rt; sum, hash);
    assert_eq!(rt; line.as_slice(), last);
    // from then on there is no more, and the content stays
    for _ in 0..2 {
        assert!(rt; !maker.next_line(&mut line));
        assert_eq!(rt; line.as_slice(), last);
    }
}

#[test]
fn whole_records_are_made(rt: HostRuntime) {
    check_record(
        &rt,
        0,
        8_078_946_435_331_458_313,
        b"3599000 wind2 $WIMWV,045.0,R,07.0,M,A*16\n",
    );
    check_record(
        &rt,
        u32::MAX,
        13_173_617_586_666_985_939,
        b"3599000 wind2 $WIMWV,045.0,R,08.0,M,A*19\n",
    );
}

#[test]
fn a_record_is_written(rt: HostRuntime) {
    let mut sink = PlainSink::new(rt.alloc());
    assert_eq!(rt; make(1, &mut sink), Ok(()));
    let text = sink.bytes();
    assert_eq!(rt; text.len(), 1_032_965);
    assert_eq!(rt;
        hashed(0xcbf2_9ce4_8422_2325, text),
        3_255_816_950_819_417_214
    );
}

#[test]
fn a_failed_write_leaves_a_prefix(rt: HostRuntime) -> Result<(), AllocError> {
    let mut sink = MemorySink::new(rt.alloc(), vec![in rt.alloc(); 3u64]?);
    assert_eq!(rt; make(0, &mut sink), Err(Trouble::Failed));
    assert_eq!(rt;
        sink.bytes(),
        b"0 pos0 L -477 -254\n0 pos1 L -186 -8\n".as_slice()
    );
    Ok(())
}
