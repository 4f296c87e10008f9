//! Texts that go from a shelf to a sink, in memory; `files` and `output` have the real ones.
use dp_shell::{
    Failed, MemoryShelf, MemorySink, Piece, PlainShelf, PlainSink, ReadTrouble, Shelf, Sink,
    Trouble, fits_shelf, next_piece, read_whole, write_all,
};
use std::alloc::{AllocError, Global};

mod files;
mod output;

/// One file.
fn shelf_files(
    alloc: Global,
    name: &str,
    text: &[u8],
) -> Result<Vec<(String, Vec<u8>)>, AllocError> {
    let mut bytes = Vec::new(alloc);
    bytes.extend_from_slice(text)?;
    let mut files = Vec::new(alloc);
    files.push((String::from_str(alloc, name)?, bytes))?;
    Ok(files)
}

#[test]
fn memory_shelf_fails_at_its_calls_and_for_missing_names(
    rt: HostRuntime,
) -> Result<(), AllocError> {
    let files = shelf_files(rt.alloc(), "record", b"abcde")?;
    assert!(rt; fits_shelf(&files));
    let mut shelf = MemoryShelf::new(files, vec![in rt.alloc(); 2u64, 5]?);
    let mut into = [0u8; 3];
    // call by call: the name, the offset, how many bytes
    for (call, (name, from, count)) in [
        ("record", 0, Ok(3)),
        ("record", 3, Err(Failed)),
        ("record", 3, Ok(2)),
        ("plant", 0, Err(Failed)),
        ("plant", 0, Err(Failed)),
        ("record", 5, Ok(0)),
        ("record", u64::MAX, Ok(0)),
        ("recor", 0, Err(Failed)),
    ]
    .into_iter()
    .enumerate()
    {
        assert_eq!(rt; shelf.read(name, from, &mut into), count, "at call {call}");
    }
    Ok(())
}

#[test]
fn memory_shelf_copies_a_step_at_most(rt: HostRuntime) -> Result<(), AllocError> {
    // the step, and how many bytes each call copies of five, where there is room for three
    for (step, counts) in [
        (1, [1, 1, 1, 1, 1, 0]),
        (2, [2, 2, 1, 0, 0, 0]),
        (3, [3, 2, 0, 0, 0, 0]),
        (usize::MAX, [3, 2, 0, 0, 0, 0]),
    ] {
        let files = shelf_files(rt.alloc(), "record", b"abcde")?;
        assert!(rt; fits_shelf(&files) && step > 0);
        let mut shelf = MemoryShelf::in_steps(files, Vec::new(rt.alloc()), step);
        let mut into = [0u8; 3];
        let mut from = 0u64;
        for count in counts {
            assert_eq!(rt;
                shelf.read("record", from, &mut into),
                Ok(count),
                "step {step}"
            );
            from = from.saturating_add(count as u64);
        }
    }
    Ok(())
}

#[test]
fn memory_sink_fails_at_its_calls(rt: HostRuntime) -> Result<(), AllocError> {
    let mut sink = MemorySink::new(rt.alloc(), vec![in rt.alloc(); 2u64, 3]?);
    for (call, count) in [Ok(2), Err(Trouble::Failed), Err(Trouble::Failed), Ok(2)]
        .into_iter()
        .enumerate()
    {
        assert_eq!(rt; sink.write(b"ab"), count, "at call {call}");
    }
    assert_eq!(rt; sink.write(b""), Ok(0));
    assert_eq!(rt; sink.bytes(), b"abab".as_slice());
    Ok(())
}

#[test]
fn whole_text_goes_from_shelf_to_sink(rt: HostRuntime) -> Result<(), AllocError> {
    let text = b"frame by frame";
    let files = shelf_files(rt.alloc(), "record", text)?;
    assert!(rt; fits_shelf(&files));
    let mut shelf = PlainShelf::new(files);
    for (limit, size, is_cut) in [
        (0, 0, true),
        (5, 5, true),
        (13, 13, true),
        (14, 14, false),
        (15, 14, false),
    ] {
        let mut sink = PlainSink::new(rt.alloc());
        let Ok(whole) = read_whole(rt.alloc(), &mut shelf, "record", limit) else {
            panic!(rt; "not read at {limit}")
        };
        assert_eq!(rt; whole.is_cut, is_cut, "at {limit}");
        assert_eq!(rt; write_all(&mut sink, &whole.text), Ok(()));
        assert_eq!(rt; sink.bytes(), &text[..size], "at {limit}");
    }
    let missing = read_whole(rt.alloc(), &mut shelf, "plant", 5);
    assert!(rt; matches!(missing, Err(ReadTrouble::Failed)));
    Ok(())
}

#[test]
fn text_comes_in_pieces_up_to_a_limit(rt: HostRuntime) -> Result<(), AllocError> {
    let text = b"frame by frame";
    // the limit, the shelf's step, and what comes: how many pieces, of how many bytes in all
    for (limit, step, pieces, size, is_cut) in [
        (20, 9, 4, 14, false),
        (20, 1, 14, 14, false),
        (14, 9, 4, 14, false),
        (13, 9, 4, 13, true),
        (12, 9, 3, 12, true),
        (5, 3, 2, 5, true),
        (0, 9, 0, 0, true),
    ] {
        let files = shelf_files(rt.alloc(), "record", text)?;
        assert!(rt; fits_shelf(&files) && step > 0);
        let mut shelf = MemoryShelf::in_steps(files, Vec::new(rt.alloc()), step);
        let mut sink = PlainSink::new(rt.alloc());
        let mut into = [0u8; 4];
        let mut from = 0u64;
        for k in 0..=pieces {
            assert!(rt; from <= limit, "at {limit}");
            let end = match next_piece(&mut shelf, "record", from, limit, &mut into) {
                Ok(Piece::Bytes { count }) => {
                    assert_eq!(rt; write_all(&mut sink, &into[..count]), Ok(()));
                    from = from.saturating_add(count as u64);
                    None
                }
                Ok(Piece::End) => Some(false),
                Ok(Piece::Cut) => Some(true),
                Err(_) => panic!(rt; "not read at {from}"),
            };
            let last = if k == pieces { Some(is_cut) } else { None };
            assert_eq!(rt; end, last, "piece {k} at {limit}");
        }
        assert_eq!(rt; sink.bytes(), &text[..size], "at {limit}");
    }
    Ok(())
}

#[test]
fn shelf_takes_eight_files_of_different_names(rt: HostRuntime) -> Result<(), AllocError> {
    for (names, fits) in [
        ("", true),
        ("abcdefgh", true),
        ("abcdefghi", false),
        ("abcdefga", false),
        ("aa", false),
    ] {
        let mut files = Vec::new(rt.alloc());
        for (i, _) in names.bytes().enumerate() {
            let Some(name) = names.get(i..i + 1) else {
                panic!(rt; "no name at {i}")
            };
            files.push((String::from_str(rt.alloc(), name)?, Vec::new(rt.alloc())))?;
        }
        assert_eq!(rt; fits_shelf(&files), fits, "at {names}");
    }
    Ok(())
}
