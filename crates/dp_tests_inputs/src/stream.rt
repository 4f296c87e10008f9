//! Records that are read a frame a call, over shelves that give few bytes at once and that fail.
use dp_shell::{MemoryShelf, Shelf};
use dp_stream::{End, MadeShelf, Next, RecordReader};
use dp_test_rows::plant_with;
use dp_test_rows::samples::S1;
use dp_trig::Trig;
use std::alloc::Global;
use std::process::Abort;
use std::test::Fail;

/// How a record ended, as the word of a row.
fn end_word(end: End) -> &'static str {
    match end {
        End::Whole => "whole",
        End::Refused { .. } => "refused",
        End::Long => "long",
    }
}

/// A shelf with the record `r`, which gives so many bytes a call and fails at the third.
fn shelf_of(
    rt: &impl Abort,
    alloc: Global,
    record: &[u8],
    step: usize,
) -> Result<MemoryShelf, Fail> {
    let mut text = Vec::new(alloc);
    text.extend_from_slice(record)?;
    let mut files = Vec::new(alloc);
    files.push((String::from_str(alloc, "r")?, text))?;
    let mut failing = Vec::new(alloc);
    failing.push(3)?;
    assert!(rt; step > 0);
    Ok(MemoryShelf::in_steps(files, failing, step))
}

/// Reads the record `r` of a shelf to its end: the cycles of its frames, each with how many places
/// it has, how often a read failed, and how it ended.
#[tactic(auto, using(dp_plant::proofs::PlantFacts::plant_facts))]
fn told<F: Shelf>(
    rt: &impl Abort,
    alloc: Global,
    name: &str,
    shelf: &mut F,
) -> Result<String, Fail> {
    let plant = plant_with(alloc, S1).expect(rt, "a plant");
    assert!(rt; plant.cycle_ms > 0 && plant.groups <= 8);
    let mut reader = RecordReader::new(name, &plant, &Trig::new());
    let mut text = String::new(alloc);
    for _ in 0..40 {
        match reader.next(shelf) {
            Ok(Next::Frame) => {
                let frame = reader.frame();
                let places = frame.pos.iter().filter(|slot| slot.last.is_some()).count();
                text.push_str(format!(in alloc; "{}:{places} ", frame.cycle)?.as_str())?;
            }
            Ok(Next::Over { end }) => {
                text.push_str(end_word(end))?;
                return Ok(text);
            }
            Err(_) => text.push_str("failed ")?,
        }
    }
    Ok(text)
}

#[test]
fn records_are_read_frame_by_frame(rt: HostRuntime) -> Result<(), Fail> {
    let alloc = rt.alloc();
    let rows: &[(&str, &str)] = &[
        ("", "whole"),
        ("0 pos0 L 1 2\n", "0:1 whole"),
        (
            "0 pos0 L 1 2\n0 pos1 L 1 2\n1000 pos0 L 1 2",
            "0:2 1:1 whole",
        ),
        (
            "0 pos0 L 1 2\n4000 pos1 L 3 4\n",
            "0:1 1:0 2:0 3:0 4:1 whole",
        ),
        ("2000 pos0 L 1 2\n", "0:0 1:0 2:1 whole"),
        (
            "0 pos0 L 1 2\n1000 pos1 L 3 4\nnotime\n2000 pos0 L 1 2\n",
            "0:1 refused",
        ),
        (
            "0 pos0 L 1 2\n1000 pos1 L 3 4\n1000 pos1 L 3 4\n900",
            "0:1 refused",
        ),
        ("0 pos0 L 1 2\n3000 pos1 L 3 4\nx", "0:1 1:0 2:0 refused"),
    ];
    for (record, wanted) in rows {
        for step in [1, 2, 7, 4096] {
            let mut shelf = shelf_of(&rt, alloc, record.as_bytes(), step)?;
            let found = told(&rt, alloc, "r", &mut shelf)?.replace(alloc, "failed ", "")?;
            assert_eq!(rt; found.as_str(), *wanted, "{record} in steps of {step}");
        }
    }
    Ok(())
}

#[test]
fn a_failed_read_loses_nothing(rt: HostRuntime) -> Result<(), Fail> {
    let alloc = rt.alloc();
    let record = b"0 pos0 L 1 2\n1000 pos1 L 3 4\n5000 pos2 L 5 6\n";
    let mut shelf = shelf_of(&rt, alloc, record, 16)?;
    let found = told(&rt, alloc, "r", &mut shelf)?;
    assert_eq!(rt; found.as_str(), "0:1 failed 1:1 2:0 3:0 4:0 5:1 whole");
    let mut shelf = shelf_of(&rt, alloc, record, 16)?;
    let found = told(&rt, alloc, "other", &mut shelf)?;
    assert!(rt; found.as_str().starts_with("failed failed failed"));
    Ok(())
}

#[test]
fn a_made_record_is_a_shelf(rt: HostRuntime) -> Result<(), Fail> {
    let mut shelf = MadeShelf::new(7);
    let found = told(&rt, rt.alloc(), "", &mut shelf)?;
    assert!(rt; found.as_str().starts_with("0:3 1:3 2:3 "));
    Ok(())
}
