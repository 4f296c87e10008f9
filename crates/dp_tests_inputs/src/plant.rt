//! Sample plant files that are hurt in one place, each with its answer.

use dp_plant::{PlantFault, plant_of};
use dp_test_rows::cut;
use dp_test_rows::samples::{S1, S2};
use std::alloc::{AllocError, Global};
use std::process::Abort;
use tables::{EDITS_OF_S1, EDITS_OF_S2, KEYS_OF_S1, KEYS_OF_S2};

mod tables;

/// The lines of a file, those from one number up to another given way to others, which are parted by `;`.
fn edited(
    alloc: Global,
    lines: &[&str],
    from: usize,
    to: usize,
    put: &str,
) -> Result<String, AllocError> {
    let mut text = String::new(alloc);
    for (i, line) in lines.iter().enumerate() {
        if i == from {
            add_lines(&mut text, put)?;
        }
        if i < from || to <= i {
            text.push_str(line)?;
            text.push_str("\n")?;
        }
    }
    if lines.len() <= from {
        add_lines(&mut text, put)?;
    }
    Ok(text)
}

fn add_lines(text: &mut String, lines: &str) -> Result<(), AllocError> {
    for c in lines.chars() {
        if c == ';' {
            text.push_str("\n")?;
        } else {
            text.push(c)?;
        }
    }
    text.push_str("\n")
}

fn word(fault: &PlantFault) -> &'static str {
    match fault {
        PlantFault::Toml => "toml",
        PlantFault::Missing { .. } => "missing",
        PlantFault::Kind { .. } => "kind",
        PlantFault::Range { .. } => "range",
        PlantFault::Memory => "memory",
    }
}

/// The answer for a file is the wanted one: `ok`, or what is wrong with which key.
fn gives(alloc: Global, text: &[u8], kind: &str, key: &str) -> bool {
    match plant_of(alloc, text) {
        Ok(_) => kind == "ok",
        Err(fault) => {
            let named = match fault.key() {
                Some(found) => found.as_str() == key,
                None => key.is_empty(),
            };
            named && word(&fault) == kind
        }
    }
}

/// The number of a line, from 0.
fn line(text: &str) -> usize {
    match text.parse() {
        Ok(number) => number,
        Err(_) => 0,
    }
}

/// Tries what stands at a key, one value after the other.
fn try_values(
    rt: &impl Abort,
    alloc: Global,
    lines: &[&str],
    head: (usize, &str),
    values: &str,
    want: (&str, &str),
) -> Result<(), AllocError> {
    let mut left = values;
    for _ in 0..8 {
        if let Some((value, rest)) = left.split_once('~') {
            let mut put = String::new(alloc);
            put.push_str(head.1)?;
            put.push_str(" = ")?;
            put.push_str(value)?;
            let text = edited(alloc, lines, head.0, head.0.saturating_add(1), put.as_str())?;
            let right = gives(alloc, text.as_bytes(), want.0, want.1);
            assert_eq!(rt; (put.as_str(), right), (put.as_str(), true));
            left = rest;
        }
    }
    Ok(())
}

fn try_keys(
    rt: &impl Abort,
    alloc: Global,
    lines: &[&str],
    rows: &[&str],
) -> Result<(), AllocError> {
    for row in rows {
        let (head, rest) = cut(row, '~');
        let (first, name) = cut(head, ' ');
        let (kinds, rest) = cut(rest, '|');
        let (ranges, key) = cut(rest, '|');
        let at = line(first);
        let text = edited(alloc, lines, at, at.saturating_add(1), "")?;
        let right = gives(alloc, text.as_bytes(), "missing", key);
        assert_eq!(rt; (key, right), (key, true));
        try_values(rt, alloc, lines, (at, name), kinds, ("kind", key))?;
        try_values(rt, alloc, lines, (at, name), ranges, ("range", key))?;
    }
    Ok(())
}

fn try_edits(
    rt: &impl Abort,
    alloc: Global,
    lines: &[&str],
    rows: &[&str],
) -> Result<(), AllocError> {
    for row in rows {
        let (from, rest) = cut(row, ' ');
        let (to, rest) = cut(rest, ' ');
        let (put, want) = cut(rest, '|');
        let (kind, key) = cut(want, ' ');
        let text = edited(alloc, lines, line(from), line(to), put)?;
        let right = gives(alloc, text.as_bytes(), kind, key);
        assert_eq!(rt; (*row, right), (*row, true));
    }
    Ok(())
}

#[test]
fn each_key_is_judged(rt: HostRuntime) -> Result<(), AllocError> {
    let (one, two) = (KEYS_OF_S1, KEYS_OF_S2);
    try_keys(&rt, rt.alloc(), S1, one)?;
    try_keys(&rt, rt.alloc(), S2, two)
}

#[test]
fn tables_and_versions_are_judged(rt: HostRuntime) -> Result<(), AllocError> {
    let (one, two) = (EDITS_OF_S1, EDITS_OF_S2);
    try_edits(&rt, rt.alloc(), S1, one)?;
    try_edits(&rt, rt.alloc(), S2, two)
}

#[test]
fn other_bytes_are_no_document(rt: HostRuntime) -> Result<(), AllocError> {
    for text in [b"a =\n".as_slice(), b"\xff", b"[plant", b"a = 1\na = 2\n"] {
        assert!(rt; gives(rt.alloc(), text, "toml", ""));
    }
    assert!(rt; gives(rt.alloc(), b"", "missing", "plant.version"));
    let mut comment = Vec::new(rt.alloc());
    for _ in 0..1_048_576 {
        comment.push(b'#')?;
    }
    assert!(rt; gives(rt.alloc(), comment.as_slice(), "missing", "plant.version"));
    Ok(())
}

#[test]
fn lengths_come_to_nanometres(rt: HostRuntime) -> Result<(), AllocError> {
    let alloc = rt.alloc();
    let text = edited(
        alloc,
        S1,
        4,
        6,
        "start = [1, -2, 3];setpoint = [-8796093, 8796093, 35999]",
    )?;
    match plant_of(alloc, text.as_bytes()) {
        Ok(plant) => {
            assert_eq!(rt;
                (plant.start.at.north, plant.start.at.east),
                (1_000_000, -2_000_000)
            );
            assert_eq!(rt; plant.start.psi, 30_000_000);
            assert_eq!(rt; plant.setpoint.at.north, -8_796_093_000_000);
            assert_eq!(rt; plant.setpoint.at.east, 8_796_093_000_000);
            assert_eq!(rt; plant.setpoint.psi, 359_990_000_000);
            let [first, _, _] = plant.refs;
            assert_eq!(rt; first.jump, 5_000_000_000);
            assert_eq!(rt; plant.cases.len(), 3);
        }
        Err(_) => assert!(rt; false),
    }
    Ok(())
}
