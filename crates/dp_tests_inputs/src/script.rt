//! Scripts, good and faulty, with the acts or the fault that an independent reader of the same format gives.
//!
//! A row of `ACTS` is `SCRIPT|CYCLE|ACTS`, with the acts of that cycle: `r,C` a run, `o,C,K` an order, `a,C` all orders, `t,A,B` a tell,
//! `k,C,NORTH,EAST` a skew, `s,C,K,FORCE` a say, `l,A,B,NORTH,EAST` a lie, `j,A,B,COUNT,SUM` junk, with how many bytes it has and their sum by
//! place, `x,C` a stop, `b,C` a restart, `u,C` an upgrade. A row of `FAULTS` is `SCRIPT|LINE|KIND`.
use dp_script::{Act, Script, ScriptFault, ScriptKind};
use dp_test_rows::{cut, natural, number, parts};
use std::alloc::AllocError;

mod made;

#[test]
fn cycles_have_the_acts_of_their_lines(rt: HostRuntime) {
    let rows = ACTS;
    for row in rows {
        let (text, rest) = cut(row, '|');
        let (cycle, wanted) = cut(rest, '|');
        let script = Script::of(rt.alloc(), text.as_bytes()).expect(&rt, "a script");
        assert!(rt; has_acts(&script, natural(cycle), wanted), "{row}");
    }
}

/// The acts of a cycle are these.
fn has_acts(script: &Script, cycle: u64, wanted: &str) -> bool {
    let mut rest = wanted;
    for i in 0..script.len(cycle) {
        let (word, behind) = cut(rest, ' ');
        if !is_act(&script.act(cycle, i), word) {
            return false;
        }
        rest = behind;
    }
    rest.is_empty()
}

fn is_act(act: &Act, wanted: &str) -> bool {
    let [verb, first, second, third, fourth] = parts(wanted);
    match act {
        Act::Run { c } => verb == "r" && u64::from(*c) == natural(first),
        Act::Order { c, k } => {
            verb == "o" && u64::from(*c) == natural(first) && u64::from(*k) == natural(second)
        }
        Act::Orders { c } => verb == "a" && u64::from(*c) == natural(first),
        Act::Skew { c, at } => {
            let (north, east) = *at;
            verb == "k"
                && u64::from(*c) == natural(first)
                && north == number(second)
                && east == number(third)
        }
        Act::Say { c, k, force } => {
            verb == "s"
                && u64::from(*c) == natural(first)
                && u64::from(*k) == natural(second)
                && *force == number(third)
        }
        Act::Stop { c } => verb == "x" && u64::from(*c) == natural(first),
        Act::Restart { c } => verb == "b" && u64::from(*c) == natural(first),
        Act::Upgrade { c } => verb == "u" && u64::from(*c) == natural(first),
        Act::Tell { a, b } => verb == "t" && are_two(*a, *b, first, second),
        Act::Lie { a, b, at } => {
            let (north, east) = *at;
            verb == "l"
                && are_two(*a, *b, first, second)
                && north == number(third)
                && east == number(fourth)
        }
        Act::Junk { a, b, bytes } => {
            verb == "j"
                && are_two(*a, *b, first, second)
                && bytes.len() as u64 == natural(third)
                && sum_by_place(bytes.as_slice()) == natural(fourth)
        }
    }
}

fn are_two(a: u8, b: u8, first: &str, second: &str) -> bool {
    u64::from(a) == natural(first) && u64::from(b) == natural(second)
}

/// The sum of all bytes, each times its place, which counts from 1.
fn sum_by_place(bytes: &[u8]) -> u64 {
    let mut sum = 0u64;
    let mut place = 0u64;
    for byte in bytes {
        place = place.saturating_add(1);
        sum = sum.saturating_add(place.saturating_mul(u64::from(*byte)));
    }
    sum
}

#[test]
fn first_faulty_line_is_named(rt: HostRuntime) {
    let rows = FAULTS;
    for row in rows {
        let (text, rest) = cut(row, '|');
        let (line, kind) = cut(rest, '|');
        let fault = Script::of(rt.alloc(), text.as_bytes())
            .err()
            .expect(&rt, "a fault");
        assert!(rt; is_fault(&fault, line, kind), "{row}");
    }
    // a byte that is no character
    let fault = Script::of(rt.alloc(), b"1 run \xff\n")
        .err()
        .expect(&rt, "a fault");
    assert!(rt; is_fault(&fault, "1", "number"));
}

fn is_fault(fault: &ScriptFault, wanted: &str, word: &str) -> bool {
    match fault {
        ScriptFault::Line { line, kind } => *line == natural(wanted) && is_kind(*kind, word),
        _ => false,
    }
}

fn is_kind(kind: ScriptKind, word: &str) -> bool {
    match kind {
        ScriptKind::Number => word == "number",
        ScriptKind::Verb => word == "verb",
        ScriptKind::Range => word == "range",
        ScriptKind::Order => word == "order",
    }
}

#[test]
fn at_most_65536_lines_are_not_skipped(rt: HostRuntime) -> Result<(), AllocError> {
    let mut text = Vec::new(rt.alloc());
    for _ in 0..65536 {
        text.extend_from_slice(b"#\n5 stop 1\n")?;
    }
    let full = Script::of(rt.alloc(), text.as_slice()).map(|script| script.len(5));
    assert!(rt; full == Ok(65536));
    text.extend_from_slice(b"\n4 stop 1\n")?;
    let fault = Script::of(rt.alloc(), text.as_slice()).err();
    assert!(rt;
        fault
            == Some(ScriptFault::Line {
                line: 131074,
                kind: ScriptKind::Range
            })
    );
    Ok(())
}

const ACTS: &[&str] = &[
    "3 usual\n3 usual\n|3|r,0 r,1 r,2 a,0 a,1 a,2 r,0 r,1 r,2 a,0 a,1 a,2",
    "0 run 0\n0 run 1\n0 run 2\n|0|r,0 r,1 r,2",
    "0 run 002\n|0|r,2",
    "1 order 2 11\n|1|o,2,11",
    "1 orders 2\r\n1 stop 2\r\n|1|a,2 x,2",
    "2 skew 1 1000000000 -5\n|2|k,1,1000000000,-5",
    "2 skew 1 8796093022208 -8796093022208\n|2|k,1,8796093022208,-8796093022208",
    "2 skew 0 -0 -0\n|2|k,0,0,0",
    "2 say 0 11 -999999999999999999\n|2|s,0,11,-999999999999999999",
    "4 stop 0|4|x,0",
    "5 restart 2\n5 upgrade 1\n|5|b,2 u,1",
    "1 tell 0 2\r\n1 tell 002 001|1|t,0,2 t,2,1",
    "1 lie 0 1 -8796093022208 8796093022208\n1 lie 2 1 -0 7|1|l,0,1,-8796093022208,8796093022208 l,2,1,0,7",
    "6 junk 0 1 01ff\n|6|j,0,1,2,511",
    "6 junk 2 0 0123456789abcdef\n6 junk 1 0 00|6|j,2,0,8,5748 j,1,0,1,0",
    "6 junk 1 2 a54dca182530bb1d6d132cded6237b2ed91e3f721fcb1971174494d6493c9d5c3460be31201e69fedaa0eee8b9997f5c7c2999fdafe593253cd654af4dfad714|6|j,1,2,64,272390",
    "000000000000000005 run 1\n|5|r,1",
    "# 1 run 0\n\n#\n7 run 0\n|7|r,0",
    "#xxxxxxxxxxxxxxxxxxxxxxxxxxxxxxxxxxxxxxxxxxxxxxxxxxxxxxxxxxxxxxxxxxxxxxxxxxxxxxxxxxxxxxxxxxxxxxxxxxxxxxxxxxxxxxxxxxxxxxxxxxxxxxxxxxxxxxxxxxxxxxxxxxxxxxxxxxxxxxxxxxxxxxxxxxxxxxxxxxxxxxxxxxxxxxxx\n9 run 0|9|r,0",
    "1 run 0\n1 stop 1\n2 orders 0\n4 usual\n4 order 0 0\n|1|r,0 x,1",
    "1 run 0\n1 stop 1\n2 orders 0\n4 usual\n4 order 0 0\n|2|a,0",
    "1 run 0\n1 stop 1\n2 orders 0\n4 usual\n4 order 0 0\n|4|r,0 r,1 r,2 a,0 a,1 a,2 o,0,0",
    "1 run 0\r\n\r\n1 run 1\r\n|1|r,0 r,1",
    "|0|r,0 r,1 r,2 a,0 a,1 a,2",
    "|7|r,0 r,1 r,2 a,0 a,1 a,2",
    "3 usual\n3 usual\n|2|r,0 r,1 r,2 a,0 a,1 a,2",
    "5 usual\n|5|r,0 r,1 r,2 a,0 a,1 a,2",
    "1048575 usual\n|1048575|r,0 r,1 r,2 a,0 a,1 a,2",
    "# 1 run 0\n\n#\n7 run 0\n|1|r,0 r,1 r,2 a,0 a,1 a,2",
    "1 run 0\n1 stop 1\n2 orders 0\n4 usual\n4 order 0 0\n|0|r,0 r,1 r,2 a,0 a,1 a,2",
    "1 run 0\n1 stop 1\n2 orders 0\n4 usual\n4 order 0 0\n|3|r,0 r,1 r,2 a,0 a,1 a,2",
];

const FAULTS: &[&str] = &[
    "3 usual\n2 usual\n|2|order",
    "0 run 3\n|1|range",
    "0 run\n|1|verb",
    "0 run 0 0\n|1|verb",
    "0 run -0\n|1|number",
    "0 run x\n|1|number",
    "0 run +1\n|1|number",
    "0 run \n|1|number",
    "1 order 2 12\n|1|range",
    "1 order 3 x\n|1|number",
    "1 order 0\n|1|verb",
    "1 order 0 1 2\n|1|verb",
    "1 order 3 0\n|1|range",
    "1 order 0 -1\n|1|number",
    "1 orders 3\n|1|range",
    "1 orders\n|1|verb",
    "1 orders 0 0\n|1|verb",
    "1 orders a\n|1|number",
    "1 orders 0\r\r\n|1|number",
    "1 orders 0\r|1|number",
    "2 skew 1 8796093022209 0\n|1|range",
    "2 skew 1 0 -8796093022209\n|1|range",
    "2 skew 3 0 x\n|1|number",
    "2 skew 0 0\n|1|verb",
    "2 skew 0 0 0 0\n|1|verb",
    "2 skew 3 0 0\n|1|range",
    "2 skew 0 - 0\n|1|number",
    "2 say 0 11 1000000000000000000\n|1|number",
    "2 say 0 12 1\n|1|range",
    "2 say 3 0 1\n|1|range",
    "2 say 0 0 1.5\n|1|number",
    "2 say 0 0\n|1|verb",
    "2 say 0 0 1 1\n|1|verb",
    "4 stop 3|1|range",
    "4 stop|1|verb",
    "4 stop 0 1|1|verb",
    "4 stop zero|1|number",
    "5 usual 0\n|1|verb",
    "x usual\n|1|number",
    "-0 usual\n|1|number",
    "1048576 usual\n|1|range",
    "0000000000000000005 run 1\n|1|number",
    "123456789012345678 usual\n|1|range",
    "1  run 0\n|1|verb",
    " 1 run 0\n|1|verb",
    "1 run 0 \n|1|verb",
    "1\n|1|verb",
    "1 \n|1|verb",
    " \n|1|verb",
    "1 Run 0\n|1|verb",
    "1 tell 0\n|1|verb",
    "1 tell 0 1 2\n|1|verb",
    "1 tell 0 x\n|1|number",
    "1 tell 0 0\n|1|range",
    "1 tell 0 3\n|1|range",
    "1 tell 3 0\n|1|range",
    "1 lie 0 1 0\n|1|verb",
    "1 lie 0 1 0 0 0\n|1|verb",
    "1 lie 0 0 x 0\n|1|number",
    "1 lie 1 1 0 0\n|1|range",
    "1 lie 0 1 8796093022209 0\n|1|range",
    "1 lie 0 1 0 -8796093022209\n|1|range",
    "1 junk 0 1\n|1|verb",
    "1 junk 0 1 00 00\n|1|verb",
    "1 junk 0 1  00\n|1|verb",
    "1 junk 0 1 \n|1|range",
    "1 junk 0 1 0\n|1|range",
    "1 junk 0 1 000\n|1|range",
    "1 junk 0 1 0g\n|1|number",
    "1 junk 0 1 AB\n|1|number",
    "1 junk 0 1 0x\n|1|number",
    "1 junk 0 1 +0\n|1|number",
    "1 junk 0 1 g\n|1|number",
    "1 junk 2 2 00\n|1|range",
    "1 junk 2 2 zz\n|1|number",
    "1 junk 0 1 0000000000000000000000000000000000000000000000000000000000000000000000000000000000000000000000000000000000000000000000000000000000\n|1|range",
    "1 junk 0 1 000000000000000000000000000000000000000000000000000000000000000000000000000000000000000000000000000000000000000000000000000000000g\n|1|number",
    "1 restart 3\n|1|range",
    "1 restart\n|1|verb",
    "1 upgrade 0 0\n|1|verb",
    "1 upgrade x\n|1|number",
    "1 upgrade 3\n|1|range",
    "1 Tell 0 1\n|1|verb",
    "x runs y\n|1|verb",
    "\n#\n8 run 9\n|3|range",
    " # no comment\n|1|verb",
    "9 run 0\n#xxxxxxxxxxxxxxxxxxxxxxxxxxxxxxxxxxxxxxxxxxxxxxxxxxxxxxxxxxxxxxxxxxxxxxxxxxxxxxxxxxxxxxxxxxxxxxxxxxxxxxxxxxxxxxxxxxxxxxxxxxxxxxxxxxxxxxxxxxxxxxxxxxxxxxxxxxxxxxxxxxxxxxxxxxxxxxxxxxxxxxxxxxxxxxxx\n8 run 0|3|order",
    "6 run 000000000000000000000000000000000000000000000000000000000000000000000000000000000000000000000000000000000000000000000000000000000000000000000000000000000000000000000000000000000000000000\n|1|number",
    "6 run 0000000000000000000000000000000000000000000000000000000000000000000000000000000000000000000000000000000000000000000000000000000000000000000000000000000000000000000000000000000000000000000\n|1|verb",
    "6 skew 00000000000000000000000000000000000000000000000000000000000000000000000000000000000000000000000000000000000000000000000000000000000000000000000000000000000000000000000000000000000000000\n|1|verb",
    "2 run 5\n1 run x\n|1|range",
    "1 run 0\n0 run 9\n|2|range",
    "1 run 0\n0 run 0\n|2|order",
    "3 run 0\n\n# x\n2 run 0\n|4|order",
    "1 run 0\n1048576 run 0\n0 oops\n|2|range",
    "1 run\t0\n|1|verb",
];
