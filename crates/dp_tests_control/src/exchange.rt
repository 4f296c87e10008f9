//! Rows of calls of three computers on the sample vessel S1, each with its answer.
//!
//! A row is `name~CALL=ANSWER ..~modes`. Each computer hears frames of its own, in all of which the references read one place. Calls:
//! `h,C` C hears its next frame, `r,C` it runs, `c,C,N` it hears and runs N frames, `t,A,B` what A tells is offered to B, `k,C,NORTH,EAST`
//! a skew, `x,C` a stop, `z,C,NEXT` a restart, `u,C,NEXT` an upgrade. Answers: `i,CYCLE` an issue, `bad,PLACE`, `new,COUNT,NEXT`,
//! `old,COUNT,OLDEST` and `silent` of an offer, else the answer's name.
ghost use Rattle.std.specs.Prelude.{◌≡◌, ◌≤◌, ◌<◌, ◌^◌, ℕ};
ghost use Rattle.dp_plant.specs.{IsFrameInRange, IsVectorWithin};

use crate::samples::{accepted, heard};
use crate::words::{below, is_offer};
use arrayvec::ArrayVec;
use dp_exchange::{Computer, Heard, Mode, Offer, Ran};
use dp_plant::{Frame, Memory, Place};
use dp_test_rows::samples::S1;
use dp_test_rows::{cut, natural, number, parts, plant_with};
use std::process::Abort;

#[test]
fn gives_the_answers_of_the_rows(rt: HostRuntime) -> Result<(), Memory> {
    let plant = plant_with(rt.alloc(), S1).expect(&rt, "a plant");
    let accepted = accepted(&rt, &plant);
    let rows = ROWS;
    for row in rows {
        let mut computers = [
            Computer::new(rt.alloc(), &plant, &accepted)?,
            Computer::new(rt.alloc(), &plant, &accepted)?,
            Computer::new(rt.alloc(), &plant, &accepted)?,
        ];
        follow(&rt, &mut computers, row);
    }
    Ok(())
}

fn follow(rt: &impl Abort, computers: &mut [Computer; 3], row: &str) {
    let (name, rest) = cut(row, '~');
    let (steps, modes) = cut(rest, '~');
    for step in steps.split_whitespace() {
        let (call, wanted) = cut(step, '=');
        assert!(rt; is_answered(rt, computers, call, wanted), "{name}: {step}");
    }
    let [a, b, c, _, _] = parts(modes);
    assert!(rt;
        is_mode(&computers[0], a) && is_mode(&computers[1], b) && is_mode(&computers[2], c),
        "{name}"
    );
}

/// Makes a call, and says whether the answer is the one that is wanted.
fn is_answered(rt: &impl Abort, computers: &mut [Computer; 3], call: &str, wanted: &str) -> bool {
    let [verb, a, b, c, _] = parts(call);
    let from = below(rt, 3, a);
    if verb == "t" {
        let to = below(rt, 3, b);
        let answer = told(computers, from, to);
        return answer.map_or(wanted == "silent", |offer| is_offer(offer, wanted));
    }
    let computer = &mut computers[from as usize];
    if verb == "h" {
        return is_heard(hear(rt, computer), wanted);
    }
    if verb == "r" {
        return is_ran(rt, &computer.run(), wanted);
    }
    if verb == "k" {
        let live = computer.skew(place(rt, number(b), number(c)));
        return live == (wanted == "live");
    }
    change(rt, computer, verb, b);
    wanted.is_empty()
}

/// Calls that answer nothing.
fn change(rt: &impl Abort, computer: &mut Computer, verb: &str, word: &str) {
    if verb == "c" {
        for _ in 0..below(rt, 100, word) {
            let _heard = hear(rt, computer);
            let _ran = computer.run();
        }
    } else if verb == "x" {
        computer.stop();
    } else {
        let next = natural(word);
        assert!(rt; next <= 1 << 20);
        start(computer, verb, next);
    }
}

fn start(computer: &mut Computer, verb: &str, next: u64)
    requires { next ≤ 2 ^ 20 }
{
    if verb == "u" {
        computer.upgrade(next);
    } else {
        computer.restart(next);
    }
}

/// What a computer tells is offered to another one; none where it isn't live.
fn told(computers: &mut [Computer; 3], from: u8, to: u8) -> Option<Offer>
    requires from { from < 3 }
    requires to { to < 3 }
{
    let mut text = ArrayVec::new();
    if !computers[from as usize].tell(&mut text) {
        return None;
    }
    Some(computers[to as usize].offer(from, text.as_slice()))
}

fn is_heard(answer: Heard, wanted: &str) -> bool {
    match answer {
        Heard::Kept => wanted == "kept",
        Heard::Overrun => wanted == "overrun",
        Heard::Deaf => wanted == "deaf",
    }
}

fn is_ran(rt: &impl Abort, answer: &Ran, wanted: &str) -> bool {
    let [word, cycle, _, _, _] = parts(wanted);
    match answer {
        Ran::Issued(issue) => word == "i" && issue.cycle == natural(cycle),
        Ran::Idle => word == "idle",
        Ran::Aligning => word == "aligning",
        Ran::Off => word == "off",
    }
}

/// A mode with the software: `L1`.
fn is_mode(computer: &Computer, wanted: &str) -> bool {
    let newer = computer.software() == 2;
    match computer.mode() {
        Mode::Live => wanted == (if newer { "L2" } else { "L1" }),
        Mode::Aligning => wanted == (if newer { "A2" } else { "A1" }),
        Mode::Off => wanted == (if newer { "O2" } else { "O1" }),
    }
}

/// It hears its next frame, in which each reference reads the place 1 m north of the start.
fn hear(rt: &impl Abort, computer: &mut Computer) -> Heard {
    let cycle = computer.next();
    let at = place(rt, 1_000_000_000, 0);
    let f = frame(rt, cycle, at);
    computer.hear(&f)
}

const LIMIT: u64 = 1 << 43;

fn place(rt: &impl Abort, north: i64, east: i64) -> Place
    ensures { IsVectorWithin (2 ^ 43) result }
{
    assert!(rt; north.unsigned_abs() <= LIMIT && east.unsigned_abs() <= LIMIT);
    Place { north, east }
}

fn frame(rt: &impl Abort, cycle: u64, at: Place) -> Frame
    requires { IsVectorWithin (2 ^ 43) at }
    ensures cycle { result.cycle ≡ cycle }
    ensures range { (groups : ℕ) → IsFrameInRange groups result }
{
    assert!(rt; cycle < 1 << 20);
    Frame {
        cycle,
        pos: [heard(Some(at)); 3],
        gyro: [heard(None); 3],
        wind: [heard(None); 3],
        group: [heard(None); 8],
    }
}

const ROWS: &[&str] = &[
    "states of two counts are both kept~c,0,9 c,1,10 z,2,9 h,2=kept h,2=kept t,0,2=kept t,1,2=kept~L1,L1,A1",
    "a state is too old or too new for one that has heard nothing~c,0,10 c,1,13 z,2,12 t,0,2=old,10,12 t,1,2=new,13,12~L1,L1,A1",
    "frames that wait at an adoption are run~c,0,3 c,1,3 z,2,3 h,2=kept h,2=kept t,0,2=kept t,1,2=adopted t,0,2=unasked r,2=i,3 r,2=i,4 r,2=idle~L1,L1,L1",
    "a computer doesn't confirm itself~c,0,3 c,1,3 z,2,3 t,0,2=kept t,0,2=kept t,1,2=adopted~L1,L1,L1",
    "a later state of a computer takes the place of the earlier~c,0,2 c,1,3 z,2,2 h,2=kept t,0,2=kept c,0,1 t,0,2=kept t,1,2=adopted r,2=idle~L1,L1,L1",
    "a frame makes it forget the offers~c,0,3 c,1,3 z,2,3 t,0,2=kept h,2=kept t,1,2=kept t,0,2=adopted r,2=i,3~L1,L1,L1",
    "states that differ don't confirm each other~c,0,3 c,1,3 k,1,1000000000,0=live z,2,3 t,0,2=kept t,1,2=kept~L1,L1,A1",
    "one that is off hears nothing and tells nothing~x,0 h,0=deaf r,0=off k,0,0,0=dead t,0,1=silent t,1,0=unasked z,0,0 r,0=aligning t,1,0=kept t,2,0=adopted r,0=idle~L1,L1,L1",
    "seventeen frames are an overrun, after which a state that hasn't seen the first is too old~h,0=kept h,0=kept h,0=kept h,0=kept h,0=kept h,0=kept h,0=kept h,0=kept h,0=kept h,0=kept h,0=kept h,0=kept h,0=kept h,0=kept h,0=kept h,0=kept h,0=overrun r,0=aligning t,0,1=silent t,1,0=old,0,1 c,1,1 c,2,1 t,1,0=kept t,2,0=adopted r,0=i,1~L1,L1,L1",
    "computers of both softwares~c,0,3 c,1,3 c,2,3 u,0,3 t,1,0=kept t,2,0=adopted z,1,3 t,0,1=bad,0 t,2,1=kept u,1,3 t,0,1=kept t,2,1=adopted r,1=idle~L2,L2,L1",
];
