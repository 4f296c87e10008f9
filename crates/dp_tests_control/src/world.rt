//! Rows of events on the sample vessel S1, each with what is seen of it. The answers come from a separate program.
//!
//! A row is `name~EVENT=SEEN ..~modes~orders of voter 0~of voter 1~alarms`. Events: `w,NORTH,EAST` a Wire on which the three
//! references read one place (`w` alone: nothing), `r,C` a Run, `o,FROM,VOTER` an Order, `v,VOTER` a Vote, `k,C,NORTH,EAST` a Skew,
//! `s,FROM,VOTER,CYCLE,FORCE` a Say, `x,C` a Stop, `z,C` a Restart, `u,C` an Upgrade, `t,FROM,TO` a Tell, `l,FROM,TO,NORTH,EAST` a Lie
//! of the sender's own state at rest at a place. Seen: `K`, `O`, `D` of each computer (kept, overrun, deaf), `i,CYCLE,FORCE,FORCE` an
//! issue with the forces of the first two thrusters, the others' being 0, else the answer's name. Alarms: `a` where a computer's issue of
//! this cycle has shown them. A row of computers that exchange states ends with the steps that each machine has taken, and all three have
//! the state of one that ran alone over the same frames.
ghost use Rattle.std.specs.Prelude.{◌≡◌, ◌<◌, ◌^◌, length};
ghost use Rattle.dp_plant.specs.{IsFrameInRange, IsPlaceSlotWithin, IsVectorWithin};
ghost use Rattle.dp_core.specs.{IsAllowed};

use crate::samples::{accepted, heard};
use crate::words::{are_orders, below, is_ballot, is_offer, is_took};
use arrayvec::ArrayVec;
use dp_core::{Alarms, Event, Heard, Issue, Machine, Mode, Place, Ran, Seen, World};
use dp_plant::{Frame, Memory, Slot};
use dp_test_rows::samples::S1;
use dp_test_rows::{cut, natural, number, parts, plant_with};
use std::process::Abort;

#[test]
fn gives_the_answers_of_the_rows(rt: HostRuntime) -> Result<(), Memory> {
    let plant = plant_with(rt.alloc(), S1).expect(&rt, "a plant");
    let accepted = accepted(&rt, &plant);
    let rows = ROWS;
    for row in rows {
        let _world = follow(&rt, World::new(rt.alloc(), &plant, &accepted)?, row);
    }
    Ok(())
}

#[test]
fn gives_the_answers_of_the_exchanges(rt: HostRuntime) -> Result<(), Memory> {
    let plant = plant_with(rt.alloc(), S1).expect(&rt, "a plant");
    let accepted = accepted(&rt, &plant);
    let rows = EXCHANGES;
    for row in rows {
        let (row, steps) = cut(row, '|');
        let world = follow(&rt, World::new(rt.alloc(), &plant, &accepted)?, row);
        let mut alone = Machine::new(rt.alloc(), &plant, &accepted)?;
        for _cycle in 0..world.cycles_begun() {
            run_alone(&rt, &mut alone);
        }
        let machines = world.end();
        assert!(rt; are_machines(&rt, &machines, &alone, steps), "{row}");
    }
    Ok(())
}

/// One more frame, of the place at which the exchanges happen.
fn run_alone(rt: &impl Abort, alone: &mut Machine) {
    let reading = reading(rt, "1000000000", "0");
    let issue = alone.step(&frame(rt, alone.count(), reading, alone.groups()));
    assert!(rt; issue.forces.len() == 6);
}

fn are_machines(rt: &impl Abort, machines: &[Machine; 3], alone: &Machine, steps: &str) -> bool {
    let [first, second, third] = machines;
    let [a, b, c, _, _] = parts(steps);
    is_machine(rt, first, alone, a)
        && is_machine(rt, second, alone, b)
        && is_machine(rt, third, alone, c)
}

fn is_machine(rt: &impl Abort, machine: &Machine, alone: &Machine, steps: &str) -> bool {
    let state = machine.state();
    let wanted = alone.state();
    machine.steps() == natural(steps)
        && state.count == wanted.count
        && state.plane == wanted.plane
        && state.yaw == wanted.yaw
        && state.demands.as_slice() == wanted.demands.as_slice()
}

fn follow(rt: &impl Abort, mut world: World, row: &str) -> World {
    let (name, rest) = cut(row, '~');
    let (steps, rest) = cut(rest, '~');
    for step in steps.split_whitespace() {
        let (call, wanted) = cut(step, '=');
        let event = event(rt, &world, call);
        let seen = world.apply(&event);
        assert!(rt; is_seen(&seen, wanted), "{name}: {step}");
    }
    assert!(rt; is_shown(rt, &world, rest), "{name}");
    world
}

fn event(rt: &impl Abort, world: &World, call: &str) -> Event
    ensures { IsAllowed world.now result }
{
    let [verb, a, b, c, d] = parts(call);
    if verb == "w" {
        let reading = reading(rt, a, b);
        return Event::Wire(frame(rt, world.cycles_begun(), reading, world.plant().groups));
    }
    if verb == "v" {
        return Event::Vote {
            voter: voter(rt, world, a),
        };
    }
    let first = below(rt, 3, a);
    if verb == "r" {
        return Event::Run { c: first };
    }
    if verb == "x" {
        return Event::Stop { c: first };
    }
    if verb == "z" {
        return Event::Restart { c: first };
    }
    if verb == "u" {
        return Event::Upgrade { c: first };
    }
    if verb == "t" || verb == "l" {
        return offer(rt, world, [verb, a, b, c, d]);
    }
    if verb == "k" {
        return Event::Skew {
            c: first,
            at: place(rt, number(b), number(c)),
        };
    }
    let voter = voter(rt, world, b);
    if verb == "o" {
        Event::Order { from: first, voter }
    } else {
        Event::Say {
            from: first,
            voter,
            cycle: natural(c),
            force: number(d),
        }
    }
}

/// A Tell or a Lie.
fn offer(rt: &impl Abort, world: &World, words: [&str; 5]) -> Event
    ensures { IsAllowed world.now result }
{
    let [verb, from, to, north, east] = words;
    let from = below(rt, 3, from);
    let to = below(rt, 3, to);
    assert!(rt; from != to);
    if verb == "t" {
        return Event::Tell { from, to };
    }
    let mut bytes = ArrayVec::new();
    let at = place(rt, number(north), number(east));
    assert!(rt; world.spell_at(from, at, &mut bytes));
    Event::Lie { from, to, bytes }
}

/// The number of a voter that the world has.
fn voter(rt: &impl Abort, world: &World, word: &str) -> u8
    ensures { result < length world.now.plant.thrusters.items }
{
    let voter = below(rt, 12, word);
    assert!(rt; (voter as usize) < world.plant().thrusters.len());
    voter
}

fn is_seen(seen: &Seen, wanted: &str) -> bool {
    let [a, b, c, d, _] = parts(wanted);
    match seen {
        Seen::Heard(answers) => {
            let [first, second, third] = *answers;
            is_heard(first, a) && is_heard(second, b) && is_heard(third, c)
        }
        Seen::Ran(Ran::Issued(issue)) => a == "i" && is_issue(issue, [b, c, d]),
        Seen::Ran(Ran::Idle) => a == "idle",
        Seen::Ran(Ran::Aligning) => a == "aligning",
        Seen::Ran(Ran::Off) => a == "off",
        Seen::Sent(None) => a == "unsent",
        Seen::Sent(Some(took)) => is_took(*took, wanted),
        Seen::Offered(None) => a == "untold",
        Seen::Offered(Some(offer)) => is_offer(*offer, wanted),
        Seen::Voted(ballot) => is_ballot(*ballot, wanted),
        Seen::Skewed(live) => { if *live { a == "live" } else { a == "dead" } }
        Seen::Done => a == "done",
    }
}

fn is_heard(answer: Heard, wanted: &str) -> bool {
    match answer {
        Heard::Kept => wanted == "K",
        Heard::Overrun => wanted == "O",
        Heard::Deaf => wanted == "D",
    }
}

fn is_issue(issue: &Issue, wanted: [&str; 3]) -> bool {
    let [cycle, first, second] = wanted;
    let forces = [number(first), number(second), 0, 0, 0, 0];
    issue.cycle == natural(cycle) && issue.forces.as_slice() == forces.as_slice()
}

/// The modes, the orders that each of two voters took, and whether the computers' alarms of this cycle are there.
fn is_shown(rt: &impl Abort, world: &World, wanted: &str) -> bool {
    let (modes, rest) = cut(wanted, '~');
    let (orders, rest) = cut(rest, '~');
    let (others, alarms) = cut(rest, '~');
    assert!(rt; world.plant().thrusters.len() == 6);
    let [first, second, third] = world.modes();
    let [a, b, c, _, _] = parts(modes);
    is_mode(first, a)
        && is_mode(second, b)
        && is_mode(third, c)
        && are_orders(world.held(0), orders)
        && are_orders(world.held(1), others)
        && are_alarms(&world.alarms(), alarms)
}

fn are_alarms(alarms: &[Option<Alarms>; 3], wanted: &str) -> bool {
    let [first, second, third] = alarms;
    let [a, b, c, _, _] = parts(wanted);
    first.is_some() == (a == "a") && second.is_some() == (b == "a") && third.is_some() == (c == "a")
}

fn is_mode(mode: Mode, wanted: &str) -> bool {
    match mode {
        Mode::Live => wanted == "L",
        Mode::Aligning => wanted == "A",
        Mode::Off => wanted == "O",
    }
}

const LIMIT: u64 = 1 << 43;

fn place(rt: &impl Abort, north: i64, east: i64) -> Place
    ensures { IsVectorWithin (2 ^ 43) result }
{
    assert!(rt; north.unsigned_abs() <= LIMIT && east.unsigned_abs() <= LIMIT);
    Place { north, east }
}

fn reading(rt: &impl Abort, north: &str, east: &str) -> Slot<Place>
    ensures { IsPlaceSlotWithin result }
{
    if north.is_empty() {
        return heard(None);
    }
    heard(Some(place(rt, number(north), number(east))))
}

fn frame(rt: &impl Abort, cycle: u64, reading: Slot<Place>, groups: u8) -> Frame
    requires { IsPlaceSlotWithin reading }
    ensures cycle { result.cycle ≡ cycle }
    ensures range { IsFrameInRange groups result }
{
    assert!(rt; cycle < 1 << 20);
    Frame {
        cycle,
        pos: [reading; 3],
        gyro: [heard(None); 3],
        wind: [heard(None); 3],
        group: [heard(None); 8],
    }
}

const ROWS: &[&str] = &[
    "a skewed computer runs on from its own state~w,0,0=K,K,K r,0=i,0,0,0 r,1=i,0,0,0 r,2=i,0,0,0 o,0,0=taken o,1,0=taken o,2,0=taken v,0=F,0 w,0,0=K,K,K k,1,1000000000,0=live r,0=i,1,0,0 r,1=i,1,-391,-391 r,2=i,1,0,0 o,0,0=taken o,1,0=taken o,2,0=taken v,0=F,0 w,0,0=K,K,K r,0=i,2,0,0 r,1=i,2,-211,-210 r,2=i,2,0,0 o,0,0=taken o,1,0=taken o,2,0=taken o,1,1=taken v,0=F,0~L,L,L~0,-211,0~-,-210,-~a,a,a",
    "a computer says a false force~w,1000000000,0=K,K,K r,0=i,0,0,0 r,1=i,0,0,0 r,2=i,0,0,0 w,1000000000,0=K,K,K r,0=i,1,-171,-171 r,1=i,1,-171,-171 r,2=i,1,-171,-171 s,1,0,1,999=taken o,0,0=taken o,1,0=repeated o,2,0=taken v,0=F,-171 o,0,1=taken~L,L,L~-171,999,-171~-171,-,-~a,a,a",
    "sixteen frames wait, and one more is an overrun~w,1000000000,0=K,K,K r,0=i,0,0,0 w,1000000000,0=K,K,K r,0=i,1,-171,-171 w,1000000000,0=K,K,K r,0=i,2,-329,-329 w,1000000000,0=K,K,K r,0=i,3,-474,-474 w,1000000000,0=K,K,K r,0=i,4,-607,-607 w,1000000000,0=K,K,K r,0=i,5,-728,-728 w,1000000000,0=K,K,K r,0=i,6,-839,-838 w,1000000000,0=K,K,K r,0=i,7,-939,-938 w,1000000000,0=K,K,K r,0=i,8,-939,-938 w,1000000000,0=K,K,K r,0=i,9,-939,-938 w,1000000000,0=K,K,K r,0=i,10,-939,-938 w,1000000000,0=K,K,K r,0=i,11,-939,-938 w,1000000000,0=K,K,K r,0=i,12,-939,-938 w,1000000000,0=K,K,K r,0=i,13,-939,-938 w,1000000000,0=K,K,K r,0=i,14,-939,-938 w,1000000000,0=K,K,K r,0=i,15,-939,-938 w,1000000000,0=K,O,O r,0=i,16,-939,-938 r,2=aligning o,2,0=unsent o,0,0=taken v,0=Z~L,A,A~-939,-,-~-,-,-~a,-,-",
    "a stopped computer is deaf, and the last force is held for five cycles~w,1000000000,0=K,K,K r,0=i,0,0,0 r,0=idle r,1=i,0,0,0 r,2=i,0,0,0 o,0,0=taken o,1,0=taken o,2,0=taken v,0=F,0 o,0,0=stale,0 x,2=done r,2=off o,2,0=unsent k,2,0,0=dead w,1000000000,0=K,K,D r,0=i,1,-171,-171 o,0,0=taken o,1,0=stale,1 s,1,0,1,250001=unfit,250000 s,1,0,1,7=taken s,1,0,1,7=repeated v,0=H,0 v,0=H,0 w=K,K,D v,0=H,0 w=K,K,D v,0=H,0 w=K,K,D v,0=H,0 w=K,K,D v,0=H,0 w=K,K,D v,0=Z~L,L,O~-,-,-~-,-,-~-,-,-",
];

const EXCHANGES: &[&str] = &[
    "a stopped computer comes back, with two frames waiting~w,1000000000,0=K,K,K r,0=i,0,0,0 r,1=i,0,0,0 r,2=i,0,0,0 o,0,0=taken o,1,0=taken o,2,0=taken v,0=F,0 w,1000000000,0=K,K,K x,2=done r,0=i,1,-171,-171 r,1=i,1,-171,-171 r,2=off o,0,0=taken o,1,0=taken o,2,0=unsent v,0=F,-171 w,1000000000,0=K,K,D z,2=done r,0=i,2,-329,-329 r,1=i,2,-329,-329 r,2=aligning o,0,0=taken o,1,0=taken o,2,0=unsent v,0=F,-329 w,1000000000,0=K,K,K o,0,0=stale,3 v,0=H,-329 w,1000000000,0=K,K,K t,0,2=kept t,1,2=adopted r,0=i,3,-474,-474 r,0=i,4,-607,-607 r,1=i,3,-474,-474 r,1=i,4,-607,-607 r,2=i,3,-474,-474 r,2=i,4,-607,-607 o,0,0=taken o,1,0=taken o,2,0=taken v,0=F,-607~L,L,L~-607,-607,-607~-,-,-~a,a,a|5,5,3",
    "a lie confirms nothing~w,1000000000,0=K,K,K r,0=i,0,0,0 r,1=i,0,0,0 r,2=i,0,0,0 w,1000000000,0=K,K,K r,0=i,1,-171,-171 r,1=i,1,-171,-171 r,2=i,1,-171,-171 w,1000000000,0=K,K,K z,2=done r,0=i,2,-329,-329 r,1=i,2,-329,-329 r,2=aligning t,0,2=kept l,1,2,1000000000,0=kept t,2,1=untold w,1000000000,0=K,K,K r,0=i,3,-474,-474 r,1=i,3,-474,-474 r,2=aligning t,0,2=kept t,1,2=adopted t,1,0=unasked~L,L,L~-,-,-~-,-,-~a,a,-|4,4,2",
    "each computer is upgraded in turn~w,1000000000,0=K,K,K r,0=i,0,0,0 r,1=i,0,0,0 r,2=i,0,0,0 o,0,0=taken o,1,0=taken o,2,0=taken v,0=F,0 w,1000000000,0=K,K,K u,2=done r,0=i,1,-171,-171 r,1=i,1,-171,-171 r,2=aligning o,0,0=taken o,1,0=taken o,2,0=unsent v,0=F,-171 w,1000000000,0=K,K,K r,0=i,2,-329,-329 r,1=i,2,-329,-329 r,2=aligning o,0,0=taken o,1,0=taken t,0,2=kept t,1,2=adopted v,0=F,-329 w,1000000000,0=K,K,K u,1=done r,0=i,3,-474,-474 r,1=aligning r,2=i,3,-474,-474 o,0,0=taken o,2,0=taken t,0,1=kept t,2,1=adopted v,0=F,-474 w,1000000000,0=K,K,K z,0=done r,0=aligning r,1=i,4,-607,-607 r,2=i,4,-607,-607 o,1,0=taken o,2,0=taken t,1,0=bad,0 t,2,0=bad,0 v,0=F,-607 w,1000000000,0=K,K,K u,0=done r,0=aligning r,1=i,5,-728,-728 r,2=i,5,-728,-728 o,1,0=taken o,2,0=taken t,1,0=kept t,2,0=adopted v,0=F,-728~L,L,L~-,-728,-728~-,-,-~-,a,a|4,5,4",
    "a computer that overran comes back~w,1000000000,0=K,K,K r,0=i,0,0,0 r,1=i,0,0,0 w,1000000000,0=K,K,K r,0=i,1,-171,-171 r,1=i,1,-171,-171 w,1000000000,0=K,K,K r,0=i,2,-329,-329 r,1=i,2,-329,-329 w,1000000000,0=K,K,K r,0=i,3,-474,-474 r,1=i,3,-474,-474 w,1000000000,0=K,K,K r,0=i,4,-607,-607 r,1=i,4,-607,-607 w,1000000000,0=K,K,K r,0=i,5,-728,-728 r,1=i,5,-728,-728 w,1000000000,0=K,K,K r,0=i,6,-839,-838 r,1=i,6,-839,-838 w,1000000000,0=K,K,K r,0=i,7,-939,-938 r,1=i,7,-939,-938 w,1000000000,0=K,K,K r,0=i,8,-939,-938 r,1=i,8,-939,-938 w,1000000000,0=K,K,K r,0=i,9,-939,-938 r,1=i,9,-939,-938 w,1000000000,0=K,K,K r,0=i,10,-939,-938 r,1=i,10,-939,-938 w,1000000000,0=K,K,K r,0=i,11,-939,-938 r,1=i,11,-939,-938 w,1000000000,0=K,K,K r,0=i,12,-939,-938 r,1=i,12,-939,-938 w,1000000000,0=K,K,K r,0=i,13,-939,-938 r,1=i,13,-939,-938 w,1000000000,0=K,K,K r,0=i,14,-939,-938 r,1=i,14,-939,-938 w,1000000000,0=K,K,K r,0=i,15,-939,-938 r,1=i,15,-939,-938 w,1000000000,0=K,K,O r,0=i,16,-939,-938 r,1=i,16,-939,-938 r,2=aligning t,0,2=kept t,0,2=kept t,1,2=adopted r,2=idle~L,L,L~-,-,-~-,-,-~a,a,-|17,17,0",
];
