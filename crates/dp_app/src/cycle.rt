//! One cycle of the world: its frame, the script's acts, the votes, and what is told of it.
ghost use Rattle.std.specs.Prelude.{◌≡◌, [], List, length, map};
ghost use Rattle.std.specs.List.{range_with_len};
ghost use Rattle.dp_core.specs.declared.event.Event.{Event};
ghost use Rattle.dp_core.specs.{history, taken_forces};
ghost use Rattle.dp_core.specs.Represents.{Represents};
ghost use Rattle.dp_core.specs.Voting.{ballot};
ghost use Rattle.dp_plant.specs.{IsFrameInRange};
ghost use Rattle.dp_report.specs.{block_text};
ghost use Rattle.dp_app.specs.{block_of, cycle_events, vote_events, voters};

use crate::acting::{Text, begin_cycle, voters_of};
use arrayvec::ArrayVec;
use dp_core::World;
use dp_plant::{Ballot, Frame, Mode, Plant};
use dp_report::{Block, agree, write_block};
use dp_script::Script;

/// A cycle: its frame is heard by all computers, the script's acts of it are done, each voter votes, and `into` holds its text.
pub fn cycle(
    world: &mut World,
    plant: &Plant,
    script: &Script,
    frame: &Frame,
    into: &mut ArrayVec<u8, 4096>,
)
    requires next { frame.now.cycle ≡ world.old.cycles_begun }
    requires within { IsFrameInRange plant.now.groups frame.now }
    requires plant { world.old.plant ≡ plant.now }
    ensures represents { (es : List Event) → Represents es world.old
        → Represents (cycle_events plant.now script.now frame.now es) world.new }
    ensures block { (es : List Event) → Represents es world.old
        → into.new.items ≡ block_text (block_of plant.now frame.now.cycle
        (cycle_events plant.now script.now frame.now es)) }
    ensures plant { world.new.plant ≡ plant.now }
{
    let mut block = Block {
        ballots: ArrayVec::new(),
        held: ArrayVec::new(),
        cycle: frame.cycle,
        modes: [Mode::Off; 3],
        alarms: None,
    };
    play_votes(world, plant, script, frame, into, &mut block.ballots);
    hold_all(world, plant, &mut block.held);
    block.modes = world.modes();
    block.alarms = agree(&world.alarms());
    write_block(&block, into);
}

/// A cycle without its text: its frame is heard by all computers, the script's acts of it are done, and each voter votes, into `ballots`, which is
/// empty. `text` gives room.
pub fn play_votes(
    world: &mut World,
    plant: &Plant,
    script: &Script,
    frame: &Frame,
    text: &mut Text,
    ballots: &mut ArrayVec<Ballot, 12>,
)
    requires next { frame.now.cycle ≡ world.old.cycles_begun }
    requires within { IsFrameInRange plant.now.groups frame.now }
    requires plant { world.old.plant ≡ plant.now }
    requires empty { ballots.old.items ≡ [] }
    ensures represents { (es : List Event) → Represents es world.old
        → Represents (cycle_events plant.now script.now frame.now es) world.new }
    ensures ballots { (es : List Event) → Represents es world.old
        → ballots.new.items ≡ map (λ k. ballot k (history plant.now
        (cycle_events plant.now script.now frame.now es))) (range_with_len 0 (voters plant.now)) }
    ensures count { length ballots.new.items ≡ voters plant.now }
    ensures plant { world.new.plant ≡ plant.now }
{
    begin_cycle(world, plant, script, frame, text);
    vote_all(world, plant, ballots);
}

/// Puts the ballots of all voters in this cycle into `ballots`, which is empty.
fn vote_all(world: &mut World, plant: &Plant, ballots: &mut ArrayVec<Ballot, 12>)
    requires plant { world.old.plant ≡ plant.now }
    requires empty { ballots.old.items ≡ [] }
    ensures represents { (es : List Event) → Represents es world.old
        → Represents (vote_events (voters plant.now) es) world.new }
    ensures ballots { (es : List Event) → Represents es world.old
        → ballots.new.items ≡ map (λ k. ballot k (history plant.now
        (vote_events (voters plant.now) es))) (range_with_len 0 (voters plant.now)) }
    ensures count { length ballots.new.items ≡ voters plant.now }
    ensures plant { world.new.plant ≡ plant.now }
{
    for k in 0..voters_of(plant) {
        ballots.push(world.vote(k));
    }
}

/// Puts the orders that all voters took in this cycle into `orders`, which is empty.
fn hold_all(world: &World, plant: &Plant, orders: &mut ArrayVec<[Option<i64>; 3], 12>)
    requires plant { world.now.plant ≡ plant.now }
    requires empty { orders.old.items ≡ [] }
    ensures held { (es : List Event) → Represents es world.now → orders.new.items
        ≡ map (λ k. taken_forces k (history plant.now es)) (range_with_len 0 (voters plant.now)) }
    ensures count { length orders.new.items ≡ voters plant.now }
{
    for k in 0..voters_of(plant) {
        orders.push(world.held(k));
    }
}
