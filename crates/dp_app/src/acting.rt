//! The acts of a cycle, done on the world.
ghost use Rattle.std.specs.Prelude.{◌≡◌, ◌≢◌, ◌<◌, ◌≤◌, ◌^◌, ◌∷◌, List};
ghost use Rattle.dp_core.specs.declared.event.Event.{Event};
ghost use Rattle.dp_core.specs.declared.event.Event.TheVariants.{Wire};
ghost use Rattle.dp_core.specs.Represents.{Represents};
ghost use Rattle.dp_plant.specs.{IsFrameInRange};
ghost use Rattle.dp_script.specs.{IsWithin, acts_at, usual_acts};
ghost use Rattle.dp_app.specs.{act_events, events_of_acts, lie_events, voters};

use arrayvec::ArrayVec;
use dp_core::World;
use dp_plant::{Frame, Place, Plant};
use dp_script::{Act, Script};

/// Room for what a computer offers another, which holds nothing between two acts.
pub type Text = ArrayVec<u8, 4096>;

/// The next cycle but for its votes: its frame is heard by all computers, and the script's acts of it are done, one after another.
pub fn begin_cycle(
    world: &mut World,
    plant: &Plant,
    script: &Script,
    frame: &Frame,
    text: &mut Text,
)
    requires next { frame.now.cycle ≡ world.old.cycles_begun }
    requires within { IsFrameInRange plant.now.groups frame.now }
    requires plant { world.old.plant ≡ plant.now }
    ensures represents { (es : List Event) → Represents es world.old
        → Represents (events_of_acts plant.now frame.now.cycle
        (acts_at frame.now.cycle script.now) (Wire frame.now ∷ es)) world.new }
    ensures plant { world.new.plant ≡ plant.now }
{
    if script.is_usual(frame.cycle) {
        begin_usual(world, plant, frame);
    } else {
        world.wire(frame);
        perform_all(world, plant, script, frame.cycle, text);
    }
}

/// The next cycle but for its votes, where no line of the script names it: each computer steps over the frame, and the orders of each go
/// to all voters.
fn begin_usual(world: &mut World, plant: &Plant, frame: &Frame)
    requires next { frame.now.cycle ≡ world.old.cycles_begun }
    requires within { IsFrameInRange plant.now.groups frame.now }
    requires plant { world.old.plant ≡ plant.now }
    ensures represents { (es : List Event) → Represents es world.old
        → Represents (events_of_acts plant.now frame.now.cycle usual_acts
        (Wire frame.now ∷ es)) world.new }
    ensures plant { world.new.plant ≡ plant.now }
{
    world.advance(frame);
    world.order_all(0);
    world.order_all(1);
    world.order_all(2);
}

/// The script's acts of a cycle are done, one after another.
fn perform_all(world: &mut World, plant: &Plant, script: &Script, cycle: u64, text: &mut Text)
    requires { world.old.plant ≡ plant.now }
    ensures represents { (es : List Event) → Represents es world.old
        → Represents (events_of_acts plant.now cycle (acts_at cycle script.now) es) world.new }
    ensures plant { world.new.plant ≡ plant.now }
{
    for i in 0..script.len(cycle) {
        perform(world, plant, cycle, script.act(cycle, i), text);
    }
}

/// An act is done in this cycle; one on a voter that isn't there does nothing.
#[tactic(auto, unfolding(crate::specs::Acting::act_events))]
fn perform(world: &mut World, plant: &Plant, cycle: u64, act: Act, text: &mut Text)
    requires plant { world.old.plant ≡ plant.now }
    requires within { IsWithin act }
    ensures represents { (es : List Event) → Represents es world.old
        → Represents (act_events plant.now cycle act es) world.new }
    ensures plant { world.new.plant ≡ plant.now }
{
    match act {
        Act::Run { c } => {
            world.run(c);
        }
        Act::Order { c, k } => {
            if k < voters_of(plant) {
                world.order(c, k);
            }
        }
        Act::Orders { c } => world.order_all(c),
        Act::Tell { a, b } => {
            world.tell(a, b);
        }
        Act::Skew { c, at } => {
            let (north, east) = at;
            world.skew(c, Place { north, east });
        }
        Act::Say { c, k, force } => {
            if k < voters_of(plant) {
                world.say(c, k, cycle, force);
            }
        }
        Act::Lie { a, b, at } => {
            let (north, east) = at;
            lie(world, a, b, Place { north, east }, text);
        }
        Act::Junk { a, b, bytes } => {
            world.lie(a, b, bytes.as_slice());
        }
        Act::Stop { c } => {
            world.stop(c);
        }
        Act::Restart { c } => {
            world.restart(c);
        }
        Act::Upgrade { c } => {
            world.upgrade(c);
        }
    }
}

/// A live computer offers another its state at rest at a place; where it isn't live, nothing happens.
#[tactic(auto, unfolding(crate::specs::Acting::lie_events))]
fn lie(world: &mut World, a: u8, b: u8, at: Place, text: &mut Text)
    requires first { a < 3 }
    requires second { b < 3 }
    requires two { a ≢ b }
    ensures represents { (es : List Event) → Represents es world.old
        → Represents (lie_events world.old.plant a b at es) world.new }
    ensures plant { world.new.plant ≡ world.old.plant }
{
    if world.spell_at(a, at, text) {
        world.lie(a, b, text.as_slice());
    }
}

/// How many voters a plant has: one for each thruster.
pub fn voters_of(plant: &Plant) -> u8
    ensures value { result ≡ voters plant.now }
    ensures few { result ≤ 12 }
{
    plant.thrusters.len() as u8
}
