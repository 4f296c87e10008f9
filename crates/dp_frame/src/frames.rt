//! Frames: what each wire brought in one cycle.
ghost use Rattle.std.specs.Prelude.{◌≡◌, ◌<◌, ◌^◌, ◌-◌, ◌+◌, List, ◌∷◌, ℕ};
ghost use Rattle.dp_frame.specs.declared.entry.Entry.{Entry};
ghost use Rattle.dp_plant.specs.{IsFrameInRange};
ghost use Rattle.dp_frame.specs.{IsEntryWithin, IsFrameBounded, IsWire, counted_slot, frame_of, no_frame, no_slot};

use crate::entry::{Brought, Entry};
use dp_plant::{Frame, Slot, Wire};

/// Counts a line to the frame of its cycle.
pub(crate) fn note(frame: &mut Frame, entry: &Entry)
    requires wire { IsWire 8 entry.now.wire }
    requires room { IsFrameBounded (2 ^ 40 - 1) frame.old }
    ensures noted { (es : List Entry) → frame.old ≡ frame_of entry.now.cycle es
        → frame.new ≡ frame_of entry.now.cycle (entry.now ∷ es) }
    ensures bounded { (n : ℕ) → IsFrameBounded n frame.old → IsFrameBounded (n + 1) frame.new }
    ensures range { (groups : ℕ) → IsFrameInRange groups frame.old → IsEntryWithin groups entry.now
        → IsFrameInRange groups frame.new }
    ensures cycle { frame.new.cycle ≡ frame.old.cycle }
{
    match entry.wire {
        Wire::Pos(i) => frame.pos[i as usize] = counted(
            frame.pos[i as usize],
            entry.content.place(),
        ),
        Wire::Gyro(i) => frame.gyro[i as usize] = counted(
            frame.gyro[i as usize],
            entry.content.heading(),
        ),
        Wire::Wind(i) => frame.wind[i as usize] = counted(
            frame.wind[i as usize],
            entry.content.gust(),
        ),
        Wire::Group(i) => frame.group[i as usize] = counted(
            frame.group[i as usize],
            entry.content.ready(),
        ),
    }
}

/// The slot with one more line counted.
fn counted<T: Copy>(slot: Slot<T>, brought: Brought<T>) -> Slot<T>
    requires damage { slot.damage < 2 ^ 40 }
    requires skipped { slot.skipped < 2 ^ 40 }
    ensures { result ≡ counted_slot brought slot }
{
    let mut slot = slot;
    match brought {
        Brought::Reading(reading) => slot.last = Some(reading),
        Brought::Damaged => slot.damage += 1,
        Brought::Skipped => slot.skipped += 1,
    }
    slot
}

/// The frame of a cycle that no line came for.
pub fn empty_frame(cycle: u64) -> Frame
    ensures value { result ≡ no_frame cycle }
    ensures range { cycle < 2 ^ 20 → (groups : ℕ) → IsFrameInRange groups result }
{
    Frame {
        cycle,
        pos: [no_slot(); 3],
        gyro: [no_slot(); 3],
        wind: [no_slot(); 3],
        group: [no_slot(); 8],
    }
}

fn no_slot<T: Copy>() -> Slot<T>
    ensures { result ≡ no_slot }
{
    Slot {
        last: None,
        damage: 0,
        skipped: 0,
    }
}
