//! What a cycle warns of.
ghost use Rattle.std.specs.Prelude.{◌≡◌, ◌≤◌, ◌<◌, ◌^◌, ◌+◌, ℕ, Bool, List, ◌++◌, ◌&&◌, length, map, if◌then◌else◌};
ghost use Rattle.dp_fixed.specs.{bits_of};
ghost use Rattle.dp_machine.specs.Alarms.{are_sound_slots, cause_of, damaged_in, is_damaged};
ghost use Rattle.dp_machine.specs.Step.{alarms_by};

use crate::sensed::Sensed;
use dp_consequence::check_bits;
use dp_plant::{Alarms, Cause, Frame, Place, Plant, Slot, Verdict};

/// What a cycle warns of, by what the tests of the references say, the frame, the measured place, what is heard, which demands are
/// limited, and the mean demand of late.
#[tactic(auto, unfolding(crate::specs::Step::alarms_by))]
pub(crate) fn alarms_of(
    plant: &Plant,
    verdicts: &[Verdict; 3],
    f: &Frame,
    place: Option<Place>,
    sensed: Sensed,
    limited: [bool; 3],
    mean: [i64; 3],
) -> Alarms
    requires { plant.now.groups ≤ 8 }
    ensures { result ≡ alarms_by plant.now verdicts.now f.now place sensed limited mean }
{
    Alarms {
        refs: causes_of(verdicts),
        damaged: damaged_in(f),
        blind: place.is_none(),
        gyro: sensed.heading.is_none(),
        wind: sensed.gust.is_none(),
        limited,
        nocase: plant.case_of(sensed.lost).is_none(),
        lost: check_bits(plant, sensed.lost, mean),
    }
}

fn causes_of(verdicts: &[Verdict; 3]) -> [Cause; 3]
    ensures { result ≡ map cause_of verdicts.now }
{
    let [first, second, third] = verdicts;
    [cause_of(first), cause_of(second), cause_of(third)]
}

/// That a reference is good, or why it isn't usable.
fn cause_of(verdict: &Verdict) -> Cause
    ensures { result ≡ cause_of verdict.now }
{
    match verdict {
        Verdict::Silent => Cause::Silent,
        Verdict::Stale { .. } => Cause::Stale,
        Verdict::Frozen => Cause::Frozen,
        Verdict::Jumped => Cause::Jumped,
        Verdict::Noisy { .. } => Cause::Noisy,
        Verdict::Usable { .. } => Cause::Good,
    }
}

/// The wires on which damaged lines came, a bit each, in the order of positions, gyros, wind sensors and groups.
fn damaged_in(f: &Frame) -> u32
    ensures { result ≡ damaged_in f.now }
{
    if is_sound(f) { 0 } else { damaged_wires(f) }
}

/// No damaged line came, as in most cycles.
fn is_sound(f: &Frame) -> bool
    ensures { result ≡ (are_sound_slots f.now.pos && (are_sound_slots f.now.gyro
        && (are_sound_slots f.now.wind && are_sound_slots f.now.group))) }
{
    are_sound(&f.pos) && (are_sound(&f.gyro) && (are_sound(&f.wind) && are_sound(&f.group)))
}

fn are_sound<T>(slots: &[Slot<T>]) -> bool
    ensures { result ≡ are_sound_slots slots.now }
{
    slots.iter().all(|slot| !(0 < slot.damage))
}

/// The bits, wire by wire.
#[tactic(auto, unfolding(crate::specs::Alarms::damaged_in))]
fn damaged_wires(f: &Frame) -> u32
    ensures { result ≡ damaged_in f.now }
{
    let group = damaged_before(&f.group, 0);
    let wind = damaged_before(&f.wind, group);
    let gyro = damaged_before(&f.gyro, wind);
    damaged_before(&f.pos, gyro)
}

/// The slots on which damaged lines came, a bit each, the first the lowest, and above them the bits of the slots after them.
fn damaged_before<T>(slots: &[Slot<T>], after: u32) -> u32
    requires few { length slots.now ≤ 8 }
    requires after { after < 2 ^ 14 }
    ensures value { (bs : List Bool) → after ≡ bits_of bs
        → result ≡ bits_of (map is_damaged slots.now ++ bs) }
    ensures bound { (n : ℕ) → after < 2 ^ n → result < 2 ^ (n + length slots.now) }
{
    let mut bits = after;
    let mut k = slots.len();
    while 0 < k {
        k -= 1;
        bits = 2 * bits + damage_bit(&slots[k]);
    }
    bits
}

fn damage_bit<T>(slot: &Slot<T>) -> u32
    ensures value { result ≡ (if is_damaged slot.now then 1 else 0) }
    ensures bound { result ≤ 1 }
{
    if 0 < slot.damage { 1 } else { 0 }
}
