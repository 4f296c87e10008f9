//! The lines of a cycle's alarms.
ghost use Rattle.std.specs.Prelude.{◌≡◌, ◌≤◌, ◌<◌, ◌+◌, ◌*◌, ◌++◌, length};
ghost use Rattle.arrayvec.specs.ArrayVec.{array_vec_len};
ghost use Rattle.dp_fixed.specs.{is_set};
ghost use Rattle.dp_report.specs.{
  alarm_line,
  alarm_lines,
  alarm_text,
  cause_line,
  consequence_lines,
  damage_lines,
  demand_lines,
  limit_lines,
  numbered_line,
  numbered_lines,
  reference_line,
  reference_lines,
  sensor_lines,
};

use crate::TEXT;
use arrayvec::ArrayVec;
use dp_plant::{Alarms, Cause};
use dp_text::{append, append_decimal};

/// Appends what is known of a cycle's alarms: a line for each, or that they aren't known.
#[tactic(auto, unfolding(crate::specs::Alarms::alarm_text))]
pub(crate) fn append_alarms(into: &mut ArrayVec<u8, TEXT>, alarms: &Option<Alarms>)
    requires { array_vec_len into.old + 1187 ≤ TEXT }
    ensures { into.new.items ≡ into.old.items ++ alarm_text alarms.now }
{
    match alarms {
        Some(alarms) => append_lines(into, alarms),
        None => append(into, b"alarm unknown\n"),
    }
}

#[tactic(auto, unfolding(crate::specs::Alarms::alarm_lines))]
fn append_lines(into: &mut ArrayVec<u8, TEXT>, alarms: &Alarms)
    requires { array_vec_len into.old + 1187 ≤ TEXT }
    ensures { into.new.items ≡ into.old.items ++ alarm_lines alarms.now }
{
    append_references(into, &alarms.refs);
    append_damage(into, alarms.damaged);
    append_sensors(into, alarms);
    append_demands(into, alarms);
}

#[tactic(auto, unfolding(crate::specs::Alarms::reference_lines))]
fn append_references(into: &mut ArrayVec<u8, TEXT>, causes: &[Cause; 3])
    requires { array_vec_len into.old + 114 ≤ TEXT }
    ensures text { into.new.items ≡ into.old.items ++ reference_lines causes.now }
    ensures len { array_vec_len into.new ≤ array_vec_len into.old + 114 }
{
    append_cause(into, 0, causes[0]);
    append_cause(into, 1, causes[1]);
    append_cause(into, 2, causes[2]);
}

/// Appends the line of reference `i`, if it isn't good.
#[inline]
#[tactic(auto, using(crate::proofs::Nothing::no_fault))]
fn append_cause(into: &mut ArrayVec<u8, TEXT>, i: u64, cause: Cause)
    requires { array_vec_len into.old + 38 ≤ TEXT }
    ensures text { into.new.items ≡ into.old.items ++ cause_line i cause }
    ensures len { array_vec_len into.new ≤ array_vec_len into.old + 38 }
{
    match cause {
        Cause::Good => {}
        _ => append_fault(into, i, cause),
    }
}

/// The same, out of the way of a good reference.
#[cold]
#[inline(never)]
#[tactic(auto, unfolding(crate::specs::Alarms::cause_line))]
fn append_fault(into: &mut ArrayVec<u8, TEXT>, i: u64, cause: Cause)
    requires { array_vec_len into.old + 38 ≤ TEXT }
    ensures text { into.new.items ≡ into.old.items ++ cause_line i cause }
    ensures len { array_vec_len into.new ≤ array_vec_len into.old + 38 }
{
    match cause {
        Cause::Good => {}
        Cause::Silent => append_reference(into, i, b"silent"),
        Cause::Stale => append_reference(into, i, b"stale"),
        Cause::Frozen => append_reference(into, i, b"frozen"),
        Cause::Jumped => append_reference(into, i, b"jumped"),
        Cause::Noisy => append_reference(into, i, b"noisy"),
    }
}

#[tactic(auto, unfolding(crate::specs::Alarms::reference_line))]
fn append_reference(into: &mut ArrayVec<u8, TEXT>, i: u64, word: &[u8])
    requires word { length word.now ≤ 6 }
    requires room { array_vec_len into.old + 38 ≤ TEXT }
    ensures text { into.new.items ≡ into.old.items ++ reference_line i word.now }
    ensures len { array_vec_len into.new ≤ array_vec_len into.old + 38 }
{
    append(into, b"alarm ref ");
    append_decimal(into, i);
    append(into, b" ");
    append(into, word);
    append(into, b"\n");
}

#[tactic(auto, unfolding(crate::specs::Alarms::sensor_lines))]
fn append_sensors(into: &mut ArrayVec<u8, TEXT>, alarms: &Alarms)
    requires { array_vec_len into.old + 34 ≤ TEXT }
    ensures text { into.new.items ≡ into.old.items ++ sensor_lines alarms.now }
    ensures len { array_vec_len into.new ≤ array_vec_len into.old + 34 }
{
    append_alarm(into, alarms.blind, b"blind");
    append_alarm(into, alarms.gyro, b"gyro");
    append_alarm(into, alarms.wind, b"wind");
}

/// Appends the line of an alarm, if it is raised.
#[tactic(auto, unfolding(crate::specs::Alarms::alarm_line))]
fn append_alarm(into: &mut ArrayVec<u8, TEXT>, raised: bool, words: &[u8])
    requires { array_vec_len into.old + length words.now + 7 ≤ TEXT }
    ensures text { into.new.items ≡ into.old.items ++ alarm_line raised words.now }
    ensures len { array_vec_len into.new ≤ array_vec_len into.old + length words.now + 7 }
{
    if raised {
        append(into, b"alarm ");
        append(into, words);
        append(into, b"\n");
    }
}

#[tactic(auto, unfolding(crate::specs::Alarms::limit_lines))]
fn append_limits(into: &mut ArrayVec<u8, TEXT>, limited: &[bool; 3])
    requires { array_vec_len into.old + 51 ≤ TEXT }
    ensures text { into.new.items ≡ into.old.items ++ limit_lines limited.now }
    ensures len { array_vec_len into.new ≤ array_vec_len into.old + 51 }
{
    append_alarm(into, limited[0], b"limit surge");
    append_alarm(into, limited[1], b"limit sway");
    append_alarm(into, limited[2], b"limit yaw");
}

#[tactic(auto, unfolding(crate::specs::Alarms::demand_lines))]
fn append_demands(into: &mut ArrayVec<u8, TEXT>, alarms: &Alarms)
    requires { array_vec_len into.old + 376 ≤ TEXT }
    ensures { into.new.items ≡ into.old.items ++ demand_lines alarms.now }
{
    append_limits(into, &alarms.limited);
    append_alarm(into, alarms.nocase, b"nocase");
    append_consequences(into, alarms.lost);
}

/// Appends the lines of the wires with damage, in the order of the wires.
#[tactic(auto, using(crate::proofs::Nothing::no_damage), unfolding(crate::specs::Alarms::damage_lines))]
fn append_damage(into: &mut ArrayVec<u8, TEXT>, mask: u32)
    requires { array_vec_len into.old + 663 ≤ TEXT }
    ensures text { into.new.items ≡ into.old.items ++ damage_lines mask }
    ensures len { array_vec_len into.new ≤ array_vec_len into.old + 663 }
{
    if mask != 0 {
        append_numbered(into, b"damage pos", mask, 0, 3);
        append_numbered(into, b"damage gyro", mask, 3, 3);
        append_numbered(into, b"damage wind", mask, 6, 3);
        append_numbered(into, b"damage grp", mask, 9, 8);
    }
}

/// Appends the lines of `count` things of a kind, of which bit `first` of the mask is the first.
fn append_numbered(into: &mut ArrayVec<u8, TEXT>, words: &[u8], mask: u32, first: u32, count: u32)
    requires words { length words.now ≤ 12 }
    requires bits { first + count ≤ 32 }
    requires room { array_vec_len into.old + 39 * count ≤ TEXT }
    ensures text { into.new.items ≡ into.old.items ++ numbered_lines words.now mask first count }
    ensures len { array_vec_len into.new ≤ array_vec_len into.old + 39 * count }
{
    for k in 0..count {
        append_numbered_line(into, is_set(mask, first + k), words, u64::from(k));
    }
}

/// Bit `i` of a mask is set.
fn is_set(mask: u32, i: u32) -> bool
    requires { i < 32 }
    ensures { result ≡ is_set mask i }
{
    (mask >> i) % 2 == 1
}

/// Appends the line of thing `k` of a kind, if it is raised.
#[tactic(auto, unfolding(crate::specs::Alarms::numbered_line, crate::specs::Alarms::alarm_line))]
fn append_numbered_line(into: &mut ArrayVec<u8, TEXT>, raised: bool, words: &[u8], k: u64)
    requires words { length words.now ≤ 12 }
    requires room { array_vec_len into.old + 39 ≤ TEXT }
    ensures text { into.new.items ≡ into.old.items ++ numbered_line raised words.now k }
    ensures len { array_vec_len into.new ≤ array_vec_len into.old + 39 }
{
    if raised {
        append(into, b"alarm ");
        append(into, words);
        append_decimal(into, k);
        append(into, b"\n");
    }
}

/// Appends the lines of the groups whose loss would not be survived.
#[tactic(auto, using(crate::proofs::Nothing::no_consequence), unfolding(crate::specs::Alarms::consequence_lines))]
fn append_consequences(into: &mut ArrayVec<u8, TEXT>, lost: u8)
    requires { array_vec_len into.old + 312 ≤ TEXT }
    ensures text { into.new.items ≡ into.old.items ++ consequence_lines lost }
    ensures len { array_vec_len into.new ≤ array_vec_len into.old + 312 }
{
    if lost != 0 {
        append_numbered(into, b"consequence ", u32::from(lost), 0, 8);
    }
}
