//! The lines of the table of drifts.
ghost use Rattle.std.specs.Prelude.{◌≡◌, ◌≤◌, ◌+◌, ◌++◌, codes, Some};
ghost use Rattle.arrayvec.specs.ArrayVec.{array_vec_len};
ghost use Rattle.dp_drift.specs.Lines.{drift_line, drift_words, end_line, places_text};

use crate::Drift;
use arrayvec::ArrayVec;
use dp_text::{append, append_decimal, append_wide};

/// Room for a line.
const LINE: usize = 192;

/// Appends the line of a group: `group G nocase`, `group G held`, `group G past I` or `group G within X Y`; at most 136 bytes.
#[tactic(auto, unfolding(crate::specs::Lines::drift_line))]
pub fn append_group(into: &mut ArrayVec<u8, LINE>, group: u8, drift: Option<Drift>)
    requires { array_vec_len into.old + 136 ≤ LINE }
    ensures text { into.new.items ≡ into.old.items ++ drift_line group drift }
    ensures len { array_vec_len into.new ≤ array_vec_len into.old + 136 }
{
    append(into, b"group ");
    append_decimal(into, u64::from(group));
    append_words(into, drift);
    append(into, b"\n");
}

/// Appends the last line, `end N`, with the number of groups before it; at most 25 bytes.
#[tactic(auto, unfolding(crate::specs::Lines::end_line))]
pub fn append_end(into: &mut ArrayVec<u8, LINE>, count: u64)
    requires { array_vec_len into.old + 25 ≤ LINE }
    ensures text { into.new.items ≡ into.old.items ++ end_line count }
    ensures len { array_vec_len into.new ≤ array_vec_len into.old + 25 }
{
    append(into, b"end ");
    append_decimal(into, count);
    append(into, b"\n");
}

/// The word for a drift, and its numbers.
#[tactic(auto, unfolding(crate::specs::Lines::drift_words))]
fn append_words(into: &mut ArrayVec<u8, LINE>, drift: Option<Drift>)
    requires { array_vec_len into.old + 89 ≤ LINE }
    ensures text { into.new.items ≡ into.old.items ++ drift_words drift }
    ensures len { array_vec_len into.new ≤ array_vec_len into.old + 89 }
{
    match drift {
        Some(moved) => append_drift(into, moved),
        None => append(into, b" nocase"),
    }
}

/// The word for a drift that is known, and its numbers.
#[tactic(auto, unfolding(crate::specs::Lines::drift_words))]
fn append_drift(into: &mut ArrayVec<u8, LINE>, drift: Drift)
    requires { array_vec_len into.old + 89 ≤ LINE }
    ensures text { into.new.items ≡ into.old.items ++ drift_words (Some drift) }
    ensures len { array_vec_len into.new ≤ array_vec_len into.old + 89 }
{
    match drift {
        Drift::Held => append(into, b" held"),
        Drift::Past { cycle } => {
            append(into, b" past ");
            append_decimal(into, u64::from(cycle));
        }
        Drift::Within { at } => {
            append(into, b" within ");
            append_places(into, &at);
        }
    }
}

/// Two places, between them a space.
#[tactic(auto, unfolding(crate::specs::Lines::places_text))]
fn append_places(into: &mut ArrayVec<u8, LINE>, at: &[i128; 2])
    requires { array_vec_len into.old + 81 ≤ LINE }
    ensures text { into.new.items ≡ into.old.items ++ places_text at.now }
    ensures len { array_vec_len into.new ≤ array_vec_len into.old + 81 }
{
    append_wide(into, at[0]);
    append(into, b" ");
    append_wide(into, at[1]);
}
