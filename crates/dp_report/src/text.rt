//! The first line of a cycle's text.
ghost use Rattle.std.specs.Prelude.{◌≡◌, ◌≤◌, ◌+◌, ◌++◌, length, map};
ghost use Rattle.arrayvec.specs.ArrayVec.{array_vec_len};
ghost use Rattle.dp_report.specs.{mode_letter};
ghost use Rattle.dp_report.specs.Text.{cycle_line};

use crate::TEXT;
use arrayvec::ArrayVec;
use dp_plant::Mode;
use dp_text::{append, append_decimal};

/// Appends the line of a cycle, and how each computer takes part in it.
#[tactic(auto, unfolding(crate::specs::Text::cycle_line))]
pub(crate) fn append_cycle(into: &mut ArrayVec<u8, TEXT>, cycle: u64, modes: &[Mode; 3])
    requires { array_vec_len into.old + 31 ≤ TEXT }
    ensures text { into.new.items ≡ into.old.items ++ cycle_line cycle modes.now }
    ensures len { array_vec_len into.new ≤ array_vec_len into.old + 31 }
{
    append(into, b"cycle ");
    append_decimal(into, cycle);
    append(into, b" ");
    append_letters(into, modes);
    append(into, b"\n");
}

fn append_letters(into: &mut ArrayVec<u8, TEXT>, modes: &[Mode])
    requires { array_vec_len into.old + length modes.now ≤ TEXT }
    ensures text { into.new.items ≡ into.old.items ++ map mode_letter modes.now }
    ensures len { array_vec_len into.new ≡ array_vec_len into.old + length modes.now }
{
    for mode in modes {
        into.push(letter(*mode));
    }
}

/// `L`, `A` or `O`.
fn letter(mode: Mode) -> u8
    ensures { result ≡ mode_letter mode }
{
    match mode {
        Mode::Live => b'L',
        Mode::Aligning => b'A',
        Mode::Off => b'O',
    }
}
