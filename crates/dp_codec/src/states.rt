//! The spelling of a machine's state, written and read back.
ghost use Rattle.std.specs.Prelude.{◌≡◌, ◌≤◌, length, Err, IfErr, IsOk, OnErr, OnOk};
ghost use Rattle.arrayvec.specs.ArrayVec.{array_vec_len};
ghost use Rattle.dp_machine.specs.{with_state};
ghost use Rattle.dp_machine.specs.declared.state.State.{State};
ghost use Rattle.dp_machine.specs.Step.{rest_in};
ghost use Rattle.dp_codec.specs.Spelling.{IsPlantState, IsSoftware, IsSpelled, spelling_of, state_read};

use crate::reading::all;
use crate::writing::write_with;
use arrayvec::ArrayVec;
use dp_machine::Machine;
use dp_plant::{Place, PlaneState};

/// The bytes spell no state of the plant in a version that the software knows: `place` is the offset of the first part that is missing,
/// wrong or out of range, or the length of a spelling that more follows.
#[derive(Clone, Copy, Debug, PartialEq, Eq)]
pub struct NotState {
    pub place: usize,
}

/// Replaces the content by the spelling of the machine's state, in the version that the software writes.
pub fn write_state(m: &Machine, software: u8, into: &mut ArrayVec<u8, 4096>)
    requires { IsSoftware software }
    ensures text { into.new.items ≡ spelling_of m.now.plant software m.now.state }
    ensures len { array_vec_len into.new ≤ 3133 }
    ensures state { IsPlantState m.now.plant m.now.state }
{
    let state = m.state();
    let plane = state.plane;
    write_with(m, software, &state, &plane, into);
}

/// Replaces the content by the spelling of the machine's state with its plane at rest at a place, whatever place that is.
#[tactic(auto, unfolding(dp_machine::specs::Step::rest_in))]
pub fn write_at(m: &Machine, at: Place, software: u8, into: &mut ArrayVec<u8, 4096>)
    requires { IsSoftware software }
    ensures text { into.new.items ≡ spelling_of m.now.plant software (rest_in m.now.state at) }
    ensures len { array_vec_len into.new ≤ 3133 }
{
    write_with(m, software, &m.state(), &PlaneState::rest(at), into);
}

/// Gives the machine the state that the bytes spell, of its plant and in a version that the software knows. Where they spell none, the
/// machine stays as it is.
pub fn read_state(bytes: &[u8], software: u8, m: &mut Machine) -> Result<(), NotState>
    requires { IsSoftware software }

    // What is read is spelled so, and nothing else of the machine changes.
    ensures found { OnOk result (IsSpelled m.old.plant software bytes.now m.new.state) }
    ensures ok { OnOk result (m.new ≡ with_state m.old m.new.state) }

    // What is spelled so is read.
    ensures only { (s : State) → IsSpelled m.old.plant software bytes.now s
        → IsOk result × (m.new.state ≡ s) }
    ensures len { OnOk result (length bytes.now ≤ 3133) }

    // Else the place is that of the first fault, and the machine stays.
    ensures fault { IfErr result
        (λ e. state_read m.old.plant software bytes.now ≡ Err e.place) }
    ensures err { OnErr result (m.new ≡ m.old) }
{
    m.inside_is_within();
    match all(m, software, bytes) {
        Ok(state) => {
            m.set(&state);
            Ok(())
        }
        Err(left) => Err(NotState {
            place: bytes.len().saturating_sub(left.bytes),
        }),
    }
}
