//! The line of a cycle.
ghost use Rattle.std.specs.Prelude.{◌≡◌, ◌≤◌, ◌<◌, ◌+◌, ◌++◌};
ghost use Rattle.arrayvec.specs.ArrayVec.{array_vec_len};
ghost use Rattle.dp_plant.specs.{entry};
ghost use Rattle.dp_guide.specs.Lines.{demand_text, guide_line, set_text, spaced, three_text};

use crate::ahead::entry_of;
use arrayvec::ArrayVec;
use dp_plant::Setpoint;
use dp_text::{append, append_decimal, append_number};

/// Room for a line.
const LINE: usize = 192;

/// Appends the line of a cycle, `cycle N set NORTH EAST PSI demand A0 A1 A2`: its setpoint in nanometres and nanodegrees, and the
/// demand on surge, sway and yaw; at most 164 bytes.
#[tactic(auto, unfolding(crate::specs::Lines::guide_line))]
pub fn append_cycle(into: &mut ArrayVec<u8, LINE>, cycle: u64, at: &Setpoint, demand: &[i64; 3])
    requires { array_vec_len into.old + 164 ≤ LINE }
    ensures text { into.new.items ≡ into.old.items ++ guide_line cycle at.now demand.now }
    ensures len { array_vec_len into.new ≤ array_vec_len into.old + 164 }
{
    append(into, b"cycle ");
    append_decimal(into, cycle);
    append_set(into, at);
    append_demand(into, demand);
    append(into, b"\n");
}

/// Appends a setpoint.
#[tactic(auto, unfolding(crate::specs::Lines::set_text))]
fn append_set(into: &mut ArrayVec<u8, LINE>, at: &Setpoint)
    requires { array_vec_len into.old + 67 ≤ LINE }
    ensures text { into.new.items ≡ into.old.items ++ set_text at.now }
    ensures len { array_vec_len into.new ≤ array_vec_len into.old + 67 }
{
    append(into, b" set");
    append_three(into, at.at.north, at.at.east, at.psi);
}

/// Appends a demand.
#[tactic(auto, unfolding(crate::specs::Lines::demand_text))]
fn append_demand(into: &mut ArrayVec<u8, LINE>, demand: &[i64; 3])
    requires { array_vec_len into.old + 70 ≤ LINE }
    ensures text { into.new.items ≡ into.old.items ++ demand_text demand.now }
    ensures len { array_vec_len into.new ≤ array_vec_len into.old + 70 }
{
    append(into, b" demand");
    append_three(
        into,
        entry_of(demand, 0),
        entry_of(demand, 1),
        entry_of(demand, 2),
    );
}

/// Appends three numbers, each after a space.
#[tactic(auto, unfolding(crate::specs::Lines::three_text))]
fn append_three(into: &mut ArrayVec<u8, LINE>, a: i64, b: i64, c: i64)
    requires { array_vec_len into.old + 63 ≤ LINE }
    ensures text { into.new.items ≡ into.old.items ++ three_text a b c }
    ensures len { array_vec_len into.new ≤ array_vec_len into.old + 63 }
{
    append_spaced(into, a);
    append_spaced(into, b);
    append_spaced(into, c);
}

/// Appends a space and a number.
#[tactic(auto, unfolding(crate::specs::Lines::spaced))]
fn append_spaced(into: &mut ArrayVec<u8, LINE>, number: i64)
    requires { array_vec_len into.old + 21 ≤ LINE }
    ensures text { into.new.items ≡ into.old.items ++ spaced number }
    ensures len { array_vec_len into.new ≤ array_vec_len into.old + 21 }
{
    append(into, b" ");
    append_number(into, number);
}
