//! What a cycle's text tells, and the text.
ghost use Rattle.std.specs.Prelude.{◌≡◌, ◌≤◌, ◌+◌, ◌*◌, ◌++◌};
ghost use Rattle.arrayvec.specs.ArrayVec.{array_vec_len};
ghost use Rattle.dp_report.specs.{block_text, thruster_lines};

use crate::TEXT;
use crate::alarms::append_alarms;
use crate::forces::append_thruster;
use crate::text::append_cycle;
use arrayvec::ArrayVec;
use dp_plant::{Alarms, Ballot, Mode};

/// One cycle: how each computer takes part, for each thruster its ballot and the order that its voter holds from each computer, in
/// newtons, and the alarms that at least two computers raise, where they are known. `ballots` and `held` are as long as there are
/// thrusters.
#[derive(Debug, Drop)]
pub struct Block {
    pub ballots: ArrayVec<Ballot, 12>,
    pub held: ArrayVec<[Option<i64>; 3], 12>,
    pub cycle: u64,
    pub modes: [Mode; 3],
    pub alarms: Option<Alarms>,
}

/// Replaces the content by the text of one cycle, as the crate's page describes it. The block has as many ballots as orders held.
#[tactic(auto, unfolding(crate::specs::Block::block_text))]
pub fn write_block(b: &Block, into: &mut ArrayVec<u8, TEXT>)
    requires { array_vec_len b.now.ballots ≡ array_vec_len b.now.held }
    ensures { into.new.items ≡ block_text b.now }
{
    into.clear();
    append_cycle(into, b.cycle, &b.modes);
    append_thrusters(into, &b.ballots, &b.held);
    append_alarms(into, &b.alarms);
}

/// Appends the line of each thruster.
#[inline(never)]
fn append_thrusters(
    into: &mut ArrayVec<u8, TEXT>,
    ballots: &ArrayVec<Ballot, 12>,
    held: &ArrayVec<[Option<i64>; 3], 12>,
)
    requires lengths { array_vec_len ballots.now ≡ array_vec_len held.now }
    requires room { array_vec_len into.old + 108 * 12 ≤ TEXT }
    ensures text { into.new.items
        ≡ into.old.items ++ thruster_lines ballots.now.items held.now.items }
    ensures len { array_vec_len into.new ≤ array_vec_len into.old + 108 * 12 }
{
    let ballots = ballots.as_slice();
    let held = held.as_slice();
    for k in 0..ballots.len() {
        append_thruster(into, k as u64, ballots[k], &held[k]);
    }
}
