//! The groups of thrusters that are lost.
ghost use Rattle.std.specs.Prelude.{◌≡◌, ◌≤◌, ◌<◌, ◌^◌, ◌+◌, ◌*◌, is_none};
ghost use Rattle.std.specs.List.{list_all};
ghost use Rattle.dp_machine.specs.Groups.{lost_bit, lost_next};

use dp_plant::Slot;

/// The mask of the groups that are lost after a frame, by that before it: a group stays as it was until it is heard of again.
pub(crate) fn lost_next(mask: u8, group: &[Slot<bool>; 8]) -> u8
    ensures { result ≡ lost_next mask group.now }
{
    if is_silent(group) {
        mask
    } else {
        heard_next(mask, group)
    }
}

/// No group is heard of, as in most cycles.
fn is_silent(group: &[Slot<bool>; 8]) -> bool
    ensures { result ≡ list_all (λ s. is_none s.last) group.now }
{
    group.iter().all(|slot| slot.last.is_none())
}

/// The mask, group by group.
fn heard_next(mask: u8, group: &[Slot<bool>; 8]) -> u8
    ensures { result ≡ lost_next mask group.now }
{
    let mut lost = 0;
    let mut g = 8;
    while 0 < g {
        g -= 1;
        lost = 2 * lost + lost_bit((mask >> g) % 2, group[g].last);
    }
    lost
}

/// Whether a group is lost, as a bit, by what it was and what is heard of it.
fn lost_bit(bit: u8, ready: Option<bool>) -> u8
    requires { bit ≤ 1 }
    ensures value { result ≡ lost_bit bit ready }
    ensures bound { result ≤ 1 }
{
    match ready {
        None => bit,
        Some(true) => 0,
        Some(false) => 1,
    }
}
