//! The line of a thruster's forces.
ghost use Rattle.std.specs.Prelude.{◌≡◌, ◌≤◌, ◌+◌, ◌*◌, ◌++◌, [], ◌∷◌, Some, IfSome, length, codes, true};
ghost use Rattle.std.specs.List.{flat_map};
ghost use Rattle.arrayvec.specs.ArrayVec.{array_vec_len};
ghost use Rattle.dp_plant.specs.declared.voting.Ballot.TheVariants.{Fresh};
ghost use Rattle.dp_report.specs.{ballot_text, order_text};
ghost use Rattle.dp_report.specs.Text.{thruster_line};

use crate::TEXT;
use arrayvec::ArrayVec;
use dp_plant::Ballot;
use dp_text::{append, append_decimal, append_four_times, append_number};

/// Appends the line of thruster `k`: its ballot, and the order that its voter holds from each computer.
#[inline]
pub(crate) fn append_thruster(
    into: &mut ArrayVec<u8, TEXT>,
    k: u64,
    ballot: Ballot,
    orders: &[Option<i64>; 3],
)
    requires { array_vec_len into.old + 108 ≤ TEXT }
    ensures text { into.new.items ≡ into.old.items ++ thruster_line k ballot orders.now }
    ensures len { array_vec_len into.new ≤ array_vec_len into.old + 108 }
{
    match common_force(ballot, orders) {
        Some(force) => append_common(into, k, force),
        None => append_each(into, k, ballot, orders),
    }
}

/// The force of a fresh ballot, where each computer ordered just this force.
#[inline]
fn common_force(ballot: Ballot, orders: &[Option<i64>; 3]) -> Option<i64>
    ensures { IfSome result (λ force. (ballot ≡ Fresh force)
        × (orders.now ≡ Some force ∷ Some force ∷ Some force ∷ [])) }
{
    let Ballot::Fresh(force) = ballot else {
        return None;
    };
    let [first, second, third] = *orders;
    if is_order(first, force) && is_order(second, force) && is_order(third, force) {
        Some(force)
    } else {
        None
    }
}

/// Appends the line of thruster `k` where its ballot is fresh and all have ordered its force.
#[inline]
fn append_common(into: &mut ArrayVec<u8, TEXT>, k: u64, force: i64)
    requires { array_vec_len into.old + 108 ≤ TEXT }
    ensures text { into.new.items
        ≡ into.old.items
        ++ thruster_line k (Fresh force) (Some force ∷ Some force ∷ Some force ∷ []) }
    ensures len { array_vec_len into.new ≤ array_vec_len into.old + 108 }
{
    into.push(b't');
    append_decimal(into, k);
    append_fresh(into);
    append_four_times(into, force);
    into.push(b'\n');
}

/// The mark of a fresh ballot, between spaces.
#[inline]
fn append_fresh(into: &mut ArrayVec<u8, TEXT>)
    requires { array_vec_len into.old + 3 ≤ TEXT }
    ensures text { into.new.items ≡ into.old.items ++ codes " F " }
    ensures len { array_vec_len into.new ≡ array_vec_len into.old + 3 }
{
    into.push(b' ');
    into.push(b'F');
    into.push(b' ');
}

/// Appends the line of thruster `k`, each part for itself.
#[cold]
#[inline(never)]
#[tactic(auto, unfolding(crate::specs::Text::thruster_line))]
fn append_each(into: &mut ArrayVec<u8, TEXT>, k: u64, ballot: Ballot, orders: &[Option<i64>; 3])
    requires { array_vec_len into.old + 108 ≤ TEXT }
    ensures text { into.new.items ≡ into.old.items ++ thruster_line k ballot orders.now }
    ensures len { array_vec_len into.new ≤ array_vec_len into.old + 108 }
{
    append(into, b"t");
    append_decimal(into, k);
    append_ballot(into, ballot);
    append_orders(into, orders);
    append(into, b"\n");
}

/// An order is of this force.
#[inline]
fn is_order(order: Option<i64>, force: i64) -> bool
    ensures { result ≡ true → order ≡ Some force }
{
    match order {
        Some(ordered) => ordered == force,
        None => false,
    }
}

/// A ballot's letter and its force.
#[tactic(auto, unfolding(crate::specs::Text::ballot_text))]
fn append_ballot(into: &mut ArrayVec<u8, TEXT>, ballot: Ballot)
    requires { array_vec_len into.old + 23 ≤ TEXT }
    ensures text { into.new.items ≡ into.old.items ++ ballot_text ballot }
    ensures len { array_vec_len into.new ≤ array_vec_len into.old + 23 }
{
    match ballot {
        Ballot::Fresh(force) => {
            append(into, b" F ");
            append_number(into, force);
        }
        Ballot::Held(force) => {
            append(into, b" H ");
            append_number(into, force);
        }
        Ballot::Zero => append(into, b" Z 0"),
    }
}

fn append_orders(into: &mut ArrayVec<u8, TEXT>, orders: &[Option<i64>])
    requires { array_vec_len into.old + 21 * length orders.now ≤ TEXT }
    ensures text { into.new.items ≡ into.old.items ++ flat_map order_text orders.now }
    ensures len { array_vec_len into.new ≤ array_vec_len into.old + 21 * length orders.now }
{
    for order in orders {
        append_order(into, *order);
    }
}

/// An order's force, or a dash where there is none.
#[tactic(auto, unfolding(crate::specs::Text::order_text))]
fn append_order(into: &mut ArrayVec<u8, TEXT>, order: Option<i64>)
    requires { array_vec_len into.old + 21 ≤ TEXT }
    ensures text { into.new.items ≡ into.old.items ++ order_text order }
    ensures len { array_vec_len into.new ≤ array_vec_len into.old + 21 }
{
    match order {
        Some(force) => {
            into.push(b' ');
            append_number(into, force);
        }
        None => append(into, b" -"),
    }
}
