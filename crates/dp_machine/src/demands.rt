//! The demands of the last 60 cycles, in a ring with their sums beside it.
ghost use Rattle.std.specs.Prelude.{◌≡◌, ◌≤◌, ◌<◌, ◌^◌, ◌*◌, ◌∷◌, ◌++◌, [], All, IfOk, IfSome, length, pos, unsigned_abs, ◌+ℤ◌, ◌-ℤ◌};
ghost use Rattle.circular_buffer.specs.Buffer.{buffer, keep_last};
ghost use Rattle.dp_fixed.specs.{floor_of};
ghost use Rattle.dp_plant.specs.{entry};
ghost use Rattle.dp_consequence.specs.Demands.{mean_demand};
ghost use Rattle.dp_alloc.specs.{IsDemandWithin};
ghost use Rattle.dp_machine.specs.KeptDemands.{AreSummed, part_of, totals_of};

use arrayvec::ArrayVec;
use circular_buffer::HeapCircularBuffer;
use dp_plant::Memory;
use std::alloc::Global;
use std::marker::Model;

/// The last 60 demands, with their sums; a contract sees the ring alone.
#[derive(Drop)]
pub(crate) struct Demands {
    ring: HeapCircularBuffer<[i64; 3]>,
    sums: DemandSums,
}

impl Model for Demands {
    ghost use Rattle.std.specs.Prelude.{ℤ, List};
    ghost use Rattle.circular_buffer.specs.Buffer.{Buffer};

    ghost Value = { Buffer (List ℤ) };

    ghost use Rattle.dp_machine.specs.KeptDemands.{ring_of, AreKept};

    ghost view = { ring_of };

    ghost invariant = { AreKept };
}

/// The sums of some demands on surge, sway and yaw.
#[derive(Clone, Copy, Debug, PartialEq, Eq)]
pub(crate) struct DemandSums {
    pub surge: i64,
    pub sway: i64,
    pub yaw: i64,
}

/// The sums of no demands.
const NO_SUMS: DemandSums = DemandSums {
    surge: 0,
    sway: 0,
    yaw: 0,
};

/// Room for 60 demands.
pub(crate) fn ring(alloc: Global) -> Result<Demands, Memory>
    ensures { IfOk result (λ r. r ≡ buffer [] 60) }
{
    match HeapCircularBuffer::with_capacity(alloc, 60) {
        Ok(ring) => Ok(Demands {
            ring,
            sums: NO_SUMS,
        }),
        Err(_) => Err(Memory),
    }
}

/// One demand more; of 60, the oldest falls out.
pub(crate) fn add(ring: &mut Demands, demand: [i64; 3])
    requires { IsDemandWithin demand }
    ensures { let all = ring.old.items ++ demand ∷ [] in
        ring.new ≡ buffer (keep_last ring.old.capacity all) ring.old.capacity }
{
    push(&mut ring.ring, &mut ring.sums, demand);
}

/// A demand comes in, and the oldest falls out where the ring is full.
fn push(ring: &mut HeapCircularBuffer<[i64; 3]>, sums: &mut DemandSums, demand: [i64; 3])
    requires summed { AreSummed ring.old sums.old }
    requires within { IsDemandWithin demand }
    ensures items { let all = ring.old.items ++ demand ∷ [] in
        ring.new ≡ buffer (keep_last ring.old.capacity all) ring.old.capacity }
    ensures summed { AreSummed ring.new sums.new }
{
    let oldest = ring.push_back(demand);
    *sums = moved(sums, &demand, oldest);
}

/// The sums with one demand more, and without one that fell out.
fn moved(sums: &DemandSums, more: &[i64; 3], less: Option<[i64; 3]>) -> DemandSums
    requires surge { unsigned_abs sums.now.surge ≤ 2 ^ 44 }
    requires sway { unsigned_abs sums.now.sway ≤ 2 ^ 44 }
    requires yaw { unsigned_abs sums.now.yaw ≤ 2 ^ 44 }
    requires more { IsDemandWithin more.now }
    requires less { IfSome less IsDemandWithin }
    ensures surge { result.surge ≡ (sums.now.surge +ℤ entry more.now 0) -ℤ part_of less 0 }
    ensures sway { result.sway ≡ (sums.now.sway +ℤ entry more.now 1) -ℤ part_of less 1 }
    ensures yaw { result.yaw ≡ (sums.now.yaw +ℤ entry more.now 2) -ℤ part_of less 2 }
{
    DemandSums {
        surge: moved_on(sums.surge, more, less, 0),
        sway: moved_on(sums.sway, more, less, 1),
        yaw: moved_on(sums.yaw, more, less, 2),
    }
}

/// The sum on an axis with one demand more, and without one that fell out.
fn moved_on(total: i64, more: &[i64; 3], less: Option<[i64; 3]>, axis: usize) -> i64
    requires total { unsigned_abs total ≤ 2 ^ 44 }
    requires more { IsDemandWithin more.now }
    requires less { IfSome less IsDemandWithin }
    requires axis { axis < 3 }
    ensures { result ≡ (total +ℤ entry more.now axis) -ℤ part_of less axis }
{
    shifted(total, on_axis(more, axis), part_of(less, axis))
}

/// What a demand that fell out, if one did, had on an axis.
fn part_of(demand: Option<[i64; 3]>, axis: usize) -> i64
    requires within { IfSome demand IsDemandWithin }
    requires axis { axis < 3 }
    ensures value { result ≡ part_of demand axis }
    ensures bound { unsigned_abs result ≤ 2 ^ 38 }
{
    match demand {
        None => 0,
        Some(demand) => on_axis(&demand, axis),
    }
}

fn shifted(total: i64, more: i64, less: i64) -> i64
    requires total { unsigned_abs total ≤ 2 ^ 44 }
    requires more { unsigned_abs more ≤ 2 ^ 38 }
    requires less { unsigned_abs less ≤ 2 ^ 38 }
    ensures { result ≡ (total +ℤ more) -ℤ less }
{
    total + more - less
}

/// The demands, the oldest first.
pub(crate) fn list(ring: &Demands) -> ArrayVec<[i64; 3], 60>
    requires { length ring.now.items ≤ 60 }
    ensures { result.items ≡ ring.now.items }
{
    let mut list = ArrayVec::new();
    let (first, second) = ring.ring.as_slices();
    // they fit the list
    let _fits = list.try_extend_from_slice(first);
    let _fits = list.try_extend_from_slice(second);
    list
}

/// These demands and no others.
pub(crate) fn fill(ring: &mut Demands, demands: &[[i64; 3]])
    requires few { length demands.now ≤ ring.old.capacity }
    requires within { All IsDemandWithin demands.now }
    ensures { ring.new ≡ buffer demands.now ring.old.capacity }
{
    ring.ring.clear();
    ring.sums = NO_SUMS;
    push_all(&mut ring.ring, &mut ring.sums, demands);
}

/// All these demands come in, one after another, into an empty ring.
fn push_all(ring: &mut HeapCircularBuffer<[i64; 3]>, sums: &mut DemandSums, demands: &[[i64; 3]])
    requires summed { AreSummed ring.old sums.old }
    requires empty { ring.old.items ≡ [] }
    requires few { length demands.now ≤ ring.old.capacity }
    requires within { All IsDemandWithin demands.now }
    ensures items { ring.new ≡ buffer demands.now ring.old.capacity }
    ensures summed { AreSummed ring.new sums.new }
{
    for demand in demands {
        push(ring, sums, *demand);
    }
}

/// The mean of the demands, at least one, on surge, sway and yaw, rounded down.
#[tactic(auto, unfolding(dp_consequence::specs::Demands::mean_demand))]
pub(crate) fn mean(ring: &Demands) -> [i64; 3]
    requires some { 0 < length ring.now.items }
    requires few { length ring.now.items ≤ 60 }
    requires within { All IsDemandWithin ring.now.items }
    ensures { result ≡ mean_demand ring.now.items }
{
    mean_by(&ring.sums, ring.ring.len())
}

/// The mean of so many demands with these sums, rounded down.
fn mean_by(sums: &DemandSums, count: usize) -> [i64; 3]
    requires surge { unsigned_abs sums.now.surge ≤ 2 ^ 44 }
    requires sway { unsigned_abs sums.now.sway ≤ 2 ^ 44 }
    requires yaw { unsigned_abs sums.now.yaw ≤ 2 ^ 44 }
    requires some { 0 < count }
    requires few { count ≤ 60 }
    ensures { result ≡ floor_of sums.now.surge (pos count) ∷ floor_of sums.now.sway (pos count)
        ∷ floor_of sums.now.yaw (pos count) ∷ [] }
{
    [
        mean_of(sums.surge, count),
        mean_of(sums.sway, count),
        mean_of(sums.yaw, count),
    ]
}

/// A total over a number of demands, rounded down.
fn mean_of(total: i64, count: usize) -> i64
    requires total { unsigned_abs total ≤ 2 ^ 44 }
    requires some { 0 < count }
    requires few { count ≤ 60 }
    ensures { result ≡ floor_of total (pos count) }
{
    total.div_euclid(count as i64)
}

fn on_axis(demand: &[i64; 3], axis: usize) -> i64
    requires within { IsDemandWithin demand.now }
    requires axis { axis < 3 }
    ensures value { result ≡ entry demand.now axis }
    ensures bound { unsigned_abs result ≤ 2 ^ 38 }
{
    demand[axis]
}
