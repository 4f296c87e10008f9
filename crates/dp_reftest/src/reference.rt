//! The tests of one reference: its window in a ring, with its sums beside it.
ghost use Rattle.std.specs.Prelude.{◌≡◌, ◌<◌, ◌≤◌, ◌+◌, ◌-◌, ◌^◌, [], ◌∷◌, ◌++◌, length, IfOk, IfSome, Some};
ghost use Rattle.circular_buffer.specs.Buffer.{buffer, keep_last};
ghost use Rattle.dp_plant.specs.{AreRefLimits, IsVectorWithin};
ghost use Rattle.dp_reftest.specs.{AreNear, EndsIn, IsKept, IsRunning, IsVerdictWithin, is_jump, is_same, pair, sums_of, tested_by, untested, verdict_of, window_next};
ghost use Rattle.dp_reftest.specs.Running.{first_of};

use crate::{Kept, Sums};
use arrayvec::ArrayVec;
use circular_buffer::HeapCircularBuffer;
use dp_plant::{Memory, Place, RefLimits, Verdict};
use std::alloc::Global;
use std::marker::Model;

/// The tests of one position reference; a contract sees it as the record `Tested`: its limits, the next cycle and the window.
#[derive(Drop)]
pub struct RefTest {
    limits: RefLimits,
    next: u64,
    last: u64,
    ring: HeapCircularBuffer<Place>,
    sums: Sums,
    newest: Place,
}

impl Model for RefTest {
    ghost use Rattle.dp_reftest.specs.Tested.{Tested};

    ghost Value = { Tested };

    ghost use Rattle.dp_reftest.specs.Inside.{tested, IsTest};

    ghost view = { tested };

    ghost invariant = { IsTest };
}

impl RefTest {
    /// A test that has taken no cycle; it makes room for the window, and no later call takes memory.
    pub fn new(alloc: Global, limits: &RefLimits) -> Result<RefTest, Memory>
        requires { AreRefLimits limits.now }
        ensures { IfOk result (λ t. t ≡ untested limits.now) }
    {
        let Ok(ring) = HeapCircularBuffer::with_capacity(alloc, limits.window as usize) else {
            return Err(Memory);
        };
        Ok(RefTest {
            limits: *limits,
            next: 0,
            last: 0,
            ring,
            sums: NO_SUMS,
            newest: ORIGIN,
        })
    }

    /// Takes what a cycle brought: a reading within ±2^43 nm in north and east, or none. Cycles are taken one after another, from 0 or
    /// from the number that [`RefTest::set`] was given, and are below 2^20.
    pub fn take(&mut self, cycle: u64, reading: Option<Place>)
        requires next { cycle ≡ self.old.next }
        requires within { cycle < 2 ^ 20 }
        requires near { IfSome reading (IsVectorWithin (2 ^ 43)) }
        ensures { self.new
            ≡ tested_by self.old.limits (cycle + 1)
            (window_next self.old.limits.window self.old.kept cycle reading) }
    {
        self.next = cycle + 1;
        let Some(at) = reading else {
            return;
        };
        push(
            &mut self.ring,
            &mut self.sums,
            self.newest,
            at,
            self.limits.jump,
        );
        self.newest = at;
        self.last = cycle;
    }

    /// The verdict as of the last cycle taken; Silent before the first.
    pub fn usable(&self) -> Verdict
        ensures value { result ≡ verdict_of self.now.limits self.now.kept (self.now.next - 1) }
        ensures within { IsVerdictWithin result }
    {
        let now = self.next.saturating_sub(1);
        self.sums
            .judged(&self.limits, &self.newest, now - self.last)
    }

    /// The window.
    pub fn kept(&self) -> Kept
        ensures value { result ≡ self.now.kept }
        ensures within { IsKept self.now.limits.window self.now.next result }
    {
        Kept {
            last: self.last,
            list: places_of(&self.ring),
        }
    }

    /// Makes it a test that has taken all cycles below `next` and has this window. The window is no longer than the limits', its places are
    /// within ±2^43 nm; its `last` is 0 where it is empty, else below `next` and at least its length less 1.
    pub fn set(&mut self, next: u64, kept: &Kept)
        requires { IsKept self.old.limits.window next kept.now }
        ensures { self.new ≡ tested_by self.old.limits next kept.now }
    {
        self.ring.clear();
        self.sums = NO_SUMS;
        fill(
            &mut self.ring,
            &mut self.sums,
            kept.list.as_slice(),
            self.limits.jump,
        );
        self.newest = newest_in(&self.ring);
        self.last = kept.last;
        self.next = next;
    }

    /// The sums of the window.
    pub fn sums(&self) -> &Sums
        ensures { result.now ≡ sums_of self.now.limits.jump self.now.kept.list.items }
    {
        &self.sums
    }
}

/// What stands for the newest place where there is none.
const ORIGIN: Place = Place { north: 0, east: 0 };

/// The sums of no places.
const NO_SUMS: Sums = Sums {
    n: 0,
    x: 0,
    y: 0,
    square: 0,
    jumps: 0,
    same: 0,
};

/// The places in the ring, the oldest first.
fn places_of(ring: &HeapCircularBuffer<Place>) -> ArrayVec<Place, 32>
    requires { length ring.now.items ≤ 32 }
    ensures { result.items ≡ ring.now.items }
{
    let mut list = ArrayVec::new();
    let (first, second) = ring.as_slices();
    // a window fits the list
    let _fits = list.try_extend_from_slice(first);
    let _fits = list.try_extend_from_slice(second);
    list
}

/// The newest place in the ring, or the origin where there is none.
fn newest_in(ring: &HeapCircularBuffer<Place>) -> Place
    requires near { AreNear ring.now.items }
    ensures newest { EndsIn result ring.now.items }
    ensures near { IsVectorWithin (2 ^ 43) result }
{
    ring.back().copied().unwrap_or(ORIGIN)
}

/// A sample comes in after the newest, and the oldest falls out where the ring is full.
fn push(ring: &mut HeapCircularBuffer<Place>, sums: &mut Sums, newest: Place, at: Place, limit: i64)
    requires running { IsRunning limit ring.old sums.old }
    requires newest { EndsIn newest ring.old.items }
    requires newest_near { IsVectorWithin (2 ^ 43) newest }
    requires some { 0 < ring.old.capacity }
    requires near { IsVectorWithin (2 ^ 43) at }
    ensures items { ring.new
        ≡ buffer (keep_last ring.old.capacity (ring.old.items ++ at ∷ [])) ring.old.capacity }
    ensures running { IsRunning limit ring.new sums.new }
{
    if ring.is_full() {
        replace(ring, sums, newest, at, limit);
    } else {
        enter(ring, sums, at, limit);
    }
}

/// A sample comes into a full ring, and the oldest falls out.
fn replace(
    ring: &mut HeapCircularBuffer<Place>,
    sums: &mut Sums,
    newest: Place,
    at: Place,
    limit: i64,
)
    requires running { IsRunning limit ring.old sums.old }
    requires newest { EndsIn newest ring.old.items }
    requires newest_near { IsVectorWithin (2 ^ 43) newest }
    requires some { 0 < ring.old.capacity }
    requires full { length ring.old.items ≡ ring.old.capacity }
    requires near { IsVectorWithin (2 ^ 43) at }
    ensures items { ring.new
        ≡ buffer (keep_last ring.old.capacity (ring.old.items ++ at ∷ [])) ring.old.capacity }
    ensures running { IsRunning limit ring.new sums.new }
{
    if let Some(oldest) = ring.push_back(at) {
        sums.exchange(&at, &oldest);
        sums.join(newest, at, limit);
        part(ring, sums, oldest, limit);
    }
}

/// The oldest place and the one after it, which is now the first in the ring, are neighbours no more.
fn part(ring: &HeapCircularBuffer<Place>, sums: &mut Sums, oldest: Place, limit: i64)
    requires jumps { pair (is_jump limit) (Some oldest) (first_of ring.now.items) ≤ sums.old.jumps }
    requires same { pair is_same (Some oldest) (first_of ring.now.items) ≤ sums.old.same }
    requires near { AreNear ring.now.items }
    requires oldest { IsVectorWithin (2 ^ 43) oldest }
    ensures n { sums.new.n ≡ sums.old.n }
    ensures x { sums.new.x ≡ sums.old.x }
    ensures y { sums.new.y ≡ sums.old.y }
    ensures square { sums.new.square ≡ sums.old.square }
    ensures jumps { sums.new.jumps
        ≡ sums.old.jumps - pair (is_jump limit) (Some oldest) (first_of ring.now.items) }
    ensures same { sums.new.same
        ≡ sums.old.same - pair is_same (Some oldest) (first_of ring.now.items) }
{
    if sums.jumps == 0 && sums.same == 0 {
        return;
    }
    part_neighbours(ring, sums, oldest, limit);
}

/// The same, where some neighbours in the window jump or are equal.
#[cold]
#[inline(never)]
fn part_neighbours(ring: &HeapCircularBuffer<Place>, sums: &mut Sums, oldest: Place, limit: i64)
    requires jumps { pair (is_jump limit) (Some oldest) (first_of ring.now.items) ≤ sums.old.jumps }
    requires same { pair is_same (Some oldest) (first_of ring.now.items) ≤ sums.old.same }
    requires near { AreNear ring.now.items }
    requires oldest { IsVectorWithin (2 ^ 43) oldest }
    ensures n { sums.new.n ≡ sums.old.n }
    ensures x { sums.new.x ≡ sums.old.x }
    ensures y { sums.new.y ≡ sums.old.y }
    ensures square { sums.new.square ≡ sums.old.square }
    ensures jumps { sums.new.jumps
        ≡ sums.old.jumps - pair (is_jump limit) (Some oldest) (first_of ring.now.items) }
    ensures same { sums.new.same
        ≡ sums.old.same - pair is_same (Some oldest) (first_of ring.now.items) }
{
    let second = ring.front().copied();
    sums.part(oldest, second, limit);
}

/// A sample comes in.
#[inline(never)]
fn enter(ring: &mut HeapCircularBuffer<Place>, sums: &mut Sums, at: Place, limit: i64)
    requires running { IsRunning limit ring.old sums.old }
    requires room { length ring.old.items < ring.old.capacity }
    requires near { IsVectorWithin (2 ^ 43) at }
    ensures items { ring.new ≡ buffer (ring.old.items ++ at ∷ []) ring.old.capacity }
    ensures running { IsRunning limit ring.new sums.new }
{
    let before = ring.back().copied();
    sums.add(before, at, limit);
    let _oldest = ring.push_back(at);
}

/// All these places come in, one after another, into an empty ring.
fn fill(ring: &mut HeapCircularBuffer<Place>, sums: &mut Sums, places: &[Place], limit: i64)
    requires running { IsRunning limit ring.old sums.old }
    requires empty { ring.old.items ≡ [] }
    requires few { length places.now ≤ ring.old.capacity }
    requires near { AreNear places.now }
    ensures items { ring.new ≡ buffer places.now ring.old.capacity }
    ensures running { IsRunning limit ring.new sums.new }
{
    for at in places {
        enter(ring, sums, *at, limit);
    }
}
