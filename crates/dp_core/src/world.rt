//! Three computers and a voter for each thruster: what each event does to them.
ghost use Rattle.std.specs.Prelude.{◌≡◌, ◌≢◌, ◌<◌, ◌≤ℤ◌, ◌^◌, ◌==◌, ℕ, suc, List, [], ◌∷◌, IfOk, map, length, Some, slice_get, option_copied};
ghost use Rattle.dp_core.specs.{ComputerState, Event, InControl, IsAcceptedPlant, IsFrameInRange, IsSoftware, IsVectorWithin, MachineValue, State, Thruster, VoterState};
ghost use Rattle.dp_core.specs.{IsAllowed, IsInStep, IsLeftOf, IsMachineOf, after, after_order, after_run, after_wire, alarms_in, answer, answer_if, answer_in, answer_of};
ghost use Rattle.dp_core.specs.{answer_to_offer, answer_to_run, answers_to_wire, ballot, begun, change_at, cycle_alarms, history, is_live, last_issue, last_of, message_by};
ghost use Rattle.dp_core.specs.{message_of, mode, offered, option_map, order_events, seen_of, sent, sent_by, software, spelling_at, state_read, taken_forces};
ghost use Rattle.dp_core.specs.{text_answer, told_state, told_text, voter_of, wire_answer, with_text};
ghost use Rattle.dp_core.specs.Represents.{Represents};
ghost use Rattle.dp_core.specs.declared.event.Event.TheVariants.{Wire, Run, Order, Tell, Vote, Skew, Say, Lie, Stop, Restart, Upgrade};

use crate::{Alarms, Ballot, Event, Heard, Issue, Machine, Mode, Offer, Place, Ran, Seen, Took};
use arrayvec::ArrayVec;
use dp_cert::Accepted;
use dp_exchange::Computer;
use dp_plant::{Frame, Memory, Plant};
use dp_voter::Voter;
use std::alloc::Global;
use std::marker::Model;

/// Three computers, a voter for each thruster, and how many cycles have begun; a contract sees it as the record `WorldState`.
#[derive(Drop)]
pub struct World {
    plant: Plant,
    computers: [Computer; 3],
    voters: ArrayVec<Voter, 12>,
    cycles_begun: u64,
    /// What one computer tells another, while it does.
    text: ArrayVec<u8, 4096>,
}

impl Model for World {
    ghost use Rattle.dp_core.specs.WorldState.{WorldState};

    ghost Value = { WorldState };

    ghost use Rattle.std.specs.Coded.{codes};
    ghost use Rattle.dp_plant.specs.contracts.plant.Plant.{the_row};

    ghost coded = { Prim.hlevel (codes, the_row.coded) };

    ghost use Rattle.dp_core.specs.WorldView.{world_of, IsWorld};

    ghost view = { world_of };

    ghost invariant = { IsWorld };
}

impl World {
    /// Three computers that are live at the plant's first state, and a voter for each thruster, before the first cycle. No later call
    /// takes memory.
    pub fn new(alloc: Global, plant: &Plant, accepted: &Accepted) -> Result<World, Memory>
        requires { IsAcceptedPlant plant.now accepted.now }
        ensures plant { IfOk result (λ w. w.plant ≡ plant.now) }
        ensures represents { IfOk result (λ w. Represents [] w) }
    {
        let first = Computer::new(alloc, plant, accepted)?;
        let second = Computer::new(alloc, plant, accepted)?;
        let third = Computer::new(alloc, plant, accepted)?;
        Ok(World {
            plant: plant.copy(),
            computers: [first, second, third],
            voters: voters_of(plant),
            cycles_begun: 0,
            text: ArrayVec::new(),
        })
    }

    /// One event happens; it is answered.
    pub fn apply(&mut self, e: &Event) -> Seen
        requires { IsAllowed self.old e.now }
        ensures represents { (es : List Event) → Represents es self.old
            → Represents (e.now ∷ es) self.new }
        ensures seen { (es : List Event) → Represents es self.old
            → result ≡ seen_of self.old.plant (history self.old.plant es) e.now }
        ensures plant { self.new.plant ≡ self.old.plant }
    {
        match e {
            Event::Wire(f) => Seen::Heard(self.wire(f)),
            Event::Run { c } => Seen::Ran(self.run(*c)),
            Event::Order { from, voter } => Seen::Sent(self.order(*from, *voter)),
            Event::Tell { from, to } => Seen::Offered(self.tell(*from, *to)),
            Event::Vote { voter } => Seen::Voted(self.vote(*voter)),
            Event::Skew { c, at } => Seen::Skewed(self.skew(*c, *at)),
            Event::Say {
                from,
                voter,
                cycle,
                force,
            } => Seen::Sent(Some(self.say(*from, *voter, *cycle, *force))),
            Event::Lie { from, to, bytes } => {
                Seen::Offered(Some(self.lie(*from, *to, bytes.as_slice())))
            }
            Event::Stop { c } => {
                self.stop(*c);
                Seen::Done
            }
            Event::Restart { c } => {
                self.restart(*c);
                Seen::Done
            }
            Event::Upgrade { c } => {
                self.upgrade(*c);
                Seen::Done
            }
        }
    }

    /// The frame of the next cycle comes to all computers, and the voters' next cycle begins; what each computer did with it.
    pub fn wire(&mut self, f: &Frame) -> [Heard; 3]
        requires next { f.now.cycle ≡ self.old.cycles_begun }
        requires within { IsFrameInRange self.old.plant.groups f.now }
        ensures represents { (es : List Event) → Represents es self.old
            → Represents (Wire f.now ∷ es) self.new }
        ensures answers { (es : List Event) → Represents es self.old
            → result ≡ answers_to_wire self.old.plant (history self.old.plant es) }
        ensures plant { self.new.plant ≡ self.old.plant }
    {
        let answers = wire_all(&mut self.computers, f);
        begin_all(&mut self.voters, f.cycle);
        self.cycles_begun += 1;
        answers
    }

    /// The frame of the next cycle comes to all computers, the voters' next cycle begins, and each computer, in rising order, processes
    /// the frame that waits longest: what [`World::wire`] and then three times [`World::run`] do.
    pub fn advance(&mut self, f: &Frame)
        requires next { f.now.cycle ≡ self.old.cycles_begun }
        requires within { IsFrameInRange self.old.plant.groups f.now }
        ensures represents { (es : List Event) → Represents es self.old
            → Represents (Run 2 ∷ Run 1 ∷ Run 0 ∷ Wire f.now ∷ es) self.new }
        ensures plant { self.new.plant ≡ self.old.plant }
    {
        advance_all(&mut self.computers, f);
        begin_all(&mut self.voters, f.cycle);
        self.cycles_begun += 1;
    }

    /// A computer, 0 to 2, processes the frame that waits longest.
    pub fn run(&mut self, c: u8) -> Ran
        requires { c < 3 }
        ensures represents { (es : List Event) → Represents es self.old
            → Represents (Run c ∷ es) self.new }
        ensures answer { (es : List Event) → Represents es self.old
            → result ≡ answer_to_run self.old.plant c (history self.old.plant es)
            (mode c (history self.old.plant es)) }
        ensures plant { self.new.plant ≡ self.old.plant }
    {
        self.computers[c as usize].run()
    }

    /// The last issue of a computer is delivered to a voter; none where the computer has none.
    pub fn order(&mut self, from: u8, voter: u8) -> Option<Took>
        requires computer { from < 3 }
        requires voter { voter < length self.old.plant.thrusters.items }
        ensures represents { (es : List Event) → Represents es self.old
            → Represents (Order from voter ∷ es) self.new }
        ensures answer { (es : List Event) → Represents es self.old
            → result ≡ answer_if self.old.plant voter from (history self.old.plant es)
            (message_of voter (last_issue from (history self.old.plant es))) }
        ensures plant { self.new.plant ≡ self.old.plant }
    {
        let (cycle, force) = self.message(from, voter)?;
        Some(self.deliver(from, voter, cycle, force))
    }

    /// The last issue of a computer is delivered to all voters, in rising order: what [`World::order`] does to each.
    pub fn order_all(&mut self, from: u8)
        requires { from < 3 }
        ensures represents { (es : List Event) → Represents es self.old
            → Represents (order_events from (length self.old.plant.thrusters.items) es) self.new }
        ensures plant { self.new.plant ≡ self.old.plant }
    {
        order_between(&self.computers, from, &mut self.voters);
    }

    /// A computer offers its state to another one, in the spelling of its own software; none where it isn't live.
    pub fn tell(&mut self, from: u8, to: u8) -> Option<Offer>
        requires from { from < 3 }
        requires to { to < 3 }
        requires two { from ≢ to }
        ensures represents { (es : List Event) → Represents es self.old
            → Represents (Tell from to ∷ es) self.new }
        ensures answer { (es : List Event) → Represents es self.old
            → result ≡ answer_to_offer self.old.plant to from (history self.old.plant es)
            (offered self.old.plant (history self.old.plant es) (Tell from to)) }
        ensures plant { self.new.plant ≡ self.old.plant }
    {
        tell_between(&mut self.computers, from, to, &mut self.text)
    }

    /// A fault: a computer, whatever its mode, offers any bytes as its state to another one.
    pub fn lie(&mut self, from: u8, to: u8, bytes: &[u8]) -> Offer
        requires from { from < 3 }
        requires to { to < 3 }
        requires two { from ≢ to }
        ensures represents { (es : List Event) → Represents es self.old
            → Represents (Lie from to (record { items = bytes.now }) ∷ es) self.new }
        ensures answer { (es : List Event) → Represents es self.old
            → result ≡ answer_in self.old.plant to from (history self.old.plant es)
            (state_read self.old.plant (software to (history self.old.plant es)) bytes.now)
            (mode to (history self.old.plant es)) }
        ensures plant { self.new.plant ≡ self.old.plant }
    {
        self.computers[to as usize].offer(from, bytes)
    }

    /// A fault: a computer, whatever its mode, orders any force, in newtons, of any cycle.
    pub fn say(&mut self, from: u8, voter: u8, cycle: u64, force: i64) -> Took
        requires computer { from < 3 }
        requires voter { voter < length self.old.plant.thrusters.items }
        ensures represents { (es : List Event) → Represents es self.old
            → Represents (Say from voter cycle force ∷ es) self.new }
        ensures answer { (es : List Event) → Represents es self.old
            → result ≡ answer self.old.plant voter from (history self.old.plant es)
            (record { cycle = cycle; force = force }) }
        ensures plant { self.new.plant ≡ self.old.plant }
    {
        self.deliver(from, voter, cycle, force)
    }

    /// A voter gives the ballot of this cycle.
    pub fn vote(&mut self, voter: u8) -> Ballot
        requires { voter < length self.old.plant.thrusters.items }
        ensures represents { (es : List Event) → Represents es self.old
            → Represents (Vote voter ∷ es) self.new }
        ensures ballot { (es : List Event) → Represents es self.old
            → result ≡ ballot voter (history self.old.plant es) }
        ensures plant { self.new.plant ≡ self.old.plant }
    {
        self.voters[voter as usize].vote()
    }

    /// A fault: a live computer's estimate of the plane is put at rest at a place; whether it is live.
    pub fn skew(&mut self, c: u8, at: Place) -> bool
        requires computer { c < 3 }
        requires place { IsVectorWithin (2 ^ 43) at }
        ensures represents { (es : List Event) → Represents es self.old
            → Represents (Skew c at ∷ es) self.new }
        ensures answer { (es : List Event) → Represents es self.old
            → result ≡ is_live (mode c (history self.old.plant es)) }
        ensures plant { self.new.plant ≡ self.old.plant }
    {
        self.computers[c as usize].skew(at)
    }

    /// A computer is switched off.
    pub fn stop(&mut self, c: u8)
        requires { c < 3 }
        ensures represents { (es : List Event) → Represents es self.old
            → Represents (Stop c ∷ es) self.new }
        ensures plant { self.new.plant ≡ self.old.plant }
    {
        self.computers[c as usize].stop();
    }

    /// A computer is started again: it waits for two others to offer the same state.
    pub fn restart(&mut self, c: u8)
        requires { c < 3 }
        ensures represents { (es : List Event) → Represents es self.old
            → Represents (Restart c ∷ es) self.new }
        ensures plant { self.new.plant ≡ self.old.plant }
    {
        let next = self.cycles_begun;
        self.computers[c as usize].restart(next);
    }

    /// A computer is started again with the newer software.
    pub fn upgrade(&mut self, c: u8)
        requires { c < 3 }
        ensures represents { (es : List Event) → Represents es self.old
            → Represents (Upgrade c ∷ es) self.new }
        ensures plant { self.new.plant ≡ self.old.plant }
    {
        let next = self.cycles_begun;
        self.computers[c as usize].upgrade(next);
    }

    /// The plant that all of it is about.
    pub fn plant(&self) -> &Plant
        ensures { result.now ≡ self.now.plant }
    {
        &self.plant
    }

    /// How many cycles have begun, and so the cycle of the next frame.
    pub fn cycles_begun(&self) -> u64
        ensures { result ≡ self.now.cycles_begun }
    {
        self.cycles_begun
    }

    /// How each computer takes part.
    pub fn modes(&self) -> [Mode; 3]
        ensures { (es : List Event) → Represents es self.now
            → result ≡ mode 0 (history self.now.plant es) ∷ mode 1 (history self.now.plant es)
            ∷ mode 2 (history self.now.plant es) ∷ [] }
    {
        [
            self.computers[0].mode(),
            self.computers[1].mode(),
            self.computers[2].mode(),
        ]
    }

    /// The orders that a voter took in this cycle, one place for each computer.
    pub fn held(&self, voter: u8) -> [Option<i64>; 3]
        requires { voter < length self.now.plant.thrusters.items }
        ensures { (es : List Event) → Represents es self.now
            → result ≡ taken_forces voter (history self.now.plant es) }
    {
        self.voters[voter as usize].held()
    }

    /// The last issue of a computer, 0 to 2, if it issued anything since it was last broken.
    pub fn issue(&self, c: u8) -> Option<&Issue>
        requires { c < 3 }
        ensures { (es : List Event) → Represents es self.now
            → option_copied result ≡ last_issue c (history self.now.plant es) }
    {
        self.computers[c as usize].last()
    }

    /// What the last issue of each computer warns of, where it is of this cycle.
    pub fn alarms(&self) -> [Option<Alarms>; 3]
        ensures { (es : List Event) → Represents es self.now
            → result ≡ cycle_alarms 0 (history self.now.plant es)
            ∷ cycle_alarms 1 (history self.now.plant es)
            ∷ cycle_alarms 2 (history self.now.plant es) ∷ [] }
    {
        [self.alarms_of(0), self.alarms_of(1), self.alarms_of(2)]
    }

    /// Replaces the content by the spelling, in the version of its software, of a computer's state with the vessel at rest at a place,
    /// and answers true, where the computer is live; else empties it.
    pub fn spell_at(&self, c: u8, at: Place, into: &mut ArrayVec<u8, 4096>) -> bool
        requires { c < 3 }
        ensures answer { (es : List Event) → Represents es self.now
            → result ≡ is_live (mode c (history self.now.plant es)) }
        ensures text { (es : List Event) → Represents es self.now
            → into.new.items ≡ spelling_at self.now.plant c (history self.now.plant es) at }
    {
        self.computers[c as usize].spell_at(at, into)
    }

    /// Its three machines: each has taken as many steps as its computer ran over frames, and has its state where it is live.
    pub fn end(self) -> [Machine; 3]
        ensures { (es : List Event) → Represents es self
            → (c : ℕ) (m : MachineValue) → slice_get result c ≡ Some m
            → IsMachineOf self.plant c (history self.plant es) m }
    {
        ends(self.computers)
    }

    #[tactic(auto, unfolding(crate::specs::CycleAlarms::alarms_in))]
    fn alarms_of(&self, c: u8) -> Option<Alarms>
        requires { c < 3 }
        ensures { result
            ≡ alarms_in self.now.cycles_begun (last_of (slice_get self.now.computers c)) }
    {
        match self.last(c) {
            None => None,
            Some(issue) if is_last(issue.cycle, self.cycles_begun) => Some(issue.alarms),
            Some(_) => None,
        }
    }

    fn last(&self, c: u8) -> Option<&Issue>
        requires { c < 3 }
        ensures { option_copied result ≡ last_of (slice_get self.now.computers c) }
    {
        self.computers[c as usize].last()
    }

    /// What a computer's last issue says to a voter.
    #[tactic(auto, unfolding(crate::specs::Voting::message_of))]
    fn message(&self, from: u8, voter: u8) -> Option<(u64, i64)>
        requires { from < 3 }
        ensures { option_map message_by result
            ≡ message_of voter (last_of (slice_get self.now.computers from)) }
    {
        match self.last(from) {
            None => None,
            Some(issue) => message_to(issue, voter),
        }
    }

    /// A voter answers to an order of this force for this cycle.
    #[tactic(auto, unfolding(crate::specs::WorldState::after))]
    fn deliver(&mut self, from: u8, voter: u8, cycle: u64, force: i64) -> Took
        requires computer { from < 3 }
        requires voter { voter < length self.old.plant.thrusters.items }
        ensures new { self.new ≡ after self.old (Say from voter cycle force) }
        ensures answer { (v : VoterState) → slice_get self.old.voters voter ≡ Some v
            → result ≡ answer_of v from cycle force }
    {
        self.voters[voter as usize].order(from, cycle, force)
    }
}

/// The cycle is the last of so many.
fn is_last(cycle: u64, cycles: u64) -> bool
    ensures { result ≡ (cycles == suc cycle) }
{
    cycle < cycles && cycles - cycle == 1
}

fn wire_all(computers: &mut [Computer; 3], f: &Frame) -> [Heard; 3]
    requires in_step { (c : ℕ) (x : ComputerState) → slice_get computers.old c ≡ Some x
        → IsInStep f.now.cycle x }
    requires within { (c : ℕ) (x : ComputerState) → slice_get computers.old c ≡ Some x
        → IsFrameInRange x.plant.groups f.now }
    ensures new { computers.new ≡ map (λ x. after_wire x f.now) computers.old }
    ensures answers { result ≡ map wire_answer computers.old }
{
    [
        computers[0].hear(f),
        computers[1].hear(f),
        computers[2].hear(f),
    ]
}

fn advance_all(computers: &mut [Computer; 3], f: &Frame)
    requires in_step { (c : ℕ) (x : ComputerState) → slice_get computers.old c ≡ Some x
        → IsInStep f.now.cycle x }
    requires within { (c : ℕ) (x : ComputerState) → slice_get computers.old c ≡ Some x
        → IsFrameInRange x.plant.groups f.now }
    ensures { computers.new ≡ map (λ x. after_run (after_wire x f.now)) computers.old }
{
    computers[0].advance(f);
    computers[1].advance(f);
    computers[2].advance(f);
}

/// The last issue of a computer is delivered to all voters; nothing is where it has none.
fn order_between(computers: &[Computer; 3], from: u8, voters: &mut ArrayVec<Voter, 12>)
    requires { from < 3 }
    ensures { voters.new.items
        ≡ sent_by from (last_of (slice_get computers.now from)) voters.old.items }
{
    if let Some(issue) = computers[from as usize].last() {
        deliver_all(voters.as_mut_slice(), from, issue);
    }
}

/// The forces of an issue are ordered, each of its voter.
fn deliver_all(voters: &mut [Voter], from: u8, issue: &Issue)
    requires { from < 3 }
    ensures { voters.new ≡ sent from issue.now (length voters.old) voters.old }
{
    for k in 0..voters.len() {
        deliver_at(voters, from, issue, k);
    }
}

/// The force of one thruster is ordered of its voter, where the issue has one.
fn deliver_at(voters: &mut [Voter], from: u8, issue: &Issue, k: usize)
    requires computer { from < 3 }
    requires voter { k < length voters.old }
    ensures { voters.new
        ≡ change_at voters.old k (after_order from (message_of k (Some issue.now))) }
{
    if let Some(force) = issue.forces.as_slice().get(k) {
        let _took = voters[k].order(from, issue.cycle, *force);
    }
}

/// One computer offers its state to another, by a text; none where it isn't live.
fn tell_between(
    computers: &mut [Computer; 3],
    from: u8,
    to: u8,
    text: &mut ArrayVec<u8, 4096>,
) -> Option<Offer>
    requires from { from < 3 }
    requires to { to < 3 }
    ensures new { computers.new
        ≡ change_at computers.old to (with_text from (slice_get computers.old from)) }
    ensures answer { result
        ≡ text_answer from (slice_get computers.old from) (slice_get computers.old to) }

    // What is told is read by each software that knows the version, and by no other.
    ensures read { (y : ComputerState) → slice_get computers.old from ≡ Some y
        → (software : ℕ) (s : State) → IsSoftware software → y.control ≡ InControl s
        → state_read y.plant software (told_text y) ≡ told_state software y.software s }
{
    if !computers[from as usize].tell(text) {
        return None;
    }
    Some(computers[to as usize].offer(from, text.as_slice()))
}

fn ends(computers: [Computer; 3]) -> [Machine; 3]
    ensures { (c : ℕ) (x : ComputerState) (m : MachineValue) → slice_get computers c ≡ Some x
        → slice_get result c ≡ Some m → IsLeftOf x m }
{
    let [first, second, third] = computers;
    [first.end(), second.end(), third.end()]
}

fn begin_all(voters: &mut ArrayVec<Voter, 12>, cycle: u64)
    ensures { voters.new.items ≡ map (λ v. begun v cycle) voters.old.items }
{
    for voter in voters.as_mut_slice().iter_mut() {
        voter.begin(cycle);
    }
}

/// The cycle and the force of a thruster that an issue says.
#[tactic(auto, unfolding(crate::specs::Voting::message_of))]
fn message_to(issue: &Issue, voter: u8) -> Option<(u64, i64)>
    ensures { option_map message_by result ≡ message_of voter (Some issue.now) }
{
    match issue.forces.as_slice().get(voter as usize) {
        None => None,
        Some(force) => Some((issue.cycle, *force)),
    }
}

fn voters_of(plant: &Plant) -> ArrayVec<Voter, 12>
    requires { (k : ℕ) (t : Thruster) → slice_get plant.now.thrusters.items k ≡ Some t
        → t.min ≤ℤ t.max }
    ensures { result.items ≡ map voter_of plant.now.thrusters.items }
{
    let mut voters = ArrayVec::new();
    for thruster in plant.thrusters.as_slice() {
        voters.push(Voter::new(thruster.min, thruster.max));
    }
    voters
}
