//! One computer of three, call by call.
ghost use Rattle.std.specs.Prelude.{◌≡◌, ◌≢◌, ◌<◌, ◌≤◌, ◌^◌, ◌==◌, ◌&&◌, ◌∷◌, ◌++◌, ℕ, [], IfOk, drop, length, option_copied, true};
ghost use Rattle.circular_buffer.specs.Buffer.{buffer, keep_last};
ghost use Rattle.dp_plant.specs.{IsFrameInRange, IsVectorWithin};
ghost use Rattle.dp_plant.specs.declared.voting.Mode.TheVariants.{Off};
ghost use Rattle.dp_machine.specs.{IsAcceptedPlant};
ghost use Rattle.dp_machine.specs.declared.state.State.{State};
ghost use Rattle.dp_codec.specs.{IsSoftware, state_read};
ghost use Rattle.dp_exchange.specs.{InControl, after_offer, after_restart, after_run, after_skew, after_stop, after_upgrade, after_wire, first_computer, is_live, mode_of, offer_answer, offered_by, run_answer, skew_answer, text_at, told_state, told_text, wire_answer};

use crate::offers::Offers;
use crate::{Heard, Issue, Offer, Ran};
use arrayvec::ArrayVec;
use circular_buffer::HeapCircularBuffer;
use dp_cert::Accepted;
use dp_codec::laws::{second_is_unknown_to_first, spellings_keep_apart, written_is_read};
use dp_codec::{read_state, write_at, write_state};
use dp_machine::Machine;
use dp_plant::{Frame, Memory, Mode, Place, Plant};
use std::alloc::Global;
use std::marker::Model;
use std::slice;

/// The software that a computer begins with, and the newer one.
const FIRST: u8 = 1;

const NEWER: u8 = 2;

/// A computer; a contract sees it as the record `ComputerState`, with the machine's state only where it is live.
#[derive(Drop)]
pub struct Computer {
    mode: Mode,
    machine: Machine,
    waits: HeapCircularBuffer<Frame>,
    next: u64,
    offers: Offers,
    last: Option<Issue>,
    software: u8,
}

impl Model for Computer {
    ghost use Rattle.dp_exchange.specs.ComputerState.{ComputerState};

    ghost Value = { ComputerState };

    ghost use Rattle.std.specs.Coded.{codes};
    ghost use Rattle.dp_plant.specs.contracts.plant.Plant.{the_row};

    ghost coded = { Prim.hlevel (codes, the_row.coded) };

    ghost use Rattle.dp_exchange.specs.Inside.{computer_state, IsComputer};

    ghost view = { computer_state };

    ghost invariant = { IsComputer };
}

impl Computer {
    /// Live, at the plant's first state, with software 1; it makes room for 16 frames, and no later call takes memory.
    #[tactic(auto, unfolding(crate::specs::ComputerState::first_computer))]
    pub fn new(alloc: Global, plant: &Plant, accepted: &Accepted) -> Result<Computer, Memory>
        requires { IsAcceptedPlant plant.now accepted.now }
        ensures { IfOk result (λ c. c ≡ first_computer plant.now) }
    {
        let machine = Machine::new(alloc, plant, accepted)?;
        let Ok(waits) = HeapCircularBuffer::with_capacity(alloc, 16) else {
            return Err(Memory);
        };
        Ok(Computer {
            mode: Mode::Live,
            machine,
            waits,
            next: 0,
            offers: Offers::new(),
            last: None,
            software: FIRST,
        })
    }

    /// How it takes part.
    pub fn mode(&self) -> Mode
        ensures { result ≡ mode_of self.now.control }
    {
        self.mode
    }

    /// 1 or 2.
    pub fn software(&self) -> u8
        ensures { result ≡ self.now.software }
    {
        self.software
    }

    /// The number of the frame that comes next.
    pub fn next(&self) -> u64
        ensures { result ≡ self.now.next }
    {
        self.next
    }

    /// What it issued last since it started, if it issued anything.
    pub fn last(&self) -> Option<&Issue>
        ensures { option_copied result ≡ self.now.last }
    {
        self.last.as_ref()
    }

    /// Takes in the next frame, to be stepped over later, and forgets all offers.
    #[tactic(auto, unfolding(crate::specs::ComputerState::after_wire, crate::specs::ComputerState::wire_in, crate::specs::ComputerState::wire_answer, crate::specs::ComputerState::wire_answer_in))]
    pub fn hear(&mut self, f: &Frame) -> Heard
        requires next { mode_of self.old.control ≢ Off → f.now.cycle ≡ self.old.next }
        requires within { IsFrameInRange self.old.plant.groups f.now }
        ensures new { self.new ≡ after_wire self.old f.now }
        ensures answer { result ≡ wire_answer self.old }
    {
        self.offers.forget();
        match self.mode {
            Mode::Off => Heard::Deaf,
            Mode::Aligning => {
                enter(&mut self.waits, f);
                self.next += 1;
                Heard::Kept
            }
            Mode::Live => {
                let is_full = self.waits.is_full();
                enter(&mut self.waits, f);
                self.next += 1;
                if is_full {
                    self.mode = Mode::Aligning;
                    self.last = None;
                    Heard::Overrun
                } else {
                    Heard::Kept
                }
            }
        }
    }

    /// Steps over the oldest frame that waits.
    #[tactic(auto, unfolding(crate::specs::ComputerState::after_run, crate::specs::ComputerState::run_in, crate::specs::ComputerState::run_over_oldest, crate::specs::ComputerState::after_step, crate::specs::ComputerState::run_answer, crate::specs::ComputerState::run_answer_in, crate::specs::ComputerState::oldest_answer))]
    pub fn run(&mut self) -> Ran
        ensures new { self.new ≡ after_run self.old }
        ensures answer { result ≡ run_answer self.old }
    {
        match self.mode {
            Mode::Off => Ran::Off,
            Mode::Aligning => Ran::Aligning,
            Mode::Live => match self.waits.front() {
                None => Ran::Idle,
                Some(f) => {
                    let issue = self.machine.step(f);
                    leave(&mut self.waits);
                    self.last = Some(issue.copy());
                    Ran::Issued(issue)
                }
            },
        }
    }

    /// Takes in the next frame, and steps over the oldest one that waits: what [`Computer::hear`] and then [`Computer::run`] do. Where
    /// none waited, the frame is stepped over where it lies.
    pub fn advance(&mut self, f: &Frame)
        requires next { mode_of self.old.control ≢ Off → f.now.cycle ≡ self.old.next }
        requires within { IsFrameInRange self.old.plant.groups f.now }
        ensures { self.new ≡ after_run (after_wire self.old f.now) }
    {
        if self.is_up_to_date() {
            self.step_over(f);
        } else {
            self.hear_and_run(f);
        }
    }

    /// Replaces the content by the spelling of its state, in the version that its software writes, and answers true, where it is live;
    /// else empties it.
    #[tactic(auto, unfolding(crate::specs::ComputerState::told_text, crate::specs::ComputerState::tell_in))]
    pub fn tell(&self, into: &mut ArrayVec<u8, 4096>) -> bool
        ensures text { into.new.items ≡ told_text self.now }
        ensures answer { result ≡ is_live (mode_of self.now.control) }

        // What is told is read by each software that knows the version, and by no other.
        ensures read { (software : ℕ) (s : State) → IsSoftware software
            → self.now.control ≡ InControl s
            → state_read self.now.plant software into.new.items
            ≡ told_state software self.now.software s }
    {
        match self.mode {
            Mode::Live => {
                // laws: what a software writes, another reads or not
                written_is_read(&self.machine);
                second_is_unknown_to_first();
                write_state(&self.machine, self.software, into);
                true
            }
            Mode::Aligning | Mode::Off => {
                into.clear();
                false
            }
        }
    }

    /// Takes a state that another computer offers. Where two offer the same in one cycle, it goes on from it.
    #[tactic(auto, unfolding(crate::specs::ComputerState::after_offer, crate::specs::ComputerState::offer_in, crate::specs::ComputerState::after_state, crate::specs::ComputerState::with_offer, crate::specs::ComputerState::offer_answer, crate::specs::ComputerState::offer_answer_in, crate::specs::ComputerState::state_answer))]
    pub fn offer(&mut self, from: u8, bytes: &[u8]) -> Offer
        requires { from < 3 }
        ensures new { self.new ≡ after_offer self.old from (offered_by self.old bytes.now) }
        ensures answer { result ≡ offer_answer self.old from (offered_by self.old bytes.now) }
    {
        if self.mode != Mode::Aligning {
            return Offer::NotAligning;
        }
        // laws: what is read has one spelling, and equal spellings are of equal states
        written_is_read(&self.machine);
        spellings_keep_apart(&self.machine);
        // the machine's own state is of no use while the computer isn't live
        if let Err(fault) = read_state(bytes, self.software, &mut self.machine) {
            return Offer::BadState { place: fault.place };
        }
        let state_cycle = self.machine.count();
        let oldest = self.next - self.waits.len() as u64;
        if self.next < state_cycle {
            return Offer::TooNew {
                state_cycle,
                next: self.next,
            };
        }
        if state_cycle < oldest {
            return Offer::TooOld {
                state_cycle,
                oldest,
            };
        }
        self.offers.keep(from, &self.machine);
        if !self.offers.is_repeated(from) {
            return Offer::Kept;
        }
        self.waits
            .truncate_front((self.next - state_cycle) as usize);
        self.mode = Mode::Live;
        Offer::Adopted
    }

    /// Takes the vessel to be at rest at a place, and answers true, where it is live.
    #[tactic(auto, unfolding(crate::specs::ComputerState::after_skew, crate::specs::ComputerState::skew_in, crate::specs::ComputerState::skew_answer))]
    pub fn skew(&mut self, at: Place) -> bool
        requires { IsVectorWithin (2 ^ 43) at }
        ensures new { self.new ≡ after_skew self.old at }
        ensures answer { result ≡ skew_answer self.old }
    {
        match self.mode {
            Mode::Live => {
                self.machine.skew(at);
                true
            }
            Mode::Aligning | Mode::Off => false,
        }
    }

    /// Replaces the content by what it would tell if the vessel were at rest at a place, and answers true, where it is live; else empties
    /// it.
    #[tactic(auto, unfolding(crate::specs::ComputerState::text_at, crate::specs::ComputerState::told_text, crate::specs::ComputerState::tell_in, crate::specs::ComputerState::after_skew, crate::specs::ComputerState::skew_in))]
    pub fn spell_at(&self, at: Place, into: &mut ArrayVec<u8, 4096>) -> bool
        ensures text { into.new.items ≡ text_at self.now at }
        ensures answer { result ≡ is_live (mode_of self.now.control) }
    {
        match self.mode {
            Mode::Live => {
                write_at(&self.machine, at, self.software, into);
                true
            }
            Mode::Aligning | Mode::Off => {
                into.clear();
                false
            }
        }
    }

    /// Switches it off, which empties its ring, its offers and its last issue.
    #[tactic(auto, unfolding(crate::specs::ComputerState::after_stop))]
    pub fn stop(&mut self)
        ensures { self.new ≡ after_stop self.old }
    {
        self.mode = Mode::Off;
        self.waits.clear();
        self.offers.forget();
        self.last = None;
    }

    /// Starts it again: it waits to be aligned. The next frame has this number.
    #[tactic(auto, unfolding(crate::specs::ComputerState::after_restart))]
    pub fn restart(&mut self, next: u64)
        requires { next ≤ 2 ^ 20 }
        ensures { self.new ≡ after_restart self.old next }
    {
        self.mode = Mode::Aligning;
        self.waits.clear();
        self.next = next;
        self.offers.forget();
        self.last = None;
    }

    /// Starts it again, with software 2.
    #[tactic(auto, unfolding(crate::specs::ComputerState::after_upgrade))]
    pub fn upgrade(&mut self, next: u64)
        requires { next ≤ 2 ^ 20 }
        ensures { self.new ≡ after_upgrade self.old next }
    {
        self.restart(next);
        self.software = NEWER;
    }

    /// Its machine, which has taken as many steps as the computer ran over frames, and its state where it is live.
    pub fn end(self) -> Machine
        ensures plant { result.plant ≡ self.plant }
        ensures steps { result.steps ≡ self.steps }
        ensures state { (s : State) → self.control ≡ InControl s → result.state ≡ s }
    {
        self.machine
    }

    /// It is live, and no frame waits.
    fn is_up_to_date(&self) -> bool
        ensures { result ≡ (is_live (mode_of self.now.control) && length self.now.waits == 0) }
    {
        self.mode == Mode::Live && self.waits.is_empty()
    }

    /// Steps over the next frame at once.
    fn step_over(&mut self, f: &Frame)
        requires next { mode_of self.old.control ≢ Off → f.now.cycle ≡ self.old.next }
        requires within { IsFrameInRange self.old.plant.groups f.now }
        requires live { is_live (mode_of self.old.control) ≡ true }
        requires none { length self.old.waits ≡ 0 }
        ensures { self.new ≡ after_run (after_wire self.old f.now) }
    {
        self.offers.forget();
        self.next += 1;
        self.last = Some(self.machine.step(f));
    }

    fn hear_and_run(&mut self, f: &Frame)
        requires next { mode_of self.old.control ≢ Off → f.now.cycle ≡ self.old.next }
        requires within { IsFrameInRange self.old.plant.groups f.now }
        ensures { self.new ≡ after_run (after_wire self.old f.now) }
    {
        let _heard = self.hear(f);
        let _ran = self.run();
    }
}

/// A frame comes in; of a full ring the oldest falls out.
fn enter(waits: &mut HeapCircularBuffer<Frame>, f: &Frame)
    ensures { let all = waits.old.items ++ f.now ∷ [] in
        waits.new ≡ buffer (keep_last waits.old.capacity all) waits.old.capacity }
{
    waits.extend_from_slice(slice::from_ref(f));
}

/// The oldest frame falls out.
fn leave(waits: &mut HeapCircularBuffer<Frame>)
    requires { 0 < length waits.old.items }
    ensures { waits.new ≡ buffer (drop 1 waits.old.items) waits.old.capacity }
{
    let count = waits.len();
    waits.truncate_front(count - 1);
}
