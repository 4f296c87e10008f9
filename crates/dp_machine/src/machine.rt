//! One computer's machine: its plant and its state.
ghost use Rattle.std.specs.Prelude.{◌≡◌, ◌↔◌, ◌∷◌, [], ◌^◌, IfOk, IsTrue};
ghost use Rattle.dp_plant.specs.{IsFrameInRange, IsSetpointWithin, IsVectorWithin};
ghost use Rattle.dp_cert.specs.{InsideIsWithin, IsInside};
ghost use Rattle.dp_machine.specs.Accepted.{IsAcceptedPlant};
ghost use Rattle.dp_machine.specs.Machine.{first_machine, one_more, with_rest, with_state};
ghost use Rattle.dp_machine.specs.Ranges.{IsStateWithin};
ghost use Rattle.dp_machine.specs.Step.{limits_at, step_at, step_of};

use crate::alarms::alarms_of;
use crate::cycle::Cycle;
use crate::demands::Demands;
use crate::estimates::Estimates;
use crate::references::{References, measured_by};
use crate::sensed::Sensed;
use crate::{Issue, State, demands};
use arrayvec::ArrayVec;
use dp_alloc::Cases;
use dp_cert::Accepted;
use dp_cert::laws::{inside_is_narrow, rest_is_inside};
use dp_plant::{Frame, Memory, Place, PlaneState, Plant, Setpoint};
use dp_trig::Trig;
use std::alloc::Global;
use std::marker::Model;

/// One computer's plant and state, seen as the record `MachineValue`: the plant, the state, and how often it was stepped.
#[derive(Drop)]
pub struct Machine {
    plant: Plant,
    accepted: Accepted,
    cases: Cases,
    trig: Trig,
    estimates: Estimates,
    references: References,
    demands: Demands,
    steps: u64,
}

impl Model for Machine {
    ghost use Rattle.dp_machine.specs.Machine.{MachineValue};

    ghost Value = { MachineValue };

    ghost use Rattle.std.specs.Coded.{codes};
    ghost use Rattle.dp_plant.specs.contracts.plant.Plant.{the_row};

    ghost coded = { Prim.hlevel (codes, the_row.coded) };

    ghost use Rattle.dp_machine.specs.Inside.{IsMachine, value_of};

    ghost view = { value_of };

    ghost invariant = { IsMachine };
}

impl Machine {
    /// A machine with the plant's first state: at rest at its start, no samples, no demands, no group lost. None of the plant's cases is
    /// refused ([`dp_alloc::first_refused`]), and its own gains were accepted. No later call takes memory.
    pub fn new(alloc: Global, plant: &Plant, accepted: &Accepted) -> Result<Machine, Memory>
        requires { IsAcceptedPlant plant.now accepted.now }
        ensures { IfOk result (λ m. m ≡ first_machine plant.now) }
    {
        let trig = Trig::new();
        Ok(Machine {
            plant: plant.copy(),
            accepted: accepted.copy(),
            cases: Cases::of(alloc, plant, &trig)?,
            trig,
            estimates: Estimates::first(plant, accepted),
            references: References::new(alloc, &plant.refs)?,
            demands: demands::ring(alloc)?,
            steps: 0,
        })
    }

    /// The number of frames processed.
    pub fn count(&self) -> u64
        ensures { result ≡ self.now.state.count }
    {
        self.estimates.count
    }

    /// Takes one cycle at the plant's own setpoint: the frame of the next cycle. What is issued rests on the estimates before it, and on
    /// this frame's heading, wind, places and groups.
    pub fn step(&mut self, f: &Frame) -> Issue
        requires within { IsFrameInRange self.old.plant.groups f.now }
        requires next { f.now.cycle ≡ self.old.state.count }
        ensures issued { step_of self.old.plant self.old.state f.now
            ≡ record { issue = result; next = self.new.state } }
        ensures plant { self.new.plant ≡ self.old.plant }
        ensures steps { self.new.steps ≡ one_more self.old.steps }
    {
        let at = self.plant.setpoint;
        self.step_to(f, &at)
    }

    /// Takes one cycle at a setpoint.
    pub fn step_to(&mut self, f: &Frame, at: &Setpoint) -> Issue
        requires within { IsFrameInRange self.old.plant.groups f.now }
        requires next { f.now.cycle ≡ self.old.state.count }
        requires setpoint { IsSetpointWithin at.now }
        ensures issued { step_at self.old.plant at.now self.old.state f.now
            ≡ record { issue = result; next = self.new.state } }
        ensures plant { self.new.plant ≡ self.old.plant }
        ensures steps { self.new.steps ≡ one_more self.old.steps }
    {
        let sensed = Sensed::of(f, &self.estimates);
        let pair = self
            .trig
            .pair(sensed.heading.unwrap_or(self.estimates.heading));
        self.references.take(self.estimates.count, &f.pos);
        let verdicts = self.references.verdicts();
        let place = measured_by(&self.plant, pair, &verdicts);
        let count = self.estimates.count;
        let cycle = Cycle::of(
            &self.plant,
            &self.accepted,
            &self.cases,
            at,
            &mut self.estimates,
            sensed,
            pair,
            place,
        );
        let demand = cycle.demand;
        demands::add(&mut self.demands, demand);
        let mean = demands::mean(&self.demands);
        let mut issue = Issue {
            cycle: count,
            forces: ArrayVec::new(),
            demand,
            alarms: alarms_of(
                &self.plant,
                &verdicts,
                f,
                place,
                sensed,
                cycle.limited,
                mean,
            ),
        };
        self.cases.share_out(sensed.lost, demand, &mut issue.forces);
        self.steps = self.steps.saturating_add(1);
        issue
    }

    /// Takes the vessel to be at rest at a place within ±2^43 nm, with no bias and no motion by waves. All else stays.
    pub fn skew(&mut self, at: Place)
        requires { IsVectorWithin (2 ^ 43) at }
        ensures { self.new ≡ with_rest self.old at }
    {
        // a law: at rest there the plane is in the certified set
        rest_is_inside(&self.accepted);
        self.estimates.plane = PlaneState::rest(at);
    }

    /// The machine's state; it lies within the ranges of this plant's states.
    pub fn state(&self) -> State
        ensures value { result ≡ self.now.state }
        ensures within { IsStateWithin self.now.plant result }
    {
        State {
            count: self.estimates.count,
            plane: self.estimates.plane,
            yaw: self.estimates.yaw,
            heading: self.estimates.heading,
            wind: self.estimates.wind,
            lost: self.estimates.lost,
            samples: self.references.kept(),
            demands: demands::list(&self.demands),
        }
    }

    /// Gives the machine a state that lies within the ranges of this plant's states.
    pub fn set(&mut self, s: &State)
        requires { IsStateWithin self.old.plant s.now }
        ensures { self.new ≡ with_state self.old s.now }
    {
        self.estimates = Estimates::of(s);
        self.references.set(s.count, &s.samples);
        demands::fill(&mut self.demands, s.demands.as_slice());
    }

    /// Whether a plane state is in the certified set of the accepted gains, which no cycle leaves ([`Accepted::inside`]). It may be asked of
    /// any state; without a wave filter the wave states aren't looked at.
    pub fn inside(&self, x: &PlaneState) -> bool
        ensures { IsTrue result ↔ IsInside self.now.plant.cert x.now }
    {
        self.accepted.inside(x)
    }

    /// In the certified set each coordinate is within ±2^56: a law, and the call does nothing.
    pub fn inside_is_within(&self)
        ensures { InsideIsWithin self.now.plant.cert }
    {
        inside_is_narrow(&self.accepted);
    }

    /// The lengths of the references' windows.
    pub fn windows(&self) -> [u8; 3]
        ensures { let p = self.now.plant in result
            ≡ (limits_at p 0).window ∷ (limits_at p 1).window ∷ (limits_at p 2).window ∷ [] }
    {
        let [first, second, third] = self.plant.refs;
        [first.window, second.window, third.window]
    }

    /// The version of the plant: 1 without a wave filter, 2 with one.
    pub fn version(&self) -> u8
        ensures { result ≡ self.now.plant.version }
    {
        self.plant.version
    }

    /// The number of the plant's groups of thrusters.
    pub fn groups(&self) -> u8
        ensures { result ≡ self.now.plant.groups }
    {
        self.plant.groups
    }

    /// The number of frames that this machine was stepped over since it was made, up to 2^64 - 1.
    pub fn steps(&self) -> u64
        ensures { result ≡ self.now.steps }
    {
        self.steps
    }
}
