//! The guide of a setpoint.
ghost use Rattle.std.specs.Prelude.{◌≡◌};
ghost use Rattle.dp_plant.specs.{IsSetpointWithin};
ghost use Rattle.dp_guide.specs.declared.motion.Motion.{Motion};
ghost use Rattle.dp_guide.specs.Motion.{AreLimits, IsMotion, IsStep, begun, gone, is_resting, stepped};

use crate::ahead::{is_resting, stepped};
use crate::motion::{GuideLimits, Motion, Velocity};
use dp_plant::Setpoint;
use std::marker::Model;

/// A setpoint that moves to its target with limited rates and accelerations.
#[derive(Drop)]
pub struct Guide {
    motion: Motion,
}

impl Model for Guide {
    ghost Value = { Motion };

    ghost view = { λ g. g.motion };

    ghost invariant = { λ g. IsMotion g.motion };
}

impl Guide {
    /// A guide at rest on a setpoint, its place within ±2^43 nm and its heading below a turn.
    pub fn new(limits: &GuideLimits, at: &Setpoint) -> Guide
        requires limits { AreLimits limits.now }
        requires at { IsSetpointWithin at.now }
        ensures { result ≡ begun limits.now at.now }
    {
        Guide {
            motion: Motion {
                limits: *limits,
                here: *at,
                target: *at,
                velocity: Velocity {
                    north: 0,
                    east: 0,
                    heading: 0,
                },
            },
        }
    }

    /// All three coordinates are on their targets, and stand.
    pub fn resting(&self) -> bool
        ensures { result ≡ is_resting self.now }
    {
        is_resting(&self.motion)
    }

    /// Takes a target, and answers that it did; where the guide isn't resting, the answer is false and nothing is changed.
    pub fn go(&mut self, to: &Setpoint) -> bool
        requires { IsSetpointWithin to.now }
        ensures taken { result ≡ is_resting self.old }
        ensures gone { self.new ≡ gone self.old to.now }
    {
        let rests = self.resting();
        if rests {
            self.motion.target = *to;
        }
        rests
    }

    /// One cycle: the setpoint at its end, within the ranges of the two between which it moves.
    pub fn step(&mut self) -> Setpoint
        ensures next { self.new ≡ stepped self.old }
        ensures here { result ≡ self.new.here }
        ensures within { IsSetpointWithin result }
        ensures guided { IsStep self.old self.new }
    {
        self.motion = stepped(&self.motion);
        self.motion.here
    }
}
