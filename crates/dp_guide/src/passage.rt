//! The setpoints of a list of moves, cycle by cycle.
ghost use Rattle.std.specs.Prelude.{◌≡◌, ◌<◌, ◌≤◌, ◌+◌, ◌^◌, drop, length};
ghost use Rattle.dp_plant.specs.{IsSetpointWithin};
ghost use Rattle.dp_guide.specs.Motion.{AreLimits};
ghost use Rattle.dp_guide.specs.Passage.{PassageState, move_taken, passage_begun, passage_next};

use crate::guide::Guide;
use crate::motion::GuideLimits;
use crate::moves::Moves;
use dp_plant::Setpoint;
use std::marker::Model;

/// A guide that follows a list of moves: seen as its motion, the moves that wait, and the number of cycles so far.
#[derive(Drop)]
pub struct Passage {
    guide: Guide,
    moves: Moves,
    /// How many moves were taken.
    taken: usize,
    cycle: u64,
}

impl Model for Passage {
    ghost Value = { PassageState };

    ghost view = { λ p. record { motion = p.guide; waiting = drop p.taken p.moves; cycle = p.cycle } };

    ghost invariant = { λ p. p.taken ≤ length p.moves };
}

impl Passage {
    /// A passage that begins at rest on a setpoint, its place within ±2^43 nm and its heading below a turn.
    pub fn new(limits: &GuideLimits, start: &Setpoint, moves: Moves) -> Passage
        requires limits { AreLimits limits.now }
        requires start { IsSetpointWithin start.now }
        ensures { result ≡ passage_begun limits.now start.now moves }
    {
        Passage {
            guide: Guide::new(limits, start),
            moves,
            taken: 0,
            cycle: 0,
        }
    }

    /// How many cycles there were.
    pub fn cycle(&self) -> u64
        ensures { result ≡ self.now.cycle }
    {
        self.cycle
    }

    /// The setpoint of the next cycle: where the guide rests and a move of this or an earlier cycle waits, the first such move becomes
    /// its target, and then it steps once.
    #[tactic(auto, unfolding(crate::specs::Passage::passage_next))]
    pub fn next(&mut self) -> Setpoint
        requires { self.old.cycle < 2 ^ 63 }
        ensures passage { self.new ≡ passage_next self.old }
        ensures cycle { self.new.cycle ≡ self.old.cycle + 1 }
        ensures setpoint { result ≡ self.new.motion.here }
        ensures within { IsSetpointWithin result }
    {
        self.take_move();
        self.cycle += 1;
        self.guide.step()
    }

    /// The first move that waits becomes the target, where it may.
    fn take_move(&mut self)
        ensures { self.new ≡ move_taken self.old }
    {
        if self.taken == self.moves.len() {
            return;
        }
        let (cycle, to) = self.moves.get(self.taken);
        if cycle > self.cycle {
            return;
        }
        if self.guide.go(&to) {
            self.taken += 1;
        }
    }
}
