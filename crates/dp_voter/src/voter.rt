ghost use Rattle.std.specs.Prelude.{◌≡◌, ◌≢◌, ◌<◌, ◌≤ℤ◌, [], ◌∷◌, Some, IsNone, IsSome, pos};
ghost use Rattle.dp_voter.specs.declared.order.Took.{Took};
ghost use Rattle.dp_voter.specs.{IsDue, IsReasonFor, agreed_of, answer_of, ballot_of, begun, held_forces, new_voter, ordered, voted};

use crate::{Ballot, Took};
use dp_fixed::middle;
use std::marker::Model;

/// How many cycles in a row, without a fresh ballot, the last fresh force is held.
const LONGEST_HOLD: u8 = 5;

/// The voter of one thruster.
#[derive(Debug, Drop)]
pub struct Voter {
    min: i64,
    max: i64,
    cycle: Option<u64>,
    orders: [Option<i64>; 3],
    ballot: Option<Ballot>,
    last_fresh: i64,
    run: u8,
}

impl Model for Voter {
    ghost use Rattle.std.specs.Prelude.{◌≤◌, ◌≤ℤ◌};
    ghost use Rattle.dp_voter.specs.VoterState.{VoterState};
    ghost use Rattle.dp_voter.specs.View.{view_of};

    ghost Value = { VoterState };

    ghost view = { view_of };

    ghost invariant = { λ v. (v.min ≤ℤ v.max) × (v.run ≤ 6) };
}

/// A place of a list of voters that is not used: a voter of a thruster that gives no force.
impl Default for Voter {
    ghost is_default = { λ v. v ≡ new_voter (pos 0) (pos 0) };

    fn default() -> Voter {
        Voter::new(0, 0)
    }
}

impl Voter {
    /// A voter of a thruster with these limits, in newtons, before its first cycle.
    pub fn new(min: i64, max: i64) -> Voter
        requires { min ≤ℤ max }
        ensures { result ≡ new_voter min max }
    {
        Voter {
            min,
            max,
            cycle: None,
            orders: [None; 3],
            ballot: None,
            last_fresh: 0,
            run: 0,
        }
    }

    /// Begins a cycle: all orders are forgotten, and one more cycle in a row has no fresh ballot until its vote gives one.
    pub fn begin(&mut self, cycle: u64)
        ensures { self.new ≡ begun self.old cycle }
    {
        if self.run <= LONGEST_HOLD {
            self.run += 1;
        }
        self.cycle = Some(cycle);
        self.orders = [None; 3];
        self.ballot = None;
    }

    /// An order of a computer, 0 to 2, in newtons, for a cycle. It is taken where it is of this cycle, before the vote, within the limits
    /// and the first of that computer.
    pub fn order(&mut self, from: u8, cycle: u64, force: i64) -> Took
        requires { from < 3 }
        ensures answer { result ≡ answer_of self.old from cycle force }
        ensures reason { IsReasonFor self.old from cycle force result }
        ensures taken { self.new ≡ ordered self.old from force result }
        ensures refused { result ≢ Took.Taken → self.new ≡ self.old }
    {
        let from = from as usize;
        if self.cycle != Some(cycle) || self.ballot.is_some() {
            return Took::Stale {
                cycle: self.cycle.unwrap_or(0),
            };
        }
        if force < self.min {
            return Took::Unfit { limit: self.min };
        }
        if force > self.max {
            return Took::Unfit { limit: self.max };
        }
        if self.orders[from].is_some() {
            return Took::Repeated;
        }
        self.orders[from] = Some(force);
        Took::Taken
    }

    /// The ballot of this cycle, by the orders held at the first vote in it.
    pub fn vote(&mut self) -> Ballot
        ensures ballot { result ≡ ballot_of self.old }
        ensures reason { IsNone self.old.ballot → IsDue self.old result }
        ensures given { self.new.ballot ≡ Some result }
        ensures voted { self.new ≡ voted self.old }
        ensures second { IsSome self.old.ballot → self.new ≡ self.old }
    {
        if let Some(ballot) = self.ballot {
            return ballot;
        }
        let [first, second, third] = self.orders;
        let ballot = match agreed(first, second, third) {
            Some(force) => {
                self.last_fresh = force;
                self.run = 0;
                Ballot::Fresh(force)
            }
            None if self.run <= LONGEST_HOLD => Ballot::Held(self.last_fresh),
            None => Ballot::Zero,
        };
        self.ballot = Some(ballot);
        ballot
    }

    /// The orders taken in this cycle, one place for each computer.
    pub fn held(&self) -> [Option<i64>; 3]
        ensures { result ≡ self.now.orders }
    {
        self.orders
    }
}

fn agreed(first: Option<i64>, second: Option<i64>, third: Option<i64>) -> Option<i64>
    ensures { result ≡ agreed_of (held_forces (first ∷ second ∷ third ∷ [])) }
{
    match (first, second, third) {
        (Some(a), Some(b), Some(c)) => Some(middle(a, b, c)),
        (Some(a), Some(b), None) => equal(a, b),
        (Some(a), None, Some(b)) => equal(a, b),
        (None, Some(a), Some(b)) => equal(a, b),
        _ => None,
    }
}

fn equal(a: i64, b: i64) -> Option<i64>
    ensures { result ≡ agreed_of (a ∷ b ∷ []) }
{
    if a == b { Some(a) } else { None }
}
