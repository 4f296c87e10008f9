//! The ballots of a replay, counted.
ghost use Rattle.std.specs.Prelude.{◌≡◌, ◌+◌, ◌++◌, ◌≤◌, ◌^◌, ◌∷◌, [], List, ℕ, length};
ghost use Rattle.dp_plant.specs.declared.voting.Ballot.{Ballot as BallotValue};
ghost use Rattle.dp_app.specs.Tally.{IsTallyWithin, tally_of};

use dp_plant::Ballot;

/// How many ballots were fresh, how many were held, how many were zero, and the sum of all voted forces, in newtons.
#[derive(Clone, Copy, Debug, PartialEq, Eq)]
pub struct Tally {
    pub fresh: u64,
    pub held: u64,
    pub zero: u64,
    pub sum: i128,
}

impl Tally {
    /// Nothing was counted yet.
    pub fn empty() -> Tally
        ensures value { result ≡ tally_of [] }
        ensures within { IsTallyWithin 0 result }
    {
        Tally {
            fresh: 0,
            held: 0,
            zero: 0,
            sum: 0,
        }
    }

    /// The ballots of one more cycle are counted too. So far at most 2^40 were.
    pub fn with(self, ballots: &[Ballot]) -> Tally
        requires few { length ballots.now ≤ 12 }
        requires within { (n : ℕ) × (n ≤ 2 ^ 40) × IsTallyWithin n self }
        ensures value { (bs : List BallotValue) → self ≡ tally_of bs
            → result ≡ tally_of (bs ++ ballots.now) }
        ensures within { (n : ℕ) → IsTallyWithin n self
            → IsTallyWithin (n + length ballots.now) result }
    {
        let mut tally = self;
        for ballot in ballots {
            tally = tally.with_one(*ballot);
        }
        tally
    }

    /// One more ballot is counted. So far at most 2^41 were.
    fn with_one(self, ballot: Ballot) -> Tally
        requires within { (n : ℕ) × (n ≤ 2 ^ 41) × IsTallyWithin n self }
        ensures value { (bs : List BallotValue) → self ≡ tally_of bs
            → result ≡ tally_of (bs ++ ballot ∷ []) }
        ensures within { (n : ℕ) → IsTallyWithin n self → IsTallyWithin (n + 1) result }
    {
        match ballot {
            Ballot::Fresh(force) => Tally {
                fresh: self.fresh + 1,
                sum: self.sum + i128::from(force),
                ..self
            },
            Ballot::Held(force) => Tally {
                held: self.held + 1,
                sum: self.sum + i128::from(force),
                ..self
            },
            Ballot::Zero => Tally {
                zero: self.zero + 1,
                ..self
            },
        }
    }
}
