//! What the words of a row say: numbers below a bound, ballots, orders and a voter's answers.
ghost use Rattle.std.specs.Prelude.{◌<◌};

use dp_exchange::Offer;
use dp_plant::Ballot;
use dp_test_rows::{natural, number, parts};
use dp_voter::Took;
use std::process::Abort;

/// A whole number from 0 and below a bound.
pub fn below(rt: &impl Abort, bound: u8, word: &str) -> u8
    ensures { result < bound }
{
    let number = word.parse::<u8>().unwrap_or(u8::MAX);
    assert!(rt; number < bound, "{word}");
    number
}

/// A ballot is the one that is wanted: `F,FORCE` fresh, `H,FORCE` held, `Z` zero.
pub fn is_ballot(ballot: Ballot, wanted: &str) -> bool {
    let [letter, force, _, _, _] = parts(wanted);
    match ballot {
        Ballot::Fresh(given) => letter == "F" && given == number(force),
        Ballot::Held(given) => letter == "H" && given == number(force),
        Ballot::Zero => wanted == "Z",
    }
}

/// A voter's answer to an order is the one that is wanted: `taken`, `repeated`, `stale,CYCLE` or `unfit,LIMIT`.
pub fn is_took(took: Took, wanted: &str) -> bool {
    let [word, said, _, _, _] = parts(wanted);
    match took {
        Took::Taken => wanted == "taken",
        Took::Repeated => wanted == "repeated",
        Took::Stale { cycle } => word == "stale" && cycle == natural(said),
        Took::Unfit { limit } => word == "unfit" && limit == number(said),
    }
}

/// The orders of three computers are those that are wanted: forces parted by commas, `-` for none.
pub fn are_orders(orders: [Option<i64>; 3], wanted: &str) -> bool {
    let [first, second, third] = orders;
    let [a, b, c, _, _] = parts(wanted);
    is_order(first, a) && is_order(second, b) && is_order(third, c)
}

fn is_order(order: Option<i64>, wanted: &str) -> bool {
    match order {
        None => wanted == "-",
        Some(force) => wanted != "-" && force == number(wanted),
    }
}

/// A computer's answer to an offer is the one that is wanted: `kept`, `adopted`, `unasked`, `bad,PLACE`, `new,COUNT,NEXT` or
/// `old,COUNT,OLDEST`.
pub fn is_offer(offer: Offer, wanted: &str) -> bool {
    let [word, said, other, _, _] = parts(wanted);
    match offer {
        Offer::Kept => word == "kept",
        Offer::Adopted => word == "adopted",
        Offer::NotAligning => word == "unasked",
        Offer::BadState { place } => word == "bad" && place as u64 == natural(said),
        Offer::TooNew { state_cycle, next } => {
            word == "new" && state_cycle == natural(said) && next == natural(other)
        }
        Offer::TooOld {
            state_cycle,
            oldest,
        } => word == "old" && state_cycle == natural(said) && oldest == natural(other),
    }
}
