//! Rows of calls on a new voter, each with its answer.
//!
//! A row is `name~MIN,MAX~CALL=ANSWER ..`, with the voter's limits. Calls: `b,CYCLE` begins a cycle, `o,FROM,CYCLE,FORCE` is an order,
//! `v` a vote, `h` asks for the orders held. Answers: of an order `taken`, `repeated`, `stale,CYCLE` or `unfit,LIMIT`; of a vote `F,FORCE`
//! fresh, `H,FORCE` held or `Z` zero; of `h` the three forces, `-` for none.
use crate::words::{are_orders, below, is_ballot, is_took};
use dp_test_rows::{cut, natural, number, parts};
use dp_voter::Voter;
use std::process::Abort;

#[test]
fn gives_the_answers_of_the_rows(rt: HostRuntime) {
    let rows = ROWS;
    for row in rows {
        follow(&rt, row);
    }
}

fn follow(rt: &impl Abort, row: &str) {
    let (name, rest) = cut(row, '~');
    let (limits, steps) = cut(rest, '~');
    let (min, max) = cut(limits, ',');
    let (min, max) = (number(min), number(max));
    assert!(rt; min <= max, "{name}");
    let mut voter = Voter::new(min, max);
    for step in steps.split_whitespace() {
        let (call, wanted) = cut(step, '=');
        assert!(rt; is_answered(rt, &mut voter, call, wanted), "{name}: {step}");
    }
}

/// Whether a call gives the answer that is wanted.
fn is_answered(rt: &impl Abort, voter: &mut Voter, call: &str, wanted: &str) -> bool {
    let [verb, a, b, c, _] = parts(call);
    if verb == "b" {
        voter.begin(natural(a));
        return wanted.is_empty();
    }
    if verb == "v" {
        return is_ballot(voter.vote(), wanted);
    }
    if verb == "h" {
        return are_orders(voter.held(), wanted);
    }
    assert!(rt; verb == "o", "{verb}");
    let took = voter.order(below(rt, 3, a), natural(b), number(c));
    is_took(took, wanted)
}

const ROWS: &[&str] = &[
    "three orders, one of them far off~-250000,250000~b,0 o,0,0,100=taken o,1,0,100=taken o,2,0,-9999=taken v=F,100",
    "the last fresh force is held for five cycles~-250000,250000~b,0 o,0,0,50=taken o,1,0,50=taken v=F,50 b,1 o,0,1,100=taken o,1,1,7=taken v=H,50 b,2 o,0,2,100=taken o,1,2,7=taken v=H,50 b,3 o,0,3,100=taken o,1,3,7=taken v=H,50 b,4 o,0,4,100=taken o,1,4,7=taken v=H,50 b,5 o,0,5,100=taken o,1,5,7=taken v=H,50 b,6 o,0,6,100=taken o,1,6,7=taken v=Z",
    "before the first cycle~-250000,250000~h=-,-,- o,0,0,0=stale,0 v=H,0 v=H,0 h=-,-,-",
    "an order before the first cycle, of another cycle~-250000,250000~o,2,7,5=stale,0 v=H,0 b,7 o,2,7,5=taken h=-,-,5",
    "a vote before the first cycle counts for nothing~-250000,250000~v=H,0 b,0 v=H,0 b,1 v=H,0 b,2 v=H,0 b,3 v=H,0 b,4 v=H,0 b,5 v=Z",
    "three different orders, the first is the middle~-250000,250000~b,0 o,0,0,5=taken o,1,0,-3=taken o,2,0,9=taken v=F,5",
    "three different orders, the second is the middle~-250000,250000~b,0 o,0,0,-3=taken o,1,0,5=taken o,2,0,9=taken v=F,5",
    "three different orders, the third is the middle~-250000,250000~b,0 o,0,0,9=taken o,1,0,-3=taken o,2,0,5=taken v=F,5",
    "three different orders, falling~-250000,250000~b,0 o,0,0,9=taken o,1,0,5=taken o,2,0,-3=taken v=F,5",
    "three equal orders~-250000,250000~b,0 o,0,0,-7=taken o,1,0,-7=taken o,2,0,-7=taken v=F,-7",
    "the outer two of three are equal~-250000,250000~b,0 o,0,0,4=taken o,1,0,250000=taken o,2,0,4=taken v=F,4",
    "two equal orders, of 0 and 1~-250000,250000~b,3 o,0,3,12=taken o,1,3,12=taken v=F,12",
    "two equal orders, of 0 and 2~-250000,250000~b,3 o,0,3,12=taken o,2,3,12=taken v=F,12",
    "two equal orders, of 1 and 2~-250000,250000~b,3 o,1,3,12=taken o,2,3,12=taken v=F,12",
    "two orders that differ by one~-250000,250000~b,3 o,0,3,12=taken o,1,3,13=taken v=H,0",
    "two orders that differ, of 0 and 2~-250000,250000~b,3 o,0,3,12=taken o,2,3,11=taken v=H,0",
    "two orders that differ, of 1 and 2~-250000,250000~b,3 o,1,3,12=taken o,2,3,-12=taken v=H,0",
    "one order~-250000,250000~b,0 o,1,0,55=taken v=H,0",
    "one order after a fresh ballot~-250000,250000~b,0 o,0,0,8=taken o,1,0,8=taken o,2,0,8=taken v=F,8 b,1 o,0,1,9=taken v=H,8",
    "no order~-250000,250000~b,0 v=H,0",
    "an order of an earlier and of a later cycle~-250000,250000~b,5 o,0,4,1=stale,5 o,0,6,1=stale,5 o,0,5,1=taken h=1,-,-",
    "an order after the vote~-250000,250000~b,5 o,0,5,1=taken o,1,5,1=taken v=F,1 o,2,5,1=stale,5 o,2,4,1=stale,5 v=F,1 h=1,1,-",
    "a second vote gives the same ballot~-250000,250000~b,1 o,0,1,6=taken o,1,1,6=taken v=F,6 v=F,6 v=F,6 b,2 v=H,6 v=H,6 b,3 v=H,6",
    "second votes are not counted as cycles~-250000,250000~b,0 o,0,0,3=taken o,1,0,3=taken v=F,3 b,1 v=H,3 v=H,3 v=H,3 b,2 v=H,3 v=H,3 v=H,3 b,3 v=H,3 v=H,3 v=H,3 b,4 v=H,3 v=H,3 v=H,3 b,5 v=H,3 v=H,3 v=H,3 b,6 v=Z v=Z v=Z",
    "the limits themselves are fit~-250000,250000~b,0 o,0,0,-250000=taken o,1,0,250000=taken o,2,0,0=taken v=F,0 h=-250000,250000,0",
    "a force past a limit by one~-250000,250000~b,0 o,0,0,-250001=unfit,-250000 o,0,0,250001=unfit,250000 o,0,0,250000=taken h=250000,-,-",
    "unfit comes before repeated~-250000,250000~b,0 o,1,0,10=taken o,1,0,300000=unfit,250000 o,1,0,-300000=unfit,-250000 o,1,0,10=repeated o,1,0,11=repeated h=-,10,-",
    "stale comes before unfit~-250000,250000~b,1 o,1,0,300000=stale,1 o,1,2,-300000=stale,1 v=H,0 o,1,1,300000=stale,1",
    "an unfit order leaves its sender free~-250000,250000~b,0 o,0,0,250001=unfit,250000 o,0,0,7=taken o,1,0,7=taken v=F,7",
    "a repeated order does not replace the first~-250000,250000~b,0 o,2,0,1=taken o,2,0,2=repeated o,0,0,1=taken v=F,1 h=1,-,1",
    "a cycle without a vote is not fresh~-250000,250000~b,0 o,0,0,50=taken o,1,0,50=taken v=F,50 b,1 b,2 b,3 b,4 b,5 v=H,50 b,6 v=Z",
    "six cycles without a vote~-250000,250000~b,0 o,0,0,50=taken o,1,0,50=taken v=F,50 b,1 b,2 b,3 b,4 b,5 b,6 v=Z",
    "orders are forgotten without a vote~-250000,250000~b,0 o,0,0,2=taken o,1,0,2=taken b,1 h=-,-,- o,0,1,2=taken v=H,0",
    "a fresh ballot begins the count anew~-250000,250000~b,0 o,0,0,1=taken o,1,0,1=taken v=F,1 b,1 v=H,1 b,2 v=H,1 b,3 v=H,1 b,4 o,0,4,2=taken o,1,4,2=taken v=F,2 b,5 v=H,2 b,6 v=H,2 b,7 v=H,2 b,8 v=H,2 b,9 v=H,2 b,10 v=Z",
    "fresh again after zero~-250000,250000~b,0 v=H,0 b,1 v=H,0 b,2 v=H,0 b,3 v=H,0 b,4 v=H,0 b,5 v=Z b,6 o,0,6,-4=taken o,1,6,-4=taken v=F,-4 b,7 v=H,-4",
    "long without a fresh ballot~-250000,250000~b,0 b,1 b,2 b,3 b,4 b,5 b,6 b,7 b,8 b,9 b,10 b,11 b,12 b,13 b,14 b,15 b,16 b,17 b,18 b,19 v=Z",
    "held of 0 where no ballot was fresh yet~-250000,250000~b,0 o,0,0,1=taken o,1,0,2=taken v=H,0 b,1 o,0,1,1=taken o,1,1,2=taken v=H,0 b,2 o,0,2,1=taken o,1,2,2=taken v=H,0 b,3 o,0,3,1=taken o,1,3,2=taken v=H,0 b,4 o,0,4,1=taken o,1,4,2=taken v=H,0 b,5 o,0,5,1=taken o,1,5,2=taken v=Z",
    "a cycle number that comes again~-250000,250000~b,3 o,0,3,1=taken o,1,3,1=taken v=F,1 b,3 o,0,3,2=taken v=H,1 h=2,-,-",
    "a cycle number that falls~-250000,250000~b,9 o,0,9,1=taken b,2 o,0,9,1=stale,2 o,0,2,1=taken h=1,-,-",
    "the greatest cycle number~-250000,250000~b,18446744073709551615 o,0,18446744073709551615,1=taken o,1,0,1=stale,18446744073709551615 o,1,18446744073709551615,1=taken v=F,1",
    "limits of the whole range~-9223372036854775808,9223372036854775807~b,0 o,0,0,-9223372036854775808=taken o,1,0,9223372036854775807=taken o,2,0,-1=taken v=F,-1",
    "two equal orders at an end of the range~-9223372036854775808,9223372036854775807~b,0 o,0,0,-9223372036854775808=taken o,1,0,-9223372036854775808=taken v=F,-9223372036854775808",
    "a thruster without force~0,0~b,0 o,0,0,0=taken o,1,0,1=unfit,0 o,1,0,-1=unfit,0 o,1,0,0=taken v=F,0",
    "limits above zero~10,20~b,0 v=H,0 o,0,0,20=stale,0 b,1 o,0,1,9=unfit,10 o,1,1,10=taken o,2,1,10=taken v=F,10 b,2 v=H,10",
];
