//! What follows from the rules of orders and ballots: each function's contract is the law.
ghost use Rattle.dp_voter.specs.{AnswerHasReason, FreshIsBetween, FreshIsRight, FreshIsWithin, OrdersStayWithin, SecondVoteIsFirst, TwoEqualDecide, TwoRightAreFresh};

/// What a voter answers to an order has its reason, and no other answer has one.
pub fn answer_has_reason()
    ensures { AnswerHasReason }
{}

/// A second vote gives the same ballot, and changes nothing.
pub fn second_vote_is_first()
    ensures { SecondVoteIsFirst }
{}

/// Where two of three orders are the same force, it is their middle, whatever the third is.
pub fn two_equal_decide()
    ensures { TwoEqualDecide }
{}

/// The force that three orders agree on lies between any two of them.
pub fn fresh_is_between()
    ensures { FreshIsBetween }
{}

/// Where at most one computer is wrong, a fresh force is what a computer that is right ordered.
pub fn fresh_is_right()
    ensures { FreshIsRight }
{}

/// Where two computers that are right were heard, the ballot is fresh, whatever the third orders.
pub fn two_right_are_fresh()
    ensures { TwoRightAreFresh }
{}

/// The force that orders agree on lies within the limits, where they do.
pub fn fresh_is_within()
    ensures { FreshIsWithin }
{}

/// A new voter's orders lie within its limits, and each call keeps them there.
pub fn orders_stay_within()
    ensures { OrdersStayWithin }
{}
