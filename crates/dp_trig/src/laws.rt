//! What holds of the defined sine pairs, for proofs that speak of a heading's pair and call nothing.

ghost use Rattle.dp_trig.specs.{AQuarterMoreTurns, EveryPairHasPartsWithin, EveryPairIsShort, NorthIsTheScale, TheOtherHalfExchanges};

/// The pair of every heading is at most 1 long, and each of its parts lies from -1 to 1, in units of 2^-30.
pub fn every_pair_is_short()
    ensures short { EveryPairIsShort }
    ensures parts { EveryPairHasPartsWithin }
{}

/// How the pairs of headings are related: 0 has the whole scale as its cosine; 90 degrees more turn a pair by a right
/// angle; a heading below 45 degrees and the one that it adds up with to 90 degrees have exchanged parts.
pub fn pairs_are_symmetric()
    ensures north { NorthIsTheScale }
    ensures quarter { AQuarterMoreTurns }
    ensures mirror { TheOtherHalfExchanges }
{}
