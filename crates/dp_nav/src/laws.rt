//! What holds of the fields of a sentence: the function's contract is the law.
ghost use Rattle.dp_nav.specs.{FixIsNamed};

/// The fix that is read of a GGA sentence's fields is the place that they name, by degrees, minutes and letters, in 10^-7 minute rounded
/// down; and each place within ±90 and ±180 degrees that fields name, with a quality of 1 to 5, is read.
pub fn fix_is_named()
    ensures { FixIsNamed }
{}
