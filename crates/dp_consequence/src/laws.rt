//! What holds of the analysis for every plant.
ghost use Rattle.dp_consequence.specs.{BitsAreTheGroups, BoxTestIsExact};

/// Bit g of [`check_bits`](crate::check_bits) is set exactly where [`check`](crate::check) lists group g.
pub fn bits_are_the_groups()
    ensures { BitsAreTheGroups }
{}

/// A demand passes the test of a box exactly where each axis is from the box's lower end to its upper one.
pub fn box_test_is_exact()
    ensures { BoxTestIsExact }
{}
