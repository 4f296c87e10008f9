//! What holds of floors, ceilings, clamps, middles and wraps, for all whole numbers: each function's contract is the law.
ghost use Rattle.dp_fixed.specs.Laws.{
  CeilIsLeastAbove,
  ClampIsMonotone,
  ClampIsWithin,
  ClampKeepsInside,
  ClampMovesNoFarther,
  FloorIsExact,
  FloorIsMonotone,
  FloorIsOnly,
  FloorOfShifted,
  MiddleIsBetween,
  WrapIsNearest,
};

/// The floor of a fraction is the whole number with `q * d <= n < (q + 1) * d`.
pub fn floor_is_exact()
    ensures { FloorIsExact }
{}

/// It is the only such whole number.
pub fn floor_is_only()
    ensures { FloorIsOnly }
{}

/// The floor does not fall where the numerator grows.
pub fn floor_is_monotone()
    ensures { FloorIsMonotone }
{}

/// Whole numbers may be taken out of a floor.
pub fn floor_of_shifted()
    ensures { FloorOfShifted }
{}

/// The ceiling of a fraction is the whole number with `(q - 1) * d < n <= q * d`.
pub fn ceil_is_least_above()
    ensures { CeilIsLeastAbove }
{}

/// A clamp lies within its range.
pub fn clamp_is_within()
    ensures { ClampIsWithin }
{}

/// A clamp leaves what lies within its range.
pub fn clamp_keeps_inside()
    ensures { ClampKeepsInside }
{}

/// A clamp keeps the order of numbers.
pub fn clamp_is_monotone()
    ensures { ClampIsMonotone }
{}

/// Two clamps into one range are no farther apart than their numbers.
pub fn clamp_moves_no_farther()
    ensures { ClampMovesNoFarther }
{}

/// The middle of three lies between any two of them, whatever the third is.
pub fn middle_is_between()
    ensures { MiddleIsBetween }
{}

/// A wrap differs by whole turns, and lies within half a turn of zero.
pub fn wrap_is_nearest()
    ensures { WrapIsNearest }
{}
