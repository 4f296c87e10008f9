//! The laws on quadratic forms, each the contract of a function that does nothing. They hold of vectors of any length.

ghost use Rattle.dp_form.specs.{AxesSplit, ClampShares, DominantIsNonNegative, FactorsCancel, FactorsKeepOrder, MixBelow, PlaneTriangle, ProductsAssociate, ProductsDistribute, ShortPairBound, ShownIsNonNegative, SquaresAreNonNegative};
ghost use Rattle.dp_form.specs.Scaling.{Scaling};
ghost use Rattle.dp_form.specs.Triangle.{Triangle};
ghost use Rattle.dp_form.specs.Mix.{Mix};

/// The laws of `*` and `+`: products associate and distribute over sums.
pub fn laws_of_products()
    ensures associate { ProductsAssociate }
    ensures distribute { ProductsDistribute }
{}

/// The order of products: squares are at least 0, a factor from 0 up keeps an order, and one above 0 may be dropped.
pub fn order_of_products()
    ensures squares { SquaresAreNonNegative }
    ensures factors_keep { FactorsKeepOrder }
    ensures factors_cancel { FactorsCancel }
{}

/// A symmetric matrix that squares show has a form of at least 0 for every vector.
pub fn shown()
    ensures { ShownIsNonNegative }
{}

/// So has a symmetric matrix where each diagonal entry is at least the sum of the absolute values of its row's others.
pub fn diagonal_dominance()
    ensures { DominantIsNonNegative }
{}

/// k times a vector has k² times its form.
pub fn scaling()
    ensures { Scaling }
{}

/// Where two vectors' forms are at most m² and n², their sum's is at most (m + n)².
pub fn triangle()
    ensures of_vectors { Triangle }
    ensures in_the_plane { PlaneTriangle }
{}

/// The form of a sum of weighted vectors is at most the weights' sum times the weighted sum of the forms.
pub fn mix()
    ensures of_forms { Mix }
    ensures below_a_bound { MixBelow }
{}

/// A vector of places, split along the two axes of a pair (c, s).
pub fn axes()
    ensures split { AxesSplit }
    ensures short_pair { ShortPairBound }
{}

/// A clamp passes on a share, from 0 to 1, of how far its argument moves.
pub fn clamp_share()
    ensures { ClampShares }
{}
