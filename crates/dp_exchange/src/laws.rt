//! Laws, each the contract of a function that does nothing.
ghost use Rattle.dp_exchange.specs.SameState.{SameStatesAreEqual};

/// States that are the same part by part are equal, and no others are.
pub fn same_states_are_equal()
    ensures { SameStatesAreEqual }
{}
