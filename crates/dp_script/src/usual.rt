ghost use Rattle.std.specs.Prelude.{◌≡◌, ◌<◌, Some, slice_get};
ghost use Rattle.dp_script.specs.{IsWithin, usual_acts};

use crate::act::Act;

/// How many usual acts a cycle has.
pub const USUAL: usize = 6;

/// A usual act: computers 0, 1 and 2 run, then the orders of 0, 1 and 2 go to all voters.
pub fn usual(i: usize) -> Act
    requires { i < 6 }
    ensures value { slice_get usual_acts i ≡ Some result }
    ensures within { IsWithin result }
{
    match i {
        0 => Act::Run { c: 0 },
        1 => Act::Run { c: 1 },
        2 => Act::Run { c: 2 },
        3 => Act::Orders { c: 0 },
        4 => Act::Orders { c: 1 },
        _ => Act::Orders { c: 2 },
    }
}
