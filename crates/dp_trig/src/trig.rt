ghost use Rattle.std.specs.Prelude.{◌≡◌, ◌<◌, ◌≤◌};
ghost use Rattle.dp_trig.specs.{IsShort, PartsWithin, octant_pair, pair_of, quadrant_pair};

use crate::rotation::{table, turn};
use std::marker::Model;

/// The cosine and the sine of one degree, in 2^-30 and cut to whole numbers.
const DEGREE: (i64, i64) = (1073578287, 18739378);

/// The same of a hundredth of a degree.
const HUNDREDTH: (i64, i64) = (1073741807, 187403);

/// Answers the sine pair of every heading.
///
/// It holds the rotations by 0 to 45 degrees and by 0 to 99 hundredths of a degree. Callers see nothing of them.
#[derive(Drop)]
pub struct Trig {
    degrees: [(i64, i64); 46],
    hundredths: [(i64, i64); 100],
}

impl Model for Trig {
    ghost use Rattle.dp_trig.specs.{AreRotations};

    ghost Value = { Unit {0} };

    ghost view = { λ _. tt };

    ghost invariant = { λ t. AreRotations t.degrees t.hundredths };
}

impl Trig {
    /// Computes the tables, the same in every `Trig`. Nothing is allocated.
    pub fn new() -> Trig {
        Trig {
            degrees: table(DEGREE),
            hundredths: table(HUNDREDTH),
        }
    }

    /// The cosine and the sine of a heading in hundredths of a degree, below 36000, each in units of 2^-30.
    ///
    /// `pair(0)` is `(1073741824, 0)` and `pair(9000)` is `(0, 1073741824)`. The pair is exactly the one that
    /// `specs/SinePair.antt` defines. That its parts are close to the true cosine and sine is not promised: measured,
    /// none is further off than 2.0e-7.
    pub fn pair(&self, hundredths: u32) -> (i64, i64)
        requires in_range { hundredths < 36000 }
        ensures value { result ≡ pair_of hundredths }

        // cosine² + sine² ≤ 2^60
        ensures short { IsShort result }
        ensures parts { PartsWithin result }
    {
        let (cosine, sine) = self.quadrant(hundredths % 9000);
        match hundredths / 9000 {
            0 => (cosine, sine),
            1 => (-sine, cosine),
            2 => (-cosine, -sine),
            _ => (sine, -cosine),
        }
    }

    /// From 0 up to, but not including, 90 degrees.
    fn quadrant(&self, hundredths: u32) -> (i64, i64)
        requires { hundredths < 9000 }
        ensures value { result ≡ quadrant_pair hundredths }
        ensures short { IsShort result }
    {
        if hundredths <= 4500 {
            self.octant(hundredths)
        } else {
            let (cosine, sine) = self.octant(9000 - hundredths);
            (sine, cosine)
        }
    }

    /// From 0 to 45 degrees.
    fn octant(&self, hundredths: u32) -> (i64, i64)
        requires { hundredths ≤ 4500 }
        ensures value { result ≡ octant_pair hundredths }
        ensures short { IsShort result }
    {
        turn(
            self.degrees[(hundredths / 100) as usize],
            self.hundredths[(hundredths % 100) as usize],
        )
    }
}
