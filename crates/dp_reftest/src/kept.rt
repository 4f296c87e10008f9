use arrayvec::ArrayVec;
use dp_plant::Place;

/// The window of one position reference, the oldest sample first, and the frame number of the newest (0 where there is none).
#[derive(Debug, Drop)]
pub struct Kept {
    pub last: u64,
    pub list: ArrayVec<Place, 32>,
}

impl Kept {
    ghost use Rattle.std.specs.Prelude.{◌≡◌};

    /// An equal window; it takes no memory.
    pub fn copy(&self) -> Kept
        ensures { result ≡ self.now }
    {
        let mut list = ArrayVec::new();
        // a list fits its own capacity
        let _fits = list.try_extend_from_slice(self.list.as_slice());
        Kept {
            last: self.last,
            list,
        }
    }
}
