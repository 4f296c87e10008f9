ghost use Rattle.std.specs.Prelude.{◌≡◌};

use arrayvec::ArrayVec;

/// A list with the same items; it takes no memory.
pub(crate) fn copied<T: Copy + Default + Drop, const N: usize>(
    list: &ArrayVec<T, N>,
) -> ArrayVec<T, N>
    ensures { result.items ≡ list.now.items }
{
    let mut copy = ArrayVec::new();
    // a list fits its own capacity
    let _fits = copy.try_extend_from_slice(list.as_slice());
    copy
}
