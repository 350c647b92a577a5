//! Which lane of a vector is the first that a test finds.

ghost use Rattle.std.specs.Prelude.{◌≡◌};
ghost use Rattle.rowtext.specs.inner.FirstLane.{first_lane};

/// The index of the lowest bit that is set in the mask of a vector of this many lanes, or how many they are.
#[inline(always)]
pub fn first_set(mask: u64, lanes: usize) -> usize
    ensures { result ≡ first_lane mask lanes }
{
    if mask == 0 {
        lanes
    } else {
        mask.trailing_zeros() as usize
    }
}
