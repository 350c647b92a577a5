//! The hybrid as an encoding of lists of values.

ghost use Rattle.std.specs.Prelude.{◌≡◌, ℕ, ◌+◌, ◌*◌, ◌≤◌, length};
ghost use Rattle.hybrid_rle.specs.Hybrid.{IsHybrid};

use crate::number::Number;
use crate::reading::decode;
use crate::writing::encode;
use bits::{R, ValueCodec};
use std::alloc::Global;
use std::marker::PhantomData;

/// Numbers of some bits each, no more than a `T` holds: `u64` or `u32`.
#[derive(Debug, Drop)]
pub struct Hybrid<T: Number> {
    pub width: u32,
    pub of: PhantomData<T>,
    pub ghost held: { width ≤ T.widest },
}

impl<T: Number> Hybrid<T> {
    /// Numbers of `width` bits each.
    pub fn new(width: u32) -> Self
        requires { width ≤ T.widest }
        ensures { result.width ≡ width }
    {
        Hybrid {
            width,
            of: PhantomData,
        }
    }
}

impl<T: Number> ValueCodec for Hybrid<T> {
    type Value = T;

    ghost Shown = { ℕ };

    ghost shown = { T.seen };

    ghost stands = { λ self n bytes. IsHybrid self.width bytes n };

    ghost reads_over = { λ _ _ _. ⊥ };

    ghost writes_over = { λ _ _. ⊥ };

    ghost most = { λ _ numbers. 80 + 9 * length numbers };

    fn decode(&self, alloc: Global, bytes: &[u8], n: usize) -> R<(Vec<T>, usize)> {
        decode(alloc, self.width, bytes, n)
    }

    fn encode(&self, values: &[T], out: &mut Vec<u8>) -> R<()> {
        encode(self.width, values, out)
    }

    fn one_meaning(&self) {}
}
