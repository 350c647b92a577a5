//! Pages of indexes as an encoding of lists of values.

ghost use Rattle.std.specs.Prelude.{ℕ, ◌+◌, ◌*◌, length};
ghost use Rattle.dictionary.specs.IndexPages.{IsIndexPage};

use crate::reading::decode_indexes;
use crate::writing::encode_indexes;
use bits::{R, ValueCodec};
use std::alloc::Global;

/// Indexes into a dictionary of `size` entries.
#[derive(Debug, Clone, Copy)]
pub struct Indexes {
    pub size: usize,
}

impl ValueCodec for Indexes {
    type Value = u32;

    ghost Shown = { ℕ };

    ghost shown = { λ n. n };

    ghost stands = { λ self n bytes. IsIndexPage self.size bytes n };

    ghost reads_over = { λ _ _ _. ⊥ };

    ghost writes_over = { λ _ _. ⊥ };

    ghost most = { λ _ indexes. 81 + 9 * length indexes };

    fn decode(&self, alloc: Global, bytes: &[u8], n: usize) -> R<(Vec<u32>, usize)> {
        decode_indexes(alloc, self.size, bytes, n)
    }

    fn encode(&self, values: &[u32], out: &mut Vec<u8>) -> R<()> {
        encode_indexes(self.size, values, out)
    }

    fn one_meaning(&self) {}
}
