//! A file in memory that is read in blocks.

ghost use Rattle.std.specs.Prelude.{◌≡◌, ◌≤◌, Some, drop, length};

use bits::R;
use places::{BlockReader, Notes};

/// How many bytes are read at a time: so few that most lines do not end where a block does.
const BLOCK_BYTES: usize = 50;

/// A file in memory that is read in blocks. It has a copy of the bytes, since the borrow checker does not cover calls that pass a
/// reader at a lifetime.
#[derive(Drop)]
pub struct MemoryReader {
    bytes: Vec<u8>,
    /// How many bytes were read.
    read: usize,
    ghost within: { read ≤ length bytes.items },
}

impl MemoryReader {
    /// A file of these bytes, of which none is read yet.
    pub fn new(bytes: Vec<u8>) -> MemoryReader
        ensures bytes { result.bytes.items ≡ bytes.items }
        ensures first { result.read ≡ 0 }
    {
        MemoryReader { bytes, read: 0 }
    }
}

impl BlockReader for MemoryReader {
    ghost left = { λ reader. Some (drop reader.read reader.bytes.items) };

    ghost is_shut = { λ reader. ⊥ };

    fn read_block(&mut self, buffer: &mut Vec<u8>, _notes: &Notes) -> R<bool> {
        let rest = self.bytes.as_slice().split_at(self.read).1;
        let block = rest.split_at(rest.len().min(BLOCK_BYTES)).0;
        let count = block.len();
        buffer.extend_from_slice(block)?;
        self.read += count;
        Ok(count > 0)
    }
}
