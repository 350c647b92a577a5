//! A file in memory that is looked at in parts.

ghost use Rattle.std.specs.Prelude.{Some, take, drop};

use reports::{ByteSource, part_of};
use std::io;

/// A file in memory that is looked at in parts.
#[derive(Drop)]
pub struct MemoryParts {
    bytes: Vec<u8>,
    from: usize,
    count: usize,
}

impl MemoryParts {
    /// A file of these bytes, none of which is looked at yet.
    pub fn new(bytes: Vec<u8>) -> MemoryParts {
        MemoryParts {
            bytes,
            from: 0,
            count: 0,
        }
    }
}

impl ByteSource for MemoryParts {
    type Fault = io::Error;

    ghost known = { λ s. Some s.bytes.items };

    ghost seen = { λ s. take s.count (drop s.from s.bytes.items) };

    fn len(&self) -> usize {
        self.bytes.len()
    }

    fn look(&mut self, from: usize, count: usize) -> Result<(), io::Error> {
        self.from = from;
        self.count = count;
        Ok(())
    }

    fn window(&self) -> &[u8] {
        part_of(self.bytes.as_slice(), self.from, self.count)
    }
}
