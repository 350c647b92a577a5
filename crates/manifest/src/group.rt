//! Groups as a root describes them.

ghost use Rattle.std.specs.Prelude.{◌≡◌, ◌<◌, ◌^◌, suc};

use crate::chunk_records::ChunkRecords;
use schema::Key;
use statistics::GroupStats;

/// A group of a table: its number and key, which name its part file; the records of its chunks in that file; and what
/// these tell of its rows. There is a number above its own.
#[derive(Debug, Drop)]
pub struct Group {
    pub number: u64,
    pub key: Key,
    /// How many of the table's top-level fields besides its key columns the file has: the first ones. A file that was
    /// written before a field was added lacks it.
    pub width: usize,
    /// As in the file's own footer, without a path, in the order of the file's leaves.
    pub chunks: ChunkRecords,
    /// The number of rows, and the statistics of each chunk.
    pub stats: GroupStats,
    ghost followed: { suc number < 2 ^ 64 },
}

impl Group {
    /// How many rows it has. Takes no memory.
    pub fn rows(&self) -> u64
        ensures { result ≡ self.now.stats.rows }
    {
        self.stats.rows
    }
}
