//! How much is read and written.

/// The most entries that a chunk may have.
pub const MOST_ENTRIES_OF_CHUNK: i64 = 16_777_216;

/// The most rows that a group may have.
pub const MOST_ROWS_OF_GROUP: i64 = 16_777_216;

/// The most bytes that a file may have before a chunk that is written.
pub const MOST_BYTES_BEFORE_CHUNK: usize = 2_147_483_647;
