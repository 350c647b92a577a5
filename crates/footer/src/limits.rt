//! What a file begins and ends with, and how much is read and written.

/// The magic.
pub const MAGIC: &[u8] = b"PAR1";

/// The most bytes that a file may have.
pub const MOST_BYTES_OF_FILE: usize = 2_147_483_647;

/// The most bytes that a footer may have: 16 MiB.
pub const MOST_BYTES_OF_FOOTER: usize = 16_777_216;

/// The most rows that a written group may have.
pub const MOST_GROUP_ROWS: u32 = 16_777_216;
