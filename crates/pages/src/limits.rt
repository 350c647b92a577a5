//! How much is written.

/// The most bytes that the body of a page may have, since its size is an i32.
pub const MOST_BYTES_OF_PAGE: usize = 2_147_483_647;
