//! Rows of one key, and a key that names no folder.

use schema::Key;
use shred::RowBuffer;

/// Rows of one key, without their values in the key columns, as columns.
#[derive(Drop)]
pub struct KeyBuffer<'a> {
    pub key: Key,
    pub rows: RowBuffer<'a>,
}

/// A row whose key can name no folder: how many rows came before it, and its key.
#[derive(Debug, Drop)]
pub struct KeyFault {
    pub row: usize,
    pub key: Key,
}
