//! A page.

use crate::data_page::DataPage;
use schema::ValueRef;

/// A page, by what it stands for. Its values lie in the bytes of the chunk.
#[derive(Debug, Drop)]
pub enum PageRef<'a> {
    /// A page of a type that is skipped, with its body.
    Skipped(&'a [u8]),
    /// The values of a dictionary page.
    Dictionary(Vec<ValueRef<'a>>),
    /// The entries of a data page.
    Data(DataPage<'a>),
}
