//! How chunks are written.

use pages::PageVersion;

/// Which encodings the values of a chunk are written in.
#[derive(Debug, Clone, Copy, PartialEq, Eq)]
pub enum Style {
    /// PLAIN for all.
    Plain,
    /// A dictionary for all but BOOLEAN, which is PLAIN; PLAIN too where a chunk has no value, or more than
    /// 65,536 different ones, or would start at offset 0, where no file has a chunk.
    Dictionary,
    /// DELTA_BINARY_PACKED for numbers, DELTA_BYTE_ARRAY for both byte types, RLE for BOOLEAN.
    Delta,
    /// As `Delta`, with DELTA_LENGTH_BYTE_ARRAY for BYTE_ARRAY, and PLAIN for fixed lengths.
    Lengths,
    /// BYTE_STREAM_SPLIT for numbers and fixed lengths, PLAIN for BYTE_ARRAY, RLE for BOOLEAN.
    Split,
}

/// How the chunks of a group are written.
#[derive(Debug, Clone, Copy, PartialEq, Eq)]
pub struct ChunkOptions {
    /// How many rows a page has, the last one of a chunk fewer: at least 1.
    pub page_rows: u32,
    /// Which header the data pages have.
    pub page_version: PageVersion,
    /// Which encodings the values are written in.
    pub style: Style,
}
