//! The ends of a file: what its footer is read from where the rest is not read.

ghost use Rattle.std.specs.Prelude.{◌≤◌};

use crate::byte_source::ByteSource;
use footer::MOST_BYTES_OF_FOOTER;
use std::alloc::{AllocError, Global};

/// How many bytes of a file stand before its first chunk: `PAR1`.
const BYTES_BEFORE_CHUNKS: usize = 4;

/// How many bytes there are after the footer: its length, and `PAR1`.
const BYTES_AFTER_FOOTER: usize = 8;

/// The ends of a file: its first four bytes, its footer, and the eight bytes after it, which are a file with the same footer. Where
/// the footer does not fit into the file, or into a footer's limit, none of it is among them, and they are refused as the file is.
pub fn ends_of<S: ByteSource>(alloc: Global, source: &mut S) -> Result<Vec<u8>, S::Fault> {
    source.look(0, BYTES_BEFORE_CHUNKS)?;
    let mut ends = Vec::new(alloc);
    add(&mut ends, source.window())?;
    look_back(source, BYTES_AFTER_FOOTER)?;
    let size = size_that_fits(source.window(), source.len());
    look_back(source, size.saturating_add(BYTES_AFTER_FOOTER))?;
    add(&mut ends, source.window())?;
    Ok(ends)
}

/// Looks at the last bytes of a source, so many.
fn look_back<S: ByteSource>(source: &mut S, count: usize) -> Result<(), S::Fault> {
    source.look(source.len().saturating_sub(count), count)
}

/// Adds bytes at the end of others.
fn add(bytes: &mut Vec<u8>, others: &[u8]) -> Result<(), AllocError> {
    bytes.extend_from_slice(others)?;
    Ok(())
}

/// How many bytes of footer the last bytes of a file of so many announce; none where they cannot be a footer.
fn size_that_fits(last: &[u8], length: usize) -> usize {
    let size = footer_length(last).unwrap_or(0);
    let around = BYTES_BEFORE_CHUNKS + BYTES_AFTER_FOOTER;
    if size <= MOST_BYTES_OF_FOOTER && size <= length.saturating_sub(around) {
        size
    } else {
        0
    }
}

/// The length of the footer that the last bytes of a file announce.
pub fn footer_length(bytes: &[u8]) -> Option<usize> {
    let from = bytes.len().checked_sub(BYTES_AFTER_FOOTER)?;
    let announced = bytes.get(from..)?.get(..4)?;
    let length = u32::from_le_bytes(<[u8; 4]>::try_from(announced).ok()?);
    Some(length as usize)
}

/// How many bytes of a file of so many come before its footer.
pub fn bytes_before_footer(length: usize, footer_length: usize) -> usize
    ensures { result ≤ length }
{
    length
        .saturating_sub(BYTES_AFTER_FOOTER)
        .saturating_sub(footer_length)
}
