//! A file of the host by its ends, where nothing is asked but what its footer says.

ghost use Rattle.std.specs.Prelude.{◌≡◌, ◌⊎◌};
ghost use Rattle.bits.specs.Refusals.{RefusedOnly};

use crate::folder::{all_of, bytes_of, is_input, refused_at};
use crate::notes::Notes;
use bits::{R, Refusal};
use footer::{MOST_BYTES_OF_FILE, MOST_BYTES_OF_FOOTER};
use std::alloc::Global;
use std::fs::{File, OpenFile};
use std::io::{self, Input, Read, Seek, SeekFrom};
use std::rt::Files;

/// How many bytes of a file stand before its first chunk: `PAR1`.
const BYTES_BEFORE_CHUNKS: usize = 4;

/// How many bytes of a file stand after its footer: its length, and `PAR1`.
const BYTES_AFTER_FOOTER: usize = 8;

/// A file of fewer bytes is read whole.
const BYTES_OF_SMALL_FILE: u64 = 65_536;

/// The bytes of a file that has the footer of the file of the host at a path: of its first four bytes, its footer, and the
/// eight bytes after it ([`a_file_has_the_footer_of_its_ends`](crate::a_file_has_the_footer_of_its_ends)). A small file, a
/// pipe, and the standard input, `-`, are read whole. Where the footer does not fit into the file, or into a footer's limit,
/// none of it is read, and the bytes are refused as the file is.
///
/// Refused Device where it cannot be read, which is noted, and Limit where it has more than 2,147,483,647 bytes.
pub fn ends_of<F: Files + Input>(rt: &F, alloc: Global, path: &str, notes: &Notes) -> R<Vec<u8>>
    ensures which { RefusedOnly (λ e. (e ≡ Refusal.Device) ⊎ (e ≡ Refusal.Limit)) result }
{
    if is_input(path) {
        return bytes_of(rt, alloc, path, notes);
    }
    match File::open(rt, path) {
        Ok(mut file) => match large_length(&file) {
            None => all_of(alloc, path, &mut file, notes),
            Some(length) if length > MOST_BYTES_OF_FILE as u64 => Err(Refusal::Limit),
            Some(length) => match ends_in(alloc, &mut file, length) {
                Ok(ends) => Ok(ends),
                Err(error) => Err(refused_at(path, error, notes)),
            },
        },
        Err(error) => Err(refused_at(path, error, notes)),
    }
}

/// The length of an open file, if it is a file, and no small one.
fn large_length<O: OpenFile>(file: &O) -> Option<u64> {
    match file.metadata() {
        Ok(metadata) if metadata.is_file() && metadata.len() >= BYTES_OF_SMALL_FILE => {
            Some(metadata.len())
        }
        _ => None,
    }
}

/// The ends of a file of so many bytes.
fn ends_in<T: Read + Seek>(alloc: Global, file: &mut T, length: u64) -> io::Result<Vec<u8>> {
    let mut ends = vec![in alloc; 0u8; BYTES_BEFORE_CHUNKS]?;
    file.read_exact(&mut ends)?;
    let mut last = vec![in alloc; 0u8; BYTES_AFTER_FOOTER]?;
    read_end(file, length, &mut last)?;
    let size = announced(last.as_slice(), length);
    let mut tail = vec![in alloc; 0u8; size.saturating_add(BYTES_AFTER_FOOTER)]?;
    read_end(file, length, &mut tail)?;
    ends.extend_from_slice(tail.as_slice())?;
    Ok(ends)
}

/// Fills `end` with the last bytes of a file of so many.
fn read_end<T: Read + Seek>(file: &mut T, length: u64, end: &mut [u8]) -> io::Result<()> {
    file.seek(SeekFrom::Start(length.saturating_sub(end.len() as u64)))?;
    file.read_exact(end)
}

/// How many bytes of footer a file of so many bytes announces in its last eight; none where they cannot be a footer.
fn announced(last: &[u8], length: u64) -> usize {
    let size = match last.split_first_chunk::<4>() {
        Some((size, _)) => u32::from_le_bytes(*size) as usize,
        None => 0,
    };
    let fits = size.saturating_add(BYTES_BEFORE_CHUNKS + BYTES_AFTER_FOOTER) as u64 <= length;
    if fits && size <= MOST_BYTES_OF_FOOTER {
        size
    } else {
        0
    }
}
