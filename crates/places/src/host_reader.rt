//! A file of the host that is read in blocks.

ghost use Rattle.std.specs.Prelude.{◌≡◌, None, IfOk};
ghost use Rattle.bits.specs.Refusals.{RefusedOnly};
ghost use Rattle.places.specs.Blocks.{ArePutBehind};

use crate::folder::{is_input, refused_at};
use crate::notes::Notes;
use crate::places::BlockReader;
use bits::{R, Refusal};
use std::alloc::Global;
use std::fs::{File, OpenFile};
use std::io::{self, Input, Read};
use std::rt::Files;

/// How many bytes are read at a time.
const BLOCK_BYTES: u64 = 1_048_576;

/// What is read.
#[derive(Drop)]
enum Source<O: Drop, I: Drop> {
    /// An open file.
    File(O),
    /// The standard input.
    Input(I),
}

/// A file of the host, or its standard input, that is read in blocks. Nothing is known of what is in it.
#[derive(Drop)]
pub struct HostReader<O: Drop, I: Drop> {
    path: String,
    source: Source<O, I>,
}

impl<O: Read + Drop, I: Read + Drop> BlockReader for HostReader<O, I> {
    ghost left = { λ reader. None };

    ghost is_shut = { λ reader. Unit {0} };

    fn read_block(&mut self, buffer: &mut Vec<u8>, notes: &Notes) -> R<bool> {
        match self.source.next_block(buffer) {
            Ok(count) => Ok(count > 0),
            Err(error) => Err(refused_at(self.path.as_str(), error, notes)),
        }
    }
}

impl<O: Read + Drop, I: Read + Drop> Source<O, I> {
    /// Puts the next bytes behind those that a buffer has: a block, or what is left. How many they are.
    fn next_block(&mut self, buffer: &mut Vec<u8>) -> io::Result<usize>
        ensures put { IfOk result (ArePutBehind buffer.old.items buffer.new.items) }
    {
        match self {
            Source::File(file) => next_block(file, buffer),
            Source::Input(input) => next_block(input, buffer),
        }
    }
}

/// Puts the next bytes of a reader behind those that a buffer has: a block, or what is left. How many they are.
fn next_block<T: Read>(reader: &mut T, buffer: &mut Vec<u8>) -> io::Result<usize>
    ensures put { IfOk result (ArePutBehind buffer.old.items buffer.new.items) }
{
    let mut block = reader.by_ref().take(BLOCK_BYTES);
    block.read_to_end(buffer)
}

/// Opens the file of the host at a path, to be read in blocks; `-` is the standard input. Refused Device where it cannot be opened,
/// which is noted.
pub fn open_reader<F: Files + Input>(
    rt: &F,
    alloc: Global,
    path: &str,
    notes: &Notes,
) -> R<HostReader<F::File, F::Reader>>
    ensures which { RefusedOnly (λ e. e ≡ Refusal.Device) result }
{
    let name = String::from_str(alloc, path)?;
    if is_input(path) {
        return Ok(HostReader {
            path: name,
            source: Source::Input(rt.reader()),
        });
    }
    match File::open(rt, path) {
        Ok(file) => Ok(HostReader {
            path: name,
            source: Source::File(file),
        }),
        Err(error) => Err(refused_at(path, error, notes)),
    }
}
