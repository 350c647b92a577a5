//! Rules that make many cases of one: each shorter list of bytes, and each byte of a file with each of its values.

use crate::said;
use bits::{R, Refusal};
use case_words::{bytes, bytes_of, hexed, listed};
use footer::read_file;
use std::alloc::Global;

/// The greatest number of a refusal of bytes.
const LAST: usize = 13;

/// What is said of the case whose last word has these bytes in its place.
fn said_of(alloc: Global, words: &[&str], bytes: &[u8]) -> R<String> {
    let digits = hexed(alloc, bytes)?;
    let mut again = Vec::new(alloc);
    for word in words {
        again.push(*word)?;
    }
    again.pop();
    again.push(digits.as_str())?;
    said(alloc, "", again.as_slice())
}

/// The bytes that the last word is.
fn last_bytes(alloc: Global, words: &[&str]) -> R<Vec<u8>> {
    match words.last() {
        Some(last) => bytes_of(alloc, last),
        None => Err(Refusal::Script),
    }
}

/// `cuts OPERATION .. BYTES`: what the operation gives of each list of fewer bytes, from the empty one on.
pub fn cuts(alloc: Global, words: &[&str]) -> R<String> {
    let bytes = last_bytes(alloc, words)?;
    let mut items = Vec::new(alloc);
    for end in 0..bytes.len() {
        let front = bytes.as_slice().get(..end).unwrap_or(&[]);
        items.push(said_of(alloc, words, front)?)?;
    }
    listed(alloc, items.as_slice())
}

/// How many lists of bytes are files, and how many are refused by each number from 1 to 13; and another refusal, if one came.
#[derive(Drop)]
struct Tally {
    counts: [u64; 14],
    other: Option<String>,
}

impl Tally {
    /// Reads a list of bytes as a file, and counts what comes of it.
    fn add(&mut self, alloc: Global, bytes: &[u8]) -> R<()> {
        let said = match read_file(alloc, bytes) {
            Ok(_) => String::new(alloc),
            Err(refusal) => format!(in alloc; "{refusal}")?,
        };
        match self.counts.get_mut(number_of(said.as_str())) {
            Some(count) => *count = count.saturating_add(1),
            None => self.other = Some(said),
        }
        Ok(())
    }

    /// All counts as they are printed; or the refusal of another number, if one came.
    fn shown(&self, alloc: Global) -> R<String> {
        if let Some(other) = &self.other {
            let other = other.as_str();
            return Ok(format!(in alloc; "also {other}")?);
        }
        let mut text = String::new(alloc);
        for (number, count) in self.counts.iter().enumerate() {
            put_count(alloc, &mut text, number, *count)?;
        }
        Ok(text)
    }
}

/// The number of a refusal from 1 to 13, and a greater one for any other; 0 for no refusal.
fn number_of(refusal: &str) -> usize {
    if refusal.is_empty() {
        return 0;
    }
    let digits = refusal.split(' ').next().unwrap_or("");
    match digits.parse::<u64>() {
        Ok(number) if number > 0 && number <= LAST as u64 => number as usize,
        _ => usize::MAX,
    }
}

/// Appends how often a refusal came, if it did.
fn put_count(alloc: Global, text: &mut String, number: usize, count: u64) -> R<()> {
    if number > 0 && count == 0 {
        return Ok(());
    }
    let shown = if number == 0 {
        format!(in alloc; "{count} read")?
    } else {
        format!(in alloc; ", {count} refused {number}")?
    };
    text.push_str(shown.as_str())?;
    Ok(())
}

/// Counts what comes of each value of the byte at a place.
fn put_each(alloc: Global, bytes: &mut [u8], place: usize, tally: &mut Tally) -> R<()> {
    for value in 0..=255 {
        if let Some(byte) = bytes.get_mut(place) {
            *byte = value;
        }
        tally.add(alloc, bytes)?;
    }
    Ok(())
}

/// `changes BYTES`: how many of the lists of bytes with one byte changed, in each place to each value, are files, and how many are
/// refused by each number from 1 to 13.
pub fn changes(alloc: Global, words: &[&str]) -> R<String> {
    let mut bytes = bytes(alloc, words, 1)?;
    let mut tally = Tally {
        counts: [0; 14],
        other: None,
    };
    for place in 0..bytes.len() {
        let kept = bytes.get(place).copied().unwrap_or(0);
        put_each(alloc, bytes.as_mut_slice(), place, &mut tally)?;
        if let Some(byte) = bytes.get_mut(place) {
            *byte = kept;
        }
    }
    tally.shown(alloc)
}
