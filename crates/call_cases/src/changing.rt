//! What is done to files.

use crate::file_place::FilePlace;
use bits::{R, Refusal};
use case_words::{bytes, count, natural, text_after, word};
use std::alloc::Global;

/// Puts a line at the end of a file, so many times.
fn add_lines<P: FilePlace>(
    place: &mut P,
    alloc: Global,
    path: &str,
    times: u64,
    text: &str,
) -> R<()> {
    let mut lines = Vec::new(alloc);
    for _ in 0..times {
        lines.extend_from_slice(text.as_bytes())?;
        lines.push(b'\n')?;
    }
    place.add(path, lines.as_slice())
}

/// Makes a copy of a file.
fn copy<P: FilePlace>(place: &mut P, from: &str, to: &str) -> R<()> {
    let there = place.read(from)?;
    place.write(to, there.as_slice())
}

/// Replaces the bytes of a file from a place on; Script where it has no such place.
fn change<P: FilePlace>(place: &mut P, path: &str, at: usize, new: &[u8]) -> R<()> {
    let mut there = place.read(path)?;
    for (index, byte) in new.iter().enumerate() {
        match there.get_mut(at.saturating_add(index)) {
            Some(old) => *old = *byte,
            None => return Err(Refusal::Script),
        }
    }
    place.write(path, there.as_slice())
}

/// Leaves so many bytes of a file.
fn cut<P: FilePlace>(place: &mut P, path: &str, length: usize) -> R<()> {
    let mut there = place.read(path)?;
    there.truncate(length);
    place.write(path, there.as_slice())
}

/// A line that changes files; it has nothing to say.
pub fn done<P: FilePlace>(place: &mut P, alloc: Global, words: &[&str], line: &str) -> R<String> {
    let first = word(words, 1)?;
    match word(words, 0)? {
        "put" => add_lines(place, alloc, first, 1, text_after(line, 2))?,
        "times" => {
            let times = natural(first)?;
            add_lines(place, alloc, word(words, 2)?, times, text_after(line, 3))?;
        }
        "bytes" => place.add(first, bytes(alloc, words, 2)?.as_slice())?,
        "copy" => copy(place, first, word(words, 2)?)?,
        "change" => {
            let new = bytes(alloc, words, 3)?;
            change(place, first, count(words, 2)?, new.as_slice())?;
        }
        "cut" => cut(place, first, count(words, 2)?)?,
        "remove" => place.remove(first)?,
        "folder" => place.make_folder(first)?,
        _ => return Err(Refusal::Script),
    }
    Ok(String::new(alloc))
}
