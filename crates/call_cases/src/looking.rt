//! What is in files and folders.

use crate::file_place::FilePlace;
use bits::{R, Refusal};
use case_words::{joined, text_after, word, yes_or_no};
use program::text_of;
use std::alloc::Global;

/// The last line of a text.
fn last_line(text: &str) -> &str {
    text.lines().last().unwrap_or("")
}

/// The names in a folder, in byte order.
fn names_in<P: FilePlace>(place: &mut P, alloc: Global, folder: &str) -> R<String> {
    let mut names = place.names(folder)?;
    names.sort()?;
    joined(alloc, names.as_slice())
}

/// What is seen of a file.
fn seen_of<P: FilePlace>(place: &P, alloc: Global, words: &[&str], line: &str) -> R<String> {
    let there = place.read(word(words, 1)?)?;
    let there = there.as_slice();
    match word(words, 0)? {
        "same" => {
            let other = place.read(word(words, 2)?)?;
            yes_or_no(alloc, there == other.as_slice())
        }
        "has" => yes_or_no(alloc, text_of(there)?.contains(text_after(line, 2))),
        "last" => Ok(String::from_str(alloc, last_line(text_of(there)?))?),
        "length" => {
            let length = there.len();
            Ok(format!(in alloc; "{length}")?)
        }
        _ => Err(Refusal::Script),
    }
}

/// A line that looks at files, and what it sees.
pub fn seen<P: FilePlace>(place: &mut P, alloc: Global, words: &[&str], line: &str) -> R<String> {
    match word(words, 0)? {
        "list" => names_in(place, alloc, word(words, 1)?),
        _ => seen_of(place, alloc, words, line),
    }
}
