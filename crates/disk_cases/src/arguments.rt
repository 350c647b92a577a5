//! The words of a line: paths, bytes, and lists of words that say what a stop leaves.

use bits::{R, Refusal};
use case_words::{bytes_of, natural, range, word};
use std::alloc::Global;

/// A word that is a path; `""` is the dataset's own folder.
pub fn path<'a>(words: &[&'a str], at: usize) -> R<&'a str> {
    let path = word(words, at)?;
    Ok(if path == "\"\"" { "" } else { path })
}

/// A word that is bytes: text after a `'`, or else in hexadecimal.
pub fn bytes(alloc: Global, words: &[&str], at: usize) -> R<Vec<u8>> {
    let shown = word(words, at)?;
    match shown.strip_prefix('\'') {
        Some(text) => Ok(text.as_bytes().to_vec(alloc)?),
        None => bytes_of(alloc, shown),
    }
}

/// Appends the numbers from `low` to below `high`, each `step` more than the one before.
fn push_steps(low: i64, high: i64, step: u64, numbers: &mut Vec<u64>) -> R<()> {
    let mut next: u64 = 0;
    for number in low..high {
        let Ok(number) = u64::try_from(number) else {
            return Err(Refusal::Script);
        };
        if number >= next {
            numbers.push(number)?;
            next = number.saturating_add(step);
        }
    }
    Ok(())
}

/// Appends the number of a text, or the numbers of a range: `0..4`, or with a step `3..1027/4`.
fn push_numbers(text: &str, numbers: &mut Vec<u64>) -> R<()> {
    let (ends, step) = match text.split_once('/') {
        Some((ends, step)) => (ends, natural(step)?),
        None => (text, 1),
    };
    match range(ends) {
        Some((low, high)) => push_steps(low, high, step, numbers),
        None => Ok(numbers.push(natural(ends)?)?),
    }
}

/// The numbers that a word stands for, with commas between them.
pub fn choices(alloc: Global, text: &str) -> R<Vec<u64>> {
    let mut numbers = Vec::new(alloc);
    for part in text.split(',') {
        push_numbers(part, &mut numbers)?;
    }
    Ok(numbers)
}

/// A list with one number more.
fn with(alloc: Global, list: &[u64], number: u64) -> R<Vec<u64>> {
    let mut longer = list.to_vec(alloc)?;
    longer.push(number)?;
    Ok(longer)
}

/// Each list, with each of the numbers after it.
fn extended(alloc: Global, lists: &[Vec<u64>], numbers: &[u64]) -> R<Vec<Vec<u64>>> {
    let mut longer = Vec::new(alloc);
    for list in lists {
        for number in numbers {
            longer.push(with(alloc, list.as_slice(), *number)?)?;
        }
    }
    Ok(longer)
}

/// All lists that have, at each place, one of the numbers that the word there stands for; the last place turns first.
pub fn lists(alloc: Global, words: &[&str]) -> R<Vec<Vec<u64>>> {
    let mut lists = Vec::new(alloc);
    lists.push(Vec::new(alloc))?;
    for word in words {
        let numbers = choices(alloc, word)?;
        lists = extended(alloc, lists.as_slice(), numbers.as_slice())?;
    }
    Ok(lists)
}
