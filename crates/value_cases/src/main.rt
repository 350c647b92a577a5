//! Cases as text: each line of standard input is an operation and what it is given, and the line that is printed has the
//! outcome after ` = `. `stdin` has the cases and `stdout` what they must print; README.md lists the operations.
#![tactic(auto)]

mod bit_cases;
mod dictionary_cases;
mod elements;
mod filter_cases;
mod key_cases;
mod kinds;
mod plain_cases;
mod row_cases;
mod run_cases;
mod schema_cases;
mod struct_cases;
mod texts;
mod values;

use bits::{R, Refusal};
use case_words::{bytes_of, hexed, is_remark, listed, or_refused, word, words_from};
use std::alloc::Global;
use std::io;

/// What a case of numbers and lists of values gives.
fn of_lists(alloc: Global, operation: &str, words: &[&str]) -> Option<R<String>> {
    if let Some(outcome) = bit_cases::outcome(alloc, operation, words) {
        return Some(outcome);
    }
    if let Some(outcome) = run_cases::outcome(alloc, operation, words) {
        return Some(outcome);
    }
    if let Some(outcome) = plain_cases::outcome(alloc, operation, words) {
        return Some(outcome);
    }
    dictionary_cases::outcome(alloc, operation, words)
}

/// What a case of structs, schemas and rows gives.
fn of_rows(alloc: Global, operation: &str, words: &[&str]) -> Option<R<String>> {
    if let Some(outcome) = struct_cases::outcome(alloc, operation, words) {
        return Some(outcome);
    }
    if let Some(outcome) = schema_cases::outcome(alloc, operation, words) {
        return Some(outcome);
    }
    row_cases::outcome(alloc, operation, words)
}

/// What a case of filters and keys gives.
fn of_tables(alloc: Global, operation: &str, words: &[&str]) -> Option<R<String>> {
    if let Some(outcome) = filter_cases::outcome(alloc, operation, words) {
        return Some(outcome);
    }
    key_cases::outcome(alloc, operation, words)
}

/// What a case gives, by its operation; Script where there is no such operation.
fn outcome(alloc: Global, words: &[&str]) -> R<String> {
    let operation = word(words, 0)?;
    if let Some(outcome) = of_lists(alloc, operation, words) {
        return outcome;
    }
    if let Some(outcome) = of_rows(alloc, operation, words) {
        return outcome;
    }
    match of_tables(alloc, operation, words) {
        Some(outcome) => outcome,
        None => Err(Refusal::Script),
    }
}

/// What is printed after a case.
fn said(alloc: Global, words: &[&str]) -> R<String> {
    or_refused(alloc, outcome(alloc, words))
}

/// What is printed after the case whose last word has these bytes in its place.
fn said_of(alloc: Global, words: &[&str], bytes: &[u8]) -> R<String> {
    let digits = hexed(alloc, bytes)?;
    let mut again = Vec::new(alloc);
    for word in words {
        again.push(*word)?;
    }
    again.pop();
    again.push(digits.as_str())?;
    said(alloc, again.as_slice())
}

/// `cuts OPERATION .. BYTES`: what the operation gives of each list of fewer bytes, from the empty one on.
fn cuts(alloc: Global, words: &[&str]) -> R<String> {
    let Some(last) = words.last() else {
        return Err(Refusal::Script);
    };
    let bytes = bytes_of(alloc, last)?;
    let mut items = Vec::new(alloc);
    for end in 0..bytes.len() {
        let front = bytes.as_slice().get(..end).unwrap_or(&[]);
        items.push(said_of(alloc, words, front)?)?;
    }
    listed(alloc, items.as_slice())
}

/// The line that is printed: a comment or an empty line as it is, a case with its outcome after it.
fn answered(alloc: Global, line: &str) -> R<String> {
    if is_remark(line) {
        return Ok(String::from_str(alloc, line)?);
    }
    let words: Vec<&str> = line.split_whitespace().collect(alloc)?;
    let is_cut = words.first().is_some_and(|word| *word == "cuts");
    let text = if is_cut {
        cuts(alloc, words_from(words.as_slice(), 1))?
    } else {
        said(alloc, words.as_slice())?
    };
    // A list begins with a space, and one of nothing has none.
    let gap = if text.is_empty() || text.as_str().starts_with(' ') {
        ""
    } else {
        " "
    };
    Ok(format!(in alloc; "{line} ={gap}{text}")?)
}

fn main(rt: HostRuntime) -> io::Result<()> {
    for line in rt.lines(rt.alloc()) {
        let line = line?;
        match answered(rt.alloc(), line.as_str()) {
            Ok(text) => println!(rt; "{text}")?,
            Err(refusal) => println!(rt; "{refusal}")?,
        }
    }
    Ok(())
}
