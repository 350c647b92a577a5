//! Cases as text: each line of standard input is an operation and what it is given, and the line that is printed has the
//! outcome after ` = `. `stdin` has the cases and `stdout` what they must print; README.md lists the operations.
#![tactic(auto)]

mod call_cases;
mod chunk_cases;
mod entries;
mod json_cases;
mod names;
mod options;
mod page_cases;
mod random;
mod random_cases;
mod reading_cases;
mod records;
mod rules;
mod schemas;
mod writing_cases;

use crate::names::Names;
use bits::{R, Refusal};
use case_words::{is_remark, or_refused, word, words_from};
use std::alloc::Global;
use std::io;

/// What a case of pages, chunks and groups gives.
fn of_pages(alloc: Global, operation: &str, words: &[&str]) -> Option<R<String>> {
    if let Some(outcome) = page_cases::outcome(alloc, operation, words) {
        return Some(outcome);
    }
    chunk_cases::outcome(alloc, operation, words)
}

/// What a case of whole files gives.
fn of_files(alloc: Global, operation: &str, words: &[&str]) -> Option<R<String>> {
    if let Some(outcome) = reading_cases::outcome(alloc, operation, words) {
        return Some(outcome);
    }
    if let Some(outcome) = writing_cases::outcome(alloc, operation, words) {
        return Some(outcome);
    }
    random_cases::outcome(alloc, operation, words)
}

/// What a case of JSON gives.
fn of_json(alloc: Global, operation: &str, line: &str, words: &[&str]) -> Option<R<String>> {
    if let Some(outcome) = json_cases::outcome(alloc, operation, words, line) {
        return Some(outcome);
    }
    call_cases::outcome(alloc, operation, words, line)
}

/// What a case gives, by its operation; Script where there is no such operation.
fn outcome(alloc: Global, line: &str, words: &[&str]) -> R<String> {
    let operation = word(words, 0)?;
    if let Some(outcome) = of_pages(alloc, operation, words) {
        return outcome;
    }
    if let Some(outcome) = of_files(alloc, operation, words) {
        return outcome;
    }
    match of_json(alloc, operation, line, words) {
        Some(outcome) => outcome,
        None => Err(Refusal::Script),
    }
}

/// What is printed after a case.
fn said(alloc: Global, line: &str, words: &[&str]) -> R<String> {
    or_refused(alloc, outcome(alloc, line, words))
}

/// What is printed after a case, or after a rule that makes many of one.
fn answer(alloc: Global, line: &str) -> R<String> {
    let words: Vec<&str> = line.split_whitespace().collect(alloc)?;
    let words = words.as_slice();
    match word(words, 0)? {
        "cuts" => rules::cuts(alloc, words_from(words, 1)),
        "changes" => rules::changes(alloc, words),
        _ => said(alloc, line, words),
    }
}

/// What is printed after a line; nothing after a definition of a name.
fn outcome_of(alloc: Global, names: &mut Names, line: &str) -> R<Option<String>> {
    let whole = names.expanded(alloc, line)?;
    if names.take(alloc, whole.as_str())? {
        return Ok(None);
    }
    Ok(Some(answer(alloc, whole.as_str())?))
}

/// The line that is printed: a comment, an empty line and a definition as they are, a case with its outcome after it.
fn answered(alloc: Global, names: &mut Names, line: &str) -> R<String> {
    if is_remark(line) {
        return Ok(String::from_str(alloc, line)?);
    }
    let text = match outcome_of(alloc, names, line) {
        Ok(Some(text)) => text,
        Ok(None) => return Ok(String::from_str(alloc, line)?),
        Err(refusal) => format!(in alloc; "refused {refusal}")?,
    };
    // A list begins with a space.
    let gap = if text.as_str().starts_with(' ') {
        ""
    } else {
        " "
    };
    Ok(format!(in alloc; "{line} ={gap}{text}")?)
}

fn main(rt: HostRuntime) -> io::Result<()> {
    let mut names = Names::new(rt.alloc());
    for line in rt.lines(rt.alloc()) {
        let line = line?;
        match answered(rt.alloc(), &mut names, line.as_str()) {
            Ok(text) => println!(rt; "{text}")?,
            Err(refusal) => println!(rt; "{refusal}")?,
        }
    }
    Ok(())
}
