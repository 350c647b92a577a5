//! Stops and failures at each call of the disk: a line of standard input is a loop and what a failed call has done (0
//! nothing, 1 all, 2 a part), and the line that is printed has after ` = ` how many there were, and how many of them left
//! what may not be: 0.
#![tactic(auto)]

mod allocations;
mod changes;
mod failures;
mod makings;
mod reopenings;
mod script;
mod stops;

use crate::reopenings::{Stops, Work};
use bits::{R, Refusal};
use case_words::{is_remark, natural, or_refused, word};
use std::alloc::Global;
use std::io;

/// The lists of words that a line names after its loop and its pick; four where it names none.
fn lists_of(alloc: Global, words: &[&str]) -> R<Vec<u64>> {
    let mut lists = Vec::new(alloc);
    for word in words.iter().skip(2) {
        lists.push(natural(word)?)?;
    }
    if lists.is_empty() {
        lists.extend_from_slice(&[0, 1, 2, 11])?;
    }
    Ok(lists)
}

/// What the stops within openings saw.
fn within_openings(alloc: Global, words: &[&str], pick: u64, work: Work) -> R<String> {
    let lists = lists_of(alloc, words)?;
    let lists = lists.as_slice();
    reopenings::reopenings(alloc, Stops { work, pick, lists })
}

/// What a loop saw; Script where there is no such loop.
fn outcome(alloc: Global, words: &[&str]) -> R<String> {
    let pick = natural(word(words, 1)?)?;
    match word(words, 0)? {
        "stops" => stops::stops(alloc, pick),
        "reopenings" => within_openings(alloc, words, pick, Work::Calls),
        "failures" => failures::failures(alloc, pick),
        "creations" => makings::creations(alloc, pick),
        "creation-failures" => makings::creation_failures(alloc, pick),
        "creation-reopenings" => within_openings(alloc, words, pick, Work::Creation),
        "columns" => makings::columns(alloc, pick),
        "allocations" => allocations::allocations(alloc, pick),
        _ => Err(Refusal::Script),
    }
}

/// The line that is printed: a comment or an empty line as it is, another one with its outcome after it.
fn answered(alloc: Global, line: &str) -> R<String> {
    if is_remark(line) {
        return Ok(String::from_str(alloc, line)?);
    }
    let words: Vec<&str> = line.split_whitespace().collect(alloc)?;
    let text = or_refused(alloc, outcome(alloc, words.as_slice()))?;
    Ok(format!(in alloc; "{line} = {text}")?)
}

fn main(rt: HostRuntime) -> io::Result<()> {
    for line in rt.lines(rt.alloc()) {
        let line = line?;
        match answered(rt.alloc(), line.as_str()) {
            Ok(text) => println!(rt; "{text}")?,
            Err(refusal) => println!(rt; "{refusal}")?,
        }
    }
    Ok(())
}
