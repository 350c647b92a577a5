//! Calls on a table on a disk in memory, as text: each line of standard input is a call or says what happens to the disk,
//! and the line that is printed has the outcome after ` = `. `stdin` has the lines and `stdout` what they must print;
//! README.md lists them.
#![tactic(auto)]

mod calls;
mod disks;
mod files;
mod kept;
mod listing;
mod openings;
mod roots;
mod upkeep_lines;

use crate::disks::Cases;
use crate::kept::{Kept, way_of};
use bits::{R, Refusal};
use case_words::{is_remark, naturals, or_refused, word, words_from};
use std::alloc::Global;
use std::io;

/// What a line does to the disk and its files, by its first word; Script where there is no such word.
fn disk_outcome(alloc: Global, cases: &mut Cases, words: &[&str]) -> R<String> {
    match word(words, 0)? {
        "empty" => disks::empty(alloc, cases),
        "crash" => {
            let picks = naturals(alloc, words_from(words, 1))?;
            disks::crash(alloc, cases, picks.as_slice())
        }
        "fuse" => disks::fuse(alloc, cases, words),
        "fail-once" => disks::fail_once(alloc, cases, words),
        "reads" => disks::reads(alloc, cases),
        "failures" => disks::failures(alloc, cases),
        "files" => listing::files(alloc, cases),
        "folders" => listing::folders(alloc, cases),
        "put" => files::put(alloc, cases, words),
        "leave" => files::leave(alloc, cases, words),
        "remove" => files::remove(alloc, cases, words),
        "change" => files::change(alloc, cases, words),
        "bytes" => files::bytes_at(alloc, cases, words),
        _ => Err(Refusal::Script),
    }
}

/// What a line does, by its first word; Script where there is no such word.
fn outcome(alloc: Global, cases: &mut Cases, line: &str, words: &[&str]) -> R<String> {
    if line.starts_with('{') {
        return calls::answer(alloc, cases, line);
    }
    match word(words, 0)? {
        "create" => disks::create(alloc, cases, words),
        "create-here" => disks::create_here(alloc, cases, words),
        "options" => disks::options(alloc, cases, words),
        "open" => disks::open(alloc, cases, words),
        "clean" => disks::clean(alloc, cases),
        "rows" => calls::rows(alloc, cases),
        "times" => calls::times(alloc, cases, words, line),
        "drain" => calls::drain(alloc, cases, words),
        "root" => roots::root(alloc, words),
        "root-cuts" => roots::root_cuts(alloc, words),
        "check" => upkeep_lines::check_table(alloc, cases),
        "survey" => upkeep_lines::survey_table(alloc, cases, words),
        "opening-stops" => openings::opening_stops(alloc, cases, words),
        "opening-failures" => openings::opening_failures(alloc, cases, words),
        _ => disk_outcome(alloc, cases, words),
    }
}

/// The line that is printed: a comment or an empty line as it is, another one with its outcome after it.
fn answered(alloc: Global, cases: &mut Cases, kept: &mut Kept, line: &str) -> R<String> {
    if is_remark(line) {
        return Ok(String::from_str(alloc, line)?);
    }
    let (way, body) = way_of(line);
    let words: Vec<&str> = body.split_whitespace().collect(alloc)?;
    let text = or_refused(alloc, outcome(alloc, cases, body, words.as_slice()))?;
    let text = kept.told(alloc, way, text)?;
    Ok(format!(in alloc; "{line} = {text}")?)
}

fn main(rt: HostRuntime) -> io::Result<()> {
    let mut cases = Cases::new();
    let mut kept = Kept::new(rt.alloc());
    for line in rt.lines(rt.alloc()) {
        let line = line?;
        match answered(rt.alloc(), &mut cases, &mut kept, line.as_str()) {
            Ok(text) => println!(rt; "{text}")?,
            Err(refusal) => println!(rt; "{refusal}")?,
        }
    }
    Ok(())
}
