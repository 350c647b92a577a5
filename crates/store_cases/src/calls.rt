//! Calls, and their answers.

use crate::disks::Cases;
use bits::{R, Refusal};
use case_words::{joined, natural, word};
use jsonrows::{answer_to, call_from};
use mem_disk::MemDisk;
use std::alloc::Global;
use store::Store;
use table::{Answer, Call, Fetched};

/// The open store; Script where none is.
fn open_store(cases: &mut Cases) -> R<&mut Store<MemDisk>> {
    cases.store.as_mut().ok_or(Refusal::Script)
}

/// A line of JSON: the call that it is, and its answer.
pub fn answer(alloc: Global, cases: &mut Cases, line: &str) -> R<String> {
    let store = open_store(cases)?;
    let call = call_from(alloc, store.schema(), line)?;
    let mut calls = Vec::new(alloc);
    calls.push(call)?;
    let answers = store.run(alloc, calls.as_slice())?;
    match answers.as_slice() {
        [answer] => answer_to(alloc, store.schema(), answer),
        _ => Err(Refusal::Script),
    }
}

/// `times N FROM CALL`: the call N times, with a number that rises by one, from FROM on, in the place of each `$`; its
/// answers, with how often each comes in a row.
pub fn times(alloc: Global, cases: &mut Cases, words: &[&str], line: &str) -> R<String> {
    let number = natural(word(words, 1)?)?;
    let first = natural(word(words, 2)?)?;
    let Some((_, call)) = line.split_once('{') else {
        return Err(Refusal::Script);
    };
    let mut told = Told::new(alloc);
    for time in 0..number {
        let at = first.saturating_add(time);
        let text = format!(in alloc; "{at}")?;
        let whole = format!(in alloc; "{{{call}")?;
        let made = whole.as_str().replace(alloc, "$", text.as_str())?;
        let answer = answer(alloc, cases, made.as_str())?;
        told.add(alloc, answer)?;
    }
    told.end(alloc)
}

/// Answers, each with how often it comes in a row.
#[derive(Drop)]
struct Told {
    text: String,
    last: String,
    count: u64,
}

impl Told {
    fn new(alloc: Global) -> Told {
        Told {
            text: String::new(alloc),
            last: String::new(alloc),
            count: 0,
        }
    }

    /// Adds one more answer.
    fn add(&mut self, alloc: Global, answer: String) -> R<()> {
        if self.last.as_str() != answer.as_str() {
            self.put(alloc)?;
            self.last = answer;
            self.count = 0;
        }
        self.count = self.count.saturating_add(1);
        Ok(())
    }

    /// Puts the last answer to the others.
    fn put(&mut self, alloc: Global) -> R<()> {
        if self.count == 0 {
            return Ok(());
        }
        let gap = if self.text.is_empty() { "" } else { " " };
        let count = self.count;
        let last = self.last.as_str();
        let more = format!(in alloc; "{gap}{count} * {last}")?;
        self.text.push_str(more.as_str())?;
        Ok(())
    }

    /// All answers as they are printed.
    fn end(mut self, alloc: Global) -> R<String> {
        self.put(alloc)?;
        Ok(self.text)
    }
}

/// `rows`: all rows of the table, by a query that is closed again.
pub fn rows(alloc: Global, cases: &mut Cases) -> R<String> {
    rows_of(alloc, open_store(cases)?)
}

/// All rows of the table of a store.
pub fn rows_of(alloc: Global, store: &mut Store<MemDisk>) -> R<String> {
    let cursor = store.query(alloc, &[], None)?;
    let text = fetched_rows(alloc, store, cursor);
    store.close(alloc, cursor)?;
    text
}

/// The batches of a cursor, to its end.
fn fetched_rows(alloc: Global, store: &mut Store<MemDisk>, cursor: u64) -> R<String> {
    let mut texts = Vec::new(alloc);
    for _ in 0..u64::MAX {
        match store.fetch(alloc, cursor)? {
            Fetched::Batch(batch) => {
                let answer = Answer::Batch(batch);
                texts.push(answer_to(alloc, store.schema(), &answer)?)?;
            }
            Fetched::End => break,
        }
    }
    joined(alloc, texts.as_slice())
}

/// `drain CURSOR`: fetches to the end: how many batches come, and the last of them.
pub fn drain(alloc: Global, cases: &mut Cases, words: &[&str]) -> R<String> {
    let cursor = natural(word(words, 1)?)?;
    let store = open_store(cases)?;
    let mut last = Answer::End;
    let mut count: u64 = 0;
    for _ in 0..u64::MAX {
        match store.fetch(alloc, cursor)? {
            Fetched::Batch(batch) => last = Answer::Batch(batch),
            Fetched::End => break,
        }
        count = count.saturating_add(1);
    }
    let text = answer_to(alloc, store.schema(), &last)?;
    Ok(format!(in alloc; "{count} batches, the last {text}")?)
}
