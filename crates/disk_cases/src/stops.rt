//! `stops PICKS WORD..` .. `end`: lines that are stopped at each call of the disk.

use crate::arguments::{choices, lists};
use crate::images::{image, left};
use crate::lines::made;
use crate::outcome::{Outcome, joined};
use bits::{R, Refusal};
use case_words::{word, words_from};
use disk::Disk;
use mem_disk::MemDisk;
use std::alloc::Global;
use vault::Vault;

/// The most calls at which lines are stopped.
const MOST: u64 = 100;

/// A block: what a failed call has done, the lists of words that say what a stop leaves, the lines that are stopped, and
/// the lines that look at what is left.
#[derive(Drop)]
struct Block<'a> {
    picks: Vec<u64>,
    lists: Vec<Vec<u64>>,
    calls: &'a [String],
    looks: &'a [String],
}

/// The lines before the line `left`, and those after it.
fn parts(lines: &[String]) -> (&[String], &[String]) {
    match lines.iter().position(|line| line.as_str() == "left") {
        Some(at) => (
            lines.get(..at).unwrap_or(lines),
            lines.get(at.saturating_add(1)..).unwrap_or(&[]),
        ),
        None => (lines, &[]),
    }
}

/// The block of these lines, of which the first is its head.
fn block_of<'a>(alloc: Global, lines: &'a [String]) -> R<Block<'a>> {
    let Some((head, rest)) = lines.split_first() else {
        return Err(Refusal::Script);
    };
    let words: Vec<&str> = head.as_str().split_whitespace().collect(alloc)?;
    let (calls, looks) = parts(rest);
    Ok(Block {
        picks: choices(alloc, word(words.as_slice(), 1)?)?,
        lists: lists(alloc, words_from(words.as_slice(), 2))?,
        calls,
        looks,
    })
}

/// Makes the calls up to the first that is not done: what the last of them that was made gives.
fn run(alloc: Global, vault: &mut Vault<MemDisk>, calls: &[String]) -> R<Outcome> {
    let mut last = Outcome::ok(alloc)?;
    for call in calls {
        last = made(alloc, vault, call.as_str())?;
        if !last.is_done {
            break;
        }
    }
    Ok(last)
}

/// What the lines show of what a stop leaves; all folders and files where there are no lines.
fn view(alloc: Global, mut disk: MemDisk, looks: &[String]) -> R<String> {
    if looks.is_empty() {
        return image(alloc, &mut disk);
    }
    let mut vault = Vault::start(disk);
    let mut shown = Vec::new(alloc);
    for look in looks {
        let outcome = made(alloc, &mut vault, look.as_str())?;
        shown.push(outcome.text)?;
    }
    joined(alloc, shown.as_slice(), ", ")
}

/// What stops leave of a disk, by all lists: each view once, in byte order.
fn views(alloc: Global, disk: &MemDisk, block: &Block) -> R<String> {
    let mut views = Vec::new(alloc);
    for list in &block.lists {
        let left = left(disk, list.as_slice())?;
        views.push(view(alloc, left, block.looks)?)?;
    }
    views.sort()?;
    views.dedup();
    joined(alloc, views.as_slice(), " | ")
}

/// The calls on a copy of the disk, of whose calls `k` pass: the line that is printed of it, and whether a call failed.
fn row(alloc: Global, disk: &MemDisk, block: &Block, pick: u64, k: u64) -> R<(String, bool)> {
    let mut vault = Vault::start(left(disk, &[])?);
    vault.disk.fuse(k, pick);
    let outcome = run(alloc, &mut vault, block.calls)?;
    let views = views(alloc, &vault.disk, block)?;
    let text = outcome.text;
    let short = if vault.disk.shortages() > 0 {
        " with a shortage"
    } else {
        ""
    };
    let line = format!(in alloc; "\n{pick} {k} = {text}{short}: {views}")?;
    Ok((line, vault.disk.failures() > 0))
}

/// A line for each number of calls that pass, up to the first at which no call fails.
fn rows(alloc: Global, disk: &MemDisk, block: &Block, pick: u64) -> R<String> {
    let mut rows = String::new(alloc);
    for k in 0..MOST {
        let (line, has_failed) = row(alloc, disk, block, pick, k)?;
        rows.push_str(line.as_str())?;
        if !has_failed {
            break;
        }
    }
    Ok(rows)
}

/// The lines that are printed of a block. Its calls are made on copies of the disk: what it holds when the words are 0.
pub fn stops(alloc: Global, disk: &MemDisk, lines: &[String]) -> R<String> {
    let block = block_of(alloc, lines)?;
    let mut text = String::new(alloc);
    for pick in &block.picks {
        let rows = rows(alloc, disk, &block, *pick)?;
        text.push_str(rows.as_str())?;
    }
    Ok(text)
}
