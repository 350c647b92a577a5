//! Stops at each call of the disk.

use crate::script::{self, STEPS, TABLES, is_table_after};
use bits::{R, Refusal};
use mem_disk::MemDisk;
use std::alloc::Global;
use store::Store;

/// How many lists of words say what a stop leaves: zeros, ones, and sixteen others.
pub const LISTS: u64 = 18;

/// How many words a list has.
const WORDS: usize = 64;

/// A list of words: zeros, ones, or numbers each of which follows from the one before.
pub fn words(alloc: Global, list: u64) -> R<Vec<u64>> {
    let mut words = Vec::new(alloc);
    let mut word = match list {
        0 => 0,
        1 => 1,
        more => more.saturating_sub(1),
    };
    for _ in 0..WORDS {
        words.push(word)?;
        if list > 1 {
            word = word
                .wrapping_mul(6_364_136_223_846_793_005)
                .wrapping_add(1_442_695_040_888_963_407);
        }
    }
    Ok(words)
}

/// What the loops have seen.
#[derive(Drop)]
pub struct Seen {
    pub stops: u64,
    pub images: u64,
    pub wrong: u64,
}

impl Seen {
    pub fn new() -> Seen {
        Seen {
            stops: 0,
            images: 0,
            wrong: 0,
        }
    }

    /// Counts one image more, and whether it was right.
    pub fn add(&mut self, right: bool) {
        self.images = self.images.saturating_add(1);
        if !right {
            self.wrong = self.wrong.saturating_add(1);
        }
    }

    /// What is printed of what the loops have seen.
    pub fn text(&self, alloc: Global) -> R<String> {
        let (stops, images, wrong) = (self.stops, self.images, self.wrong);
        Ok(format!(in alloc; "{stops} stops, {images} images, not allowed: {wrong}")?)
    }
}

/// What a stop leaves, by a list of words.
pub fn crashed(alloc: Global, disk: &MemDisk, list: u64) -> R<MemDisk> {
    let words = words(alloc, list)?;
    disk.crash(words.as_slice()).map_err(|_| Refusal::Memory)
}

/// Makes the calls till one is refused: how many commits were done.
fn done_before_refusal(alloc: Global, store: &mut Store<MemDisk>) -> R<usize> {
    let mut commits: usize = 0;
    for step in &STEPS {
        let answer = script::answer(alloc, store, step.call)?;
        if answer.as_str() != step.answer {
            break;
        }
        if step.commits {
            commits = commits.saturating_add(1);
        }
    }
    Ok(commits)
}

/// Whether what was opened has the table after so many commits, or after one more.
fn is_allowed(alloc: Global, disk: MemDisk, commits: usize) -> R<bool> {
    let Ok(mut store) = script::open(alloc, disk) else {
        return Ok(false);
    };
    let rows = script::rows(alloc, &mut store)?;
    Ok(is_table_after(&TABLES, commits, rows.as_str()))
}

/// A stop after `k` calls of the disk, and what each list leaves of it. Whether the disk failed at all.
fn stop_at(alloc: Global, k: u64, pick: u64, seen: &mut Seen) -> R<bool> {
    let mut store = script::new_store(alloc)?;
    store.disk_mut().fuse(k, pick);
    let commits = done_before_refusal(alloc, &mut store)?;
    if script::failures(&store) == 0 {
        return Ok(false);
    }
    seen.stops = seen.stops.saturating_add(1);
    let disk = store.into_disk();
    for list in 0..LISTS {
        let image = crashed(alloc, &disk, list)?;
        let right = is_allowed(alloc, image, commits)?;
        seen.add(right);
    }
    Ok(true)
}

/// `stops PICK`: a stop at each call of the disk.
pub fn stops(alloc: Global, pick: u64) -> R<String> {
    let mut seen = Seen::new();
    for k in 0..u64::MAX {
        if !stop_at(alloc, k, pick, &mut seen)? {
            break;
        }
    }
    seen.text(alloc)
}
