//! Openings of a table while a call of the disk fails, for each of their calls in turn.

use crate::calls::rows_of;
use crate::disks::Cases;
use crate::listing::{all_on, refusal_of};
use bits::{R, Refusal};
use case_words::{natural, word};
use disk::Disk;
use footer::WriteOptions;
use mem_disk::MemDisk;
use std::alloc::Global;
use store::Store;

/// How many lists of words there are: all 0, all 1, and 16 assorted ones.
const LISTS: u64 = 18;

/// How many words a list has.
const WORDS: u64 = 64;

/// The words of a list.
fn words_of(alloc: Global, list: u64) -> R<Vec<u64>> {
    let mut words = Vec::new(alloc);
    let mut word = if list < 2 {
        list
    } else {
        list.saturating_sub(1)
    };
    for _ in 0..WORDS {
        words.push(word)?;
        if list > 1 {
            word = word
                .wrapping_mul(6_364_136_223_846_793_005)
                .wrapping_add(1_442_695_040_888_963_407);
        }
    }
    Ok(words)
}

/// What a stop leaves by a list of words.
fn image_of(alloc: Global, disk: &MemDisk, list: u64) -> R<MemDisk> {
    let words = words_of(alloc, list)?;
    disk.crash(words.as_slice()).map_err(refusal_of)
}

/// What the loops have seen.
#[derive(Drop)]
struct Seen {
    /// The calls of the disk that failed.
    failures: u64,
    /// The openings that were refused because a call of the disk failed.
    refused: u64,
    /// The images that stops left, which were opened again.
    images: u64,
    /// The outcomes that may not be.
    wrong: u64,
}

impl Seen {
    fn new() -> Seen {
        Seen {
            failures: 0,
            refused: 0,
            images: 0,
            wrong: 0,
        }
    }

    /// Counts an outcome that may not be, where it is not right.
    fn note(&mut self, is_right: bool) {
        if !is_right {
            self.wrong = self.wrong.saturating_add(1);
        }
    }
}

/// The table of a disk, as text: its rows, and all files and folders after the opening. None where it is not opened, or
/// where the opening met a fault.
fn whole(alloc: Global, disk: MemDisk, options: WriteOptions) -> R<Option<String>> {
    match store::open(alloc, disk, options) {
        Ok(mut store) => {
            if !store.is_clean() {
                return Ok(None);
            }
            Ok(Some(whole_of(alloc, &mut store)?))
        }
        Err((_, Refusal::Memory)) => Err(Refusal::Memory),
        Err(_) => Ok(None),
    }
}

/// The table of a store, as text.
fn whole_of(alloc: Global, store: &mut Store<MemDisk>) -> R<String> {
    let rows = rows_of(alloc, store)?;
    let files = all_on(alloc, store.disk_mut())?;
    Ok(format!(in alloc; "{rows} {files}")?)
}

/// Opens each image of a disk: it has the table, and nothing else.
fn open_images(
    alloc: Global,
    disk: &MemDisk,
    options: WriteOptions,
    wanted: &str,
    seen: &mut Seen,
) -> R<()> {
    for list in 0..LISTS {
        let found = whole(alloc, image_of(alloc, disk, list)?, options)?;
        seen.note(found.is_some_and(|found| found.as_str() == wanted));
        seen.images = seen.images.saturating_add(1);
    }
    Ok(())
}

/// Opens a disk of which a call may fail, and all later ones; then each image of what is left. Whether one failed.
fn stopped(
    alloc: Global,
    disk: MemDisk,
    options: WriteOptions,
    wanted: &str,
    seen: &mut Seen,
) -> R<bool> {
    let left = match store::open(alloc, disk, options) {
        Ok(store) => {
            let is_clean = store.is_clean();
            let left = store.into_disk();
            seen.note(is_clean == (left.failures() == 0));
            left
        }
        Err((left, Refusal::Device)) => {
            seen.note(left.failures() == 1);
            seen.refused = seen.refused.saturating_add(1);
            left
        }
        Err((_, refusal)) => return Err(refusal),
    };
    open_images(alloc, &left, options, wanted, seen)?;
    Ok(left.failures() > 0)
}

/// Opens a disk of which one call may fail; then the store anew, which has the table and nothing else. Whether one failed.
fn failed(
    alloc: Global,
    disk: MemDisk,
    options: WriteOptions,
    wanted: &str,
    seen: &mut Seen,
) -> R<bool> {
    let mut store = match store::open(alloc, disk, options) {
        Ok(store) => store,
        Err((_, Refusal::Device)) => {
            seen.refused = seen.refused.saturating_add(1);
            return Ok(true);
        }
        Err((_, refusal)) => return Err(refusal),
    };
    if store.disk().failures() == 0 {
        seen.note(store.is_clean());
        return Ok(false);
    }
    seen.note(store.disk().failures() == 1 && !store.is_clean());
    store.reopen(alloc)?;
    let found = whole_of(alloc, &mut store)?;
    seen.note(store.is_clean() && found.as_str() == wanted);
    Ok(true)
}

/// The table of a disk after an opening without a failure; Script where it has none.
fn wanted_of(alloc: Global, disk: &MemDisk, options: WriteOptions) -> R<String> {
    let copy = image_of(alloc, disk, 1)?;
    whole(alloc, copy, options)?.ok_or(Refusal::Script)
}

/// `opening-stops SIZE PICK`: the store is given up. The table is opened on copies of its disk that fail from call k on, for each k,
/// until none fails; what a stop then leaves, by each list of words, has the table and nothing else after one more opening.
pub fn opening_stops(alloc: Global, cases: &mut Cases, words: &[&str]) -> R<String> {
    let options = cases.options_of(word(words, 1)?)?;
    let pick = natural(word(words, 2)?)?;
    let disk = cases.take_disk()?;
    let wanted = wanted_of(alloc, &disk, options)?;
    let mut seen = Seen::new();
    for k in 0..u64::MAX {
        let mut copy = image_of(alloc, &disk, 1)?;
        copy.fuse(k, pick);
        if !stopped(alloc, copy, options, wanted.as_str(), &mut seen)? {
            break;
        }
        seen.failures = seen.failures.saturating_add(1);
    }
    cases.disk = Some(disk);
    let (failures, refused) = (seen.failures, seen.refused);
    let (images, wrong) = (seen.images, seen.wrong);
    Ok(format!(in alloc;
        "{failures} stops, {refused} refused, {images} images, not allowed: {wrong}"
    )?)
}

/// `opening-failures SIZE PICK`: the store is given up. The table is opened on copies of its disk of which only call k fails, for
/// each k, until none fails. The store is open then, unless the root could not be read, and after a `reopen` it has the table
/// and nothing else.
pub fn opening_failures(alloc: Global, cases: &mut Cases, words: &[&str]) -> R<String> {
    let options = cases.options_of(word(words, 1)?)?;
    let pick = natural(word(words, 2)?)?;
    let disk = cases.take_disk()?;
    let wanted = wanted_of(alloc, &disk, options)?;
    let mut seen = Seen::new();
    for k in 0..u64::MAX {
        let mut copy = image_of(alloc, &disk, 1)?;
        copy.fail_once(k, pick);
        if !failed(alloc, copy, options, wanted.as_str(), &mut seen)? {
            break;
        }
        seen.failures = seen.failures.saturating_add(1);
    }
    cases.disk = Some(disk);
    let (failures, refused, wrong) = (seen.failures, seen.refused, seen.wrong);
    Ok(format!(in alloc; "{failures} failures, {refused} refused, not allowed: {wrong}")?)
}
