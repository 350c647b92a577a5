//! What is done to the files of a disk, past the store.

use crate::disks::{Cases, disk_of, ok};
use crate::listing::refusal_of;
use bits::{R, Refusal};
use case_words::{bytes, count, word};
use disk::Disk;
use mem_disk::MemDisk;
use std::alloc::Global;

/// The folders above a path, the highest first, which is the dataset's own.
fn folders_above(alloc: Global, path: &str) -> R<Vec<String>> {
    let mut folders = Vec::new(alloc);
    folders.push(String::new(alloc))?;
    let Some((way, _)) = path.rsplit_once('/') else {
        return Ok(folders);
    };
    let mut folder = String::new(alloc);
    for name in way.split('/') {
        if !folder.is_empty() {
            folder.push_str("/")?;
        }
        folder.push_str(name)?;
        folders.push(folder.clone()?)?;
    }
    Ok(folders)
}

/// Makes a file that is not there, and folders for it; nothing is synced.
fn make_file(alloc: Global, disk: &mut MemDisk, path: &str, bytes: &[u8]) -> R<()> {
    let folders = folders_above(alloc, path)?;
    for folder in folders.as_slice().get(1..).unwrap_or(&[]) {
        disk.make_folder(folder.as_str()).map_err(refusal_of)?;
    }
    disk.create(path).map_err(refusal_of)?;
    disk.append(path, bytes).map_err(refusal_of)
}

/// Makes a file, its names and its bytes durable.
fn sync_file(alloc: Global, disk: &mut MemDisk, path: &str) -> R<()> {
    disk.sync(path).map_err(refusal_of)?;
    let folders = folders_above(alloc, path)?;
    for folder in &folders {
        disk.sync_folder(folder.as_str()).map_err(refusal_of)?;
    }
    Ok(())
}

/// `put PATH BYTES`: a new file of these bytes, and folders for it, all durable.
pub fn put(alloc: Global, cases: &mut Cases, words: &[&str]) -> R<String> {
    let path = word(words, 1)?;
    let bytes = bytes(alloc, words, 2)?;
    let disk = disk_of(cases)?;
    make_file(alloc, disk, path, bytes.as_slice())?;
    sync_file(alloc, disk, path)?;
    ok(alloc)
}

/// `leave PATH BYTES`: a new file of these bytes, and folders for it; nothing is synced.
pub fn leave(alloc: Global, cases: &mut Cases, words: &[&str]) -> R<String> {
    let bytes = bytes(alloc, words, 2)?;
    make_file(alloc, disk_of(cases)?, word(words, 1)?, bytes.as_slice())?;
    ok(alloc)
}

/// `remove PATH`: takes a file away, which is durable.
pub fn remove(alloc: Global, cases: &mut Cases, words: &[&str]) -> R<String> {
    let path = word(words, 1)?;
    let disk = disk_of(cases)?;
    disk.remove(path).map_err(refusal_of)?;
    let folders = folders_above(alloc, path)?;
    if let Some(folder) = folders.as_slice().last() {
        disk.sync_folder(folder.as_str()).map_err(refusal_of)?;
    }
    ok(alloc)
}

/// The bytes of a file with others from a place on; Script where it has no such place.
fn changed(alloc: Global, disk: &mut MemDisk, path: &str, at: usize, new: &[u8]) -> R<Vec<u8>> {
    let length = disk.length(path).map_err(refusal_of)?;
    let whole = disk.read_range(alloc, path, 0, length as usize);
    let mut whole = whole.map_err(refusal_of)?;
    for (place, byte) in new.iter().enumerate() {
        match whole.get_mut(at.saturating_add(place)) {
            Some(old) => *old = *byte,
            None => return Err(Refusal::Script),
        }
    }
    Ok(whole)
}

/// `change PATH PLACE BYTES`: a file has these bytes from a place on, as if it had been made so.
pub fn change(alloc: Global, cases: &mut Cases, words: &[&str]) -> R<String> {
    let path = word(words, 1)?;
    let at = count(words, 2)?;
    let new = bytes(alloc, words, 3)?;
    let disk = disk_of(cases)?;
    let whole = changed(alloc, disk, path, at, new.as_slice())?;
    disk.remove(path).map_err(refusal_of)?;
    make_file(alloc, disk, path, whole.as_slice())?;
    sync_file(alloc, disk, path)?;
    // The file was read for this line, and not by a call.
    cases.told_reads(1);
    ok(alloc)
}

/// `bytes PATH`: the bytes of a file.
pub fn bytes_at(alloc: Global, cases: &mut Cases, words: &[&str]) -> R<String> {
    let whole = changed(alloc, disk_of(cases)?, word(words, 1)?, 0, &[])?;
    cases.told_reads(1);
    case_words::hexed(alloc, whole.as_slice())
}
