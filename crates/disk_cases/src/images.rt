//! What a disk holds, and what a stop leaves of it.

use crate::arguments::lists;
use crate::outcome::{joined, refusal_of, shown_file};
use bits::R;
use case_words::listed;
use disk::{Disk, Entry, Kind, path_in};
use mem_disk::MemDisk;
use std::alloc::Global;

/// How deep folders are looked into.
const DEPTH: usize = 4;

/// A file's path and its bytes.
fn shown_path<D: Disk>(alloc: Global, disk: &mut D, path: &str) -> R<String> {
    let bytes = disk
        .read_range(alloc, path, 0, usize::MAX)
        .map_err(refusal_of)?;
    let bytes = shown_file(alloc, bytes.as_slice())?;
    Ok(format!(in alloc; "{path}={bytes}")?)
}

/// What is in a folder: its files with their bytes and its folders go to `found`, the paths of its folders to `deeper`.
fn look_into<D: Disk>(
    alloc: Global,
    disk: &mut D,
    folder: &str,
    found: &mut Vec<String>,
    deeper: &mut Vec<String>,
) -> R<()> {
    let entries: Vec<Entry> = disk.list(alloc, folder).map_err(refusal_of)?;
    for entry in &entries {
        let path = path_in(alloc, folder, entry.name.as_str()).map_err(refusal_of)?;
        match entry.kind {
            Kind::File => found.push(shown_path(alloc, disk, path.as_str())?)?,
            Kind::Folder => {
                found.push(format!(in alloc; "{path}/")?)?;
                deeper.push(path)?;
            }
            Kind::Other => found.push(format!(in alloc; "{path}?")?)?,
        }
    }
    Ok(())
}

/// The folders in some folders.
fn look_deeper<D: Disk>(
    alloc: Global,
    disk: &mut D,
    folders: &[String],
    found: &mut Vec<String>,
) -> R<Vec<String>> {
    let mut deeper = Vec::new(alloc);
    for folder in folders {
        look_into(alloc, disk, folder.as_str(), found, &mut deeper)?;
    }
    Ok(deeper)
}

/// All folders and files as the disk reads, each file with its bytes, in byte order; a call of the disk for each of them.
pub fn image<D: Disk>(alloc: Global, disk: &mut D) -> R<String> {
    let mut found = Vec::new(alloc);
    let mut folders = Vec::new(alloc);
    folders.push(String::new(alloc))?;
    for _ in 0..DEPTH {
        folders = look_deeper(alloc, disk, folders.as_slice(), &mut found)?;
    }
    found.sort()?;
    joined(alloc, found.as_slice(), ",")
}

/// What a stop leaves of a disk, by a list of words.
pub fn left(disk: &MemDisk, words: &[u64]) -> R<MemDisk> {
    disk.crash(words).map_err(refusal_of)
}

/// `images WORD..`: what each list of words leaves of the disk, which stays as it is.
pub fn images(alloc: Global, disk: &MemDisk, words: &[&str]) -> R<String> {
    let mut images = Vec::new(alloc);
    for list in &lists(alloc, words)? {
        let mut left = left(disk, list.as_slice())?;
        images.push(image(alloc, &mut left)?)?;
    }
    listed(alloc, images.as_slice())
}
