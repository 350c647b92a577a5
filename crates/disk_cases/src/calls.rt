//! Calls of the disk.

use crate::arguments::{bytes, choices, path};
use crate::images::left;
use crate::outcome::{Outcome, shown_file, shown_names};
use bits::{R, Refusal};
use case_words::{natural, word, words_from};
use disk::{Disk, folder_of, path_in};
use mem_disk::MemDisk;
use std::alloc::Global;

/// A call that changes something.
pub fn change<D: Disk>(alloc: Global, disk: &mut D, words: &[&str]) -> R<Outcome> {
    let at = path(words, 1)?;
    let done = match word(words, 0)? {
        "create" => disk.create(at),
        "folder" => disk.make_folder(at),
        "append" => {
            let bytes = bytes(alloc, words, 2)?;
            disk.append(at, bytes.as_slice())
        }
        "sync" => disk.sync(at),
        "sync-folder" => disk.sync_folder(at),
        "rename" => disk.rename(at, path(words, 2)?),
        "remove" => disk.remove(at),
        _ => return Err(Refusal::Script),
    };
    Outcome::of_call(alloc, done)
}

/// `read PATH FROM LEN`: a range of a file's bytes.
pub fn read<D: Disk>(alloc: Global, disk: &mut D, words: &[&str]) -> R<Outcome> {
    let from = natural(word(words, 2)?)?;
    let len = natural(word(words, 3)?)? as usize;
    match disk.read_range(alloc, path(words, 1)?, from, len) {
        Ok(bytes) => Ok(Outcome::of(shown_file(alloc, bytes.as_slice())?)),
        Err(fault) => Outcome::fault(alloc, fault),
    }
}

/// `length PATH`: how many bytes a file has.
pub fn length<D: Disk>(alloc: Global, disk: &mut D, words: &[&str]) -> R<Outcome> {
    match disk.length(path(words, 1)?) {
        Ok(length) => Outcome::of_count(alloc, length),
        Err(fault) => Outcome::fault(alloc, fault),
    }
}

/// `list FOLDER`: the names in a folder.
pub fn list<D: Disk>(alloc: Global, disk: &mut D, words: &[&str]) -> R<Outcome> {
    match disk.list(alloc, path(words, 1)?) {
        Ok(entries) => Ok(Outcome::of(shown_names(alloc, entries.as_slice())?)),
        Err(fault) => Outcome::fault(alloc, fault),
    }
}

/// `count FOLDER`: how many names are in a folder.
pub fn count<D: Disk>(alloc: Global, disk: &mut D, words: &[&str]) -> R<Outcome> {
    match disk.list(alloc, path(words, 1)?) {
        Ok(entries) => Outcome::of_count(alloc, entries.len() as u64),
        Err(fault) => Outcome::fault(alloc, fault),
    }
}

/// `failures`, `reads`: what every disk counts.
pub fn counter<D: Disk>(alloc: Global, disk: &D, words: &[&str]) -> R<Outcome> {
    let counted = match word(words, 0)? {
        "failures" => disk.failures(),
        _ => disk.reads(),
    };
    Outcome::of_count(alloc, counted)
}

/// `fuse K PICK`, `fail-once K PICK`: K calls of the disk pass, and then all fail, or one.
pub fn plan(alloc: Global, disk: &mut MemDisk, words: &[&str]) -> R<Outcome> {
    let passes = natural(word(words, 1)?)?;
    let pick = natural(word(words, 2)?)?;
    match word(words, 0)? {
        "fuse" => disk.fuse(passes, pick),
        _ => disk.fail_once(passes, pick),
    }
    Outcome::ok(alloc)
}

/// `crash WORD..`: the disk is what the words say that a stop leaves.
pub fn crash(alloc: Global, disk: &mut MemDisk, words: &[&str]) -> R<Outcome> {
    let mut picks = Vec::new(alloc);
    for word in words_from(words, 1) {
        for pick in &choices(alloc, word)? {
            picks.push(*pick)?;
        }
    }
    *disk = left(disk, picks.as_slice())?;
    Outcome::ok(alloc)
}

/// A path as it is printed: `""` is the dataset's own folder.
fn shown_path(alloc: Global, path: &str) -> R<String> {
    Ok(String::from_str(alloc, if path.is_empty() { "\"\"" } else { path })?)
}

/// `folder-of PATH`: the folder that a path lies in; `path-in FOLDER NAME`: the path of a name in a folder.
pub fn of_paths(alloc: Global, words: &[&str]) -> R<Outcome> {
    let at = path(words, 1)?;
    if word(words, 0)? == "folder-of" {
        return Ok(Outcome::of(shown_path(alloc, folder_of(at))?));
    }
    match path_in(alloc, at, word(words, 2)?) {
        Ok(path) => Ok(Outcome::of(path)),
        Err(fault) => Outcome::fault(alloc, fault),
    }
}
