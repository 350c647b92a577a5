//! The files of a disk.

use crate::disks::{Cases, disk_of};
use bits::{R, Refusal};
use case_words::joined;
use disk::{Disk, Entry, Fault, Kind, path_in};
use mem_disk::MemDisk;
use std::alloc::Global;

/// How deep folders are looked into.
const DEPTH: usize = 4;

/// What a fault of the disk is refused as.
pub fn refusal_of(fault: Fault) -> Refusal {
    match fault {
        Fault::Memory => Refusal::Memory,
        _ => Refusal::Device,
    }
}

/// What is in some folders: the paths of the files go to `files`, those of the folders are given.
fn look_into(
    alloc: Global,
    disk: &mut MemDisk,
    folders: &[String],
    files: &mut Vec<String>,
) -> R<Vec<String>> {
    let mut deeper = Vec::new(alloc);
    for folder in folders {
        let entries = disk.list(alloc, folder.as_str()).map_err(refusal_of)?;
        put_entries(
            alloc,
            folder.as_str(),
            entries.as_slice(),
            files,
            &mut deeper,
        )?;
    }
    Ok(deeper)
}

/// The paths of some entries of a folder: that of a link, a pipe, a device or a socket has a `?` after it.
fn put_entries(
    alloc: Global,
    folder: &str,
    entries: &[Entry],
    files: &mut Vec<String>,
    deeper: &mut Vec<String>,
) -> R<()> {
    for entry in entries {
        let path = path_in(alloc, folder, entry.name.as_str()).map_err(refusal_of)?;
        match entry.kind {
            Kind::File => files.push(path)?,
            Kind::Folder => deeper.push(path)?,
            Kind::Other => files.push(format!(in alloc; "{path}?")?)?,
        }
    }
    Ok(())
}

/// The paths of all files and of all folders of a disk, in byte order.
fn paths_on(alloc: Global, disk: &mut MemDisk) -> R<(Vec<String>, Vec<String>)> {
    let mut files = Vec::new(alloc);
    let mut folders = Vec::new(alloc);
    let mut level = Vec::new(alloc);
    level.push(String::new(alloc))?;
    for _ in 0..DEPTH {
        level = look_into(alloc, disk, level.as_slice(), &mut files)?;
        for folder in &level {
            folders.push(folder.clone()?)?;
        }
    }
    files.sort()?;
    folders.sort()?;
    Ok((files, folders))
}

/// `files`: the paths of all files, in byte order.
pub fn files(alloc: Global, cases: &mut Cases) -> R<String> {
    let (files, _) = paths_on(alloc, disk_of(cases)?)?;
    joined(alloc, files.as_slice())
}

/// `folders`: the paths of all folders, in byte order.
pub fn folders(alloc: Global, cases: &mut Cases) -> R<String> {
    let (_, folders) = paths_on(alloc, disk_of(cases)?)?;
    joined(alloc, folders.as_slice())
}

/// All files and folders of a disk, as text.
pub fn all_on(alloc: Global, disk: &mut MemDisk) -> R<String> {
    let (files, folders) = paths_on(alloc, disk)?;
    let files = joined(alloc, files.as_slice())?;
    let folders = joined(alloc, folders.as_slice())?;
    Ok(format!(in alloc; "{files} in {folders}")?)
}
