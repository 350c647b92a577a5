//! The same lines on a folder of a host, and on a vault over it.

use crate::images::images;
use crate::lines::of_any_disk;
use crate::mem_files::MemFiles;
use crate::outcome::{Outcome, refusal_of};
use bits::{R, Refusal};
use case_words::{word, words_from};
use disk::HostDisk;
use mem_disk::MemDisk;
use std::alloc::Global;
use vault::Vault;

/// A vault over a folder of a host in memory.
#[derive(Drop)]
pub struct Host {
    vault: Vault<HostDisk<MemFiles>>,
    files: MemFiles,
}

impl Host {
    /// A host whose folder holds what a disk holds.
    pub fn over(alloc: Global, disk: MemDisk) -> R<Host> {
        let files = MemFiles::over(alloc, disk)?;
        let folder = HostDisk::new(alloc, files.clone()?, "").map_err(refusal_of)?;
        Ok(Host {
            vault: Vault::start(folder),
            files,
        })
    }

    /// What each list of words leaves of the host.
    fn images(&self, alloc: Global, words: &[&str]) -> R<Outcome> {
        match self.files.disk.try_borrow() {
            Ok(disk) => Ok(Outcome::of(images(alloc, &disk, words_from(words, 1))?)),
            Err(_) => Err(Refusal::Device),
        }
    }

    /// What a call gives, by its first word.
    fn outcome(&mut self, alloc: Global, words: &[&str]) -> R<Outcome> {
        match word(words, 0)? {
            "images" => self.images(alloc, words),
            _ => of_any_disk(alloc, &mut self.vault, words),
        }
    }

    /// What a line gives, as it is printed; None where it is no call of a folder or of a vault.
    pub fn made(&mut self, alloc: Global, line: &str) -> R<Option<String>> {
        let words: Vec<&str> = line.split_whitespace().collect(alloc)?;
        let words = words.as_slice();
        match word(words, 0)? {
            "new" | "fuse" | "fail-once" | "crash" | "shortages" | "folder-of" | "path-in" => Ok(
                None,
            ),
            _ => Ok(Some(Outcome::or_refused(alloc, self.outcome(alloc, words))?.text)),
        }
    }
}
