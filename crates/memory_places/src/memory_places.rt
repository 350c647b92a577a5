//! Datasets in folders in memory.

ghost use Rattle.std.specs.Prelude.{◌≡◌};
ghost use Rattle.bits.specs.declared.refusal.Refusal.TheVariants.{Device};
ghost use Rattle.memory_places.specs.Folders.{known_in_memory};

use crate::disks::FolderDisks;
use crate::folder_disk::FolderDisk;
use crate::layout::{IS_FOLDER, Layout, NO_FOLDER};
use crate::memory_reader::MemoryReader;
use bits::{R, Refusal};
use places::{Access, Node, Notes, Patience, Places, Readers, Reason};
use program::folder_of;
use std::alloc::Global;
use std::io::{self, Write};

/// A lock: nobody else has what it is on.
#[derive(Drop)]
pub struct Held;

/// Files in memory, as they are when a call begins, and folders with their disks.
#[derive(Drop)]
pub struct MemoryPlaces<'a> {
    pub layout: &'a Layout,
    pub disks: FolderDisks,
}

/// What is refused where the system refuses something at a path, which is noted.
fn refused_at(path: &str, error: io::Error, notes: &Notes) -> Refusal
    ensures { result ≡ Device }
{
    notes.note_refused(path, error);
    Refusal::Device
}

impl Places for MemoryPlaces<'_> {
    type Disk = FolderDisk;

    type Held = Held;

    type Reader = MemoryReader;

    ghost known = { λ places. known_in_memory places.layout.now places.disks };

    fn bytes(&mut self, alloc: Global, path: &str, notes: &Notes) -> R<Vec<u8>> {
        match self.layout.file(path) {
            Some(bytes) => {
                let copy = Vec::from_slice(alloc, bytes)?;
                Ok(copy)
            }
            None => Err(refused_at(path, self.layout.no_file(path), notes)),
        }
    }

    fn reader(&mut self, alloc: Global, path: &str, notes: &Notes) -> R<MemoryReader> {
        let bytes = self.bytes(alloc, path, notes)?;
        Ok(MemoryReader::new(bytes))
    }

    fn ends(&mut self, alloc: Global, path: &str, notes: &Notes) -> R<Vec<u8>> {
        self.bytes(alloc, path, notes)
    }

    fn is_folder(&self, path: &str) -> bool {
        self.disks.has(path)
    }

    fn make_folder(&mut self, alloc: Global, folder: &str, notes: &Notes) -> R<bool> {
        if self.disks.has(folder) {
            return Ok(false);
        }
        if self.layout.has(folder) {
            let error = io::Error::from_raw_os_error(NO_FOLDER);
            return Err(refused_at(folder, error, notes));
        }
        if self.layout.folder(folder_of(folder)).is_none() {
            notes.note_unmade(folder, self.layout.nothing(folder));
            return Err(Refusal::Device);
        }
        self.disks.make(alloc, folder)?;
        Ok(true)
    }

    fn remove_folder(&mut self, folder: &str) {
        self.disks.remove_bare(folder);
    }

    fn check_root_name(&mut self, alloc: Global, folder: &str, notes: &Notes) -> R<()> {
        if !self.disks.has_folder_as_root(folder) {
            return Ok(());
        }
        let path = format!(in alloc; "{folder}/_metadata")?;
        let error = io::Error::from_raw_os_error(IS_FOLDER);
        Err(refused_at(path.as_str(), error, notes))
    }

    fn lock<E: Write>(
        &mut self,
        folder: &str,
        _access: Access,
        _patience: Patience,
        _err: &mut E,
        _why: &mut Option<Reason>,
    ) -> R<Held> {
        if self.disks.has(folder) {
            Ok(Held)
        } else {
            Err(Refusal::Device)
        }
    }

    fn share<E: Write>(
        &mut self,
        _alloc: Global,
        _folder: &str,
        _patience: Patience,
        _err: &mut E,
        _why: &mut Option<Reason>,
    ) -> R<Option<Held>> {
        Ok(None)
    }

    fn keep_out(&mut self, _alloc: Global, _folder: &str, _seconds: u64) -> Readers<Held> {
        Readers::Out(Held)
    }

    fn wait_out<E: Write>(
        &mut self,
        _alloc: Global,
        _folder: &str,
        _patience: Patience,
        _err: &mut E,
        _why: &mut Option<Reason>,
    ) -> R<Readers<Held>> {
        Ok(Readers::Out(Held))
    }

    fn make_lock(&mut self, _alloc: Global, _folder: &str) {}

    fn take(&mut self, _alloc: Global, folder: &str) -> R<FolderDisk> {
        self.disks.take(folder).ok_or(Refusal::Device)
    }

    fn give(&mut self, folder: &str, disk: FolderDisk) {
        self.disks.give(folder, disk);
    }

    fn at_folder(&self, folder: &str, _follows: bool) -> io::Result<Node> {
        if self.disks.has(folder) {
            return Ok(Node::Folder);
        }
        match self.layout.file(folder) {
            Some(bytes) => Ok(Node::File(bytes.len() as u64)),
            None => Err(self.layout.nothing(folder)),
        }
    }

    fn in_folder(
        &self,
        _alloc: Global,
        folder: &str,
        path: &str,
        _follows: bool,
    ) -> R<Option<Node>> {
        Ok(self.disks.node(folder, path))
    }

    fn part(&self, alloc: Global, folder: &str, path: &str, _notes: &Notes) -> R<Vec<u8>> {
        match self.disks.content(folder, path) {
            Some(bytes) => {
                let copy = Vec::from_slice(alloc, bytes)?;
                Ok(copy)
            }
            None => Err(Refusal::Device),
        }
    }
}
