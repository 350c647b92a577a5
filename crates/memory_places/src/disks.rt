//! Folders in memory, each with its disk.

ghost use Rattle.std.specs.Prelude.{◌≡◌, ◌≢◌, ◌⊎◌, None, Some, ℕ, List, IfSome, OnOk, OnErr, is_some, IsTrue};
ghost use Rattle.bits.specs.Refusals.{RefusedMemoryOnly};
ghost use Rattle.memory_places.specs.Folders.{disk_of_folder, IsDiskOfNew, HasNoDisk, HasFolderAsRoot, StayBut, Stay};
ghost use Rattle.memory_places.specs.declared.folder_disk.FolderDisk.{FolderDisk};

use crate::folder_disk::FolderDisk;
use bits::R;
use disk::Binding;
use places::Node;
use std::alloc::Global;
use std::collections::HashMap;

/// Folders in memory by their paths, each with its disk, unless that is handed out.
#[derive(Drop)]
pub struct FolderDisks {
    pub folders: HashMap<String, Option<FolderDisk>>,
}

impl FolderDisks {
    /// No folders.
    pub fn new(alloc: Global) -> FolderDisks {
        FolderDisks {
            folders: HashMap::new(alloc),
        }
    }

    /// Whether there is a folder at a path.
    pub fn has(&self, path: &str) -> bool
        ensures { is_some (disk_of_folder self.now path.now) ≡ result }
    {
        self.folders.contains_key(path)
    }

    /// Makes a folder, which is empty.
    pub fn make(&mut self, alloc: Global, path: &str) -> R<()>
        ensures made { OnOk result ((kept : FolderDisk) × IsDiskOfNew kept × (disk_of_folder self.new path.now ≡ Some (Some kept))) }
        ensures others { StayBut path.now self.old self.new }
        ensures kept { OnErr result (Stay self.old self.new) }
        ensures which { RefusedMemoryOnly result }
    {
        let name = String::from_str(alloc, path)?;
        self.folders.insert(name, Some(FolderDisk::new(alloc)))?;
        Ok(())
    }

    /// Takes a folder away.
    fn remove(&mut self, path: &str)
        ensures { StayBut path.now self.old self.new }
    {
        let _ = self.folders.remove(path);
    }

    /// Takes a folder away in which nothing is.
    pub fn remove_bare(&mut self, path: &str)
        ensures { StayBut path.now self.old self.new }
    {
        if let Some(kept) = self.take(path) {
            let mut kept = kept;
            if kept.is_bare() {
                self.remove(path);
            } else {
                self.give(path, kept);
            }
        }
    }

    /// The disk of the folder at a path; None where there is no folder, and while its disk is handed out.
    pub fn disk(&self, path: &str) -> Option<&FolderDisk>
        ensures { IfSome result (λ kept. disk_of_folder self.now path.now ≡ Some (Some kept.now)) }
    {
        match self.folders.get(path) {
            Some(Some(kept)) => Some(kept),
            _ => None,
        }
    }

    /// The same, to be changed.
    pub fn disk_mut(&mut self, path: &str) -> Option<&mut FolderDisk> {
        match self.folders.get_mut(path) {
            Some(Some(kept)) => Some(kept),
            _ => None,
        }
    }

    /// Hands out the disk of the folder at a path.
    pub fn take(&mut self, path: &str) -> Option<FolderDisk>
        ensures taken { IfSome result (λ kept. disk_of_folder self.old path.now ≡ Some (Some kept)) }
        ensures others { StayBut path.now self.old self.new }
        ensures none { result ≡ None → HasNoDisk (disk_of_folder self.old path.now) × Stay self.old self.new }
    {
        match self.folders.get_mut(path) {
            Some(slot) => slot.take(),
            None => None,
        }
    }

    /// Takes the disk of the folder at a path back.
    pub fn give(&mut self, path: &str, disk: FolderDisk)
        ensures given { (disk_of_folder self.new path.now ≡ None) ⊎ (disk_of_folder self.new path.now ≡ Some (Some disk)) }
        ensures others { StayBut path.now self.old self.new }
    {
        if let Some(slot) = self.folders.get_mut(path) {
            *slot = Some(disk);
        }
    }

    /// Whether in the folder at a path a folder has the name of the root.
    pub fn has_folder_as_root(&self, folder: &str) -> bool
        ensures { IsTrue result → HasFolderAsRoot (disk_of_folder self.now folder.now) }
    {
        match self.disk(folder) {
            Some(kept) => kept.has_folder_as_root(),
            None => false,
        }
    }

    /// What is at a path in the folder at a path; None where nothing is.
    pub fn node(&self, folder: &str, path: &str) -> Option<Node> {
        match self.disk(folder)?.disk.named(path) {
            Binding::Folder => Some(Node::Folder),
            Binding::File(_) => Some(Node::File(self.content(folder, path)?.len() as u64)),
            Binding::Nothing => None,
        }
    }

    /// The bytes of the file at a path in the folder at a path.
    pub fn content(&self, folder: &str, path: &str) -> Option<&[u8]> {
        self.disk(folder)?.disk.content(path)
    }
}
