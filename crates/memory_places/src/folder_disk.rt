//! The disk of a folder in memory.

ghost use Rattle.std.specs.Prelude.{◌≡◌, IsTrue, codes};
ghost use Rattle.disk.specs.declared.binding.Binding.TheVariants.{Folder};
ghost use Rattle.mem_disk.specs.Disks.{state_of, lawful_of};
ghost use Rattle.memory_places.specs.Folders.{IsDiskOfNew};

use bits::{R, Refusal};
use disk::{Binding, Disk, Entry, Failure, Fault, folder_of};
use mem_disk::MemDisk;
use places::Explains;
use std::alloc::Global;

/// Memory where a growth was refused, else Device.
fn refusal_of(fault: Fault) -> Refusal {
    match fault {
        Fault::Memory => Refusal::Memory,
        Fault::Absent | Fault::Exists | Fault::Failed => Refusal::Device,
    }
}

/// The disk in memory of a folder. Each call is that of the disk, so that its state is the disk's own.
#[derive(Drop)]
pub struct FolderDisk {
    pub disk: MemDisk,
    alloc: Global,
}

impl FolderDisk {
    /// The disk of an empty folder.
    pub fn new(alloc: Global) -> FolderDisk
        ensures { IsDiskOfNew result }
    {
        FolderDisk {
            disk: MemDisk::new(alloc),
            alloc,
        }
    }

    /// The names in the folder at a path. Refused Device where no folder is there.
    pub fn names(&mut self, folder: &str) -> R<Vec<String>> {
        let mut names = Vec::new(self.alloc);
        for entry in self.disk.list(self.alloc, folder).map_err(refusal_of)? {
            names.push(entry.name)?;
        }
        Ok(names)
    }

    /// Puts bytes at the end of a file, which need not be there, and makes it durable. Refused Device where it is not, and cannot be
    /// made.
    pub fn add(&mut self, path: &str, bytes: &[u8]) -> R<()> {
        if self.disk.named(path) == Binding::Nothing {
            self.disk.create(path).map_err(refusal_of)?;
        }
        self.disk.append(path, bytes).map_err(refusal_of)?;
        self.disk.sync(path).map_err(refusal_of)?;
        self.disk.sync_folder(folder_of(path)).map_err(refusal_of)
    }

    /// Removes a file. Refused Device where no file is there.
    pub fn take_away(&mut self, path: &str) -> R<()> {
        self.disk.remove(path).map_err(refusal_of)?;
        self.disk.sync_folder(folder_of(path)).map_err(refusal_of)
    }

    /// Makes a folder. Refused Device where it cannot be made.
    pub fn add_folder(&mut self, path: &str) -> R<()> {
        self.disk.make_folder(path).map_err(refusal_of)?;
        self.disk.sync_folder(folder_of(path)).map_err(refusal_of)
    }

    /// Whether a folder has the name of the root of a dataset.
    pub fn has_folder_as_root(&self) -> bool
        ensures { IsTrue result → (state_of self.now.disk).seen.names (codes "_metadata") ≡ Folder }
    {
        match self.disk.named("_metadata") {
            Binding::Folder => true,
            Binding::Nothing | Binding::File(_) => false,
        }
    }

    /// Whether nothing is in the folder.
    pub fn is_bare(&mut self) -> bool {
        match self.disk.list(self.alloc, "") {
            Ok(entries) => entries.is_empty(),
            Err(_) => false,
        }
    }
}

impl Explains for FolderDisk {
    // What fails in memory has no error of the system.
    fn failure(&self) -> Option<&Failure> {
        None
    }

    // Nothing is where the call was.
    fn absence(&self) -> Option<&Failure> {
        None
    }
}

impl Disk for FolderDisk {
    ghost state = { λ kept. state_of kept.disk };

    ghost lawful = { λ kept. lawful_of kept.disk };

    fn create(&mut self, path: &str) -> Result<(), Fault> {
        self.disk.create(path)
    }

    fn make_folder(&mut self, path: &str) -> Result<(), Fault> {
        self.disk.make_folder(path)
    }

    fn read_range(
        &mut self,
        alloc: Global,
        path: &str,
        from: u64,
        len: usize,
    ) -> Result<Vec<u8>, Fault> {
        self.disk.read_range(alloc, path, from, len)
    }

    fn length(&mut self, path: &str) -> Result<u64, Fault> {
        self.disk.length(path)
    }

    fn list(&mut self, alloc: Global, folder: &str) -> Result<Vec<Entry>, Fault> {
        self.disk.list(alloc, folder)
    }

    fn append(&mut self, path: &str, bytes: &[u8]) -> Result<(), Fault> {
        self.disk.append(path, bytes)
    }

    fn sync(&mut self, path: &str) -> Result<(), Fault> {
        self.disk.sync(path)
    }

    fn sync_folder(&mut self, folder: &str) -> Result<(), Fault> {
        self.disk.sync_folder(folder)
    }

    fn rename(&mut self, source: &str, target: &str) -> Result<(), Fault> {
        self.disk.rename(source, target)
    }

    fn remove(&mut self, path: &str) -> Result<(), Fault> {
        self.disk.remove(path)
    }

    fn failures(&self) -> u64 {
        self.disk.failures()
    }

    fn reads(&self) -> u64 {
        self.disk.reads()
    }
}
