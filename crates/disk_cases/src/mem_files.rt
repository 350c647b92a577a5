//! A host in memory: the kit's trait of files over a [`MemDisk`]. Each request to the system is a call of that disk, as the table
//! in docs/DISK.md has them, so what a crash leaves of the host is what it leaves of the disk.

use bits::R;
use disk::{Disk, Entry, Fault};
use mem_disk::MemDisk;
use std::alloc::{Allocator, Global};
use std::cell::RefCell;
use std::fs::{Files, Metadata, OpenFile, OpenOptions};
use std::io::{self, ErrorKind, Read, Seek, SeekFrom, Write};
use std::rc::Rc;

/// The most bytes that a single request reads or writes.
const MOST: usize = 400;

/// The host's files. The folder that the program runs in is the disk's own, and nothing else is there.
#[derive(Clone, Drop)]
pub struct MemFiles {
    alloc: Global,
    pub disk: Rc<RefCell<MemDisk>>,
}

/// An open file or folder, which is found by its path at each request.
#[derive(Drop)]
pub struct MemFile {
    files: MemFiles,
    path: String,
    is_folder: bool,
    appends: bool,
    at: u64,
}

/// The names of an open folder that are still to be read.
#[derive(Drop)]
pub struct MemFolder {
    entries: Vec<Entry>,
}

/// The error that the system reports for a fault.
fn error_of(fault: Fault) -> io::Error {
    let kind = match fault {
        Fault::Absent => ErrorKind::NotFound,
        Fault::Exists => ErrorKind::AlreadyExists,
        Fault::Failed => ErrorKind::Other,
        Fault::Memory => ErrorKind::OutOfMemory,
    };
    kind.into()
}

/// What this host does not do.
fn unsupported<T: Drop>() -> io::Result<T> {
    Err(ErrorKind::Unsupported.into())
}

/// The disk's path of a place on the host.
fn path_of(place: &str) -> io::Result<&str> {
    let place = place.strip_suffix('/').unwrap_or(place);
    if place == "." {
        return Ok("");
    }
    place.strip_prefix("./").ok_or(ErrorKind::NotFound.into())
}

impl MemFiles {
    /// A host with the folders and files of a disk.
    pub fn over(alloc: Global, disk: MemDisk) -> R<MemFiles> {
        Ok(MemFiles {
            alloc,
            disk: Rc::new(alloc, RefCell::new(disk))?,
        })
    }

    /// What is at a path.
    fn look(&self, path: &str) -> io::Result<Metadata> {
        if path.is_empty() {
            return Ok(Metadata::of_dir());
        }
        let mut disk = self.disk.try_borrow_mut()?;
        match disk.length(path) {
            Ok(length) => Ok(Metadata::of_file(length)),
            Err(Fault::Absent) => match disk.list(self.alloc, path) {
                Ok(_) => Ok(Metadata::of_dir()),
                Err(fault) => Err(error_of(fault)),
            },
            Err(fault) => Err(error_of(fault)),
        }
    }

    /// Makes an empty file.
    fn create(&self, path: &str) -> io::Result<()> {
        let mut disk = self.disk.try_borrow_mut()?;
        disk.create(path).map_err(error_of)
    }
}

impl Files for MemFiles {
    type File = MemFile;

    type Dir = MemFolder;

    fn open_file(&self, how: &OpenOptions, place: &str) -> io::Result<MemFile> {
        how.check()?;
        let path = path_of(place)?;
        if how.asks_create_new() {
            self.create(path)?;
        } else if how.asks_create() || how.asks_truncate() {
            return unsupported();
        }
        let found = self.look(path)?;
        Ok(MemFile {
            files: self.clone()?,
            path: String::from_str(self.alloc, path)?,
            is_folder: found.is_dir(),
            appends: how.asks_append(),
            at: 0,
        })
    }

    fn open_dir(&self, place: &str) -> io::Result<MemFolder> {
        let path = path_of(place)?;
        let mut disk = self.disk.try_borrow_mut()?;
        match disk.list(self.alloc, path) {
            Ok(entries) => Ok(MemFolder { entries }),
            Err(fault) => Err(error_of(fault)),
        }
    }

    fn metadata(&self, place: &str) -> io::Result<Metadata> {
        self.look(path_of(place)?)
    }

    fn symlink_metadata(&self, place: &str) -> io::Result<Metadata> {
        self.look(path_of(place)?)
    }

    fn copy(&self, _from: &str, _to: &str) -> io::Result<u64> {
        unsupported()
    }

    fn rename(&self, from: &str, to: &str) -> io::Result<()> {
        let (source, target) = (path_of(from)?, path_of(to)?);
        let mut disk = self.disk.try_borrow_mut()?;
        disk.rename(source, target).map_err(error_of)
    }

    fn remove_file(&self, place: &str) -> io::Result<()> {
        let path = path_of(place)?;
        let mut disk = self.disk.try_borrow_mut()?;
        disk.remove(path).map_err(error_of)
    }

    fn create_dir(&self, place: &str) -> io::Result<()> {
        let path = path_of(place)?;
        if self.look(path).is_ok() {
            return Err(ErrorKind::AlreadyExists.into());
        }
        let mut disk = self.disk.try_borrow_mut()?;
        disk.make_folder(path).map_err(error_of)
    }

    fn remove_dir(&self, _place: &str) -> io::Result<()> {
        unsupported()
    }

    fn remove_dir_all<B: Allocator>(&self, _alloc: B, _place: &str) -> io::Result<()> {
        unsupported()
    }
}

impl Read for MemFile {
    fn read(&mut self, buf: &mut [u8]) -> io::Result<usize> {
        let most = buf.len().min(MOST);
        let mut disk = self.files.disk.try_borrow_mut()?;
        let range = disk.read_range(self.files.alloc, self.path.as_str(), self.at, most);
        let bytes = range.map_err(error_of)?;
        let count = bytes.as_slice().read(buf)?;
        self.at = self.at.saturating_add(count as u64);
        Ok(count)
    }
}

impl Write for MemFile {
    fn write(&mut self, buf: &[u8]) -> io::Result<usize> {
        if !self.appends {
            return Err(ErrorKind::Unsupported.into());
        }
        let count = buf.len().min(MOST);
        let mut disk = self.files.disk.try_borrow_mut()?;
        disk.append(self.path.as_str(), &buf[..count])
            .map_err(error_of)?;
        Ok(count)
    }

    fn flush(&mut self) -> io::Result<()> {
        Ok(())
    }
}

impl Seek for MemFile {
    fn seek(&mut self, to: SeekFrom) -> io::Result<u64> {
        match to {
            SeekFrom::Start(at) => {
                self.at = at;
                Ok(at)
            }
            SeekFrom::End(_) | SeekFrom::Current(_) => unsupported(),
        }
    }
}

impl OpenFile for MemFile {
    fn metadata(&self) -> io::Result<Metadata> {
        self.files.look(self.path.as_str())
    }

    fn set_len(&self, _size: u64) -> io::Result<()> {
        unsupported()
    }

    fn sync_all(&self) -> io::Result<()> {
        let path = self.path.as_str();
        let mut disk = self.files.disk.try_borrow_mut()?;
        let done = if self.is_folder {
            disk.sync_folder(path)
        } else {
            disk.sync(path)
        };
        done.map_err(error_of)
    }

    fn sync_data(&self) -> io::Result<()> {
        unsupported()
    }
}

impl Read for MemFolder {
    fn read(&mut self, buf: &mut [u8]) -> io::Result<usize> {
        let Some(entry) = self.entries.pop() else {
            return Ok(0);
        };
        let mut name = entry.name;
        name.push('\0')?;
        if buf.len() < name.len() {
            return Err(ErrorKind::InvalidInput.into());
        }
        name.as_bytes().read(buf)
    }
}
