//! A host without links, on which a write, a read or a sync fails in the midst.

use std::alloc::Allocator;
use std::fs::{self, File, Files, Metadata, OpenFile, OpenOptions};
use std::io::{self, ErrorKind, Read, Seek, SeekFrom, Write};

/// The host's files without its links. Each that is opened gives and takes so many bytes and then fails, and is synced or not.
#[derive(Clone, Drop)]
pub(crate) struct Faulty {
    pub rt: HostRuntime,
    pub room: usize,
    pub syncs: bool,
}

#[derive(Drop)]
pub(crate) struct FaultyFile {
    file: File,
    room: usize,
    syncs: bool,
}

impl Files for Faulty {
    type File = FaultyFile;

    type Dir = <HostRuntime as Files>::Dir;

    fn open_file(&self, how: &OpenOptions, path: &str) -> io::Result<FaultyFile> {
        let file = self.rt.open_file(how, path)?;
        Ok(FaultyFile {
            file,
            room: self.room,
            syncs: self.syncs,
        })
    }

    fn open_dir(&self, path: &str) -> io::Result<Self::Dir> {
        self.rt.open_dir(path)
    }

    fn metadata(&self, path: &str) -> io::Result<Metadata> {
        fs::metadata(&self.rt, path)
    }

    fn symlink_metadata(&self, path: &str) -> io::Result<Metadata> {
        fs::symlink_metadata(&self.rt, path)
    }

    fn copy(&self, from: &str, to: &str) -> io::Result<u64> {
        self.rt.copy(from, to)
    }

    fn rename(&self, from: &str, to: &str) -> io::Result<()> {
        self.rt.rename(from, to)
    }

    fn remove_file(&self, path: &str) -> io::Result<()> {
        self.rt.remove_file(path)
    }

    fn create_dir(&self, path: &str) -> io::Result<()> {
        self.rt.create_dir(path)
    }

    fn remove_dir(&self, path: &str) -> io::Result<()> {
        self.rt.remove_dir(path)
    }

    fn remove_dir_all<B: Allocator>(&self, alloc: B, path: &str) -> io::Result<()> {
        self.rt.remove_dir_all(alloc, path)
    }
}

impl Read for FaultyFile {
    fn read(&mut self, buf: &mut [u8]) -> io::Result<usize> {
        if self.room == 0 {
            return Err(ErrorKind::Other.into());
        }
        let len = buf.len().min(self.room);
        let got = self.file.read(&mut buf[..len])?;
        self.room = self.room.saturating_sub(got);
        Ok(got)
    }
}

impl Write for FaultyFile {
    fn write(&mut self, buf: &[u8]) -> io::Result<usize> {
        if self.room == 0 {
            return Err(ErrorKind::StorageFull.into());
        }
        let put = self.file.write(&buf[..buf.len().min(self.room)])?;
        self.room = self.room.saturating_sub(put);
        Ok(put)
    }

    fn flush(&mut self) -> io::Result<()> {
        self.file.flush()
    }
}

impl Seek for FaultyFile {
    fn seek(&mut self, to: SeekFrom) -> io::Result<u64> {
        self.file.seek(to)
    }
}

impl OpenFile for FaultyFile {
    fn metadata(&self) -> io::Result<Metadata> {
        self.file.metadata()
    }

    fn set_len(&self, size: u64) -> io::Result<()> {
        self.file.set_len(size)
    }

    fn sync_all(&self) -> io::Result<()> {
        if self.syncs {
            self.file.sync_all()
        } else {
            Err(ErrorKind::Other.into())
        }
    }

    fn sync_data(&self) -> io::Result<()> {
        self.sync_all()
    }
}
