//! A host on which each folder that is listed also has a pipe, a name that is not UTF-8 and a name that is gone.

use std::alloc::Allocator;
use std::fs::{self, File, Files, Metadata, OpenOptions};
use std::io::{self, Read};

/// The names that each folder has too, each ended by a NUL.
const ODD: &[u8] = b"pipe\0\xff\xfe\0k=\xff\0gone\0";

/// The host's files, and those names in each folder.
#[derive(Clone, Drop)]
pub(crate) struct Odd {
    pub rt: HostRuntime,
}

#[derive(Drop)]
pub(crate) struct OddDir {
    dir: <HostRuntime as Files>::Dir,
    is_begun: bool,
}

impl Read for OddDir {
    fn read(&mut self, buf: &mut [u8]) -> io::Result<usize> {
        if self.is_begun || buf.len() < ODD.len() {
            return self.dir.read(buf);
        }
        self.is_begun = true;
        buf[..ODD.len()].copy_from_slice(ODD);
        Ok(ODD.len())
    }
}

impl Files for Odd {
    type File = File;

    type Dir = OddDir;

    fn open_file(&self, how: &OpenOptions, path: &str) -> io::Result<File> {
        self.rt.open_file(how, path)
    }

    fn open_dir(&self, path: &str) -> io::Result<OddDir> {
        Ok(OddDir {
            dir: self.rt.open_dir(path)?,
            is_begun: false,
        })
    }

    fn metadata(&self, path: &str) -> io::Result<Metadata> {
        fs::metadata(&self.rt, path)
    }

    // A device is another kind of node, as a pipe is.
    fn symlink_metadata(&self, path: &str) -> io::Result<Metadata> {
        if path.ends_with("/pipe") {
            fs::symlink_metadata(&self.rt, "/dev/null")
        } else {
            fs::symlink_metadata(&self.rt, path)
        }
    }

    fn copy(&self, from: &str, to: &str) -> io::Result<u64> {
        self.rt.copy(from, to)
    }

    fn rename(&self, from: &str, to: &str) -> io::Result<()> {
        self.rt.rename(from, to)
    }

    fn remove_file(&self, path: &str) -> io::Result<()> {
        self.rt.remove_file(path)
    }

    fn create_dir(&self, path: &str) -> io::Result<()> {
        self.rt.create_dir(path)
    }

    fn remove_dir(&self, path: &str) -> io::Result<()> {
        self.rt.remove_dir(path)
    }

    fn remove_dir_all<B: Allocator>(&self, alloc: B, path: &str) -> io::Result<()> {
        self.rt.remove_dir_all(alloc, path)
    }
}
