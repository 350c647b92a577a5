//! A host on which another process gives a file's name to another file just after the name was looked at.

use std::alloc::Allocator;
use std::fs::{self, File, Files, Metadata, OpenOptions};
use std::io;

/// The host's files, where each look at the name `name` is followed by a rename of `next` onto it, while there is a `next`.
#[derive(Clone, Drop)]
pub(crate) struct Swapping {
    pub rt: HostRuntime,
    pub name: String,
    pub next: String,
}

impl Files for Swapping {
    type File = File;

    type Dir = <HostRuntime as Files>::Dir;

    fn open_file(&self, how: &OpenOptions, path: &str) -> io::Result<File> {
        self.rt.open_file(how, path)
    }

    fn open_dir(&self, path: &str) -> io::Result<Self::Dir> {
        self.rt.open_dir(path)
    }

    fn metadata(&self, path: &str) -> io::Result<Metadata> {
        fs::metadata(&self.rt, path)
    }

    fn symlink_metadata(&self, path: &str) -> io::Result<Metadata> {
        let found = fs::symlink_metadata(&self.rt, path);
        if path == self.name.as_str() {
            let _ = fs::rename(&self.rt, self.next.as_str(), path);
        }
        found
    }

    fn copy(&self, from: &str, to: &str) -> io::Result<u64> {
        self.rt.copy(from, to)
    }

    fn rename(&self, from: &str, to: &str) -> io::Result<()> {
        self.rt.rename(from, to)
    }

    fn remove_file(&self, path: &str) -> io::Result<()> {
        self.rt.remove_file(path)
    }

    fn create_dir(&self, path: &str) -> io::Result<()> {
        self.rt.create_dir(path)
    }

    fn remove_dir(&self, path: &str) -> io::Result<()> {
        self.rt.remove_dir(path)
    }

    fn remove_dir_all<B: Allocator>(&self, alloc: B, path: &str) -> io::Result<()> {
        self.rt.remove_dir_all(alloc, path)
    }
}
