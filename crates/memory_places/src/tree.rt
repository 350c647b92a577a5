//! A tree of files and folders in memory.

use crate::calling::{Called, made_call};
use crate::disks::FolderDisks;
use crate::folder_disk::FolderDisk;
use crate::layout::{Layout, There};
use bits::{R, Refusal};
use disk::Binding;
use program::Terminals;
use std::alloc::Global;
use std::collections::HashMap;
use std::io::Write;
use std::mem;

/// Files by their paths, and folders with disks. A file or folder whose path begins with that of a folder and a slash is on the
/// disk of that folder, of the longest such path. Each path is a name of its own: `a`, `./a` and `a/` are three. There are two folders
/// at first, `.` and `/`.
#[derive(Drop)]
pub struct Tree {
    alloc: Global,
    files: HashMap<String, Vec<u8>>,
    disks: FolderDisks,
}

impl Tree {
    /// A tree without files.
    pub fn new(alloc: Global) -> R<Tree> {
        let mut disks = FolderDisks::new(alloc);
        disks.make(alloc, ".")?;
        disks.make(alloc, "/")?;
        Ok(Tree {
            alloc,
            files: HashMap::new(alloc),
            disks,
        })
    }

    /// The folder on whose disk a path is, and the path in it; None where it is on none.
    fn home<'p>(&self, path: &'p str) -> Option<(&'p str, &'p str)> {
        let mut above = path;
        for _ in 0..path.len() {
            above = above.rsplit_once('/')?.0;
            if self.disks.has(above) {
                let rest = path.strip_prefix(above)?.strip_prefix('/')?;
                return Some((above, rest));
            }
        }
        None
    }

    /// The bytes of the file at a path; None where no file is there.
    pub fn file(&self, path: &str) -> Option<&[u8]> {
        if let Some(bytes) = self.files.get(path) {
            return Some(bytes.as_slice());
        }
        let (folder, rest) = self.home(path)?;
        self.disks.content(folder, rest)
    }

    /// A copy of the bytes of the file at a path. Refused Device where no file is there.
    pub fn read(&self, path: &str) -> R<Vec<u8>> {
        let bytes = self.file(path).ok_or(Refusal::Device)?;
        let copy = Vec::from_slice(self.alloc, bytes)?;
        Ok(copy)
    }

    /// The names in the folder at a path, in any order. Refused Device where no folder is there.
    pub fn names(&mut self, path: &str) -> R<Vec<String>> {
        let (folder, rest) = if self.disks.has(path) {
            (path, "")
        } else {
            self.home(path).ok_or(Refusal::Device)?
        };
        match self.disks.disk_mut(folder) {
            Some(kept) => kept.names(rest),
            None => Err(Refusal::Device),
        }
    }

    /// What is at a path.
    fn there(&mut self, path: &str) -> R<Option<There>> {
        if self.file(path).is_some() {
            return Ok(Some(There::File(self.read(path)?)));
        }
        match self.names(path) {
            Ok(names) => {
                let is_empty = names.is_empty();
                Ok(Some(There::Folder { is_empty }))
            }
            Err(_) => Ok(None),
        }
    }

    /// Puts bytes at the end of a file, which need not be there. Refused Device where it is not, and cannot be made.
    pub fn add(&mut self, path: &str, bytes: &[u8]) -> R<()> {
        if let Some((folder, rest)) = self.home(path) {
            return match self.disks.disk_mut(folder) {
                Some(kept) => kept.add(rest, bytes),
                None => Err(Refusal::Device),
            };
        }
        if let Some(there) = self.files.get_mut(path) {
            there.extend_from_slice(bytes)?;
            return Ok(());
        }
        if path.is_empty() || path.contains('/') || self.disks.has(path) {
            return Err(Refusal::Device);
        }
        let name = String::from_str(self.alloc, path)?;
        let copy = Vec::from_slice(self.alloc, bytes)?;
        self.files.insert(name, copy)?;
        Ok(())
    }

    /// Removes a file. Refused Device where no file is there.
    pub fn remove(&mut self, path: &str) -> R<()> {
        if let Some((folder, rest)) = self.home(path) {
            return match self.disks.disk_mut(folder) {
                Some(kept) => kept.take_away(rest),
                None => Err(Refusal::Device),
            };
        }
        match self.files.remove(path) {
            Some(_) => Ok(()),
            None => Err(Refusal::Device),
        }
    }

    /// Makes a file of these bytes, in place of the one that is there. Refused Device where it cannot be made.
    pub fn write(&mut self, path: &str, bytes: &[u8]) -> R<()> {
        if self.file(path).is_some() {
            self.remove(path)?;
        }
        self.add(path, bytes)
    }

    /// Makes a folder. Refused Device where something is at its path, and where there is no folder for it.
    pub fn make_folder(&mut self, path: &str) -> R<()> {
        if self.there(path)?.is_some() {
            return Err(Refusal::Device);
        }
        if let Some((folder, rest)) = self.home(path) {
            return match self.disks.disk_mut(folder) {
                Some(kept) => kept.add_folder(rest),
                None => Err(Refusal::Device),
            };
        }
        if path.is_empty() || path.contains('/') {
            return Err(Refusal::Device);
        }
        self.disks.make(self.alloc, path)
    }

    /// Adds what is at a path, and at each folder on the way to it, to what a call can look at.
    fn lay_out(&mut self, layout: &mut Layout, path: &str) -> R<()> {
        let mut rest = path;
        for _ in 0..path.len() {
            if !layout.has(rest)
                && let Some(there) = self.there(rest)?
            {
                layout.add(String::from_str(self.alloc, rest)?, there)?;
            }
            rest = match rest.rsplit_once('/') {
                Some((above, _)) => above,
                None => return Ok(()),
            };
        }
        Ok(())
    }

    /// What is at the paths that the words of a call name, also after an `@`.
    fn laid_out(&mut self, words: &[String]) -> R<Layout> {
        let mut layout = Layout::new(self.alloc);
        self.lay_out(&mut layout, ".")?;
        self.lay_out(&mut layout, "/")?;
        for word in words {
            self.lay_out(&mut layout, word.as_str())?;
            if let Some(path) = word.strip_prefix('@') {
                self.lay_out(&mut layout, path)?;
            }
        }
        Ok(layout)
    }

    /// Makes a call of the program by its words; returns its status. What it prints goes to `out` and `err`; `screen` is standard
    /// error once more, and `part_bytes` how many bytes the groups of one of several files take at most.
    pub fn call<W: Write, E: Write, S: Write + Clone + Drop>(
        &mut self,
        words: &[String],
        out: &mut W,
        err: &mut E,
        screen: S,
        terminals: Terminals,
        part_bytes: usize,
    ) -> R<u8> {
        let alloc = self.alloc;
        let layout = self.laid_out(words)?;
        let disks = mem::replace(&mut self.disks, FolderDisks::new(alloc));
        let called = made_call(
            alloc, &layout, disks, words, out, err, screen, terminals, part_bytes,
        );
        let Called {
            status,
            paths,
            places,
        } = called;
        self.disks = places.disks;
        for (path, bytes) in &paths.made {
            self.write(path.as_str(), bytes.as_slice())?;
        }
        Ok(status)
    }
}
