//! Where the files of the transcript are: in a folder of the host, or in memory.

use crate::refusals::refusal_of;
use crate::screen::Screen;
use bits::R;
use memory_places::{Folders, Tree};
use places::HostPlaces;
use program::{HostPaths, Terminals, work};
use std::fs::{self, File};
use std::io::Write;

/// How many bytes the groups of one of several files take at most: so few that such a file has few groups.
const PART_BYTES: usize = 110;

/// Files and folders, and the program on them.
pub trait FilePlace {
    /// The bytes of a file.
    fn read(&self, path: &str) -> R<Vec<u8>>;

    /// Puts bytes at the end of a file, which need not be there.
    fn add(&mut self, path: &str, bytes: &[u8]) -> R<()>;

    /// Makes a file of these bytes, in place of the one that is there.
    fn write(&mut self, path: &str, bytes: &[u8]) -> R<()>;

    /// Removes a file.
    fn remove(&mut self, path: &str) -> R<()>;

    /// Makes a folder.
    fn make_folder(&mut self, path: &str) -> R<()>;

    /// The names in a folder, in any order.
    fn names(&mut self, folder: &str) -> R<Vec<String>>;

    /// The status of a call, which prints to a writer, and to a screen as standard error.
    fn status(
        &mut self,
        words: &[String],
        out: &mut Vec<u8>,
        screen: Screen<'_>,
        terminals: Terminals,
    ) -> R<u8>;
}

/// The folder of the host in which this program runs.
#[derive(Drop)]
pub struct HostFolder<'a> {
    pub rt: &'a HostRuntime,
}

impl FilePlace for HostFolder<'_> {
    fn read(&self, path: &str) -> R<Vec<u8>> {
        fs::read(self.rt, path).map_err(refusal_of)
    }

    fn add(&mut self, path: &str, bytes: &[u8]) -> R<()> {
        let file = File::options()
            .create(true)
            .append(true)
            .open(self.rt, path);
        let mut file = file.map_err(refusal_of)?;
        file.write_all(bytes).map_err(refusal_of)
    }

    fn write(&mut self, path: &str, bytes: &[u8]) -> R<()> {
        fs::write(self.rt, path, bytes).map_err(refusal_of)
    }

    fn remove(&mut self, path: &str) -> R<()> {
        fs::remove_file(self.rt, path).map_err(refusal_of)
    }

    fn make_folder(&mut self, path: &str) -> R<()> {
        fs::create_dir(self.rt, path).map_err(refusal_of)
    }

    fn names(&mut self, folder: &str) -> R<Vec<String>> {
        let alloc = self.rt.alloc();
        let files = self.rt.clone()?;
        let mut names = Vec::new(alloc);
        for entry in fs::read_dir(&(files, alloc), folder).map_err(refusal_of)? {
            let entry = entry.map_err(refusal_of)?;
            names.push(String::from_str(alloc, entry.file_name())?)?;
        }
        Ok(names)
    }

    fn status(
        &mut self,
        words: &[String],
        out: &mut Vec<u8>,
        screen: Screen<'_>,
        terminals: Terminals,
    ) -> R<u8> {
        let rt = self.rt;
        let mut paths = HostPaths { rt };
        let mut datasets = Folders {
            places: HostPlaces { files: rt },
            screen,
            part_bytes: PART_BYTES,
        };
        let mut err = screen;
        Ok(work(
            &mut paths,
            rt.alloc(),
            words,
            out,
            &mut err,
            terminals,
            &mut datasets,
        ))
    }
}

impl FilePlace for Tree {
    fn read(&self, path: &str) -> R<Vec<u8>> {
        Tree::read(self, path)
    }

    fn add(&mut self, path: &str, bytes: &[u8]) -> R<()> {
        Tree::add(self, path, bytes)
    }

    fn write(&mut self, path: &str, bytes: &[u8]) -> R<()> {
        Tree::write(self, path, bytes)
    }

    fn remove(&mut self, path: &str) -> R<()> {
        Tree::remove(self, path)
    }

    fn make_folder(&mut self, path: &str) -> R<()> {
        Tree::make_folder(self, path)
    }

    fn names(&mut self, folder: &str) -> R<Vec<String>> {
        Tree::names(self, folder)
    }

    fn status(
        &mut self,
        words: &[String],
        out: &mut Vec<u8>,
        screen: Screen<'_>,
        terminals: Terminals,
    ) -> R<u8> {
        let mut err = screen;
        self.call(words, out, &mut err, screen, terminals, PART_BYTES)
    }
}
