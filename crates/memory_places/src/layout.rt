//! What is at paths, as it is when a call begins.

ghost use Rattle.std.specs.Prelude.{◌≡◌, ◌≢◌, ℕ, List, false, MatchOption, IsTrue};
ghost use Rattle.program.specs.Paths.{Holds, Free, IsTaken};
ghost use Rattle.program.specs.Paths.{Folder as FolderAt};
ghost use Rattle.memory_places.specs.Files.{place_in};

use bits::R;
use program::folder_of;
use std::alloc::Global;
use std::collections::HashMap;
use std::io;

/// The number that the system gives the error "No such file or directory".
pub const NOT_FOUND: i32 = 2;

/// The number that the system gives the error "File exists".
pub const FILE_EXISTS: i32 = 17;

/// The number that the system gives the error "Not a directory".
pub const NO_FOLDER: i32 = 20;

/// The number that the system gives the error "Is a directory".
pub const IS_FOLDER: i32 = 21;

/// What is at a path.
#[derive(Drop)]
pub enum There {
    File(Vec<u8>),
    Folder { is_empty: bool },
}

/// What is at each path that a call can look at. At a path that is not among them nothing is.
#[derive(Drop)]
pub struct Layout {
    pub there: HashMap<String, There>,
}

impl Layout {
    /// Nothing is anywhere.
    pub fn new(alloc: Global) -> Layout {
        Layout {
            there: HashMap::new(alloc),
        }
    }

    /// From now on this is at a path.
    pub fn add(&mut self, path: String, there: There) -> R<()> {
        self.there.insert(path, there)?;
        Ok(())
    }

    /// Whether something is at a path.
    pub fn has(&self, path: &str) -> bool
        ensures taken { IsTrue result → IsTaken (place_in self.now path.now) }
        ensures free { result ≡ false → place_in self.now path.now ≡ Free }
    {
        self.there.contains_key(path)
    }

    /// The bytes of the file at a path; None where no file is there.
    pub fn file(&self, path: &str) -> Option<&[u8]>
        ensures { MatchOption result ((bytes : List ℕ) → place_in self.now path.now ≢ Holds bytes) (λ bytes. place_in self.now path.now ≡ Holds bytes.now) }
    {
        match self.there.get(path) {
            Some(There::File(bytes)) => Some(bytes.as_slice()),
            _ => None,
        }
    }

    /// Whether the folder at a path is empty; None where no folder is there.
    pub fn folder(&self, path: &str) -> Option<bool>
        ensures { MatchOption result (place_in self.now path.now ≢ FolderAt) (λ _. place_in self.now path.now ≡ FolderAt) }
    {
        match self.there.get(path) {
            Some(There::Folder { is_empty }) => Some(*is_empty),
            _ => None,
        }
    }

    /// Why no file can be read at a path: a folder is there, or nothing is.
    pub fn no_file(&self, path: &str) -> io::Error {
        if self.folder(path).is_some() {
            io::Error::from_raw_os_error(IS_FOLDER)
        } else {
            self.nothing(path)
        }
    }

    /// Why there is nothing at a path: what should be the folder of it is a file, or is not there.
    pub fn nothing(&self, path: &str) -> io::Error {
        let number = match self.file(folder_of(path)) {
            Some(_) => NO_FOLDER,
            None => NOT_FOUND,
        };
        io::Error::from_raw_os_error(number)
    }
}
