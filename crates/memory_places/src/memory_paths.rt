//! The files of a tree in memory, by their paths.

ghost use Rattle.std.specs.Prelude.{◌≡◌, false, IsTrue, IfSome, IfOk, IfErr, OnOk, take, [], ℕ, List};
ghost use Rattle.bits.specs.Refusals.{RefusedOnly};
ghost use Rattle.bits.specs.declared.refusal.Refusal.TheVariants.{Device};
ghost use Rattle.program.specs.Paths.{Free, Holds, IsTaken, MakesFile};
ghost use Rattle.memory_places.specs.Files.{place_at, place_in};

use crate::layout::{FILE_EXISTS, Layout};
use crate::memory_parts::MemoryParts;
use bits::{R, Refusal};
use program::{Paths, folder_of};
use reasons::{Cause, system_fault};
use reports::part_of;
use std::alloc::Global;
use std::collections::HashMap;
use std::io::{self, ErrorKind};

/// One byte more than a file may have.
const MORE_THAN_A_FILE: usize = 2_147_483_648;

/// A file of fewer bytes is read whole.
const BYTES_OF_SMALL_FILE: usize = 65_536;

/// The number that the system gives the error "Directory not empty".
const NOT_EMPTY: i32 = 39;

/// Files in memory by their paths: what is at each path when a call begins, and the files that were made since.
#[derive(Drop)]
pub struct MemoryPaths<'a> {
    layout: &'a Layout,
    /// The files that were made.
    pub made: HashMap<String, Vec<u8>>,
}

impl<'a> MemoryPaths<'a> {
    /// What is at each path; no file was made yet.
    pub fn new(alloc: Global, layout: &'a Layout) -> MemoryPaths<'a>
        ensures { (path : List ℕ) → place_at result.layout.now result.made path ≡ place_in layout.now path }
    {
        MemoryPaths {
            layout,
            made: HashMap::new(alloc),
        }
    }

    /// The bytes of the file at a path; None where no file is there.
    fn file(&self, path: &str) -> Option<&[u8]>
        ensures { IfSome result (λ bytes. place_at self.now.layout.now self.now.made path.now ≡ Holds bytes.now) }
    {
        match self.made.get(path) {
            Some(bytes) => Some(bytes.as_slice()),
            None => self.layout.file(path),
        }
    }

    /// Whether nothing is at a path.
    fn is_free(&self, path: &str) -> bool
        ensures free { IsTrue result → place_at self.now.layout.now self.now.made path.now ≡ Free }
        ensures taken { result ≡ false → IsTaken (place_at self.now.layout.now self.now.made path.now) }
    {
        !self.made.contains_key(path) && !self.layout.has(path)
    }

    /// Whether the folder of a new file is there.
    fn has_folder_for(&self, path: &str) -> bool {
        !path.is_empty() && self.layout.folder(folder_of(path)).is_some()
    }

    /// What is refused where no file can be read at a path; `why` gets the path and the system's words.
    fn no_file(&self, alloc: Global, path: &str, why: &mut Option<Cause>) -> Refusal
        ensures { result ≡ Device }
    {
        refused_at(alloc, path, self.layout.no_file(path), Refusal::Device, why)
    }

    /// Adds a new file.
    fn add(&mut self, alloc: Global, path: &str, bytes: &[u8]) -> R<()>
        requires { place_at self.old.layout.now self.old.made path.now ≡ Free }
        ensures made { OnOk result (MakesFile (place_at self.old.layout.now self.old.made) (place_at self.new.layout.now self.new.made) path.now bytes.now) }
        ensures which { RefusedOnly (λ e. e ≡ Device) result }
    {
        let name = String::from_str(alloc, path)?;
        let copy = Vec::from_slice(alloc, bytes)?;
        self.made.insert(name, copy)?;
        Ok(())
    }
}

/// The refusal; `why` gets the path and the system's words.
fn refused_at(
    alloc: Global,
    path: &str,
    error: io::Error,
    refusal: Refusal,
    why: &mut Option<Cause>,
) -> Refusal
    ensures { result ≡ refusal }
{
    if let Ok(fault) = system_fault(alloc, path, error) {
        *why = Some(Cause::System(fault));
    }
    refusal
}

impl Paths for MemoryPaths<'_> {
    type Parts = MemoryParts;

    ghost files = { λ paths. place_at paths.layout.now paths.made };

    fn bytes_of(&self, alloc: Global, path: &str, why: &mut Option<Cause>) -> R<Vec<u8>> {
        match self.file(path) {
            Some(bytes) => {
                let copy = Vec::from_slice(alloc, part_of(bytes, 0, MORE_THAN_A_FILE))?;
                Ok(copy)
            }
            None => Err(self.no_file(alloc, path, why)),
        }
    }

    fn whole_of(&self, alloc: Global, path: &str, why: &mut Option<Cause>) -> R<Vec<u8>> {
        match self.file(path) {
            Some(bytes) => {
                let copy = Vec::from_slice(alloc, bytes)?;
                Ok(copy)
            }
            None => Err(self.no_file(alloc, path, why)),
        }
    }

    fn large_file(
        &self,
        alloc: Global,
        path: &str,
        _why: &mut Option<Cause>,
    ) -> R<Option<MemoryParts>> {
        match self.file(path) {
            Some(bytes) if bytes.len() >= BYTES_OF_SMALL_FILE => {
                let copy = Vec::from_slice(alloc, bytes)?;
                Ok(Some(MemoryParts::new(copy)))
            }
            _ => Ok(None),
        }
    }

    fn is_folder(&self, path: &str) -> bool {
        !self.made.contains_key(path) && self.layout.folder(path).is_some()
    }

    fn check_free(&self, alloc: Global, path: &str, why: &mut Option<Cause>) -> R<()> {
        if self.is_free(path) {
            return Ok(());
        }
        let error = io::Error::from_raw_os_error(FILE_EXISTS);
        Err(refused_at(alloc, path, error, Refusal::Exists, why))
    }

    fn check_empty(&self, alloc: Global, folder: &str, why: &mut Option<Cause>) -> R<()> {
        let (error, refusal) = match self.layout.folder(folder) {
            Some(true) => return Ok(()),
            Some(false) => (io::Error::from_raw_os_error(NOT_EMPTY), Refusal::Exists),
            None => (self.layout.nothing(folder), Refusal::Device),
        };
        if let Ok(fault) = system_fault(alloc, folder, error) {
            let fault = if refusal == Refusal::Exists {
                fault.with_advice("name an empty folder, or a new file")
            } else {
                fault
            };
            *why = Some(Cause::System(fault));
        }
        Err(refusal)
    }

    fn is_within(&self, _alloc: Global, inner: &str, outer: &str) -> bool {
        let are_there = self.layout.folder(inner).is_some() && self.layout.folder(outer).is_some();
        are_there && is_below(inner, outer)
    }

    fn put_new(
        &mut self,
        alloc: Global,
        path: &str,
        bytes: &[u8],
        why: &mut Option<Cause>,
    ) -> R<()> {
        if !self.is_free(path) {
            let error = io::Error::from_raw_os_error(FILE_EXISTS);
            return Err(refused_at(alloc, path, error, Refusal::Exists, why));
        }
        if !self.has_folder_for(path) {
            let error = self.layout.nothing(path);
            return Err(refused_at(alloc, path, error, Refusal::Device, why));
        }
        self.add(alloc, path, bytes)
    }

    fn make_new(
        &mut self,
        alloc: Global,
        path: &str,
        bytes: &[u8],
        why: &mut Option<Cause>,
    ) -> R<()> {
        self.put_new(alloc, path, bytes, why)
    }

    // Nothing is lost by a power cut that is not lost anyhow.
    fn sync_folder(&self, _alloc: Global, _path: &str, _why: &mut Option<Cause>) -> R<()> {
        Ok(())
    }

    fn remove(&mut self, path: &str) -> io::Result<()> {
        match self.made.remove(path) {
            Some(_) => Ok(()),
            None => Err(io::Error::from(ErrorKind::NotFound)),
        }
    }
}

/// Whether a folder is another one, or is in it.
fn is_below(inner: &str, outer: &str) -> bool {
    if outer == "." {
        return !inner.starts_with('/');
    }
    match inner.strip_prefix(outer) {
        Some(rest) => rest.is_empty() || rest.starts_with('/'),
        None => false,
    }
}
