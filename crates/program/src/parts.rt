//! The files of an answer in a folder of the host.

ghost use Rattle.std.specs.Prelude.{◌≡◌, ◌⊎◌, None};
ghost use Rattle.bits.specs.Refusals.{RefusedOnly};
ghost use Rattle.bits.specs.declared.refusal.Refusal.TheVariants.{Exists, Device};

use crate::calls::say;
use crate::paths::Paths;
use bits::{R, Refusal};
use dataset_words::FileSink;
use reasons::{Cause, system_fault};
use std::alloc::Global;
use std::io::{self, ErrorKind, Read, Write};
use std::rt::Files;

/// The number that the system gives the error "Directory not empty".
const NOT_EMPTY: i32 = 39;

/// How many bytes of names are read of a folder at a time: more than the longest name has.
const NAMES_BYTES: usize = 4_096;

/// How often an empty folder is read at most: its own two names may come one by one.
const MOST_READS: u32 = 3;

/// New files in a folder: `part.0.parquet`, `part.1.parquet` and so on.
#[derive(Drop)]
pub struct PartFolder<'a, P: Paths> {
    paths: &'a mut P,
    alloc: Global,
    folder: &'a str,
    /// The paths of the files that were made.
    made: Vec<String>,
    /// Why a file could not be made.
    why: Option<Cause>,
}

impl<P: Paths> FileSink for PartFolder<'_, P> {
    // No contract can say what a file of the host holds.
    ghost taken = { λ parts. None };

    /// Makes the next file, as the host makes a new one. Refused Exists where something has its name, and Device where it cannot
    /// be made, or its folder not be synced.
    fn take(&mut self, file: Vec<u8>) -> R<()> {
        let path = self.next_path()?;
        self.made.reserve(1)?;
        let (at, bytes) = (path.as_str(), file.as_slice());
        self.paths.make_new(self.alloc, at, bytes, &mut self.why)?;
        let synced = self.paths.sync_folder(self.alloc, at, &mut self.why);
        self.made.push(path)?;
        synced
    }

    fn has_refused(&self) -> bool {
        self.why.is_some()
    }
}

impl<'a, P: Paths> PartFolder<'a, P> {
    /// A folder without files.
    pub fn new(paths: &'a mut P, alloc: Global, folder: &'a str) -> PartFolder<'a, P> {
        PartFolder {
            paths,
            alloc,
            folder,
            made: Vec::new(alloc),
            why: None,
        }
    }

    /// The path of the next file.
    fn next_path(&self) -> R<String> {
        let (folder, number) = (self.folder, self.made.len());
        Ok(format!(in self.alloc; "{folder}/part.{number}.parquet")?)
    }

    /// Removes the files that were made; `err` gets a line for each that stays.
    pub fn remove<E: Write>(&mut self, err: &mut E) {
        for path in &self.made {
            match self.paths.remove(path.as_str()) {
                Err(error) if error.kind() != ErrorKind::NotFound => say_stays(
                    self.alloc,
                    path.as_str(),
                    error,
                    err,
                ),
                _ => {}
            }
        }
    }

    /// Why a file could not be made, where one could not.
    pub fn why(self) -> Option<Cause> {
        self.why
    }
}

/// Says that a file stays. Where there is no memory for that nothing is said.
fn say_stays<E: Write>(alloc: Global, path: &str, error: io::Error, err: &mut E) {
    if let Ok(fault) = system_fault(alloc, path, error) {
        say(
            err,
            &Cause::System(fault.with_advice("it stays there: remove it")),
        );
    }
}

/// Looks whether a folder is empty. Refused Exists where it is not, and Device where it cannot be read; then `why` says so.
pub fn check_empty<F: Files>(rt: &F, alloc: Global, folder: &str, why: &mut Option<Cause>) -> R<()>
    ensures which { RefusedOnly (λ e. (e ≡ Exists) ⊎ (e ≡ Device)) result }
{
    let (error, refusal) = match is_empty(rt, folder) {
        Ok(true) => return Ok(()),
        Ok(false) => (io::Error::from_raw_os_error(NOT_EMPTY), Refusal::Exists),
        Err(error) => (error, Refusal::Device),
    };
    if let Ok(fault) = system_fault(alloc, folder, error) {
        let fault = if refusal == Refusal::Exists {
            fault.with_advice("name an empty folder, or a new file")
        } else {
            fault
        };
        *why = Some(Cause::System(fault));
    }
    Err(refusal)
}

/// Whether a folder has no names but its own two.
fn is_empty<F: Files>(rt: &F, folder: &str) -> io::Result<bool> {
    let mut names = rt.open_dir(folder)?;
    let mut bytes = [0; NAMES_BYTES];
    for _ in 0..MOST_READS {
        let count = names.read(&mut bytes)?;
        if count == 0 {
            return Ok(true);
        }
        if has_other_names(&bytes[..count]) {
            return Ok(false);
        }
    }
    Ok(false)
}

/// Whether names, each ended by a NUL, are others than a folder's own two, `.` and `..`.
fn has_other_names(names: &[u8]) -> bool {
    match std::str::from_utf8(names) {
        Ok(names) => names
            .split('\0')
            .any(|name| !name.is_empty() && name != "." && name != ".."),
        Err(_) => true,
    }
}
