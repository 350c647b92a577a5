//! A disk that shows how much it read and wrote.

ghost use Rattle.std.specs.Prelude.{◌≡◌};

use crate::tally::{Tally, Work};
use disk::{Disk, Entry, Fault};
use places::{Explains, Notes};
use std::alloc::Global;
use std::io::Write;

/// A disk, what it read and wrote so far, and notes of what it refused. Each call is that of the disk, so that its state is
/// the disk's own.
#[derive(Drop)]
pub struct Watched<D: Explains, S: Write + Drop> {
    disk: D,
    tally: Tally<S>,
    notes: Notes,
    folder: String,
}

impl<D: Explains, S: Write + Drop> Watched<D, S> {
    /// Watches the disk of a folder.
    pub fn new(disk: D, tally: Tally<S>, notes: Notes, folder: String) -> Watched<D, S>
        ensures disk { result.disk ≡ disk }
        ensures tally { result.tally ≡ tally }
    {
        Watched {
            disk,
            tally,
            notes,
            folder,
        }
    }

    /// Notes what the disk refused last, in a call at this path.
    #[cold]
    fn note(&self, path: &str, fault: Fault) {
        match fault {
            Fault::Failed => {
                if let Some(failure) = self.disk.failure() {
                    self.notes.note_failure(self.folder.as_str(), failure);
                }
            }
            Fault::Absent => self.note_absent(path),
            Fault::Exists => self.notes.note_in_the_way(path),
            Fault::Memory => {}
        }
    }

    /// Notes that nothing is where the disk says, or else at this path.
    #[cold]
    fn note_absent(&self, path: &str) {
        let Some(failure) = self.disk.absence() else {
            self.notes.note_absent(path);
            return;
        };
        if let Some(path) = &failure.path {
            self.notes.note_absent(path.as_str());
        }
    }

    /// The answer of a call of the disk at this path. What it refused is noted.
    fn noted<T: Drop>(&self, path: &str, answer: Result<T, Fault>) -> Result<T, Fault>
        ensures { result ≡ answer }
    {
        if let Err(fault) = &answer {
            self.note(path, *fault);
        }
        answer
    }

    /// Gives the disk back, once nothing of it is on the screen.
    pub fn into_inner(self) -> D
        ensures { result ≡ self.disk }
    {
        let mut watched = self;
        watched.clear();
        watched.disk
    }

    /// Takes what is shown off the screen.
    pub fn clear(&mut self)
        ensures { self.new.disk ≡ self.old.disk }
    {
        self.tally.clear();
    }
}

impl<D: Explains, S: Write + Drop> Disk for Watched<D, S> {
    ghost state = { λ watched. D.state watched.disk };

    ghost lawful = { λ watched. D.lawful watched.disk };

    fn create(&mut self, path: &str) -> Result<(), Fault> {
        let answer = self.disk.create(path);
        if answer.is_ok() {
            self.tally.count(Work::Made);
        }
        self.noted(path, answer)
    }

    fn make_folder(&mut self, path: &str) -> Result<(), Fault> {
        let answer = self.disk.make_folder(path);
        self.noted(path, answer)
    }

    fn read_range(
        &mut self,
        alloc: Global,
        path: &str,
        from: u64,
        len: usize,
    ) -> Result<Vec<u8>, Fault> {
        let answer = self.disk.read_range(alloc, path, from, len);
        if let Ok(bytes) = &answer {
            self.tally.count(Work::Read(bytes.len()));
            self.notes.note_read(path);
        }
        self.noted(path, answer)
    }

    fn length(&mut self, path: &str) -> Result<u64, Fault> {
        let answer = self.disk.length(path);
        self.noted(path, answer)
    }

    fn list(&mut self, alloc: Global, folder: &str) -> Result<Vec<Entry>, Fault> {
        let answer = self.disk.list(alloc, folder);
        self.noted(folder, answer)
    }

    fn append(&mut self, path: &str, bytes: &[u8]) -> Result<(), Fault> {
        let answer = self.disk.append(path, bytes);
        if answer.is_ok() {
            self.tally.count(Work::Wrote { path, bytes });
        }
        self.noted(path, answer)
    }

    fn sync(&mut self, path: &str) -> Result<(), Fault> {
        let answer = self.disk.sync(path);
        self.noted(path, answer)
    }

    fn sync_folder(&mut self, folder: &str) -> Result<(), Fault> {
        let answer = self.disk.sync_folder(folder);
        self.noted(folder, answer)
    }

    fn rename(&mut self, source: &str, target: &str) -> Result<(), Fault> {
        let answer = self.disk.rename(source, target);
        self.noted(target, answer)
    }

    fn remove(&mut self, path: &str) -> Result<(), Fault> {
        let answer = self.disk.remove(path);
        self.noted(path, answer)
    }

    fn failures(&self) -> u64 {
        self.disk.failures()
    }

    fn reads(&self) -> u64 {
        self.disk.reads()
    }
}
