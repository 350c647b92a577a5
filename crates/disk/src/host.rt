//! A real folder.

ghost use Rattle.std.specs.Prelude.{◌≡◌, ◌≢◌, ◌⊎◌, ◌≤◌, [], IfOk, IfErr, IsErrOf, length, string_bytes};
ghost use Rattle.disk.specs.Paths.{folder_of};
ghost use Rattle.disk.specs.State.{IsOneMore};
ghost use Rattle.disk.specs.Calls.{CountsFailure};
ghost use Rattle.disk.specs.Plain.{IsProper, FailsWith, fault_alone, folder_or_dot, host_path, host_state, host_lawful};

use crate::access::Access;
use crate::binding::Entry;
use crate::cause::Cause;
use crate::counts::{counted, one_more};
use crate::disk::Disk;
use crate::failure::Failure;
use crate::fault::Fault;
use crate::paths::folder_of;
use crate::reach::{is_path, reach};
use crate::{host_calls as calls, listing};
use std::alloc::Global;
use std::fs::Files;

/// A folder of the host's file system. Its calls go to the system one by one and keep nothing open.
///
/// That the file system keeps the model of [`Disk`] is a premise of whoever uses it: of what it holds nothing is
/// promised here. `docs/DISK.md` says which file systems are meant. What is promised is which faults are returned, the
/// counts of failures and of reads, and that it stays the folder that it was made of (`same_folder`).
///
/// It keeps what its last failure and its last absence were about, for messages ([`HostDisk::last_failure`],
/// [`HostDisk::last_absence`]).
///
/// No call leaves the folder: a path with an empty part, `.` or `..` is refused Failed (`outside`), and so is one with
/// a link, a pipe or another kind of node on its way or at its end.
#[derive(Drop)]
pub struct HostDisk<R: Files + Clone + Drop> {
    files: R,
    alloc: Global,
    folder: String,
    model: Option<String>,
    failures: u64,
    reads: u64,
    last_failure: Option<Failure>,
    last_absence: Option<Failure>,
}

impl<R: Files + Clone + Drop> HostDisk<R> {
    /// The disk of a folder of the host; the empty string is the folder that the program runs in. Asks nothing of the
    /// system. Refused only Memory.
    pub fn new(alloc: Global, files: R, folder: &str) -> Result<HostDisk<R>, Fault>
        ensures starts { IfOk result (λ disk. (disk.failures ≡ 0) × (disk.reads ≡ 0)) }
        ensures folder { IfOk result (λ disk. string_bytes disk.folder ≡ folder_or_dot folder.now) }
        ensures which { IfErr result (λ e. e ≡ Fault.Memory) }
    {
        let folder = if folder.is_empty() { "." } else { folder };
        let folder = String::from_str(alloc, folder)?;
        Ok(HostDisk {
            files,
            alloc,
            folder,
            model: None,
            failures: 0,
            reads: 0,
            last_failure: None,
            last_absence: None,
        })
    }

    /// The same disk. From now on each new file takes the mode and the group of the file at this path, if it is there, before
    /// it is synced, and each new folder those of the disk's folder. Where they cannot be set, nothing fails, and nothing is
    /// counted. Refused only Memory.
    pub fn with_files_like(self, path: &str) -> Result<HostDisk<R>, Fault>
        ensures counts { IfOk result (λ disk. disk.failures ≡ self.failures) }
        ensures reads { IfOk result (λ disk. disk.reads ≡ self.reads) }
        ensures same_folder { IfOk result (λ disk. disk.folder ≡ self.folder) }
        ensures which { IfErr result (λ e. e ≡ Fault.Memory) }
    {
        let mut disk = self;
        disk.model = Some(String::from_str(disk.alloc, path)?);
        Ok(disk)
    }

    /// The last call that failed ([`Fault::Failed`]), with its path and the error; None if none has. Later calls that are
    /// done or refused leave it.
    pub fn last_failure(&self) -> Option<&Failure> {
        self.last_failure.as_ref()
    }

    /// The last call that found nothing at its path ([`Fault::Absent`]), with the error; None if none has. Later calls that
    /// are done, fail or are refused otherwise leave it.
    pub fn last_absence(&self) -> Option<&Failure> {
        self.last_absence.as_ref()
    }

    /// Where a path stands on the host: below the folder, since the path is proper.
    fn reach(&self, path: &str) -> Result<String, Cause>
        ensures inside { IfOk result (λ place. string_bytes place ≡ host_path (string_bytes self.now.folder) path.now) }
        ensures outside { (IsProper path.now → ⊥) → FailsWith result Fault.Failed }
        ensures top { path.now ≡ [] → IfErr result (λ e. e.fault ≡ Fault.Memory) }
        ensures which { IfErr result (λ e. e.fault ≢ Fault.Exists) }
    {
        reach(&self.files, self.alloc, self.folder.as_str(), path)
    }

    /// What a new file takes, if anything.
    fn access_of_files(&self) -> Option<Access> {
        let model = self.model.as_ref()?;
        let place = self.reach(model.as_str()).ok()?;
        Access::of_file(&self.files, place.as_str())
    }

    /// What a new folder takes, if anything.
    fn access_of_folders(&self) -> Option<Access> {
        if self.model.is_none() {
            return None;
        }
        Access::of_folder(&self.files, self.folder.as_str())
    }

    fn try_create(&self, path: &str) -> Result<(), Cause>
        ensures outside { (IsProper path.now → ⊥) → FailsWith result Fault.Failed }
    {
        let place = self.reach(path)?;
        calls::create(&self.files, place.as_str(), self.access_of_files())
    }

    fn try_make_folder(&self, path: &str) -> Result<(), Cause>
        ensures outside { (IsProper path.now → ⊥) → FailsWith result Fault.Failed }
    {
        let place = self.reach(path)?;
        calls::make_folder(&self.files, place.as_str(), self.access_of_folders())
    }

    fn try_read_range(
        &self,
        alloc: Global,
        path: &str,
        from: u64,
        len: usize,
    ) -> Result<Vec<u8>, Cause>
        ensures outside { (IsProper path.now → ⊥) → FailsWith result Fault.Failed }
        ensures at_most { IfOk result (λ bytes. length bytes.items ≤ len) }
        ensures which { IfErr result (λ e. e.fault ≢ Fault.Exists) }
    {
        let place = self.reach(path)?;
        calls::read_range(&self.files, alloc, place.as_str(), from, len)
    }

    fn try_length(&self, path: &str) -> Result<u64, Cause>
        ensures outside { (IsProper path.now → ⊥) → FailsWith result Fault.Failed }
        ensures which { IfErr result (λ e. e.fault ≢ Fault.Exists) }
    {
        let place = self.reach(path)?;
        calls::length(&self.files, place.as_str())
    }

    fn try_list(&self, alloc: Global, folder: &str) -> Result<Vec<Entry>, Cause>
        ensures outside { (IsProper folder.now → ⊥) → FailsWith result Fault.Failed }
        ensures which { IfErr result (λ e. e.fault ≢ Fault.Exists) }
    {
        let place = self.reach(folder)?;
        listing::list(&self.files, alloc, place.as_str())
    }

    fn try_append(&self, path: &str, bytes: &[u8]) -> Result<(), Cause>
        ensures outside { (IsProper path.now → ⊥) → FailsWith result Fault.Failed }
        ensures which { IfErr result (λ e. e.fault ≢ Fault.Exists) }
    {
        let place = self.reach(path)?;
        calls::append(&self.files, place.as_str(), bytes)
    }

    fn try_sync(&self, path: &str) -> Result<(), Cause>
        ensures outside { (IsProper path.now → ⊥) → FailsWith result Fault.Failed }
        ensures which { IfErr result (λ e. e.fault ≢ Fault.Exists) }
    {
        let place = self.reach(path)?;
        calls::sync(&self.files, place.as_str(), self.access_of_files())
    }

    fn try_sync_folder(&self, folder: &str) -> Result<(), Cause>
        ensures outside { (IsProper folder.now → ⊥) → FailsWith result Fault.Failed }
        ensures which { IfErr result (λ e. e.fault ≢ Fault.Exists) }
    {
        let place = self.reach(folder)?;
        calls::sync_folder(&self.files, place.as_str())
    }

    fn try_rename(&self, source: &str, target: &str) -> Result<(), Cause>
        ensures outside { (IsProper source.now → ⊥) → FailsWith result Fault.Failed }
        ensures onto { (IsProper target.now → ⊥) → FailsWith result Fault.Failed }
        ensures apart { source.now ≡ target.now → IfOk result (λ _. ⊥) }
        ensures beside { folder_of source.now ≢ folder_of target.now → IfOk result (λ _. ⊥) }
    {
        if !is_path(target) {
            return Err(Cause::refused("an empty part, `.` or `..` in a path"));
        }
        let from = self.reach(source)?;
        if source == target || folder_of(source) != folder_of(target) {
            return calls::refuse_rename(&self.files, from.as_str());
        }
        let to = self.reach(target)?;
        calls::rename(&self.files, from.as_str(), to.as_str())
    }

    fn try_remove(&self, path: &str) -> Result<(), Cause>
        ensures outside { (IsProper path.now → ⊥) → FailsWith result Fault.Failed }
    {
        let place = self.reach(path)?;
        calls::remove(&self.files, place.as_str())
    }

    /// The answer of a call at a path, with its fault only. A failure is counted; a failure and an absence are kept.
    fn noted<T: Drop>(&mut self, path: &str, answer: Result<T, Cause>) -> Result<T, Fault>
        ensures same { result ≡ fault_alone answer }
        ensures counts { CountsFailure result self.old.failures self.new.failures }
        ensures reads { self.new.reads ≡ self.old.reads }
        ensures same_folder { self.new.folder ≡ self.old.folder }
    {
        match answer {
            Ok(done) => Ok(done),
            Err(cause) => {
                self.note(path, cause);
                counted(&mut self.failures, Err(cause.fault))
            }
        }
    }

    /// Keeps what a failure or an absence was about.
    #[cold]
    fn note(&mut self, path: &str, cause: Cause)
        ensures failures { self.new.failures ≡ self.old.failures }
        ensures reads { self.new.reads ≡ self.old.reads }
        ensures same_folder { self.new.folder ≡ self.old.folder }
    {
        match cause.fault {
            Fault::Failed => self.last_failure = Some(Failure::at(self.alloc, path, cause)),
            Fault::Absent => self.last_absence = Some(Failure::at(self.alloc, path, cause)),
            Fault::Exists | Fault::Memory => {}
        }
    }
}

/// Out of memory reported as a failure, for the calls that never return Memory.
fn memory_is_failure(answer: Result<(), Cause>) -> Result<(), Cause>
    ensures failed { FailsWith answer Fault.Failed → FailsWith result Fault.Failed }
    ensures refused { IfOk answer (λ _. ⊥) → IfOk result (λ _. ⊥) }
    ensures absent { IfErr answer (λ e. e.fault ≢ Fault.Exists) → IfErr result (λ e. (e.fault ≡ Fault.Absent) ⊎ (e.fault ≡ Fault.Failed)) }
    ensures which { IfErr result (λ e. e.fault ≢ Fault.Memory) }
{
    match answer {
        Err(
            Cause {
                fault: Fault::Memory,
                error,
            },
        ) => Err(Cause::failed(error)),
        _ => answer,
    }
}

// A method's own clauses replace the trait's, so what the trait asks of every disk stands here again.
impl<R: Files + Clone + Drop> Disk for HostDisk<R> {
    ghost state = { λ disk. host_state disk.failures disk.reads };

    ghost lawful = { λ disk. host_lawful disk.failures disk.reads };

    fn create(&mut self, path: &str) -> Result<(), Fault>
        ensures outside { (IsProper path.now → ⊥) → IsErrOf result Fault.Failed }
        ensures counts { CountsFailure result self.old.failures self.new.failures }
        ensures reads { self.new.reads ≡ self.old.reads }
        ensures same_folder { self.new.folder ≡ self.old.folder }
    {
        let answer = self.try_create(path);
        self.noted(path, answer)
    }

    fn make_folder(&mut self, path: &str) -> Result<(), Fault>
        ensures outside { (IsProper path.now → ⊥) → IsErrOf result Fault.Failed }
        ensures counts { CountsFailure result self.old.failures self.new.failures }
        ensures reads { self.new.reads ≡ self.old.reads }
        ensures same_folder { self.new.folder ≡ self.old.folder }
    {
        let answer = self.try_make_folder(path);
        self.noted(path, answer)
    }

    fn read_range(
        &mut self,
        alloc: Global,
        path: &str,
        from: u64,
        len: usize,
    ) -> Result<Vec<u8>, Fault>
        ensures outside { (IsProper path.now → ⊥) → IsErrOf result Fault.Failed }
        ensures at_most { IfOk result (λ bytes. length bytes.items ≤ len) }
        ensures which { IfErr result (λ e. e ≢ Fault.Exists) }
        ensures counts { CountsFailure result self.old.failures self.new.failures }
        ensures reads { IsOneMore self.old.reads self.new.reads }
        ensures same_folder { self.new.folder ≡ self.old.folder }
    {
        self.reads = one_more(self.reads);
        let answer = self.try_read_range(alloc, path, from, len);
        self.noted(path, answer)
    }

    fn length(&mut self, path: &str) -> Result<u64, Fault>
        ensures outside { (IsProper path.now → ⊥) → IsErrOf result Fault.Failed }
        ensures which { IfErr result (λ e. e ≢ Fault.Exists) }
        ensures counts { CountsFailure result self.old.failures self.new.failures }
        ensures reads { self.new.reads ≡ self.old.reads }
        ensures same_folder { self.new.folder ≡ self.old.folder }
    {
        let answer = self.try_length(path);
        self.noted(path, answer)
    }

    fn list(&mut self, alloc: Global, folder: &str) -> Result<Vec<Entry>, Fault>
        ensures outside { (IsProper folder.now → ⊥) → IsErrOf result Fault.Failed }
        ensures which { IfErr result (λ e. e ≢ Fault.Exists) }
        ensures counts { CountsFailure result self.old.failures self.new.failures }
        ensures reads { self.new.reads ≡ self.old.reads }
        ensures same_folder { self.new.folder ≡ self.old.folder }
    {
        let answer = self.try_list(alloc, folder);
        self.noted(folder, answer)
    }

    fn append(&mut self, path: &str, bytes: &[u8]) -> Result<(), Fault>
        ensures outside { (IsProper path.now → ⊥) → IsErrOf result Fault.Failed }
        ensures which { IfErr result (λ e. e ≢ Fault.Exists) }
        ensures counts { CountsFailure result self.old.failures self.new.failures }
        ensures reads { self.new.reads ≡ self.old.reads }
        ensures same_folder { self.new.folder ≡ self.old.folder }
    {
        let answer = self.try_append(path, bytes);
        self.noted(path, answer)
    }

    fn sync(&mut self, path: &str) -> Result<(), Fault>
        ensures outside { (IsProper path.now → ⊥) → IsErrOf result Fault.Failed }
        ensures which { IfErr result (λ e. e ≢ Fault.Exists) }
        ensures counts { CountsFailure result self.old.failures self.new.failures }
        ensures reads { self.new.reads ≡ self.old.reads }
        ensures same_folder { self.new.folder ≡ self.old.folder }
    {
        let answer = self.try_sync(path);
        self.noted(path, answer)
    }

    fn sync_folder(&mut self, folder: &str) -> Result<(), Fault>
        ensures outside { (IsProper folder.now → ⊥) → IsErrOf result Fault.Failed }
        ensures which { IfErr result (λ e. (e ≡ Fault.Absent) ⊎ (e ≡ Fault.Failed)) }
        ensures counts { CountsFailure result self.old.failures self.new.failures }
        ensures reads { self.new.reads ≡ self.old.reads }
        ensures same_folder { self.new.folder ≡ self.old.folder }
    {
        let answer = memory_is_failure(self.try_sync_folder(folder));
        self.noted(folder, answer)
    }

    fn rename(&mut self, source: &str, target: &str) -> Result<(), Fault>
        ensures outside { (IsProper source.now → ⊥) → IsErrOf result Fault.Failed }
        ensures onto { (IsProper target.now → ⊥) → IsErrOf result Fault.Failed }
        ensures apart { source.now ≡ target.now → IfOk result (λ _. ⊥) }
        ensures beside { folder_of source.now ≢ folder_of target.now → IfOk result (λ _. ⊥) }
        ensures which { IfErr result (λ e. e ≢ Fault.Memory) }
        ensures counts { CountsFailure result self.old.failures self.new.failures }
        ensures reads { self.new.reads ≡ self.old.reads }
        ensures same_folder { self.new.folder ≡ self.old.folder }
    {
        let answer = memory_is_failure(self.try_rename(source, target));
        self.noted(source, answer)
    }

    fn remove(&mut self, path: &str) -> Result<(), Fault>
        ensures outside { (IsProper path.now → ⊥) → IsErrOf result Fault.Failed }
        ensures counts { CountsFailure result self.old.failures self.new.failures }
        ensures reads { self.new.reads ≡ self.old.reads }
        ensures same_folder { self.new.folder ≡ self.old.folder }
    {
        let answer = self.try_remove(path);
        self.noted(path, answer)
    }

    fn failures(&self) -> u64 {
        self.failures
    }

    fn reads(&self) -> u64 {
        self.reads
    }
}
