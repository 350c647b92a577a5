//! What is asked of a disk.

ghost use Rattle.std.specs.Prelude.{◌≡◌, ◌≢◌, ◌⊎◌, ◌↔◌, IfErr};
ghost use Rattle.disk.specs.State.{State, IsLawful, IsOneMore};
ghost use Rattle.disk.specs.Calls.{CountsFailure, Created, FolderMade, Appended, Synced, FolderSynced, Renamed, Removed, RangeRead, Measured, Listed};

use crate::binding::Entry;
use crate::fault::Fault;
use std::alloc::Global;

/// A disk of folders and files. Paths are strings with `/` between their parts, seen from the dataset's own folder,
/// which is the empty string and is always there.
///
/// What a call does is promised of an honest disk (`effect`); that each call keeps honesty, which faults it may
/// return and what it counts are promised of every disk (`honest`, `which`, `counts`, `reads`). A stop may come before or within
/// any call, and then leaves one of the model's images of that moment.
///
/// A call that cannot be done at all may always return Absent or Exists; it then changes nothing and counts
/// nothing. So no caller can make a healthy disk fail: a failure that is counted is the disk's own.
pub trait Disk {
    ghost state: { Self → State };

    /// Makes an empty file. Absent where there is no folder for it, Exists where the name is there.
    fn create(&mut self, path: &str) -> Result<(), Fault>
        ensures effect { (state self.old).honest → Created path.now (state self.old) (state self.new) result }
        ensures counts { CountsFailure result (state self.old).failures (state self.new).failures }
        ensures reads { (state self.new).reads ≡ (state self.old).reads }
        ensures honest { (state self.old).honest ↔ (state self.new).honest };

    /// Makes a folder; where it is there, does nothing. Absent where there is no folder for it, Exists where the name
    /// is a file's.
    fn make_folder(&mut self, path: &str) -> Result<(), Fault>
        ensures effect { (state self.old).honest → FolderMade path.now (state self.old) (state self.new) result }
        ensures counts { CountsFailure result (state self.old).failures (state self.new).failures }
        ensures reads { (state self.new).reads ≡ (state self.old).reads }
        ensures honest { (state self.old).honest ↔ (state self.new).honest };

    /// The bytes of a file from `from` on, `len` of them or as many as are there. Absent where no file is there.
    fn read_range(
        &mut self,
        alloc: Global,
        path: &str,
        from: u64,
        len: usize,
    ) -> Result<Vec<u8>, Fault>
        ensures effect { (state self.old).honest → RangeRead (λ bytes. bytes.items) path.now from len (state self.old) (state self.new) result }
        ensures which { IfErr result (λ e. e ≢ Fault.Exists) }
        ensures counts { CountsFailure result (state self.old).failures (state self.new).failures }
        ensures reads { IsOneMore (state self.old).reads (state self.new).reads }
        ensures honest { (state self.old).honest ↔ (state self.new).honest };

    /// How many bytes a file has. Absent where no file is there.
    fn length(&mut self, path: &str) -> Result<u64, Fault>
        ensures effect { (state self.old).honest → Measured path.now (state self.old) (state self.new) result }
        ensures which { IfErr result (λ e. e ≢ Fault.Exists) }
        ensures counts { CountsFailure result (state self.old).failures (state self.new).failures }
        ensures reads { (state self.new).reads ≡ (state self.old).reads }
        ensures honest { (state self.old).honest ↔ (state self.new).honest };

    /// The names in a folder, each once, in any order. Absent where no folder is there.
    fn list(&mut self, alloc: Global, folder: &str) -> Result<Vec<Entry>, Fault>
        ensures effect { (state self.old).honest → Listed (λ entries. entries.items) folder.now (state self.old) (state self.new) result }
        ensures which { IfErr result (λ e. e ≢ Fault.Exists) }
        ensures counts { CountsFailure result (state self.old).failures (state self.new).failures }
        ensures reads { (state self.new).reads ≡ (state self.old).reads }
        ensures honest { (state self.old).honest ↔ (state self.new).honest };

    /// Writes after a file's end. Absent where no file is there.
    fn append(&mut self, path: &str, bytes: &[u8]) -> Result<(), Fault>
        ensures effect { (state self.old).honest → Appended path.now bytes.now (state self.old) (state self.new) result }
        ensures which { IfErr result (λ e. e ≢ Fault.Exists) }
        ensures counts { CountsFailure result (state self.old).failures (state self.new).failures }
        ensures reads { (state self.new).reads ≡ (state self.old).reads }
        ensures honest { (state self.old).honest ↔ (state self.new).honest };

    /// After it a stop leaves a file's bytes as they read, but not after an earlier sync of the file has failed.
    /// Absent where no file is there.
    fn sync(&mut self, path: &str) -> Result<(), Fault>
        ensures effect { (state self.old).honest → Synced path.now (state self.old) (state self.new) result }
        ensures which { IfErr result (λ e. e ≢ Fault.Exists) }
        ensures counts { CountsFailure result (state self.old).failures (state self.new).failures }
        ensures reads { (state self.new).reads ≡ (state self.old).reads }
        ensures honest { (state self.old).honest ↔ (state self.new).honest };

    /// After it a stop that leaves the folder leaves its names as they read. Absent where no folder is there.
    /// Never returns Memory: what it would need counts as a failure.
    fn sync_folder(&mut self, folder: &str) -> Result<(), Fault>
        ensures effect { (state self.old).honest → FolderSynced folder.now (state self.old) (state self.new) result }
        ensures which { IfErr result (λ e. (e ≡ Fault.Absent) ⊎ (e ≡ Fault.Failed)) }
        ensures counts { CountsFailure result (state self.old).failures (state self.new).failures }
        ensures reads { (state self.new).reads ≡ (state self.old).reads }
        ensures honest { (state self.old).honest ↔ (state self.new).honest };

    /// Gives a file another name in its folder, in place of the file that had it. Absent where no name is there; Exists
    /// of a folder, onto a folder, into another folder and onto itself. Never returns Memory: what it would need counts
    /// as a failure.
    fn rename(&mut self, source: &str, target: &str) -> Result<(), Fault>
        ensures effect { (state self.old).honest → Renamed source.now target.now (state self.old) (state self.new) result }
        ensures which { IfErr result (λ e. e ≢ Fault.Memory) }
        ensures counts { CountsFailure result (state self.old).failures (state self.new).failures }
        ensures reads { (state self.new).reads ≡ (state self.old).reads }
        ensures honest { (state self.old).honest ↔ (state self.new).honest };

    /// Takes a file's name away. Absent where no name is there, Exists where it is a folder's.
    fn remove(&mut self, path: &str) -> Result<(), Fault>
        ensures effect { (state self.old).honest → Removed path.now (state self.old) (state self.new) result }
        ensures counts { CountsFailure result (state self.old).failures (state self.new).failures }
        ensures reads { (state self.new).reads ≡ (state self.old).reads }
        ensures honest { (state self.old).honest ↔ (state self.new).honest };

    /// How many calls have failed; it stays at the greatest u64.
    fn failures(&self) -> u64
        ensures { result ≡ (state self.now).failures };

    /// How often `read_range` was called; it stays at the greatest u64.
    fn reads(&self) -> u64
        ensures { result ≡ (state self.now).reads };

    ghost lawful: { (disk : Self) → IsLawful (state disk) };
}
