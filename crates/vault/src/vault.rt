//! The root, and the files that are kept next to it.

ghost use Rattle.std.specs.Prelude.{◌≡◌, ◌≢◌, ◌↔◌, ◌⊎◌, ◌^◌, ◌-◌, ℕ, List, OnOk, IfOk, IfErr, Ok};
ghost use Rattle.bits.specs.Refusals.{RefusedOnly};
ghost use Rattle.disk.specs.State.{IsOneMore};
ghost use Rattle.disk.specs.Calls.{CountsFailure, RangeRead, AreNamesIn};
ghost use Rattle.vault.specs.Views.{IsNoRoot, IsKept, IsRooted, IsSettled, IsNoFolder, IsNoFile, ReadsRoot, next_path};
ghost use Rattle.vault.specs.Ways.{CanPut};
ghost use Rattle.vault.specs.Calls.{LeavesAll, CountsOnce, IsDeviceFailure, IsHonestDevice, IsReadRefusal, IsRangeRead, IsRangeKept, Puts, SwapsRoot, Forgets};
ghost use Rattle.vault.specs.inner.Files.{TurnsWritten, refusal_for};

use crate::files::{clear, make_firm, place};
use bits::{R, Refusal};
use disk::{Disk, Entry, Fault};
use std::alloc::Global;

const ROOT: &str = "_metadata";

const NEXT: &str = "_metadata.new";

/// Files that a crash leaves whole, on a disk.
///
/// A path is *kept* where whatever a crash leaves has its bytes. The vault remembers none of these: each call leaves what
/// it does not name as it was.
#[derive(Drop)]
pub struct Vault<D: Disk> {
    pub disk: D,
}

/// The refusal for a fault.
fn refusal_of(e: Fault) -> Refusal
    ensures { result ≡ refusal_for e }
{
    match e {
        Fault::Memory => Refusal::Memory,
        _ => Refusal::Device,
    }
}

impl<D: Disk> Vault<D> {
    /// A vault over a disk. It keeps nothing yet and takes no memory.
    pub fn start(disk: D) -> Vault<D>
        ensures { result.disk ≡ disk }
    {
        Vault { disk }
    }

    /// The disk.
    pub fn disk(&self) -> &D
        ensures { result.now ≡ self.now.disk }
    {
        &self.disk
    }

    /// Gives the disk back.
    pub fn into_disk(self) -> D
        ensures { result ≡ self.disk }
    {
        self.disk
    }

    /// Takes over a file that is durable already: it is the caller's duty that whatever a crash leaves has it with its
    /// bytes. Nothing is asked of the disk, and no memory is taken.
    pub fn adopt(&mut self, path: &str) -> R<()>
        requires file { IsNoRoot path.now }
        requires durable { (D.state self.old.disk).honest → (bytes : List ℕ) × IsKept (D.state self.old.disk) path.now bytes }
        ensures done { result ≡ Ok tt }
        ensures unchanged { self.new.disk ≡ self.old.disk }
    {
        let _ = path;
        Ok(())
    }

    /// Makes a file of these bytes kept, in the place of what its name stood for: takes the name away, makes the
    /// folders on the way that are absent, writes and syncs a fresh file, then syncs its folder and those above.
    ///
    /// It is the caller's duty that the path is not one of the root's two. What is said of the disk (`Puts`) holds where
    /// it is honest and no crash leaves a file where a folder on the way belongs, nor a folder at the path. At every
    /// moment each other path has what it had, in each image by itself. Refused Device only where the disk failed, and
    /// Memory; nothing or a file stands at the path then. Costs one write of the bytes, and two calls of the disk for
    /// each folder on the way.
    pub fn put(&mut self, path: &str, bytes: &[u8]) -> R<()>
        requires { IsNoRoot path.now }
        ensures effect { CanPut (D.state self.old.disk) path.now → Puts path.now bytes.now (D.state self.old.disk) (D.state self.new.disk) result }
        ensures which { RefusedOnly (λ e. e ≡ Refusal.Device) result }
        ensures counts { CountsOnce result (D.state self.old.disk) (D.state self.new.disk) }
        ensures reads { (D.state self.new.disk).reads ≡ (D.state self.old.disk).reads }
        ensures honest { (D.state self.old.disk).honest ↔ (D.state self.new.disk).honest }
    {
        match place(&mut self.disk, path, bytes) {
            Ok(()) => Ok(()),
            Err(e) => Err(refusal_of(e)),
        }
    }

    /// Puts another root in the place of the old one: places it as `_metadata.new`, renames that to `_metadata`, and
    /// syncs the dataset's folder.
    ///
    /// At every moment each image has the old root or the new one, whole, and all paths but these two as they were.
    /// After Ok each has the new one, and no next root is left, as the disk reads. Refused Device and Memory before the
    /// rename, and each image has the old root then; refused InDoubt from the rename on, and each image has either: by
    /// then the next root was whole in whatever a crash could leave. No folder comes to stand at the root's two names;
    /// where none stood there, Device and InDoubt come only where the disk failed.
    pub fn swap_root(&mut self, bytes: &[u8]) -> R<()>
        ensures effect { (D.state self.old.disk).honest → SwapsRoot bytes.now (D.state self.old.disk) (D.state self.new.disk) result }
        ensures which { RefusedOnly (λ e. (e ≡ Refusal.Device) ⊎ (e ≡ Refusal.InDoubt)) result }
        ensures counts { CountsOnce result (D.state self.old.disk) (D.state self.new.disk) }
        ensures reads { (D.state self.new.disk).reads ≡ (D.state self.old.disk).reads }
        ensures honest { (D.state self.old.disk).honest ↔ (D.state self.new.disk).honest }
    {
        if let Err(e) = place(&mut self.disk, NEXT, bytes) {
            return Err(refusal_of(e));
        }
        match turn(&mut self.disk) {
            Ok(()) => Ok(()),
            Err(_) => Err(Refusal::InDoubt),
        }
    }

    /// Makes the root that is read the root of whatever a crash leaves, by one sync of the dataset's folder: so that an
    /// opening after a crash can go on from what it reads. That holds where the root's file has the same bytes in
    /// whatever a crash leaves (`IsRooted`), which the other calls keep. Nothing that is read changes. Refused only
    /// Device, and only where the disk failed.
    pub fn settle(&mut self) -> R<()>
        ensures unchanged { (D.state self.old.disk).honest → LeavesAll (D.state self.old.disk) (D.state self.new.disk) }
        ensures durable { (D.state self.old.disk).honest → IsRooted (D.state self.old.disk) → OnOk result (IsSettled (D.state self.new.disk)) }
        ensures which { IfErr result (IsHonestDevice (D.state self.old.disk) (D.state self.new.disk)) }
        ensures counts { CountsOnce result (D.state self.old.disk) (D.state self.new.disk) }
        ensures reads { (D.state self.new.disk).reads ≡ (D.state self.old.disk).reads }
        ensures honest { (D.state self.old.disk).honest ↔ (D.state self.new.disk).honest }
    {
        match make_firm(&mut self.disk, ROOT) {
            Ok(()) => Ok(()),
            Err(e) => Err(refusal_of(e)),
        }
    }

    /// Lets a path go: takes its name away. A name that is not there is no fault.
    ///
    /// It is the caller's duty that the path is not one of the root's two. No other name changes. After Ok the name is
    /// gone, as the disk reads; until its folder is synced a crash may still leave it. Refused Device only where the disk
    /// failed, or where the path is a folder's, as the disk reads, which then stays; and Memory.
    pub fn forget(&mut self, path: &str) -> R<()>
        requires { IsNoRoot path.now }
        ensures effect { (D.state self.old.disk).honest → Forgets path.now (D.state self.old.disk) (D.state self.new.disk) result }
        ensures which { RefusedOnly (λ e. e ≡ Refusal.Device) result }
        ensures counts { CountsOnce result (D.state self.old.disk) (D.state self.new.disk) }
        ensures reads { (D.state self.new.disk).reads ≡ (D.state self.old.disk).reads }
        ensures honest { (D.state self.old.disk).honest ↔ (D.state self.new.disk).honest }
    {
        match clear(&mut self.disk, path) {
            Ok(()) => Ok(()),
            Err(e) => Err(refusal_of(e)),
        }
    }

    /// Lets the next root go that a crash may have left. A name that is not there is no fault. Refused Device only where
    /// the disk failed, or where a folder stands there, as the disk reads, and Memory.
    pub fn forget_next(&mut self) -> R<()>
        ensures effect { (D.state self.old.disk).honest → Forgets next_path (D.state self.old.disk) (D.state self.new.disk) result }
        ensures which { RefusedOnly (λ e. e ≡ Refusal.Device) result }
        ensures counts { CountsOnce result (D.state self.old.disk) (D.state self.new.disk) }
        ensures reads { (D.state self.new.disk).reads ≡ (D.state self.old.disk).reads }
        ensures honest { (D.state self.old.disk).honest ↔ (D.state self.new.disk).honest }
    {
        match clear(&mut self.disk, NEXT) {
            Ok(()) => Ok(()),
            Err(e) => Err(refusal_of(e)),
        }
    }

    /// The names in a folder, each once, in any order. Refused Truncated where no folder is there, as the disk reads,
    /// Device where the disk failed, and Memory.
    pub fn list(&mut self, alloc: Global, folder: &str) -> R<Vec<Entry>>
        ensures stands { (D.state self.old.disk).honest → IfOk result (λ entries. AreNamesIn (D.state self.old.disk).seen folder.now entries.items) }
        ensures unchanged { (D.state self.old.disk).honest → LeavesAll (D.state self.old.disk) (D.state self.new.disk) }
        ensures which { RefusedOnly (IsReadRefusal IsNoFolder folder.now (D.state self.old.disk) (D.state self.new.disk)) result }
        ensures counts { CountsOnce result (D.state self.old.disk) (D.state self.new.disk) }
        ensures reads { (D.state self.new.disk).reads ≡ (D.state self.old.disk).reads }
        ensures honest { (D.state self.old.disk).honest ↔ (D.state self.new.disk).honest }
    {
        match self.disk.list(alloc, folder) {
            Ok(entries) => Ok(entries),
            Err(Fault::Absent) => Err(Refusal::Truncated),
            Err(e) => Err(refusal_of(e)),
        }
    }

    /// The bytes of a file from `from` on, `len` of them or as many as are there, by one `read_range`.
    ///
    /// Of a kept path they are a range of its bytes. Refused Truncated where no file is there, as the disk reads, Device
    /// where the disk failed, and Memory.
    pub fn get_range(&mut self, alloc: Global, path: &str, from: u64, len: usize) -> R<Vec<u8>>
        ensures stands { (D.state self.old.disk).honest → IfOk result (λ read. IsRangeRead (D.state self.old.disk) path.now from len read.items) }
        ensures kept { (D.state self.old.disk).honest → IfOk result (λ read. IsRangeKept (D.state self.old.disk) path.now from len read.items) }
        ensures unchanged { (D.state self.old.disk).honest → LeavesAll (D.state self.old.disk) (D.state self.new.disk) }
        ensures which { RefusedOnly (IsReadRefusal IsNoFile path.now (D.state self.old.disk) (D.state self.new.disk)) result }
        ensures counts { CountsOnce result (D.state self.old.disk) (D.state self.new.disk) }
        ensures reads { IsOneMore (D.state self.old.disk).reads (D.state self.new.disk).reads }
        ensures honest { (D.state self.old.disk).honest ↔ (D.state self.new.disk).honest }
    {
        match self.disk.read_range(alloc, path, from, len) {
            Ok(bytes) => Ok(bytes),
            Err(Fault::Absent) => Err(Refusal::Truncated),
            Err(e) => Err(refusal_of(e)),
        }
    }

    /// The bytes of `_metadata` as the disk reads them, None where it is not there, by one `read_range`. Refused Device
    /// where the disk failed, and Memory.
    pub fn root(&mut self, alloc: Global) -> R<Option<Vec<u8>>>
        ensures stands { (D.state self.old.disk).honest → IfOk result (ReadsRoot (D.state self.old.disk)) }
        ensures unchanged { (D.state self.old.disk).honest → LeavesAll (D.state self.old.disk) (D.state self.new.disk) }
        ensures which { RefusedOnly (IsDeviceFailure (D.state self.old.disk) (D.state self.new.disk)) result }
        ensures counts { CountsOnce result (D.state self.old.disk) (D.state self.new.disk) }
        ensures reads { IsOneMore (D.state self.old.disk).reads (D.state self.new.disk).reads }
        ensures honest { (D.state self.old.disk).honest ↔ (D.state self.new.disk).honest }
    {
        match read_whole(&mut self.disk, alloc, ROOT) {
            Ok(bytes) => Ok(Some(bytes)),
            Err(Fault::Absent) => Ok(None),
            Err(e) => Err(refusal_of(e)),
        }
    }
}

/// The bytes of a whole file, by one `read_range`.
fn read_whole<D: Disk>(disk: &mut D, alloc: Global, path: &str) -> Result<Vec<u8>, Fault>
    ensures effect { (D.state disk.old).honest → RangeRead (λ bytes. bytes.items) path.now 0 (2 ^ 64 - 1) (D.state disk.old) (D.state disk.new) result }
    ensures which { IfErr result (λ e. e ≢ Fault.Exists) }
    ensures counts { CountsFailure result (D.state disk.old).failures (D.state disk.new).failures }
    ensures reads { IsOneMore (D.state disk.old).reads (D.state disk.new).reads }
    ensures honest { (D.state disk.old).honest ↔ (D.state disk.new).honest }
{
    disk.read_range(alloc, path, 0, usize::MAX)
}

/// Renames the next root to the root and syncs the dataset's folder. The rules of the disk leave it no cause but a
/// failure.
fn turn<D: Disk>(disk: &mut D) -> Result<(), Fault>
    ensures effect { (D.state disk.old).honest → TurnsWritten (D.state disk.old) (D.state disk.new) result }
    ensures counts { CountsFailure result (D.state disk.old).failures (D.state disk.new).failures }
    ensures reads { (D.state disk.new).reads ≡ (D.state disk.old).reads }
    ensures honest { (D.state disk.old).honest ↔ (D.state disk.new).honest }
{
    disk.rename(NEXT, ROOT)?;
    disk.sync_folder("")
}
