//! Where datasets are.

ghost use Rattle.std.specs.Prelude.{◌≡◌, ℕ, List, Option, false, OnOk, IfOk, IfErr, IsTrue};
ghost use Rattle.bits.specs.Refusals.{RefusedOnly};
ghost use Rattle.bits.specs.declared.refusal.Refusal.TheVariants.{Device};
ghost use Rattle.places.specs.Blocks.{AreKnown, ReadsBlock};
ghost use Rattle.places.specs.Places.{Known, StaysKnown, StaysBut, IsKeptFrom, AreKeptFrom, HasEnds};

use crate::lock::{Access, Patience};
use crate::notes::{Explains, Notes};
use crate::readers_lock::Readers;
use crate::reason::Reason;
use bits::R;
use std::alloc::Global;
use std::io::{self, Write};

/// What is at a path.
#[derive(Drop)]
pub enum Node {
    Folder,
    Link,
    /// A file of so many bytes.
    File(u64),
}

/// A file that is read from its first byte to its last, a block at a time.
pub trait BlockReader {
    /// The bytes that are left to be read, where they are known.
    ghost left: { Self → Option (List ℕ) };

    /// That the file cannot be read.
    ghost is_shut: { Self → Type 0 };

    /// Reads the next block, and puts it behind the bytes that `buffer` has. False where nothing was left. Refused Device where the
    /// file cannot be read, which is noted.
    fn read_block(&mut self, buffer: &mut Vec<u8>, notes: &Notes) -> R<bool>
        ensures read { IfOk result (ReadsBlock (left self.old) (left self.new) buffer.old.items buffer.new.items) }
        ensures refused { RefusedOnly (λ e. (e ≡ Device) × is_shut self.old) result }
        ensures shut { is_shut self.new → is_shut self.old };
}

/// Where datasets are: files by their paths, and folders, each with a disk, that can be locked.
pub trait Places {
    /// The disk of a folder.
    type Disk: Explains + Drop;

    /// A lock, which is held until this is dropped.
    type Held: Drop;

    /// A file that is read in blocks.
    type Reader: BlockReader + Drop;

    /// What is known of files and folders. Where nothing is known, each clause holds of anything.
    ghost known: { Self → Known Self.Disk };

    /// The bytes of the file at a path, all of them. Refused Device where it cannot be read, which is noted.
    fn bytes(&mut self, alloc: Global, path: &str, notes: &Notes) -> R<Vec<u8>>
        ensures read { IfOk result (λ bytes. (known self.old).file path.now bytes.items) }
        ensures refused { IfErr result (IsKeptFrom (known self.old) path.now) }
        ensures same { StaysKnown (known self.old) (known self.new) };

    /// Opens the file at a path, to be read in blocks. Refused as [`bytes`](Places::bytes).
    fn reader(&mut self, alloc: Global, path: &str, notes: &Notes) -> R<Self::Reader>
        ensures opened { IfOk result (λ reader. (bytes : List ℕ) → AreKnown (Self.Reader.left reader) bytes → (known self.old).file path.now bytes) }
        ensures shut { IfOk result (λ reader. Self.Reader.is_shut reader → (known self.old).is_shut path.now) }
        ensures refused { IfErr result (IsKeptFrom (known self.old) path.now) }
        ensures same { StaysKnown (known self.old) (known self.new) };

    /// The bytes of a file that has the footer of the file at a path. Refused as [`bytes`](Places::bytes), and Limit where the
    /// file is too long.
    fn ends(&mut self, alloc: Global, path: &str, notes: &Notes) -> R<Vec<u8>>
        ensures read { IfOk result (λ bytes. HasEnds (known self.old) path.now bytes.items) }
        ensures refused { IfErr result (AreKeptFrom (known self.old) path.now) }
        ensures same { StaysKnown (known self.old) (known self.new) };

    /// Whether there is a folder at a path.
    fn is_folder(&self, path: &str) -> bool
        ensures { (known self.now).is_folder path.now result };

    /// Makes a folder where nothing is, and makes its name durable, also where it is there. Whether it was made. Refused Device
    /// where it cannot be made, which is noted; then none is made.
    fn make_folder(&mut self, alloc: Global, folder: &str, notes: &Notes) -> R<bool>
        ensures made { OnOk result ((disk : Self.Disk) → (known self.new).folder folder.now disk → (known self.old).made folder.now disk) }
        ensures new { IfOk result (λ is_new. IsTrue is_new → (known self.old).is_folder folder.now false) }
        ensures refused { IfErr result (λ e. IsKeptFrom (known self.old) folder.now e × StaysKnown (known self.old) (known self.new)) }
        ensures others { StaysBut folder.now (known self.old) (known self.new) };

    /// Takes a folder away, where nothing is in it.
    fn remove_folder(&mut self, folder: &str)
        ensures others { StaysBut folder.now (known self.old) (known self.new) };

    /// Refused Device where a folder has the name of the root, which is noted.
    fn check_root_name(&mut self, alloc: Global, folder: &str, notes: &Notes) -> R<()>
        ensures refused { IfErr result (IsKeptFrom (known self.old) folder.now) }
        ensures same { StaysKnown (known self.old) (known self.new) };

    /// Locks a folder, and waits for that as long as there is patience. Refused Device where it is none or cannot be locked, and
    /// where another command has it and the patience is at its end; of some of these `why` says which.
    fn lock<E: Write>(
        &mut self,
        folder: &str,
        access: Access,
        patience: Patience,
        err: &mut E,
        why: &mut Option<Reason>,
    ) -> R<Self::Held>
        ensures refused { IfErr result (IsKeptFrom (known self.old) folder.now) }
        ensures same { StaysKnown (known self.old) (known self.new) }
        ensures quiet { patience.shows ≡ false → E.contents err.new ≡ E.contents err.old };

    /// Shares the lock of the readers of a folder; none where the folder's is to be shared. Refused Device where the patience is
    /// at its end, which `why` says.
    fn share<E: Write>(
        &mut self,
        alloc: Global,
        folder: &str,
        patience: Patience,
        err: &mut E,
        why: &mut Option<Reason>,
    ) -> R<Option<Self::Held>>
        ensures refused { IfErr result (IsKeptFrom (known self.old) folder.now) }
        ensures same { StaysKnown (known self.old) (known self.new) }
        ensures quiet { patience.shows ≡ false → E.contents err.new ≡ E.contents err.old };

    /// Keeps the readers of a folder out, where none reads or they are at their end within so many seconds. Of who has the folder's
    /// lock.
    fn keep_out(&mut self, alloc: Global, folder: &str, seconds: u64) -> Readers<Self::Held>
        ensures same { StaysKnown (known self.old) (known self.new) };

    /// Keeps the readers of a folder out, and waits for those that read. Of who has the folder's lock. Refused Device where the
    /// patience is at its end, or they cannot be kept out; `why` says which.
    fn wait_out<E: Write>(
        &mut self,
        alloc: Global,
        folder: &str,
        patience: Patience,
        err: &mut E,
        why: &mut Option<Reason>,
    ) -> R<Readers<Self::Held>>
        ensures refused { IfErr result (IsKeptFrom (known self.old) folder.now) }
        ensures same { StaysKnown (known self.old) (known self.new) }
        ensures quiet { patience.shows ≡ false → E.contents err.new ≡ E.contents err.old };

    /// Makes what the readers of a folder lock, where that can be made.
    fn make_lock(&mut self, alloc: Global, folder: &str)
        ensures same { StaysKnown (known self.old) (known self.new) };

    /// Hands out the disk of a folder.
    fn take(&mut self, alloc: Global, folder: &str) -> R<Self::Disk>
        ensures taken { IfOk result (λ disk. (known self.old).folder folder.now disk) }
        ensures others { StaysBut folder.now (known self.old) (known self.new) }
        ensures refused { IfErr result (λ e. IsKeptFrom (known self.old) folder.now e × StaysKnown (known self.old) (known self.new)) };

    /// Takes the disk of a folder back.
    fn give(&mut self, folder: &str, disk: Self::Disk)
        ensures given { (known self.new).folder folder.now disk }
        ensures others { StaysBut folder.now (known self.old) (known self.new) };

    /// What is where a folder should be: at the end of a link, where `follows` says so. The system's error where nothing is.
    fn at_folder(&self, folder: &str, follows: bool) -> io::Result<Node>;

    /// What is at a path in a folder, in the same way; none where nothing is. It fails only when out of memory.
    fn in_folder(&self, alloc: Global, folder: &str, path: &str, follows: bool) -> R<Option<Node>>;

    /// The bytes of the file at a path in a folder, all of them. Refused Device where it cannot be read.
    fn part(&self, alloc: Global, folder: &str, path: &str, notes: &Notes) -> R<Vec<u8>>;
}
