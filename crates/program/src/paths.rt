//! Files by their paths.

ghost use Rattle.std.specs.Prelude.{◌≡◌, ◌≢◌, ◌⊎◌, ℕ, List, IsTrue, IfSome, IfOk, IfErr, OnOk};
ghost use Rattle.bits.specs.Refusals.{RefusedOnly};
ghost use Rattle.bits.specs.declared.refusal.Refusal.TheVariants.{Memory, Exists, Device};
ghost use Rattle.program.specs.Paths.{Place, HasBytes, HasFront, IsFolder, IsLarge, IsPlaceRefusal, MakesFile};

use bits::R;
use reasons::Cause;
use reports::ByteSource;
use std::alloc::Global;
use std::io;

/// Files by their paths; `-` is standard input. Where something is refused, `why` may get the reason.
pub trait Paths {
    /// A file that is read in parts.
    type Parts: ByteSource<Fault = io::Error> + Drop;

    /// What is known to be at each path.
    ghost files: { Self → List ℕ → Place };

    /// The bytes of a file, but no more than are needed to see that it is too long: of one of more than 2^31 bytes, its first 2^31.
    /// Refused Device where it cannot be read.
    fn bytes_of(&self, alloc: Global, path: &str, why: &mut Option<Cause>) -> R<Vec<u8>>
        ensures has { IfOk result (λ bytes. HasFront (files self.now path.now) bytes.items) }
        ensures which { RefusedOnly (λ e. e ≡ Device) result };

    /// The bytes of a file, all of them. Refused as [`bytes_of`](Paths::bytes_of).
    fn whole_of(&self, alloc: Global, path: &str, why: &mut Option<Cause>) -> R<Vec<u8>>
        ensures has { IfOk result (λ bytes. HasBytes (files self.now path.now) bytes.items) }
        ensures which { RefusedOnly (λ e. e ≡ Device) result };

    /// The file at a path, to be read in parts; None for one that is read whole. Refused as [`bytes_of`](Paths::bytes_of).
    fn large_file(
        &self,
        alloc: Global,
        path: &str,
        why: &mut Option<Cause>,
    ) -> R<Option<Self::Parts>>
        ensures large { IfOk result (λ parts. IfSome parts (λ _. IsLarge (files self.now path.now))) }
        ensures which { RefusedOnly (λ e. e ≡ Device) result };

    /// Whether a folder is there. Standard input is none.
    fn is_folder(&self, path: &str) -> bool
        ensures there { IsTrue result → IsFolder (files self.now path.now) };

    /// Looks whether a new file can get this path. Refused Exists where something is there.
    fn check_free(&self, alloc: Global, path: &str, why: &mut Option<Cause>) -> R<()>
        ensures which { IfErr result (IsPlaceRefusal (files self.now path.now)) };

    /// Looks whether a folder is empty. Refused Exists where it is not, and Device where it cannot be read.
    fn check_empty(&self, alloc: Global, folder: &str, why: &mut Option<Cause>) -> R<()>
        ensures which { RefusedOnly (λ e. (e ≡ Exists) ⊎ (e ≡ Device)) result };

    /// Whether a folder is another one, or is in it, whatever links lead to both. A folder that is not found is in none.
    fn is_within(&self, alloc: Global, inner: &str, outer: &str) -> bool;

    /// Makes a new file of these bytes, and makes it durable: all of it is there then, or none of it, and nothing that is there is
    /// replaced. Refused Exists where something is at its path, and Device where it cannot be made, or not be made durable.
    fn put_new(&mut self, alloc: Global, path: &str, bytes: &[u8], why: &mut Option<Cause>) -> R<()>
        ensures makes { OnOk result (MakesFile (files self.old) (files self.new) path.now bytes.now) }
        ensures which { IfErr result (IsPlaceRefusal (files self.old path.now)) };

    /// Makes a new file as [`put_new`](Paths::put_new), but its name is made durable by [`sync_folder`](Paths::sync_folder) only.
    fn make_new(
        &mut self,
        alloc: Global,
        path: &str,
        bytes: &[u8],
        why: &mut Option<Cause>,
    ) -> R<()>
        ensures makes { OnOk result (MakesFile (files self.old) (files self.new) path.now bytes.now) };

    /// Makes the name of a file durable. Refused Device where that fails.
    fn sync_folder(&self, alloc: Global, path: &str, why: &mut Option<Cause>) -> R<()>;

    /// Removes a file.
    fn remove(&mut self, path: &str) -> io::Result<()>;
}

/// The folder of a path: what stands before its last `/`, else `.`.
pub fn folder_of(path: &str) -> &str {
    match path.rsplit_once('/') {
        Some(("", _)) => "/",
        Some((folder, _)) => folder,
        None => ".",
    }
}
