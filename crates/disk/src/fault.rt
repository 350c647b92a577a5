//! Why a call of a disk was not done.

ghost use Rattle.std.specs.Prelude.{◌≡◌, ◌≢◌, is_some};
ghost use Rattle.std.specs.IoError.{error_kind, raw_os_error};
ghost use Rattle.disk.specs.Plain.{fault_of};
ghost use Rattle.disk.specs.declared.fault.Fault.TheVariants.{Exists, Memory};

use std::alloc::{AllocError, AllocFailed};
use std::io;

/// Why a call of a disk was not done. After all but [`Fault::Failed`] nothing has changed.
#[derive(Clone, Copy, Debug, PartialEq, Eq)]
pub enum Fault {
    /// what was asked for is not there
    Absent,
    /// what is there stands in the way: the name is taken, or is a folder's where a file's is wanted
    Exists,
    /// the disk failed: the call may have taken effect, not, or in part. Only this one is counted as a failure.
    Failed,
    /// a growth was refused
    Memory,
}

impl From<AllocError> for Fault {
    ghost from_gives = { λ _ e. e ≡ Memory };

    fn from(_e: AllocError) -> Fault {
        Fault::Memory
    }
}

impl<T: Drop> From<AllocFailed<T>> for Fault {
    ghost from_gives = { λ _ e. e ≡ Memory };

    fn from(_e: AllocFailed<T>) -> Fault {
        Fault::Memory
    }
}

// The system's own lack of memory comes in the midst of a call, so it is a failure of the disk. That a name is there
// is reported by the calls that make names.
impl From<io::Error> for Fault {
    ghost from_gives = { λ error e. (e ≢ Exists) × (e ≡ fault_of (error_kind error) (is_some (raw_os_error error))) };

    fn from(e: io::Error) -> Fault {
        match e.kind() {
            io::ErrorKind::NotFound => Fault::Absent,
            io::ErrorKind::OutOfMemory if e.raw_os_error().is_none() => Fault::Memory,
            _ => Fault::Failed,
        }
    }
}
