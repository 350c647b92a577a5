//! Why a call of a real folder was not done, with the error that says so.

ghost use Rattle.std.specs.Prelude.{◌≡◌, ◌≢◌, is_some};
ghost use Rattle.std.specs.IoError.{error_kind, raw_os_error};
ghost use Rattle.disk.specs.Plain.{fault_of};
ghost use Rattle.disk.specs.declared.fault.Fault.TheVariants.{Exists, Memory};

use crate::fault::Fault;
use std::alloc::{AllocError, AllocFailed};
use std::io::{self, ErrorKind};

/// A fault, and the error of the system, or of this crate's own, that it comes from.
#[derive(Clone, Copy, Debug)]
pub struct Cause {
    pub fault: Fault,
    pub error: io::Error,
}

/// The number that the system gives the error "No such file or directory".
const NO_SUCH_FILE: i32 = 2;

impl Cause {
    /// What was asked for is not there.
    pub fn absent() -> Cause
        ensures { result.fault ≡ Fault.Absent }
    {
        Cause {
            fault: Fault::Absent,
            error: io::Error::from_raw_os_error(NO_SUCH_FILE),
        }
    }

    /// What is there stands in the way.
    pub fn exists() -> Cause
        ensures { result.fault ≡ Fault.Exists }
    {
        Cause {
            fault: Fault::Exists,
            error: io::Error::from(ErrorKind::AlreadyExists),
        }
    }

    /// A failure that the system does not report: the words say what is wrong.
    pub fn refused(words: &str) -> Cause
        ensures { result.fault ≡ Fault.Failed }
    {
        Cause {
            fault: Fault::Failed,
            error: io::Error::other(words),
        }
    }

    /// A link, a pipe, a device or a socket stands where a file or a folder belongs.
    pub fn other_node() -> Cause
        ensures { result.fault ≡ Fault.Failed }
    {
        Cause::refused("neither a file nor a folder")
    }

    /// What the system refuses in the midst of a call: the call may have taken effect, not, or in part.
    pub fn failed(error: io::Error) -> Cause
        ensures { result.fault ≡ Fault.Failed }
    {
        Cause {
            fault: Fault::Failed,
            error,
        }
    }

    /// A growth was refused.
    pub fn memory() -> Cause
        ensures { result.fault ≡ Fault.Memory }
    {
        Cause {
            fault: Fault::Memory,
            error: io::Error::from(ErrorKind::OutOfMemory),
        }
    }
}

impl From<AllocError> for Cause {
    ghost from_gives = { λ _ c. c.fault ≡ Memory };

    fn from(_e: AllocError) -> Cause {
        Cause::memory()
    }
}

impl<T: Drop> From<AllocFailed<T>> for Cause {
    ghost from_gives = { λ _ c. c.fault ≡ Memory };

    fn from(_e: AllocFailed<T>) -> Cause {
        Cause::memory()
    }
}

impl From<io::Error> for Cause {
    ghost from_gives = { λ error c. (c.fault ≢ Exists) × (c.fault ≡ fault_of (error_kind error) (is_some (raw_os_error error))) };

    fn from(e: io::Error) -> Cause {
        Cause {
            fault: Fault::from(e),
            error: e,
        }
    }
}
