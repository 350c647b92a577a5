//! What a real folder's last fault was about.

use crate::cause::Cause;
use crate::fault::Fault;
use std::alloc::Global;
use std::io;

/// A call that was not done: its path, its fault, and the error that says why.
#[derive(Debug, Drop)]
pub struct Failure {
    /// The path in the dataset's folder, which is itself the empty string; of a rename the old path. None if there was no
    /// memory for it.
    pub path: Option<String>,
    pub fault: Fault,
    /// The system's error. Where the disk itself refused the call, an error of its own, which has no number of the system.
    pub error: io::Error,
}

impl Failure {
    /// The failure of a call at a path. It takes memory for the path only.
    pub(crate) fn at(alloc: Global, path: &str, cause: Cause) -> Failure {
        Failure {
            path: String::from_str(alloc, path).ok(),
            fault: cause.fault,
            error: cause.error,
        }
    }
}
