//! Why a value was not read.

use std::alloc::{AllocError, AllocFailed};

/// Why a value was not read.
#[derive(Clone, Copy, Debug, Drop)]
pub enum Unread {
    OutOfMemory,
    /// It is not of the form that is read at once. It may be a value of another form, or none.
    Unknown,
}

impl From<AllocError> for Unread {
    fn from(_e: AllocError) -> Unread {
        Unread::OutOfMemory
    }
}

impl<T: Drop> From<AllocFailed<T>> for Unread {
    fn from(_e: AllocFailed<T>) -> Unread {
        Unread::OutOfMemory
    }
}
