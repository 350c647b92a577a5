//! A disk of folders and files, what a stop may leave of it, and a real folder.
//!
//! The model stands in `specs/State.antt` (what a disk holds, and the images that a stop may leave) and
//! `specs/Calls.antt` (what each call does); `specs/Paths.antt` says what a path is.
#![tactic(auto)]

mod access;
mod binding;
mod cause;
mod counts;
mod disk;
mod failure;
mod fault;
mod host;
mod host_calls;
mod listing;
mod paths;
mod reach;

pub use binding::{Binding, Entry, Kind};
pub use disk::Disk;
pub use failure::Failure;
pub use fault::Fault;
pub use host::HostDisk;
pub use paths::{folder_of, one_folder, path_in, way_up};
