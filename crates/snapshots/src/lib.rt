//! Versions of a table, and the files that something open still needs. Nothing here touches a disk.
//!
//! `specs/State.antt` has the state and what each event makes of it, `specs/History.antt` the same told by what
//! happened, and the laws that join both: no needed file is ever given up, each other one is, and an open cursor keeps
//! its version.
#![tactic(auto)]

mod changes;
mod committing;
mod event;
mod files;
mod held;
mod laws;
mod numbered;
mod other;
mod others;
mod snapshots;
mod state;
mod versions;

pub use event::Event;
pub use laws::{
    a_cursor_keeps_its_version, needed_files_stay, other_files_are_given_up, versions_are_told,
};
pub use snapshots::Prepared;
pub use state::Snapshots;
