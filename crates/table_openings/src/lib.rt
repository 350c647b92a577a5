//! Making and opening a table on a disk.
#![tactic(auto)]

mod creating;
mod laws;
mod opening;
mod reopening;

pub use laws::{heavy_roots_are_too_much, new_files_are_free, paths_are_apart};
pub use opening::{create, open, open_to_read};
pub use reopening::reopen;
