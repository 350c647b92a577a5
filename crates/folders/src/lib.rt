//! Where the part files of a table stand: which ones its root names, and what the entries of its key folders are.
//!
//! An opening that cleans and a check walk through the same folders; what each of them asks of a folder's entry stands here.
#![tactic(auto)]

mod entries;
mod named_parts;
mod naming;

pub use entries::{key_folder, path_below, stray_at};
pub use named_parts::NamedParts;
pub use naming::part_of_group;
