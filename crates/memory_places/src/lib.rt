//! Files, folders and datasets in memory: all of the program runs on them, and its contract says there what a call does.
//!
//! [`Tree`] is the tree of files and folders. [`Tree::call`] makes a call of the program on it. [`MemoryPaths`] are its files
//! for the crate `program`, [`MemoryPlaces`] its folders for the crate `commands`: a folder is a [`FolderDisk`], a disk that keeps
//! the model of the trait `Disk`.
#![tactic(auto)]

mod calling;
mod disks;
mod folder_disk;
mod layout;
mod memory_parts;
mod memory_paths;
mod memory_places;
mod memory_reader;
mod tree;

pub use calling::made_call;
pub use commands::Folders;
pub use disks::FolderDisks;
pub use folder_disk::FolderDisk;
pub use layout::{Layout, There};
pub use memory_parts::MemoryParts;
pub use memory_paths::MemoryPaths;
pub use memory_places::{Held, MemoryPlaces};
pub use memory_reader::MemoryReader;
pub use tree::Tree;
