//! Where datasets are: files by their paths, and folders that can be locked, each with a disk ([`Places`]). [`HostPlaces`] are
//! those of the host.
//!
//! Nothing here knows of a table. [`Reason`] is why a call on a folder is refused, in a sentence, and [`Notes`] keep what the
//! system refused until that sentence is said.
#![tactic(auto)]

mod file_ends;
mod folder;
mod folder_lock;
mod host_places;
mod host_reader;
mod laws;
mod lock;
mod notes;
mod places;
mod readers_lock;
mod reason;

pub use folder::refusal_of;
pub use host_places::HostPlaces;
pub use host_reader::HostReader;
pub use laws::a_file_has_the_footer_of_its_ends;
pub use lock::{Access, Lock, Patience};
pub use notes::{Explains, Notes};
pub use places::{BlockReader, Node, Places};
pub use readers_lock::Readers;
pub use reason::{Difference, KeyFault, Reason, Told, ValueFault, print_reason};
