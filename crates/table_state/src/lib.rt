//! What a store is, and in which state of its table it stands.
#![tactic(auto)]

mod beginning;
mod checks;
mod jobs;
mod lookup;
mod standing;
mod starting;

pub use beginning::{MOST_NUMBERS, can_open};
pub use jobs::{Appending, OpenCursor, OpenJob, Rewriting, Work};
pub use lookup::{end_cursor, end_job, find_cursor, find_job};
pub use standing::Core;
pub use starting::{first_versions, started};
