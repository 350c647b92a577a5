//! A table on a disk, and its calls: [`Store`].
//!
//! What a store is stands in `table_state`, what its calls do in `table_commits`, `table_reads`, `table_openings`, `table_changes`
//! and `table_jobs`. Here are the public type, whose methods are these calls, and lists of calls: `specs/Running.antt` says what
//! calls one after another do, `specs/Prefixes.antt` what a crash within them leaves, and `specs/Restarting.antt` that it can be
//! opened again.
#![tactic(auto)]

mod changes;
mod jobs;
mod keeping;
mod opening;
mod reads;
mod restart;
mod run;
mod store;

pub use opening::{create, open, open_to_read};
pub use restart::{
    a_crash_leaves_a_prefix_of_the_commits, a_table_can_be_opened_again,
    an_opening_finds_what_a_crash_left,
};
pub use store::Store;
pub use table_changes::{begin_gathering, gather_file};
pub use table_openings::{heavy_roots_are_too_much, new_files_are_free, paths_are_apart};
pub use table_reads::{FetchedRows, fetches_follow, queries_read_once};
pub use table_state::{Appending, OpenCursor, OpenJob, Rewriting, Work};
