//! Jobs: appends that are staged, and rewrites.
#![tactic(auto)]

mod append_work;
mod completing;
mod ending;
mod reading_on;
mod regathering;
mod rests;
mod rewriting;
mod rewritten;
mod run_sources;
mod run_writing;
mod staging;

pub use ending::{abort, commit};
pub use rewriting::{begin_rewrite, step_rewrite};
pub use staging::{begin_append, stage};
