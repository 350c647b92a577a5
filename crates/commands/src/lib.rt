//! The commands on a dataset, made: the files that they name are read, the store is opened in its folder, and what is asked of it,
//! or is to be done with it, is done and printed.
//!
//! [`Folders`] makes them in folders, wherever these are ([`Places`](places::Places)). What is made of a store that is open is in
//! the crate [`answers`].
#![tactic(auto)]

mod appending;
mod creating;
mod filter_file;
mod gathering;
mod giving;
mod later_reason;
mod line_cuts;
mod looking;
mod making;
mod opening;
mod refused_file;
mod remarks;
mod row_lines;
mod stopping;
mod survey_json;
mod tally;
mod tasks;
mod texts;
mod watched;
mod writers;

pub use answers::PART_BYTES;
pub use looking::{Checking, print_check, print_rows_fit, print_survey};
pub use making::Folders;
pub use stopping::{Stop, run_script_to_refusal};
