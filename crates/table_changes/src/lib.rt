//! Changes of a table that are one call: appends, imports, removals, new columns.
#![tactic(auto)]

mod adding_column;
mod appending;
mod appending_gathered;
mod bringing;
mod comparing;
mod dropping;
mod gathered_rows;
mod importing;
mod remaining;
mod removing;
mod root_limit;
mod widening;

pub use adding_column::add_column;
pub use appending::append;
pub use appending_gathered::append_gathered;
pub use dropping::remove_groups;
pub use gathered_rows::gather_file;
pub use importing::import;
pub use removing::remove;
pub use table_commits::begin_gathering;
