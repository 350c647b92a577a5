//! Part files and commits: what a store writes.
#![tactic(auto)]

mod buffered_part;
mod cleaning;
mod committing;
mod gathered_groups;
mod gathering;
mod keeping;
mod making;
mod part;
mod sums;
mod turn;
mod wide_part;

pub use buffered_part::write_gathered;
pub use cleaning::let_go;
pub use committing::{commit_to, commit_version, with_new};
pub use gathered_groups::write_groups;
pub use gathering::{begin_gathering, push_rows};
pub use keeping::{clean_up, keep_replaced};
pub use sums::{plus_rows, rows_in, sum_of};
pub use wide_part::write_whole;
