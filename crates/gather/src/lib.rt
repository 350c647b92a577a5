//! Rows that were given so far, split by their keys, waiting as columns.
//!
//! `specs/Groups.antt` says which groups rows fill under their keys, and `specs/GatheredRows.antt` which rows are gathered.
#![tactic(auto)]

mod cut_row;
mod gathered;
mod key_buffer;
mod key_buffers;
mod laws;
mod part;

pub use gathered::Gathered;
pub use key_buffer::{KeyBuffer, KeyFault};
pub use laws::groups_have_rows;
