//! Some of the columns of a schema: those at places, or of names, as a schema of their own, and rows cut to them.
//!
//! `specs/Columns.antt` says which fields these are, and the crate `table` which values of a row.
#![tactic(auto)]

mod at_places;
mod cutting;
mod wanted;

pub use at_places::columns_at;
pub use cutting::{cut_row, value_at};
pub use wanted::{has_column, has_columns, wanted_places, wanted_schema};
