//! Rows to columns of entries (parquet-format, "Nested Encoding", as the Dremel paper has it).
//!
//! `specs/Stripe.antt` of `schema` says what the columns of rows are, and `specs/Columns.antt` what a
//! borrowed column shows.
#![tactic(auto)]

mod column;
mod field;
mod filling;
mod kept_column;
mod kept_columns;
mod level;
mod plain_values;
mod roomy_list;
mod row_buffer;
mod row_values;
mod rows;
mod run;
mod single;
mod slot;

pub use column::{ColumnRef, to_columns};
pub use row_buffer::{MOST_ROWS, RowBuffer};
pub use rows::shred;
