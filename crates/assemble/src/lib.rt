//! Columns of entries back to rows (Dremel's nested encoding: parquet.apache.org, "Nested Encoding").
//!
//! `specs/Sources.antt` says what a source of entries promises, `specs/Standing.antt` what columns sources
//! stand for, `specs/Columns.antt` what the entries of a leaf should be, and `specs/RowsOf.antt` which rows
//! columns have; `specs/Flat.antt` says so for schemas without nested, OPTIONAL or REPEATED fields.
#![tactic(auto)]

mod cursor;
mod flat;
mod missing;
mod place;
mod reading;
mod row_builder;
mod row_showing;
mod row_source;
mod rows;
mod sink;
mod source;

pub use cursor::Cursor;
pub use flat::{flat_columns_have_rows, is_flat, next_flat_row_to};
pub use row_builder::RowBuilder;
pub use row_showing::{show_repeated_row, show_row};
pub use row_source::RowSource;
pub use rows::{assemble, assemble_from, count_rows, next_known_row_to, next_row, next_row_to};
pub use sink::{Discard, RowSink};
pub use source::EntrySource;
