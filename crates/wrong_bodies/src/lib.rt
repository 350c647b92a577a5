//! Bodies that contracts must refuse. Each function here has the clauses of a function of the product, word for word, and calls
//! it; each edit of `must-fail/` gives it a wrong body, which these clauses must refuse.
#![tactic(auto)]

mod columns;
mod files;
mod groups;

pub use columns::{columns_of_rows, numbers_of_runs, statistics_of_column};
pub use files::file_of_rows;
pub use groups::{is_ruled_out, rows_by_key};
