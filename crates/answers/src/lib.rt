//! What is made of a store that is open, on any disk: its rows, groups and columns are printed, or its rows given as Parquet files;
//! texts are read as filters, columns and scripts, and the calls that they ask for are made, and answered in lines of JSON.
//!
//! Nothing here knows where the store is, or who asks. What comes of a call is said over what `store` promises of it.
#![tactic(auto)]

mod appending;
mod changing;
mod first_rows;
mod group_columns;
mod importing;
mod kept_style;
mod part_writer;
mod printing;
mod querying;
mod renewing;
mod row_limit;
mod running;
mod texts;
mod unless;
mod writing_query;

pub use appending::append_rows;
pub use changing::{add_column, remove_rows, rewrite_groups, rewrite_small, without_root};
pub use first_rows::print_first_rows;
pub use group_columns::print_groups_and_columns;
pub use importing::{import_files, import_files_unless};
pub use kept_style::keep_style;
pub use printing::{print_done, write_text};
pub use querying::{print_count, print_groups, print_rows, print_schema, print_schema_of};
pub use renewing::rewrite_all;
pub use running::{calls_of, print_answers, run_script};
pub use texts::{as_text, text_of};
pub use unless::{append_unless, count_rows, import_unless};
pub use writing_query::{PART_BYTES, query_files};
