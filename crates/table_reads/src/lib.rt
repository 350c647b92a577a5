//! What a store reads: cursors, counts, listings, and the rows of groups.
#![tactic(auto)]

mod counting;
mod cursors;
mod listing;
mod passing;
mod reading_once;
mod showing;
mod sources;
mod wanted;

pub use counting::count;
pub use cursors::{close, fetch, fetch_rows, query};
pub use listing::{groups, plan_rewrite};
pub use passing::FetchedRows;
pub use reading_once::{fetches_follow, queries_read_once};
pub use showing::{show_next, show_rows, stored_places};
pub use sources::{next_source, shown_rows, whole_rows};
