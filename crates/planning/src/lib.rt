//! Which groups a commit takes out of a version and which it brings, and where: pure functions that give the edits for
//! [`manifest::Version::spliced`].
#![tactic(auto)]

mod appending;
mod change;
mod changing;
mod flat;
mod laws;
mod leaving;
mod next;
mod numbers;
mod plan;
mod runs;
mod sorted;

pub use appending::append;
pub use change::{Change, Run, Sources};
pub use changing::replace;
pub use laws::{appends_show, numbers_stay_below, removals_show, rewrites_show};
pub use leaving::{remove_groups, rewrite};
pub use next::next_after;
pub use numbers::has_all;
pub use plan::plan_rewrite;
pub use runs::runs_of;
pub use sorted::in_table_order;
