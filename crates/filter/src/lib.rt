//! Filters: which rows satisfy them, and which groups they rule out unread (fastparquet, "filters").
//!
//! `specs/Terms.antt` says what the terms of a filter are over the leaves of a schema, and which refusal
//! comes for the first one that has a fault; `specs/Satisfies.antt` which rows satisfy a filter;
//! `specs/RuledOut.antt` which groups are ruled out; `specs/Law.antt` how the two are related.
#![tactic(auto)]

mod equality;
mod filter;
mod holding;
mod judging;
mod laws;
mod listed;
mod looking;
mod making;
mod operand;
mod pruning;
mod term;
mod test;

pub use filter::Filter;
pub use judging::Verdicts;
pub use laws::{completed_is_the_same, cut_filters_agree, ruled_out_holds_no_row, tests_decide};
pub use making::is_path;
pub use pruning::key_at;
pub use term::{Op, Term};
