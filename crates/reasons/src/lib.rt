//! Why something is refused, in a sentence that a person can act on: one finder for each kind of input.
//!
//! Nothing here decides what is refused. A finder is called after a refusal. It looks at the input once more, and finds the
//! first fault in it: of rows ([`row_fault`], of one line [`line_fault`]), of scripts ([`call_fault`]), of schemas ([`schema_fault`], [`column_fault`]), of texts
//! ([`utf8_fault`]), of filters ([`filter_fault`]), of what the system refused ([`system_fault`], [`output_cause`]), and of limits
//! ([`options_fault`], [`large_value`]). A [`Cause`] is any of them. Two functions find what is accepted and is worth a note: what
//! other tools may refuse in a schema ([`schema_notes`]), and members that stand twice ([`doubled_note`]). The crate knows neither
//! the command line nor the host.
#![tactic(auto)]

mod as_written;
mod call_misfit;
mod cause;
mod column_type;
mod doubled;
mod filter_faults;
mod form_words;
mod json_text;
mod limit_fault;
mod misfit;
mod noted_schema;
mod ordinal;
mod row_misfit;
mod schema_misfit;
mod system_words;
mod term_misfit;
mod text_fault;

pub use cause::{Cause, output_cause};
pub use doubled::doubled_note;
pub use filter_faults::{FilterFault, filter_fault};
pub use limit_fault::{LimitFault, large_value, options_fault};
pub use noted_schema::schema_notes;
pub use system_words::{SystemFault, system_fault};
pub use text_fault::{
    NOT_UTF8, TextFault, call_fault, column_fault, fault_at, line_fault, row_fault, schema_fault,
    utf8_fault,
};
