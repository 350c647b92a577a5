//! What is said of files, as text: what a Parquet file is ([`report_text`]), why it is refused ([`first_problem`]), what a
//! column says of its values ([`note_of`]), and how far a long call is ([`Progress`]). It
//! knows neither the command line nor the host.
#![tactic(auto)]

mod byte_source;
mod ends;
mod inspect;
mod inspect_chunks;
mod inspect_names;
mod inspect_pages;
mod inspect_problems;
mod inspect_report;
mod inspect_schema;
mod inspect_statistics;
mod inspect_text;
mod notes;
mod one_line;
mod pages_fault;
mod progress;
mod verdict;

pub use byte_source::{ByteSource, WholeBytes, part_of};
pub use ends::ends_of;
pub use inspect::{first_problem, footer_problem, report_by_ends, report_text};
pub use notes::note_of;
pub use one_line::OneLine;
pub use progress::{Progress, Terminals, with_commas};
