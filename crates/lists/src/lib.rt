//! Lemmas on lists, options, booleans and numbers that two crates or more cite. They speak of std's words alone.
//!
//! The lemmas stand in `proofs/`, a file for each topic. [`lists_are_parts`] is here so that the crate has a function; a check of
//! the crate checks every lemma.
#![tactic(auto)]

mod laws;

pub use laws::lists_are_parts;
