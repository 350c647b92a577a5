//! The words of cases that are lines of text, and how outcomes are printed: what the programs of cases share.
//!
//! A word is a number, a list of numbers or bytes; rules stand for long lists (`100*1`, `0..8`, `00*4`), and what is printed has
//! the form in which it is given.
#![tactic(auto)]

mod texts;
mod values;
mod words;

pub use texts::{
    agreed, begun, both, hexed, hexed_option, joined, joined_by, listed, or_refused, shown_bytes,
    shown_numbers, written, yes_or_no,
};
pub use values::{entry_parts, shown_entry, shown_value, shown_values, value_of};
pub use words::{
    bytes, bytes_of, count, is_remark, natural, naturals, number, numbers, part, range, repeated,
    small, small_natural, small_naturals, small_numbers, text_after, width, word, words_from,
};
