//! Minimum, maximum and null count of columns (`parquet.thrift`, Statistics).
//!
//! `specs/Bounds.antt` says what statistics say of a column, and which value is a bound; `specs/Bytes.antt`
//! which bytes a bound has.
#![tactic(auto)]

mod bytes;
mod cursor;
mod entry;
mod extremes;
mod stats;
mod text;

pub use bytes::{BoundBytes, kept_bounds_are_short, one_bound};
pub use entry::HasValue;
pub use extremes::{MOST_BYTES_OF_BOUND, bounds, bounds_of, bounds_of_values};
pub use stats::{GroupStats, Stats};
