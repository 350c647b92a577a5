//! Why files cannot be used.

use bits::Refusal;
use std::io;

/// As [`program::refusal_of`]. Only a function of this crate is passed by its name here.
pub fn refusal_of(error: io::Error) -> Refusal {
    program::refusal_of(error)
}
