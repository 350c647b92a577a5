//! Numbers of order.

use std::fmt::{self, Display, Formatter};

/// A number of order, counted from 1: `1st`, `2nd`, `3rd`, `4th`, `11th`.
#[derive(Clone, Copy)]
pub struct Ordinal(pub usize);

impl Ordinal {
    /// How it ends.
    fn ending(self) -> &'static str {
        match (self.0 % 10, self.0 % 100) {
            (_, 11..=13) => "th",
            (1, _) => "st",
            (2, _) => "nd",
            (3, _) => "rd",
            _ => "th",
        }
    }
}

impl Display for Ordinal {
    fn fmt<W: fmt::Write>(&self, f: &mut Formatter<W>) -> fmt::Result {
        let (number, ending) = (self.0, self.ending());
        write!(f, "{number}{ending}")
    }
}
