//! What is known of a page before it is read.

/// Whether it is known that a page stands in the bytes, within the limits.
#[derive(Debug, Clone, Copy)]
pub enum Standing {
    /// It is not known that the page stands: all is checked.
    Unknown,
    /// It is known that the page stands: it was read before, and its values in PLAIN are not checked again.
    Known,
}
