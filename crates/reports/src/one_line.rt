//! Text that stays in one line.

use std::fmt;
use std::io::Write;

/// Whether a character ends a line, or drives a terminal.
fn is_control(character: char) -> bool {
    character.is_control()
}

/// A writer that gets a text as it is, but control characters with Rust's escapes, such as `\n` and `\u{1b}`.
#[derive(Drop)]
pub struct OneLine<'a, W: Write>(pub &'a mut W);

impl<'a, W: Write> OneLine<'a, W> {
    /// Writes what stands in one line, and then the character after it, escaped.
    fn write_escaped(&mut self, plain: &str, control: Option<char>) -> fmt::Result {
        self.0.write_all(plain.as_bytes()).map_err(|_| fmt::Error)?;
        match control {
            Some(control) => write!(self.0, "{}", control.escape_default()).map_err(|_| fmt::Error),
            None => Ok(()),
        }
    }
}

impl<'a, W: Write> fmt::Write for OneLine<'a, W> {
    fn write_str(&mut self, text: &str) -> fmt::Result {
        for piece in text.split_inclusive(is_control) {
            match piece.strip_suffix(is_control) {
                Some(plain) => self.write_escaped(plain, piece.chars().next_back())?,
                None => self.write_escaped(piece, None)?,
            }
        }
        Ok(())
    }
}
