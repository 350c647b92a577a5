//! A terminal, and what was written to it.

use std::cell::RefCell;
use std::io::{self, Write};

/// A terminal, which keeps all that is written to it.
#[derive(Clone, Copy)]
pub struct Screen<'a> {
    pub written: &'a RefCell<Vec<u8>>,
}

impl Write for Screen<'_> {
    fn write(&mut self, bytes: &[u8]) -> io::Result<usize> {
        self.written.try_borrow_mut()?.extend_from_slice(bytes)?;
        Ok(bytes.len())
    }

    fn flush(&mut self) -> io::Result<()> {
        Ok(())
    }
}
