//! The entries of a column in memory.

ghost use Rattle.std.specs.Prelude.{◌≡◌, map, None};
ghost use Rattle.schema.specs.Views.{entry_view};
ghost use Rattle.assemble.specs.Cursors.{entries_left, cursor_stands};

use crate::source::EntrySource;
use bits::{Fault, R};
use schema::{Entry, EntryRef};

/// Goes through the entries of a column in memory. It is never refused.
#[derive(Debug, Drop)]
pub struct Cursor<'a> {
    entries: &'a [Entry],
}

impl<'a> Cursor<'a> {
    /// Stands for all of these entries.
    pub fn new(entries: &'a [Entry]) -> Cursor<'a>
        ensures all { entries_left result ≡ map entry_view entries.now }
    {
        Cursor { entries }
    }
}

impl<'a> EntrySource for Cursor<'a> {
    ghost stands = { cursor_stands };

    ghost refused = { λ _. None };

    ghost cause = { λ _ _. ⊥ };

    #[inline(always)]
    fn peek(&mut self) -> R<Option<(u32, u32)>> {
        match self.entries.first() {
            None => Ok(None),
            Some(entry) => Ok(Some((entry.repetition, entry.definition))),
        }
    }

    #[inline(always)]
    fn next(&mut self) -> Result<Option<EntryRef<'_>>, Fault> {
        match self.entries.split_first() {
            None => Ok(None),
            Some((entry, rest)) => {
                self.entries = rest;
                Ok(Some(EntryRef::of(entry)))
            }
        }
    }

    fn one_list(&self) {}
}
