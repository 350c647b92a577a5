//! Where values stand in columns.

ghost use Rattle.std.specs.Prelude.{◌≡◌, ◌==◌, ◌&&◌};

use schema::EntryRef;

/// Where a value stands: the levels of its first entry, and the number of REPEATED fields passed.
#[derive(Debug, Clone, Copy)]
pub struct Place {
    pub repetition: u32,
    pub definition: u32,
    pub own: u32,
}

impl Place {
    /// Whether an entry has these levels.
    pub fn is_of(self, entry: &EntryRef<'_>) -> bool
        ensures { result ≡ (entry.now.repetition == self.repetition && entry.now.definition == self.definition) }
    {
        self.repetition == entry.repetition && self.definition == entry.definition
    }
}
