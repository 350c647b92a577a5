//! The entries of a data page whose entries have levels, one by one.

ghost use Rattle.std.specs.Prelude.{◌≡◌, length};

use crate::level_list::LevelList;
use crate::page_values::PageValues;
use bits::Fault;
use schema::EntryRef;

/// The entries of a data page that are not taken yet, in their order, with the levels of each.
#[derive(Debug, Drop)]
pub struct LevelledPage<'a> {
    repetitions: LevelList,
    definitions: LevelList,
    /// The leaf's greatest definition level: the entries at it have a value.
    greatest: u32,
    values: PageValues<'a>,
    index: usize,
    /// The entry that was taken last.
    repetition: u32,
    definition: u32,
    has_value: bool,
}

impl<'a> LevelledPage<'a> {
    ghost use Rattle.schema.specs.Borrowed.{entry_ref_view};
    ghost use Rattle.pages.specs.Left.{levels_of, values_left, entries_by, levelled_left, levelled_taken, Shows, AdvancesLevelled};

    /// The entries of these levels; those at the greatest definition level have the values, in turn.
    pub fn of(
        greatest: u32,
        repetitions: LevelList,
        definitions: LevelList,
        values: PageValues<'a>,
    ) -> LevelledPage<'a>
        ensures { levelled_left result ≡ entries_by greatest (levels_of repetitions) (levels_of definitions) (values_left values.entry) }
    {
        LevelledPage {
            repetitions,
            definitions,
            greatest,
            values,
            index: 0,
            repetition: 0,
            definition: 0,
            has_value: false,
        }
    }

    /// How many entries are not taken yet.
    #[inline(always)]
    pub fn len(&self) -> usize
        ensures { result ≡ length (levelled_left self.now) }
    {
        let entries = self.repetitions.len().min(self.definitions.len());
        entries.saturating_sub(self.index)
    }

    /// The levels of the next entry, repetition first, or none at the end. No entry is taken.
    #[inline(always)]
    pub fn peek(&self) -> Option<(u32, u32)>
        ensures { Shows (levelled_left self.now) result }
    {
        let repetition = self.repetitions.get(self.index);
        let definition = self.definitions.get(self.index);
        match (repetition, definition) {
            (Some(repetition), Some(definition)) => Some((repetition, definition)),
            _ => None,
        }
    }

    /// Takes the next entry, if there is one: [`entry`](LevelledPage::entry) is that one from then on. It
    /// fails only when out of memory, and then nothing is taken.
    #[inline(always)]
    pub fn advance(&mut self) -> Result<bool, Fault>
        ensures { AdvancesLevelled self.old self.new result }
    {
        let repetition = self.repetitions.get(self.index);
        let definition = self.definitions.get(self.index);
        let (Some(repetition), Some(definition)) = (repetition, definition) else {
            return Ok(false);
        };
        let is_full = definition == self.greatest;
        self.has_value = self.values.advance_where(is_full)?;
        self.repetition = repetition;
        self.definition = definition;
        self.index += 1;
        Ok(true)
    }

    /// The entry that was taken last.
    #[inline(always)]
    pub fn entry(&self) -> EntryRef<'_>
        ensures { entry_ref_view result ≡ levelled_taken self.now }
    {
        let value = if self.has_value {
            Some(self.values.value())
        } else {
            None
        };
        EntryRef {
            repetition: self.repetition,
            definition: self.definition,
            value,
        }
    }
}
