//! The entries of a data page, one by one.

ghost use Rattle.std.specs.Prelude.{◌≡◌, length};

use crate::level_list::LevelList;
use crate::levelled_page::LevelledPage;
use crate::page_values::PageValues;
use bits::Fault;
use plain::Values;
use schema::{EntryRef, ValueRef};

/// The entries of a data page that are not taken yet, in their order. All of them were checked when the
/// page was read: taking one fails only when out of memory.
// Most pages are flat: one test tells them apart, and their values are taken without a look at levels.
#[derive(Debug, Drop)]
pub enum DataPage<'a> {
    /// Values in PLAIN, each of an entry whose levels are 0.
    Flat(Values<'a>),
    /// Entries with levels, or with values in another encoding.
    Levelled(LevelledPage<'a>),
}

impl<'a> DataPage<'a> {
    ghost use Rattle.schema.specs.Borrowed.{entry_ref_view};
    ghost use Rattle.pages.specs.Left.{levels_of, values_left, entries_by, entries_left, entry_taken, Shows, Advances, TakesPlain};

    /// The entries of these levels; those at the greatest definition level have the values, in turn.
    pub(crate) fn of(
        greatest: u32,
        repetitions: LevelList,
        definitions: LevelList,
        values: PageValues<'a>,
    ) -> DataPage<'a>
        ensures { entries_left result ≡ entries_by greatest (levels_of repetitions) (levels_of definitions) (values_left values.entry) }
    {
        if let PageValues::Plain(plain) = &values {
            let count = plain.len();
            if greatest == 0 && repetitions.are_zeros(count) && definitions.are_zeros(count) {
                return DataPage::Flat(*plain);
            }
        }
        DataPage::Levelled(LevelledPage::of(greatest, repetitions, definitions, values))
    }

    /// How many entries are not taken yet.
    #[inline(always)]
    pub fn len(&self) -> usize
        ensures { result ≡ length (entries_left self.now) }
    {
        match self {
            DataPage::Flat(values) => values.len(),
            DataPage::Levelled(page) => page.len(),
        }
    }

    /// The levels of the next entry, repetition first, or none at the end. No entry is taken.
    #[inline(always)]
    pub fn peek(&self) -> Option<(u32, u32)>
        ensures { Shows (entries_left self.now) result }
    {
        match self {
            DataPage::Flat(values) => {
                if values.len() == 0 {
                    None
                } else {
                    Some((0, 0))
                }
            }
            DataPage::Levelled(page) => page.peek(),
        }
    }

    /// Takes the next entry, if there is one: [`entry`](DataPage::entry) is that one from then on. It is
    /// refused only when out of memory, and then nothing is taken.
    #[inline(always)]
    pub fn advance(&mut self) -> Result<bool, Fault>
        ensures { Advances self.old self.new result }
    {
        match self {
            DataPage::Flat(values) => Ok(values.advance()),
            DataPage::Levelled(page) => page.advance(),
        }
    }

    /// Takes the next entry of a flat page and returns its value, which lies in the bytes of the chunk. Both
    /// of its levels are 0. Returns none for another page, and at the end, and then takes nothing.
    /// [`entry`](DataPage::entry) says nothing of an entry that is taken so.
    #[inline(always)]
    pub fn next_plain(&mut self) -> Option<ValueRef<'a>>
        ensures { TakesPlain self.old self.new result }
    {
        match self {
            DataPage::Flat(values) => values.next(),
            DataPage::Levelled(_) => None,
        }
    }

    /// The entry that was taken last. Its value lies in the bytes of the chunk, in those of its
    /// dictionary's page, or in memory that the next [`advance`](DataPage::advance) uses again.
    #[inline(always)]
    pub fn entry(&self) -> EntryRef<'_>
        ensures { entry_ref_view result ≡ entry_taken self.now }
    {
        match self {
            DataPage::Flat(values) => EntryRef {
                repetition: 0,
                definition: 0,
                value: Some(values.value()),
            },
            DataPage::Levelled(page) => page.entry(),
        }
    }
}
