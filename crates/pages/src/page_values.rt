//! The values of a data page.

ghost use Rattle.std.specs.Prelude.{◌≡◌};

use bits::Fault;
use delta::Prefixed;
use plain::{SplitValues, Values};
use schema::ValueRef;

/// The values of a data page that are not taken yet: a list of them, those in PLAIN, which are read
/// where they lie, those that share prefixes, or split ones. Of PLAIN and shared ones only the value that
/// was taken last is held; the bytes of split ones lie apart, and are held in one buffer.
#[derive(Debug, Drop)]
pub enum PageValues<'a> {
    Listed(ListedValues<'a>),
    Plain(Values<'a>),
    Shared(Prefixed<'a>),
    Split(SplitValues),
}

/// Values, the first `index` of which are taken.
#[derive(Debug, Drop)]
pub struct ListedValues<'a> {
    values: Vec<ValueRef<'a>>,
    index: usize,
    taken: ValueRef<'a>,
}

impl<'a> PageValues<'a> {
    ghost use Rattle.std.specs.Prelude.{map};
    ghost use Rattle.schema.specs.Borrowed.{value_ref_view};
    ghost use Rattle.pages.specs.Left.{values_left, value_taken, TakesValue, TakesWhere};

    /// The values of a list, none of which is taken.
    pub fn of(values: Vec<ValueRef<'a>>) -> PageValues<'a>
        ensures { values_left result ≡ map value_ref_view values.entry.items }
    {
        PageValues::Listed(ListedValues {
            values,
            index: 0,
            taken: ValueRef::Null,
        })
    }

    /// Takes the next value, if there is one: [`value`](PageValues::value) is that one from then on. It
    /// fails only when out of memory, and then nothing is taken.
    #[inline(always)]
    fn advance(&mut self) -> Result<bool, Fault>
        ensures { TakesValue self.old self.new result }
    {
        match self {
            PageValues::Listed(values) => Ok(values.advance()),
            PageValues::Plain(values) => Ok(values.advance()),
            PageValues::Shared(values) => values.advance(),
            PageValues::Split(values) => Ok(values.advance()),
        }
    }

    /// Takes the next value, if there is one, for an entry that is full; for another one it takes none.
    #[inline(always)]
    pub fn advance_where(&mut self, full: bool) -> Result<bool, Fault>
        ensures { TakesWhere full self.old self.new result }
    {
        if full { self.advance() } else { Ok(false) }
    }

    /// The value that was taken last.
    #[inline(always)]
    pub fn value(&self) -> ValueRef<'_>
        ensures { value_ref_view result ≡ value_taken self.now }
    {
        match self {
            PageValues::Listed(values) => values.taken,
            PageValues::Plain(values) => values.value(),
            PageValues::Shared(values) => ValueRef::Bytes(values.value()),
            PageValues::Split(values) => values.value(),
        }
    }
}

impl<'a> ListedValues<'a> {
    ghost use Rattle.pages.specs.Left.{TakesListed};

    /// Takes the next value, if there is one.
    #[inline(always)]
    fn advance(&mut self) -> bool
        ensures { TakesListed self.old self.new result }
    {
        match self.values.as_slice().get(self.index) {
            None => false,
            Some(value) => {
                self.taken = *value;
                self.index += 1;
                true
            }
        }
    }
}
