//! Entries that are taken one by one.

ghost use Rattle.std.specs.Prelude.{◌≡◌, ◌<◌, List, length, map, option_map};
ghost use Rattle.schema.specs.Stripe.{Entry as Shown};
ghost use Rattle.schema.specs.Borrowed.{value_ref_view};
ghost use Rattle.plain.specs.Flat.{flat_entries};
ghost use Rattle.plain.specs.ValuesLeft.{values_left};
ghost use Rattle.statistics.specs.inner.Cursors.{TakesEntry};

use crate::entry::HasValue;
use plain::Values;
use schema::ValueRef;

/// A cursor over entries that lends their values.
pub(crate) trait EntryCursor<'a>: Copy {
    /// The entries that are not taken yet.
    ghost left: { Self → List Shown };

    /// How many entries are not taken yet.
    fn count(&self) -> usize
        ensures { result ≡ length (left self.now) };

    /// Takes the next entry, and returns its value, where there is one.
    fn next_value(&mut self) -> Option<ValueRef<'a>>
        requires { 0 < length (left self.old) }
        ensures { TakesEntry (left self.old) (left self.new) (option_map value_ref_view result) };
}

impl<'a, E: HasValue> EntryCursor<'a> for &'a [E] {
    ghost left = { λ entries. map E.shown entries.now };

    #[inline(always)]
    fn count(&self) -> usize {
        self.len()
    }

    #[inline(always)]
    fn next_value(&mut self) -> Option<ValueRef<'a>> {
        match self.split_first() {
            None => None,
            Some((entry, others)) => {
                *self = others;
                entry.value()
            }
        }
    }
}

/// The entries of a leaf without levels that has these values.
impl<'a> EntryCursor<'a> for Values<'a> {
    ghost left = { λ values. flat_entries (values_left values) };

    #[inline(always)]
    fn count(&self) -> usize {
        self.len()
    }

    #[inline(always)]
    fn next_value(&mut self) -> Option<ValueRef<'a>> {
        self.next()
    }
}
