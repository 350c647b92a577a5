//! Entries that statistics are computed over.

ghost use Rattle.std.specs.Prelude.{◌≡◌, option_map};
ghost use Rattle.schema.specs.Stripe.{Entry as Shown};
ghost use Rattle.schema.specs.Views.{entry_view};
ghost use Rattle.schema.specs.Borrowed.{value_ref_view, entry_ref_view};

use schema::{Entry, EntryRef, ValueRef};

/// An entry of a column that lends its value, where it has one: statistics are computed with no copy of
/// the values, whether a column owns them or borrows them.
pub trait HasValue {
    /// The entry that it is.
    ghost shown: { Self → Shown };

    /// The value, where there is one.
    fn value(&self) -> Option<ValueRef<'_>>
        ensures { option_map value_ref_view result ≡ (shown self.now).value };
}

impl HasValue for Entry {
    ghost shown = { entry_view };

    fn value(&self) -> Option<ValueRef<'_>> {
        match &self.value {
            None => None,
            Some(value) => Some(ValueRef::of(value)),
        }
    }
}

impl<'a> HasValue for EntryRef<'a> {
    ghost shown = { entry_ref_view };

    #[inline(always)]
    fn value(&self) -> Option<ValueRef<'_>> {
        self.value
    }
}
