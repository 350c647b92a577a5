//! Values that wait in PLAIN.

ghost use Rattle.std.specs.Prelude.{◌≡◌, ◌≢◌, ◌++◌, ◌∷◌, [], length, map, IfOk, OnOk, OnErr};
ghost use Rattle.bits.specs.Refusals.{RefusedMemoryOnly};
ghost use Rattle.schema.specs.Borrowed.{entry_ref_view};
ghost use Rattle.plain.specs.Flat.{flat_entries};
ghost use Rattle.plain.specs.ValuesLeft.{values_left, kind_of};
ghost use Rattle.shred.specs.InPlain.{AreInPlain};
ghost use Rattle.shred.specs.inner.Roomy.{list_of};

use crate::roomy_list::RoomyList;
use crate::single::Single;
use bits::R;
use plain::Values;
use schema::{EntryRef, Kind, Leaf};
use std::alloc::{AllocError, Global};

/// The values of a leaf without levels, in PLAIN. The first of them can be marked, so that the others are cut off
/// again.
#[derive(Debug, Drop)]
pub(crate) struct PlainValues {
    kind: Kind,
    bytes: RoomyList<u8>,
    count: usize,
    /// How many values are marked, and how many bytes they take.
    marked: usize,
    marked_bytes: usize,
    ghost spelled: { AreInPlain kind (list_of bytes) count marked marked_bytes },
}

impl PlainValues {
    ghost use Rattle.shred.specs.Waiting.{plain_view, plain_marked, waiting};
    ghost use Rattle.shred.specs.inner.Put.{AppendsIf};

    /// No values yet of a leaf. None where they do not wait in PLAIN: the leaf has levels, or is BOOLEAN.
    pub(crate) fn of_leaf(alloc: Global, leaf: &Leaf) -> Option<PlainValues>
        ensures empty { waiting result ≡ [] }
    {
        if leaf.greatest_repetition > 0 || leaf.greatest_definition > 0 {
            return None;
        }
        match leaf.leaf_type.kind {
            Kind::Boolean => None,
            kind => Some(PlainValues {
                kind,
                bytes: RoomyList::new(alloc),
                count: 0,
                marked: 0,
                marked_bytes: 0,
            }),
        }
    }

    /// Puts a value after the others, and returns whether it is of their type: no other is put. It fails only when
    /// out of memory, and then leaves them as they are.
    #[inline(always)]
    pub(crate) fn put<V: Single>(&mut self, value: V) -> Result<bool, AllocError>
        ensures put { IfOk result (λ put. AppendsIf put (plain_view self.old) (V.meant value ∷ []) (plain_view self.new)) }
        ensures unchanged { OnErr result (plain_view self.new ≡ plain_view self.old) }
        ensures marked { plain_marked self.new ≡ plain_marked self.old }
    {
        let Some(count) = self.count.checked_add(1) else {
            // Never reached: there is no memory for as many values.
            return Err(AllocError);
        };
        let is_put = value.put_plain(self.kind, &mut self.bytes)?;
        if is_put {
            self.count = count;
        }
        Ok(is_put)
    }

    /// Puts the values of another leaf after the others, and returns whether they are of the same type: no others are
    /// put. It fails only when out of memory, and then leaves them as they are.
    pub(crate) fn take_over(&mut self, other: &PlainValues) -> Result<bool, AllocError>
        ensures put { IfOk result (λ put. AppendsIf put (plain_view self.old) (plain_view other.now) (plain_view self.new)) }
        ensures unchanged { OnErr result (plain_view self.new ≡ plain_view self.old) }
        ensures marked { plain_marked self.new ≡ plain_marked self.old }
    {
        if self.kind != other.kind {
            return Ok(false);
        }
        let Some(count) = self.count.checked_add(other.count) else {
            // Never reached: there is no memory for as many values.
            return Err(AllocError);
        };
        self.bytes.append(other.bytes.as_slice())?;
        self.count = count;
        Ok(true)
    }

    /// How many values there are.
    pub(crate) fn len(&self) -> usize
        ensures { result ≡ length (plain_view self.now) }
    {
        self.count
    }

    /// Marks the values that are there.
    pub(crate) fn mark(&mut self)
        ensures marked { plain_marked self.new ≡ plain_view self.old }
        ensures same { plain_view self.new ≡ plain_view self.old }
    {
        self.marked = self.count;
        self.marked_bytes = self.bytes.len();
    }

    /// Removes the values that are not marked.
    pub(crate) fn cut(&mut self)
        ensures cut { plain_view self.new ≡ plain_marked self.old }
    {
        self.bytes.truncate(self.marked_bytes);
        self.count = self.marked;
    }

    /// Removes all values.
    pub(crate) fn clear(&mut self)
        ensures empty { plain_view self.new ≡ [] }
    {
        self.bytes.clear();
        self.count = 0;
        self.marked = 0;
        self.marked_bytes = 0;
    }

    /// The values, to be taken one by one.
    pub(crate) fn values(&self) -> Values<'_>
        ensures stands { values_left result ≡ plain_view self.now }
        ensures whole_bytes { kind_of result ≢ Kind.Boolean }
    {
        Values::known(self.kind, self.bytes.as_slice(), self.count)
    }

    /// Puts an entry for each value, borrowed, after others. It fails only when out of memory.
    pub(crate) fn lend<'a>(&'a self, entries: &mut Vec<EntryRef<'a>>) -> R<()>
        ensures lent { OnOk result (map entry_ref_view entries.new.items ≡ map entry_ref_view entries.old.items ++ flat_entries (plain_view self.now)) }
        ensures which { RefusedMemoryOnly result }
    {
        entries.reserve(self.count)?;
        let mut values = self.values();
        for _ in 0..self.count {
            if let Some(value) = values.next() {
                entries.push(EntryRef {
                    repetition: 0,
                    definition: 0,
                    value: Some(value),
                })?;
            }
        }
        Ok(())
    }
}
