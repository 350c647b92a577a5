//! Lists with room made ahead.

ghost use Rattle.std.specs.Prelude.{◌≡◌, ◌<◌, ◌≤◌, ◌+◌, ◌^◌, ◌++◌, ◌∷◌, [], length, take, OnOk, OnErr};
ghost use Rattle.schema.specs.Values.{integer, bytes};
ghost use Rattle.plain.specs.Plain.{spelling};

use crate::slot::PackedEntry;
use plain::{place_byte_array, place_int32, place_int64, place_text};
use schema::Kind;
use std::alloc::{AllocError, Global};

/// For how many items room is made first, at least. A list that stays so short takes no more than these.
const FIRST_ROOM: usize = 1;

/// For how many more items room is made at a time, at most. The room is written when it is made, so a long list would
/// take twice its items if it doubled.
const MOST_ROOM: usize = 4096;

/// A list with items after it that mean nothing: to put one more item is a store where room was made, and no call. The
/// room doubles from a few items on, and then grows by a few thousand.
#[derive(Debug, Drop)]
pub(crate) struct RoomyList<T> {
    items: Vec<T>,
    /// How many of the items are the list.
    count: usize,
    ghost within: { count ≤ length items.items },
}

impl<T: Copy> RoomyList<T> {
    ghost use Rattle.shred.specs.inner.Roomy.{list_of};

    /// A list without items.
    pub(crate) fn new(alloc: Global) -> RoomyList<T>
        ensures empty { list_of result ≡ [] }
    {
        RoomyList {
            items: Vec::new(alloc),
            count: 0,
        }
    }

    /// How many items there are.
    #[inline(always)]
    pub(crate) fn len(&self) -> usize
        ensures { result ≡ length (list_of self.now) }
    {
        self.count
    }

    /// The items.
    pub(crate) fn as_slice(&self) -> &[T]
        ensures { result.now ≡ list_of self.now }
    {
        self.items.as_slice().split_at(self.count).0
    }

    /// Keeps the first items.
    pub(crate) fn truncate(&mut self, count: usize)
        ensures items { list_of self.new ≡ take count (list_of self.old) }
    {
        if count < self.count {
            self.count = count;
        }
    }

    /// Removes all items.
    pub(crate) fn clear(&mut self)
        ensures items { list_of self.new ≡ [] }
    {
        self.count = 0;
    }

    /// Makes room for this many more items. It fails only when out of memory.
    #[cold]
    #[inline(never)]
    fn make_room(&mut self, more: usize, filler: T) -> Result<(), AllocError>
        ensures items { list_of self.new ≡ list_of self.old }
        ensures count { self.new.count ≡ self.old.count }
        ensures room { OnOk result (self.new.count + more ≤ length self.new.items.items) }
    {
        let step = self.items.len().max(FIRST_ROOM).min(MOST_ROOM);
        let Some(wanted) = self.items.len().checked_add(more.max(step)) else {
            return Err(AllocError);
        };
        if self.items.is_empty() {
            self.items.reserve_exact(wanted)?;
        }
        self.items.resize(wanted, filler)
    }
}

impl RoomyList<PackedEntry> {
    ghost use Rattle.shred.specs.inner.Roomy.{list_of};

    /// Puts an entry after the others. It fails only when out of memory, and then leaves the list as it is.
    #[inline(always)]
    pub(crate) fn push(&mut self, entry: PackedEntry) -> Result<(), AllocError>
        ensures items { OnOk result (list_of self.new ≡ list_of self.old ++ entry ∷ []) }
        ensures unchanged { OnErr result (list_of self.new ≡ list_of self.old) }
    {
        if self.count == self.items.len() {
            // A constant, so that the entry need not be written to memory for the call.
            let filler = PackedEntry::Missing {
                repetition: 0,
                definition: 0,
                count: 0,
            };
            self.make_room(1, filler)?;
        }
        self.items[self.count] = entry;
        self.count += 1;
        Ok(())
    }
}

impl RoomyList<u8> {
    ghost use Rattle.shred.specs.inner.Roomy.{list_of};

    /// Puts bytes after the others. It fails only when out of memory, and then leaves the list as it is.
    #[inline(always)]
    pub(crate) fn append(&mut self, text: &[u8]) -> Result<(), AllocError>
        ensures items { OnOk result (list_of self.new ≡ list_of self.old ++ text.now) }
        ensures unchanged { OnErr result (list_of self.new ≡ list_of self.old) }
    {
        if text.len() > self.items.len() - self.count {
            self.make_room(text.len(), 0)?;
        }
        self.count = place_text(self.items.as_mut_slice(), self.count, text);
        Ok(())
    }

    /// Puts bytes after the others as `append` does, by a call.
    // With many copies of a text in them, the functions that put a value would be too large to be inlined.
    #[inline(never)]
    pub(crate) fn append_apart(&mut self, text: &[u8]) -> Result<(), AllocError>
        ensures items { OnOk result (list_of self.new ≡ list_of self.old ++ text.now) }
        ensures unchanged { OnErr result (list_of self.new ≡ list_of self.old) }
    {
        self.append(text)
    }

    /// Puts an INT32 in PLAIN after the other bytes. It fails only when out of memory, and then leaves the list as it
    /// is.
    #[inline(always)]
    pub(crate) fn put_int32(&mut self, number: i32) -> Result<(), AllocError>
        ensures items { OnOk result (list_of self.new ≡ list_of self.old ++ spelling Kind.Int32 (integer number)) }
        ensures unchanged { OnErr result (list_of self.new ≡ list_of self.old) }
    {
        if 4 > self.items.len() - self.count {
            self.make_room(4, 0)?;
        }
        self.count = place_int32(number, self.count, self.items.as_mut_slice());
        Ok(())
    }

    /// Puts an INT64 in PLAIN after the other bytes. It fails only when out of memory, and then leaves the list as it
    /// is.
    #[inline(always)]
    pub(crate) fn put_int64(&mut self, number: i64) -> Result<(), AllocError>
        ensures items { OnOk result (list_of self.new ≡ list_of self.old ++ spelling Kind.Int64 (integer number)) }
        ensures unchanged { OnErr result (list_of self.new ≡ list_of self.old) }
    {
        if 8 > self.items.len() - self.count {
            self.make_room(8, 0)?;
        }
        self.count = place_int64(number, self.count, self.items.as_mut_slice());
        Ok(())
    }

    /// Puts a BYTE_ARRAY in PLAIN after the other bytes. It fails only when out of memory, and then leaves the list as it
    /// is.
    #[inline(always)]
    pub(crate) fn put_byte_array(&mut self, text: &[u8]) -> Result<(), AllocError>
        requires { length text.now < 2 ^ 32 }
        ensures items { OnOk result (list_of self.new ≡ list_of self.old ++ spelling Kind.ByteArray (bytes text.now)) }
        ensures unchanged { OnErr result (list_of self.new ≡ list_of self.old) }
    {
        let size = 4 + text.len();
        if size > self.items.len() - self.count {
            self.make_room(size, 0)?;
        }
        self.count = place_byte_array(text, self.count, self.items.as_mut_slice());
        Ok(())
    }
}
