//! Columns that own the bytes of their values.

ghost use Rattle.std.specs.Prelude.{◌≡◌, ◌≢◌, ◌++◌, ◌∷◌, [], Some, None, false, length, map, replicate, IfOk, IfSome, OnOk, OnErr, option_map};
ghost use Rattle.bits.specs.Refusals.{RefusedMemoryOnly};
ghost use Rattle.schema.specs.Borrowed.{value_ref_view, entry_ref_view};
ghost use Rattle.schema.specs.Stripe.{entry};
ghost use Rattle.plain.specs.Flat.{flat_entries};
ghost use Rattle.plain.specs.ValuesLeft.{values_left, kind_of};
ghost use Rattle.shred.specs.Slots.{AreKept, entries_in, total_size};
ghost use Rattle.shred.specs.Waiting.{plain_view, waiting, waiting_marked};
ghost use Rattle.shred.specs.inner.Put.{AppendsIf};
ghost use Rattle.shred.specs.inner.Roomy.{list_of};
ghost use Rattle.shred.specs.inner.Packed.{Gains, unpacked_each, run_entries};

use crate::plain_values::PlainValues;
use crate::roomy_list::RoomyList;
use crate::run::Run;
use crate::single::Single;
use crate::slot::{KeptEntry, PackedEntry, entry_of, many, packed, packed_run, value_of};
use bits::R;
use plain::Values;
use schema::{EntryRef, Kind, Leaf, ValueRef};
use std::alloc::{AllocError, Global};

/// The entries of one leaf: first those whose values wait in PLAIN, then others, beside the bytes of their values, and
/// last some without value. The first of them can be marked, so that the others are cut off again.
///
/// Entries without value that follow one another at equal levels are kept as a run, in the room of one.
#[derive(Debug, Drop)]
pub(crate) struct KeptColumn {
    /// Of a leaf without levels: all values, until one comes that is not of its type.
    plain: Option<PlainValues>,
    entries: RoomyList<PackedEntry>,
    bytes: RoomyList<u8>,
    /// The last entries, which may become more.
    run: Run,
    /// How many of the other entries are marked, how many bytes their values have, and the marked part of the run.
    marked: usize,
    marked_bytes: usize,
    marked_run: Run,
    ghost kept: { AreKept (list_of entries) (list_of bytes) marked marked_bytes },
}

impl KeptColumn {
    ghost use Rattle.shred.specs.Kept.{others_view, kept_view, marked_view};

    /// A column of the leaf without entries.
    pub(crate) fn new(alloc: Global, leaf: &Leaf) -> KeptColumn
        ensures empty { kept_view result ≡ [] }
    {
        KeptColumn {
            plain: PlainValues::of_leaf(alloc, leaf),
            entries: RoomyList::new(alloc),
            bytes: RoomyList::new(alloc),
            run: Run::empty(),
            marked: 0,
            marked_bytes: 0,
            marked_run: Run::empty(),
        }
    }

    /// Puts an entry after the others. It fails only when out of memory, and then leaves the column as it is.
    #[inline(always)]
    pub(crate) fn put<V: Single>(
        &mut self,
        repetition: u32,
        definition: u32,
        value: Option<V>,
    ) -> Result<(), AllocError>
        ensures put { OnOk result (kept_view self.new ≡ kept_view self.old ++ entry repetition definition (option_map V.meant value)) }
        ensures marked { marked_view self.new ≡ marked_view self.old }
    {
        match value {
            None => self.put_missing(repetition, definition),
            Some(value) => self.put_there(repetition, definition, value),
        }
    }

    /// Puts an entry without value after the others.
    #[inline(always)]
    fn put_missing(&mut self, repetition: u32, definition: u32) -> Result<(), AllocError>
        ensures put { OnOk result (kept_view self.new ≡ kept_view self.old ++ entry repetition definition None) }
        ensures marked { marked_view self.new ≡ marked_view self.old }
    {
        if let Some(longer) = self.run.longer(repetition, definition) {
            self.run = longer;
            return Ok(());
        }
        self.end_run()?;
        self.run = Run::of_one(repetition, definition);
        Ok(())
    }

    /// Puts an entry with a value after the others.
    #[inline(always)]
    fn put_there<V: Single>(
        &mut self,
        repetition: u32,
        definition: u32,
        value: V,
    ) -> Result<(), AllocError>
        ensures put { OnOk result (kept_view self.new ≡ kept_view self.old ++ entry repetition definition (Some (V.meant value))) }
        ensures marked { marked_view self.new ≡ marked_view self.old }
    {
        if self.put_plain(repetition, definition, value)? {
            return Ok(());
        }
        self.end_run()?;
        self.put_other(repetition, definition, value)
    }

    /// Puts an entry after the others where its value can wait in PLAIN, and returns whether it can.
    #[inline(always)]
    fn put_plain<V: Single>(
        &mut self,
        repetition: u32,
        definition: u32,
        value: V,
    ) -> Result<bool, AllocError>
        ensures put { IfOk result (λ put. AppendsIf put (kept_view self.old) (entry repetition definition (Some (V.meant value))) (kept_view self.new)) }
        ensures marked { marked_view self.new ≡ marked_view self.old }
    {
        if repetition > 0 || definition > 0 || self.has_others() {
            return Ok(false);
        }
        put_waiting(&mut self.plain, value)
    }

    /// Whether there are entries that do not wait in PLAIN.
    #[inline(always)]
    fn has_others(&self) -> bool
        ensures { result ≡ false → others_view self.now ≡ [] }
    {
        self.entries.len() > 0 || self.run.count > 0
    }

    /// Keeps the run with the other entries, so that none comes last.
    #[inline(always)]
    fn end_run(&mut self) -> Result<(), AllocError>
        ensures same { kept_view self.new ≡ kept_view self.old }
        ensures marked { marked_view self.new ≡ marked_view self.old }
        ensures ended { OnOk result (self.new.run.count ≡ 0) }
    {
        if self.run.count == 0 {
            return Ok(());
        }
        self.keep_run()
    }

    /// Keeps a run that has entries with the other entries, so that none comes last.
    #[inline(never)]
    fn keep_run(&mut self) -> Result<(), AllocError>
        ensures same { kept_view self.new ≡ kept_view self.old }
        ensures marked { marked_view self.new ≡ marked_view self.old }
        ensures ended { OnOk result (self.new.run.count ≡ 0) }
    {
        push_run(self.run, &mut self.entries)?;
        self.run = Run::empty();
        Ok(())
    }

    /// Puts an entry after the others, its value beside them. None without value may come last.
    #[inline(always)]
    fn put_other<V: Single>(
        &mut self,
        repetition: u32,
        definition: u32,
        value: V,
    ) -> Result<(), AllocError>
        requires { self.old.run.count ≡ 0 }
        ensures put { OnOk result (kept_view self.new ≡ kept_view self.old ++ entry repetition definition (Some (V.meant value))) }
        ensures marked { marked_view self.new ≡ marked_view self.old }
    {
        let size = self.bytes.len();
        let slot = value.put_bytes(&mut self.bytes)?;
        let entry = KeptEntry {
            repetition,
            definition,
            slot,
        };
        match push_entry(entry, &mut self.entries) {
            Ok(()) => Ok(()),
            Err(_) => {
                self.bytes.truncate(size);
                Err(AllocError)
            }
        }
    }

    /// Puts the entries of another column after the others. It fails only when out of memory; what is marked stays.
    ///
    /// Values that wait in PLAIN are copied at once where they are of the same type and no other entries wait. The time
    /// is linear in the other entries.
    pub(crate) fn take_over(&mut self, other: &KeptColumn) -> Result<(), AllocError>
        ensures taken { OnOk result (kept_view self.new ≡ kept_view self.old ++ kept_view other.now) }
        ensures marked { marked_view self.new ≡ marked_view self.old }
    {
        if let Some(plain) = &other.plain {
            self.take_plain(plain)?;
        }
        self.take_entries(other.entries.as_slice(), other.bytes.as_slice())?;
        let run = other.run;
        self.put_copies(run.repetition, run.definition, None, run.count)
    }

    /// Takes over values that wait in PLAIN.
    fn take_plain(&mut self, plain: &PlainValues) -> Result<(), AllocError>
        ensures taken { OnOk result (kept_view self.new ≡ kept_view self.old ++ flat_entries (plain_view plain.now)) }
        ensures marked { marked_view self.new ≡ marked_view self.old }
    {
        if self.copy_plain(plain)? {
            return Ok(());
        }
        let mut values = plain.values();
        for _ in 0..plain.len() {
            if let Some(value) = values.next() {
                self.put(0, 0, Some(value))?;
            }
        }
        Ok(())
    }

    /// Takes over values that wait in PLAIN by one copy, and returns whether it did: only where they are of the type of
    /// those here, and no other entries wait.
    fn copy_plain(&mut self, plain: &PlainValues) -> Result<bool, AllocError>
        ensures taken { IfOk result (λ put. AppendsIf put (kept_view self.old) (flat_entries (plain_view plain.now)) (kept_view self.new)) }
        ensures marked { marked_view self.new ≡ marked_view self.old }
    {
        if self.has_others() {
            return Ok(false);
        }
        take_waiting(&mut self.plain, plain)
    }

    /// Takes over packed entries, whose values' bytes these are.
    fn take_entries(&mut self, entries: &[PackedEntry], bytes: &[u8]) -> Result<(), AllocError>
        requires { total_size (unpacked_each entries.now) ≡ length bytes.now }
        ensures taken { OnOk result (kept_view self.new ≡ kept_view self.old ++ entries_in bytes.now (unpacked_each entries.now)) }
        ensures marked { marked_view self.new ≡ marked_view self.old }
    {
        let mut rest = bytes;
        for packed in entries {
            let entry = entry_of(*packed);
            let (value, others) = value_of(entry.slot, rest);
            let count = many(*packed);
            self.put_copies(entry.repetition, entry.definition, value, count)?;
            rest = others;
        }
        Ok(())
    }

    /// Puts this many equal entries after the others.
    fn put_copies(
        &mut self,
        repetition: u32,
        definition: u32,
        value: Option<ValueRef<'_>>,
        count: usize,
    ) -> Result<(), AllocError>
        ensures put { OnOk result (kept_view self.new ≡ kept_view self.old
            ++ replicate count (record { repetition = repetition; definition = definition; value = option_map value_ref_view value.entry })) }
        ensures marked { marked_view self.new ≡ marked_view self.old }
    {
        for _ in 0..count {
            self.put(repetition, definition, value)?;
        }
        Ok(())
    }

    /// Marks the entries that it has.
    pub(crate) fn mark(&mut self)
        ensures marked { marked_view self.new ≡ kept_view self.old }
        ensures same { kept_view self.new ≡ kept_view self.old }
    {
        if let Some(plain) = &mut self.plain {
            plain.mark();
        }
        self.marked = self.entries.len();
        self.marked_bytes = self.bytes.len();
        self.marked_run = self.run;
    }

    /// Removes the entries that are not marked.
    pub(crate) fn cut(&mut self)
        ensures cut { kept_view self.new ≡ marked_view self.old }
    {
        if let Some(plain) = &mut self.plain {
            plain.cut();
        }
        self.entries.truncate(self.marked);
        self.bytes.truncate(self.marked_bytes);
        self.run = self.marked_run;
    }

    /// Removes all entries.
    pub(crate) fn clear(&mut self)
        ensures empty { kept_view self.new ≡ [] }
    {
        if let Some(plain) = &mut self.plain {
            plain.clear();
        }
        self.entries.clear();
        self.bytes.clear();
        self.run = Run::empty();
        self.marked = 0;
        self.marked_bytes = 0;
        self.marked_run = Run::empty();
    }

    /// The values, where they wait in PLAIN and no other entries wait.
    pub(crate) fn plain_values(&self) -> Option<Values<'_>>
        ensures stands { IfSome result (λ values. kept_view self.now ≡ flat_entries (values_left values)) }
        ensures whole_bytes { IfSome result (λ values. kind_of values ≢ Kind.Boolean) }
    {
        if self.has_others() {
            return None;
        }
        match &self.plain {
            None => None,
            Some(plain) => Some(plain.values()),
        }
    }

    /// Puts the entries, their values borrowed, after others. It fails only when out of memory.
    pub(crate) fn lend<'a>(&'a self, entries: &mut Vec<EntryRef<'a>>) -> R<()>
        ensures lent { OnOk result (map entry_ref_view entries.new.items ≡ map entry_ref_view entries.old.items ++ kept_view self.now) }
        ensures which { RefusedMemoryOnly result }
    {
        if let Some(plain) = &self.plain {
            plain.lend(entries)?;
        }
        self.lend_others(entries)?;
        let run = self.run;
        lend_copies(run.repetition, run.definition, None, run.count, entries)
    }

    /// Puts the entries that are neither in PLAIN nor of the last run.
    fn lend_others<'a>(&'a self, entries: &mut Vec<EntryRef<'a>>) -> R<()>
        ensures lent { OnOk result (map entry_ref_view entries.new.items ≡ map entry_ref_view entries.old.items
            ++ entries_in (list_of self.now.bytes) (unpacked_each (list_of self.now.entries))) }
        ensures which { RefusedMemoryOnly result }
    {
        entries.reserve(self.entries.len())?;
        let mut rest = self.bytes.as_slice();
        for packed in self.entries.as_slice() {
            let entry = entry_of(*packed);
            let (value, others) = value_of(entry.slot, rest);
            let count = many(*packed);
            lend_copies(entry.repetition, entry.definition, value, count, entries)?;
            rest = others;
        }
        Ok(())
    }
}

/// Puts a value after those that wait in PLAIN, and returns whether it is of their type: no other is put.
#[inline(always)]
fn put_waiting<V: Single>(plain: &mut Option<PlainValues>, value: V) -> Result<bool, AllocError>
    ensures put { IfOk result (λ put. AppendsIf put (waiting plain.old) (V.meant value ∷ []) (waiting plain.new)) }
    ensures unchanged { OnErr result (waiting plain.new ≡ waiting plain.old) }
    ensures marked { waiting_marked plain.new ≡ waiting_marked plain.old }
{
    match plain {
        None => Ok(false),
        Some(plain) => plain.put(value),
    }
}

/// Puts the values that wait in PLAIN in another column after those that wait here, and returns whether they are of
/// their type: else none is put.
fn take_waiting(plain: &mut Option<PlainValues>, other: &PlainValues) -> Result<bool, AllocError>
    ensures put { IfOk result (λ put. AppendsIf put (waiting plain.old) (plain_view other.now) (waiting plain.new)) }
    ensures unchanged { OnErr result (waiting plain.new ≡ waiting plain.old) }
    ensures marked { waiting_marked plain.new ≡ waiting_marked plain.old }
{
    match plain {
        None => Ok(false),
        Some(plain) => plain.take_over(other),
    }
}

/// Puts this many equal entries after others.
#[inline(always)]
fn lend_copies<'a>(
    repetition: u32,
    definition: u32,
    value: Option<ValueRef<'a>>,
    count: usize,
    entries: &mut Vec<EntryRef<'a>>,
) -> R<()>
    ensures lent { OnOk result (map entry_ref_view entries.new.items ≡ map entry_ref_view entries.old.items
        ++ replicate count (record { repetition = repetition; definition = definition; value = option_map value_ref_view value.entry })) }
    ensures which { RefusedMemoryOnly result }
{
    for _ in 0..count {
        entries.push(EntryRef {
            repetition,
            definition,
            value,
        })?;
    }
    Ok(())
}

/// Puts an entry after others. It fails only when out of memory, and then leaves them as they are.
#[inline(always)]
fn push_entry(entry: KeptEntry, entries: &mut RoomyList<PackedEntry>) -> Result<(), AllocError>
    ensures items { OnOk result (Gains (list_of entries.old) (list_of entries.new) (entry ∷ [])) }
    ensures unchanged { OnErr result (list_of entries.new ≡ list_of entries.old) }
{
    entries.push(packed(entry)?)
}

/// Puts the entries of a run after others, packed as one. It fails only when out of memory, and then leaves them as
/// they are.
fn push_run(run: Run, entries: &mut RoomyList<PackedEntry>) -> Result<(), AllocError>
    ensures items { OnOk result (Gains (list_of entries.old) (list_of entries.new) (run_entries run)) }
    ensures unchanged { OnErr result (list_of entries.new ≡ list_of entries.old) }
{
    entries.push(packed_run(run)?)
}
