//! Rows that wait, kept as the columns that they shred to.

ghost use Rattle.std.specs.Prelude.{◌≡◌, ◌≢◌, ◌++◌, ◌∷◌, [], List, true, false, length, map, get_or, IfOk, IfSome, OnOk, OnErr, Err};
ghost use Rattle.bits.specs.Refusals.{RefusedOnly, RefusedMemoryOnly};
ghost use Rattle.schema.specs.Fits.{fits_each};
ghost use Rattle.schema.specs.Shape.{Fields};
ghost use Rattle.schema.specs.Values.{ValueTrees};
ghost use Rattle.schema.specs.Views.{row_view};
ghost use Rattle.schema.specs.Borrowed.{entry_ref_view};
ghost use Rattle.plain.specs.Flat.{flat_entries};
ghost use Rattle.plain.specs.ValuesLeft.{values_left, kind_of};
ghost use Rattle.schema.specs.Stripe.{columns, leaves_of};

use crate::filling::Filling;
use assemble::RowSink;
use bits::{R, Refusal};
use plain::Values;
use schema::{EntryRef, Kind, Row, Schema, ValueRef};
use std::alloc::{AllocError, Global};

/// The most rows that a buffer takes: more than there can be.
pub const MOST_ROWS: usize = 1 << 62;

/// Rows, kept as the columns that they shred to. A row takes as much room as its entries and the bytes of
/// its values.
///
/// Rows are added whole ([`push`](RowBuffer::push)), or value by value: the buffer is a sink, which is shown the
/// values of a row, and then its end ([`end_row`](RowBuffer::end_row)). A row that was begun
/// ([`begin_row`](RowBuffer::begin_row)) and has not ended can be dropped ([`drop_row`](RowBuffer::drop_row)).
#[derive(Drop)]
pub struct RowBuffer<'a> {
    schema: &'a Schema,
    /// How many rows there are.
    count: usize,
    /// A column for each leaf.
    filling: Filling<'a>,
    ghost sized: { length filling.columns.items ≡ length (leaves_of schema.now) },
}

impl<'a> RowBuffer<'a> {
    ghost use Rattle.shred.specs.Buffer.{schema_of, holds, ShowsRow};

    /// A buffer without rows. It fails only when out of memory.
    pub fn new(alloc: Global, schema: &'a Schema) -> R<RowBuffer<'a>>
        ensures begins { IfOk result (λ buffer. holds buffer []) }
        ensures of { IfOk result (λ buffer. schema_of buffer ≡ schema.now) }
        ensures which { RefusedMemoryOnly result }
    {
        let filling = Filling::new(alloc, schema.leaves(), schema.fields())?;
        Ok(RowBuffer {
            schema,
            count: 0,
            filling,
        })
    }

    /// The schema of the rows.
    pub fn schema(&self) -> &'a Schema
        ensures { result.now ≡ schema_of self.now }
    {
        self.schema
    }

    /// How many rows there are.
    pub fn len(&self) -> usize
        ensures counted { (rows : List ValueTrees) → holds self.now rows → result ≡ length rows }
    {
        self.count
    }

    /// Adds a row.
    ///
    /// Refused RowShape exactly when it does not fit the schema. After a refusal the buffer has the rows that it
    /// had, and this row is dropped.
    pub fn push(&mut self, row: Row) -> R<()>
        ensures stands { OnOk result ((rows : List ValueTrees) → holds self.old rows → holds self.new (rows ++ row_view row ∷ [])) }
        ensures fit { OnOk result (fits_each (schema_of self.old) (row_view row) ≡ true) }
        ensures only { result ≡ Err Refusal.RowShape → fits_each (schema_of self.old) (row_view row) ≡ false }
        ensures which { RefusedOnly (λ e. e ≡ Refusal.RowShape) result }
        ensures unchanged { OnErr result ((rows : List ValueTrees) → holds self.old rows → holds self.new rows) }
        ensures same_schema { schema_of self.new ≡ schema_of self.old }
    {
        if !self.schema.fits(&row) {
            return Err(Refusal::RowShape);
        }
        if self.count >= MOST_ROWS {
            // Never reached: there is no memory for as many rows.
            return Err(Refusal::Memory);
        }
        self.filling.mark();
        match self.filling.show_each(row.values.as_slice()) {
            Ok(()) => {
                self.filling.restart(self.schema.fields());
                self.count += 1;
                Ok(())
            }
            Err(_) => {
                self.filling.cut();
                self.filling.restart(self.schema.fields());
                Err(Refusal::Memory)
            }
        }
    }

    /// Adds the row whose values were shown. It fails only when out of memory.
    pub fn end_row(&mut self) -> R<()>
        ensures stands { OnOk result ((fs : Fields) (rows : List ValueTrees) (values : ValueTrees) → ShowsRow self.old fs rows values
            → fits_each fs values ≡ true → holds self.new (rows ++ values ∷ [])) }
        ensures of { (fs : Fields) (rows : List ValueTrees) (values : ValueTrees) → ShowsRow self.old fs rows values → schema_of self.new ≡ fs }
        ensures which { RefusedMemoryOnly result }
        ensures same_schema { schema_of self.new ≡ schema_of self.old }
    {
        if self.count >= MOST_ROWS {
            // Never reached: there is no memory for as many rows.
            return Err(Refusal::Memory);
        }
        self.filling.restart(self.schema.fields());
        self.count += 1;
        Ok(())
    }

    /// Adds the rows of another buffer of the same schema, in their order. What was shown of a next row is dropped.
    ///
    /// It fails only when out of memory; the buffer then has the rows that it had. The time is linear in the leaves, in
    /// the entries and in the bytes of the values that are taken over.
    pub fn take_over(&mut self, other: &RowBuffer<'_>) -> R<()>
        requires same { schema_of self.old ≡ schema_of other.now }
        ensures stands { OnOk result ((rows others : List ValueTrees) → holds self.old rows → holds other.now others → holds self.new (rows ++ others)) }
        ensures which { RefusedMemoryOnly result }
        ensures unchanged { OnErr result ((rows : List ValueTrees) → holds self.old rows → holds self.new rows) }
        ensures same_schema { schema_of self.new ≡ schema_of self.old }
    {
        let count = self.count.saturating_add(other.count);
        if count > MOST_ROWS {
            // Never reached: there is no memory for as many rows.
            return Err(Refusal::Memory);
        }
        self.filling.mark();
        match self.filling.take_over(&other.filling) {
            Ok(()) => {
                self.filling.restart(self.schema.fields());
                self.count = count;
                Ok(())
            }
            Err(_) => {
                self.filling.cut();
                self.filling.restart(self.schema.fields());
                Err(Refusal::Memory)
            }
        }
    }

    /// The values of a leaf, given by its index among the leaves of the schema, where they wait in PLAIN: each is that
    /// of an entry with both levels 0, and no other entries wait. None where the column waits as entries. Takes
    /// constant time.
    pub fn plain_values(&self, leaf: usize) -> Option<Values<'_>>
        ensures stands { IfSome result (λ values. (rows : List ValueTrees) → holds self.now rows
            → get_or (columns (schema_of self.now) rows) leaf [] ≡ flat_entries (values_left values)) }
        ensures whole_bytes { IfSome result (λ values. kind_of values ≢ Kind.Boolean) }
    {
        self.filling.plain_values(leaf)
    }

    /// The entries of a leaf, given by its place among the leaves of the schema, in place of what was in
    /// `entries`. It fails only when out of memory; the time is linear in the entries.
    pub fn entries<'b>(&'b self, leaf: usize, entries: &mut Vec<EntryRef<'b>>) -> R<()>
        ensures stands { OnOk result ((rows : List ValueTrees) → holds self.now rows
            → map entry_ref_view entries.new.items ≡ get_or (columns (schema_of self.now) rows) leaf []) }
        ensures which { RefusedMemoryOnly result }
    {
        entries.clear();
        self.filling.lend(leaf, entries)
    }

    /// Removes all rows, and what was shown of the next one. The room that they took is kept for others.
    pub fn clear(&mut self)
        ensures emptied { holds self.new [] }
        ensures same_schema { schema_of self.new ≡ schema_of self.old }
    {
        self.filling.clear();
        self.filling.restart(self.schema.fields());
        self.count = 0;
    }
}

impl<'a> RowSink for RowBuffer<'a> {
    ghost use Rattle.shred.specs.Buffer.{buffer_shows, shows_whole, goes_back, Base, base_of, schema_of, holds, BeginsRow, HoldsBelow};
    ghost use Rattle.assemble.specs.Sinks.{Token};

    ghost shows = { buffer_shows };

    ghost Base = { Base };

    ghost base = { base_of };

    ghost whole = { shows_whole };

    ghost goes_back = { goes_back };

    /// Begins a row, which may be dropped later. The buffer holds the same rows. Takes time linear in the leaves.
    fn begin_row(&mut self)
        ensures whole { (ts : List Token) → shows_whole self.old ts → shows_whole self.new ts × goes_back (base_of self.new) ts }
        ensures shows { (ts : List Token) → buffer_shows self.old ts → buffer_shows self.new ts }
        ensures begins { (rows : List ValueTrees) → holds self.old rows → holds self.new rows
            × (BeginsRow self.new (schema_of self.old) rows × HoldsBelow (base_of self.new) rows) }
        ensures same_schema { schema_of self.new ≡ schema_of self.old }
    {
        self.filling.mark();
    }

    /// Drops the row that was begun last, of which a part or all was shown, also where a call failed: the buffer holds
    /// the rows that it held when it began. Takes time linear in the leaves and in what was shown.
    fn drop_row(&mut self)
        ensures whole { (ts : List Token) → goes_back (base_of self.old) ts → shows_whole self.new ts × buffer_shows self.new ts }
        ensures dropped { (rows : List ValueTrees) → HoldsBelow (base_of self.old) rows → holds self.new rows }
        ensures same_schema { schema_of self.new ≡ schema_of self.old }
    {
        self.filling.cut();
        self.filling.restart(self.schema.fields());
    }

    #[inline(always)]
    fn value(&mut self, value: ValueRef<'_>) -> Result<(), AllocError> {
        self.filling.value(value)
    }

    #[inline(always)]
    fn int(&mut self, number: i64) -> Result<(), AllocError> {
        self.filling.int(number)
    }

    #[inline(always)]
    fn bytes(&mut self, text: &[u8]) -> Result<(), AllocError> {
        self.filling.bytes(text)
    }

    fn begin_group(&mut self) -> Result<(), AllocError> {
        self.filling.begin_group()
    }

    fn end_group(&mut self) -> Result<(), AllocError> {
        self.filling.end_group();
        Ok(())
    }

    fn begin_list(&mut self) -> Result<(), AllocError> {
        self.filling.begin_list()
    }

    fn end_list(&mut self) -> Result<(), AllocError> {
        self.filling.end_list()
    }
}
