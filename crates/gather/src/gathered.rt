//! Rows that were given so far, split by their keys.

ghost use Rattle.std.specs.Prelude.{◌≡◌, ◌++◌, ◌∷◌, [], List, true, false, length, IfOk, OnOk, OnErr, Err, MatchOption};
ghost use Rattle.bits.specs.Refusals.{OnFault, RefusedOnly, RefusedMemoryOnly};
ghost use Rattle.schema.specs.Fits.{fits_each};
ghost use Rattle.schema.specs.Shape.{Fields};
ghost use Rattle.schema.specs.Values.{ValueTrees};
ghost use Rattle.schema.specs.Views.{key_view, row_view};
ghost use Rattle.schema.specs.Keys.{key_columns_view, IsTableOver};
ghost use Rattle.partition.specs.Splitting.{HaveKeys};
ghost use Rattle.gather.specs.CutRows.{rest_schema};
ghost use Rattle.gather.specs.Buffers.{Schema-prop};

use crate::cut_row::CutRow;
use crate::key_buffer::{KeyBuffer, KeyFault};
use crate::key_buffers::KeyBuffers;
use assemble::{RowSink, show_row};
use bits::{R, Refusal};
use schema::{KeyColumn, Row, Schema, ValueRef};
use std::alloc::{AllocError, Global};

/// Rows of a table that were given so far, split by their keys, waiting as columns.
///
/// A row is given whole ([`push`](Gathered::push)), or value by value: it is a sink, which is shown the values of a row
/// between [`begin_row`](RowSink::begin_row) and [`end_row`](Gathered::end_row). Such a row can be dropped
/// ([`RowSink::drop_row`]). It takes as much room as the entries of the rows and the bytes of their values, and for each
/// key some 200 bytes a column.
#[derive(Drop)]
pub struct Gathered<'a> {
    schema: &'a Schema,
    columns: &'a [KeyColumn],
    buffers: KeyBuffers<'a>,
    /// The row that is shown.
    row: CutRow<'a>,
    ghost alike: { rest_schema row ≡ buffers.stored.now } by { Schema-prop (rest_schema row) buffers.stored.now },
}

impl<'a> Gathered<'a> {
    ghost use Rattle.gather.specs.GatheredRows.{schema_of, columns_of, stored_of, size_of, holds, ShowsRow};
    ghost use Rattle.gather.specs.KeyBuffers.{HoldGroups, IsFirstFault};

    /// No rows yet of a table with this schema and these key columns, whose files have the stored schema and groups of
    /// `size` rows. It fails only when out of memory.
    pub fn new(
        alloc: Global,
        schema: &'a Schema,
        columns: &'a [KeyColumn],
        stored: &'a Schema,
        size: usize,
    ) -> R<Gathered<'a>>
        requires table { IsTableOver (key_columns_view columns.now) stored.now schema.now }
        ensures begins { IfOk result (λ gathered. holds gathered []) }
        ensures schema { IfOk result (λ gathered. schema_of gathered ≡ schema.now) }
        ensures columns { IfOk result (λ gathered. columns_of gathered ≡ key_columns_view columns.now) }
        ensures size { IfOk result (λ gathered. size_of gathered ≡ size) }
        ensures which { RefusedMemoryOnly result }
    {
        let row = CutRow::new(alloc, columns, stored)?;
        let buffers = KeyBuffers::new(alloc, stored, size);
        Ok(Gathered {
            schema,
            columns,
            buffers,
            row,
        })
    }

    /// The schema of the rows.
    pub fn schema(&self) -> &'a Schema
        ensures { result.now ≡ schema_of self.now }
    {
        self.schema
    }

    /// The key columns.
    pub fn columns(&self) -> &'a [KeyColumn]
        ensures { key_columns_view result.now ≡ columns_of self.now }
    {
        self.columns
    }

    /// How many rows a group has.
    pub fn size(&self) -> usize
        ensures { result ≡ size_of self.now }
    {
        self.buffers.size
    }

    /// How many rows there are.
    pub fn len(&self) -> usize
        ensures counted { (rows : List ValueTrees) → holds self.now rows → result ≡ length rows }
    {
        self.buffers.count
    }

    /// The first row whose key can name no folder, if there is one.
    pub fn fault(&self) -> Option<&KeyFault>
        ensures first { (rows : List ValueTrees) → holds self.now rows
            → MatchOption result (HaveKeys (columns_of self.now) rows) (λ f. IsFirstFault (columns_of self.now) rows f.now.row (key_view f.now.key)) }
    {
        self.buffers.fault.as_ref()
    }

    /// Adds a row. Nothing may have been shown of another one.
    ///
    /// Refused RowShape exactly when it does not fit the schema, out of memory aside; and then the same rows are
    /// gathered.
    pub fn push(&mut self, row: &Row) -> R<()>
        ensures stands { OnOk result ((rows : List ValueTrees) → holds self.old rows → holds self.new (rows ++ row_view row.now ∷ [])) }
        ensures fit { OnOk result (fits_each (schema_of self.old) (row_view row.now) ≡ true) }
        ensures only { result ≡ Err Refusal.RowShape → fits_each (schema_of self.old) (row_view row.now) ≡ false }
        ensures unchanged { result ≡ Err Refusal.RowShape → self.new ≡ self.old }
        ensures which { RefusedOnly (λ e. e ≡ Refusal.RowShape) result }
        ensures same_schema { schema_of self.new ≡ schema_of self.old }
        ensures same_columns { columns_of self.new ≡ columns_of self.old }
        ensures same_size { size_of self.new ≡ size_of self.old }
    {
        if !self.schema.fits(row) {
            return Err(Refusal::RowShape);
        }
        show_row(row, self)?;
        self.end_row()
    }

    /// Adds the row whose values were shown. It fails only when out of memory.
    pub fn end_row(&mut self) -> R<()>
        ensures stands { OnOk result ((fs : Fields) (rows : List ValueTrees) (values : ValueTrees) → ShowsRow self.old fs rows values
            → fits_each fs values ≡ true → holds self.new (rows ++ values ∷ [])) }
        ensures of { (fs : Fields) (rows : List ValueTrees) (values : ValueTrees) → ShowsRow self.old fs rows values → schema_of self.new ≡ fs }
        ensures same_schema { schema_of self.new ≡ schema_of self.old }
        ensures same_columns { columns_of self.new ≡ columns_of self.old }
        ensures same_size { size_of self.new ≡ size_of self.old }
        ensures which { RefusedMemoryOnly result }
    {
        self.row.end_row()?;
        self.buffers.take(self.columns, &self.row)?;
        self.row.restart();
        Ok(())
    }

    /// The groups of the rows: the full ones in the order in which their last rows came, and then the rest of each key,
    /// keys ascending. Refused Key exactly where a row's key can name no folder, out of memory aside.
    ///
    /// The time is that of sorting the keys.
    pub fn into_groups(self) -> R<Vec<KeyBuffer<'a>>>
        ensures groups { IfOk result (λ groups. (rows : List ValueTrees) → holds self.entry rows
            → HoldGroups (columns_of self.entry) (size_of self.entry) (stored_of self.entry) rows groups.items) }
        ensures fine { OnOk result ((rows : List ValueTrees) → holds self.entry rows → HaveKeys (columns_of self.entry) rows) }
        ensures only { OnFault result ((rows : List ValueTrees) → holds self.entry rows → HaveKeys (columns_of self.entry) rows → ⊥) }
        ensures which { RefusedOnly (λ e. e ≡ Refusal.Key) result }
    {
        self.buffers.into_groups()
    }
}

impl<'a> RowSink for Gathered<'a> {
    ghost use Rattle.gather.specs.GatheredRows.{gathered_shows, shows_whole, goes_back, Base, base_of, IsGathered, schema_of, columns_of, size_of, holds, BeginsRow};
    ghost use Rattle.assemble.specs.Sinks.{Token};

    ghost shows = { gathered_shows };

    ghost Base = { Base };

    ghost base = { base_of };

    ghost whole = { shows_whole };

    ghost goes_back = { goes_back };

    /// Begins a row, which may be dropped later. The same rows are gathered. Takes constant time.
    fn begin_row(&mut self)
        ensures whole { (ts : List Token) → shows_whole self.old ts → shows_whole self.new ts × goes_back (base_of self.new) ts }
        ensures shows { (ts : List Token) → gathered_shows self.old ts → gathered_shows self.new ts }
        ensures begins { (rows : List ValueTrees) → holds self.old rows → BeginsRow self.new (schema_of self.old) rows }
        ensures same { self.new ≡ self.old }
    {}

    /// Drops the row of which a part or all was shown, also where a call failed: the rows are gathered that were when it
    /// began. Takes time linear in the leaves and in what was shown.
    fn drop_row(&mut self)
        ensures whole { (ts : List Token) → goes_back (base_of self.old) ts → shows_whole self.new ts × gathered_shows self.new ts }
        ensures dropped { (rows : List ValueTrees) → IsGathered (base_of self.old) rows → holds self.new rows }
        ensures same_base { base_of self.new ≡ base_of self.old }
    {
        self.row.restart();
    }

    #[inline(always)]
    fn value(&mut self, value: ValueRef<'_>) -> Result<(), AllocError> {
        self.row.value(self.columns, value)
    }

    fn begin_group(&mut self) -> Result<(), AllocError> {
        self.row.begin_group()
    }

    fn end_group(&mut self) -> Result<(), AllocError> {
        self.row.end_group()
    }

    fn begin_list(&mut self) -> Result<(), AllocError> {
        self.row.begin_list()
    }

    fn end_list(&mut self) -> Result<(), AllocError> {
        self.row.end_list()
    }
}
