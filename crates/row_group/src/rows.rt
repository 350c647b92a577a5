//! The rows of a group, one by one.

ghost use Rattle.std.specs.Prelude.{◌≡◌, ◌≢◌, ◌↔◌, IsTrue, List, true, false, map, IfOk, OnOk, IfErr, Ok, Err};
ghost use Rattle.bits.specs.Refusals.{OnFault, RefusedOnly, RefusedMemoryOnly};
ghost use Rattle.schema.specs.Values.{ValueTrees};
ghost use Rattle.schema.specs.Views.{rows_view};
ghost use Rattle.metadata.specs.Views.{group_meta_view};
ghost use Rattle.row_group.specs.Chunks.{GroupMeans};
ghost use Rattle.row_group.specs.Limits.{IsChunkOver, IsGroupOver, HasColumn, BeginsWith, HasCodec, IsOfChunks, IsReadable};
ghost use Rattle.row_group.specs.Left.{rows_stand, is_broken, with_refusal, TakesRow, TakesRowTo};
ghost use Rattle.row_group.specs.inner.Readers.{HasRows, AreRowsOfGroup};
ghost use Rattle.row_group.specs.inner.Counts.{HaveCounts};

use crate::chunk_reader::ChunkReader;
use crate::counts::count_of;
use crate::group_chunks::{check_chunks, readers_of};
use crate::laws::one_meaning;
use crate::limits::MOST_ROWS_OF_GROUP;
use assemble::{
    RowBuilder, RowSink, RowSource, count_rows, flat_columns_have_rows, is_flat, next_flat_row_to,
    next_known_row_to,
};
use bits::{Fault, R, Refusal};
use metadata::GroupMeta;
use schema::{Row, Schema, columns_determine_rows};
use std::alloc::Global;

/// The rows of a group that are still to come, in their order. Each is made when it is asked for.
///
/// Held are one page's entries of each column and the values of dictionaries, no columns and no rows.
/// Values are borrowed from the bytes of the file until a row keeps them.
#[derive(Debug, Drop)]
pub struct Rows<'a> {
    pub(crate) alloc: Global,
    pub(crate) schema: &'a Schema,
    pub(crate) readers: Vec<ChunkReader<'a>>,
    /// How many rows are still to come.
    pub(crate) left: usize,
    /// Whether memory was refused, perhaps within a row.
    pub(crate) is_broken: bool,
    /// Whether the schema is flat: then rows are read without a look at it.
    pub(crate) is_flat: bool,
}

impl<'a> Rows<'a> {
    /// All rows of a group, from the bytes of its file before the footer.
    ///
    /// The group is accepted whole: each page is decoded and checked, and its rows are counted,
    /// before the first row is given. So the bytes of its chunks are read twice until all rows came; the
    /// second time lengths and texts in PLAIN are not checked again.
    ///
    /// Refused Page for a negative number of rows, or a chunk's negative offset; Limit for more than
    /// [`MOST_ROWS_OF_GROUP`] rows; Schema where there are not as many chunks as leaves; Levels where the
    /// entries of the columns make no rows, or not as many as the group says; Value where an entry at the
    /// greatest definition level has no value that fits; otherwise as [`read_chunk`](crate::read_chunk).
    /// No group is accepted that goes beyond a limit. (`parquet.thrift`, RowGroup.)
    pub fn of_group(
        alloc: Global,
        front: &'a [u8],
        meta: &GroupMeta,
        schema: &'a Schema,
    ) -> R<Rows<'a>>
        ensures stands { IfOk result (λ r. (rows : List ValueTrees) × GroupMeans front.now schema.now (group_meta_view meta.now) rows × rows_stand r rows) }
        ensures alone { IfOk result (λ r. (rows : List ValueTrees) → GroupMeans front.now schema.now (group_meta_view meta.now) rows → rows_stand r rows) }
        ensures one_list { IfOk result (λ r. (rows others : List ValueTrees) → rows_stand r rows → rows_stand r others → rows ≡ others) }
        ensures within_limits { OnOk result (IsGroupOver front.now schema.now (group_meta_view meta.now) → ⊥) }
        ensures only { OnFault result ((rows : List ValueTrees) → GroupMeans front.now schema.now (group_meta_view meta.now) rows → ⊥) }
        ensures limit { result ≡ Err Refusal.Limit → IsGroupOver front.now schema.now (group_meta_view meta.now) }
        ensures codec { result ≡ Err Refusal.Codec → HasCodec (group_meta_view meta.now) }
        ensures which { RefusedOnly IsOfChunks result }
    {
        one_meaning();
        columns_determine_rows();
        let left = count_of(meta.num_rows, MOST_ROWS_OF_GROUP)?;
        check_rows(alloc, front, meta, schema, left)?;
        let readers = readers_of(alloc, front, meta, schema, true)?;
        Ok(Rows {
            alloc,
            schema,
            readers,
            left,
            is_broken: false,
            is_flat: is_flat(schema),
        })
    }

    /// All rows of a group that was accepted ([`check_group`]). No page is read yet.
    ///
    /// It fails only when out of memory, and so do its rows. Lengths and texts in PLAIN are not checked
    /// again. (`parquet.thrift`, RowGroup.)
    pub fn new(alloc: Global, front: &'a [u8], meta: &GroupMeta, schema: &'a Schema) -> R<Rows<'a>>
        requires accepted { (rows : List ValueTrees) × IsReadable front.now schema.now (group_meta_view meta.now) rows }
        ensures stands { IfOk result (λ r. (rows : List ValueTrees) → IsReadable front.now schema.now (group_meta_view meta.now) rows → rows_stand r rows) }
        ensures which { RefusedMemoryOnly result }
    {
        let left = count_of(meta.num_rows, MOST_ROWS_OF_GROUP)?;
        let readers = readers_of(alloc, front, meta, schema, true)?;
        Ok(Rows {
            alloc,
            schema,
            readers,
            left,
            is_broken: false,
            is_flat: is_flat(schema),
        })
    }

    /// Shows a sink the values of the next row. Returns false after the last row, however often it is
    /// asked, and then shows nothing.
    ///
    /// The values are borrowed, and nothing is copied. It fails only when out of memory, the sink's own
    /// too. The readers may then stand within a row of which the sink was shown a part, so that each later
    /// call fails in the same way.
    #[inline]
    pub fn next_to<K: RowSink>(&mut self, sink: &mut K) -> R<bool>
        ensures takes { TakesRowTo (rows_stand self.old) (rows_stand self.new) (K.shows sink.old) (K.shows sink.new) result }
        ensures unshown { result ≡ Ok false → sink.new ≡ sink.old }
        ensures base_stays { K.base sink.new ≡ K.base sink.old }
        ensures breaks { result ≡ Err Refusal.Memory → is_broken self.new ≡ true }
        ensures broken { is_broken self.old ≡ true → result ≡ Err Refusal.Memory }
    {
        match self.show_next(sink) {
            Ok(is_shown) => Ok(is_shown),
            Err(fault) => Err(Refusal::from(fault)),
        }
    }

    /// Shows a sink the values of the next row as [`next_to`](Rows::next_to) does. A fault is the refusal of
    /// that call, and owns no memory.
    // Each row of a file comes through here: what is returned fits a register.
    #[inline(always)]
    pub fn show_next<K: RowSink>(&mut self, sink: &mut K) -> Result<bool, Fault>
        ensures takes { TakesRowTo (rows_stand self.old) (rows_stand self.new) (K.shows sink.old) (K.shows sink.new) (with_refusal result) }
        ensures unshown { result ≡ Ok false → sink.new ≡ sink.old }
        ensures base_stays { K.base sink.new ≡ K.base sink.old }
        ensures breaks { IfErr result (λ _. is_broken self.new ≡ true) }
        ensures broken { is_broken self.old ≡ true → result ≡ Err Fault.Memory }
    {
        if self.is_broken {
            return Err(Fault::Memory);
        }
        if self.left == 0 {
            return Ok(false);
        }
        if self.is_flat {
            return self.show_flat(sink);
        }
        self.show_nested(sink)
    }

    /// Shows a sink the values of the next row, where one is left and the schema is flat.
    #[inline(always)]
    fn show_flat<K: RowSink>(&mut self, sink: &mut K) -> Result<bool, Fault>
        requires some { self.old.left ≢ 0 }
        requires flat { self.old.is_flat ≡ true }
        ensures takes { TakesRowTo (rows_stand self.old) (rows_stand self.new) (K.shows sink.old) (K.shows sink.new) (with_refusal result) }
        ensures unshown { result ≡ Ok false → sink.new ≡ sink.old }
        ensures base_stays { K.base sink.new ≡ K.base sink.old }
        ensures breaks { IfErr result (λ _. is_broken self.new ≡ true) }
    {
        match next_flat_row_to(self.readers.as_mut_slice(), sink) {
            Ok(()) => {
                self.left -= 1;
                Ok(true)
            }
            Err(fault) => {
                self.is_broken = true;
                Err(fault)
            }
        }
    }

    /// Shows a sink the values of the next row, where one is left.
    // Apart from the path of flat schemas, whose locals stay in registers so.
    #[inline(never)]
    fn show_nested<K: RowSink>(&mut self, sink: &mut K) -> Result<bool, Fault>
        requires some { self.old.left ≢ 0 }
        ensures takes { TakesRowTo (rows_stand self.old) (rows_stand self.new) (K.shows sink.old) (K.shows sink.new) (with_refusal result) }
        ensures unshown { result ≡ Ok false → sink.new ≡ sink.old }
        ensures base_stays { K.base sink.new ≡ K.base sink.old }
        ensures breaks { IfErr result (λ _. is_broken self.new ≡ true) }
    {
        match next_known_row_to(self.schema, self.readers.as_mut_slice(), sink) {
            Ok(()) => {
                self.left -= 1;
                Ok(true)
            }
            Err(fault) => {
                self.is_broken = true;
                Err(fault)
            }
        }
    }

    /// The next row; none after the last, however often it is asked for. The bytes of its values are
    /// copied once.
    ///
    /// It fails only when out of memory, and then each later call fails in the same way.
    pub fn next(&mut self) -> R<Option<Row>>
        ensures takes { TakesRow (rows_stand self.old) (rows_stand self.new) result }
        ensures breaks { result ≡ Err Refusal.Memory → is_broken self.new ≡ true }
        ensures broken { is_broken self.old ≡ true → result ≡ Err Refusal.Memory }
    {
        let Ok(mut builder) = RowBuilder::new(self.alloc, self.schema.fields().len()) else {
            self.is_broken = true;
            return Err(Refusal::Memory);
        };
        if self.next_to(&mut builder)? {
            Ok(Some(builder.into_row()))
        } else {
            Ok(None)
        }
    }

    /// All rows that are left, in their order. It fails only when out of memory. The time is linear in
    /// their values, and in the bytes of their pages.
    pub fn collected(mut self) -> R<Vec<Row>>
        ensures rows_are { IfOk result (λ rows. (stood : List ValueTrees) → rows_stand self.entry stood → stood ≡ rows_view rows.items) }
        ensures which { IfErr result (λ e. (stood : List ValueTrees) → rows_stand self.entry stood → e ≡ Refusal.Memory) }
    {
        let mut rows = Vec::new(self.alloc);
        'rows: for _ in 0..u64::MAX {
            match self.next()? {
                None => return Ok(rows),
                Some(row) => rows.push(row)?,
            }
        }
        // Never reached: no vector has as many rows.
        Err(Refusal::Memory)
    }
}

impl<'a> RowSource for Rows<'a> {
    ghost stands = { rows_stand };

    #[inline]
    fn next_to<K: RowSink>(&mut self, sink: &mut K) -> R<bool> {
        match self.show_next(sink) {
            Ok(is_shown) => Ok(is_shown),
            Err(fault) => Err(Refusal::from(fault)),
        }
    }
}

/// Reads a group, and keeps nothing: each page is decoded and checked, and the rows are counted.
/// Refused as [`Rows::of_group`]. (`parquet.thrift`, RowGroup.)
pub fn check_group(alloc: Global, front: &[u8], meta: &GroupMeta, schema: &Schema) -> R<()>
    ensures stands { OnOk result ((rows : List ValueTrees) × IsReadable front.now schema.now (group_meta_view meta.now) rows) }
    ensures only { OnFault result ((rows : List ValueTrees) → GroupMeans front.now schema.now (group_meta_view meta.now) rows → ⊥) }
    ensures limit { result ≡ Err Refusal.Limit → IsGroupOver front.now schema.now (group_meta_view meta.now) }
    ensures codec { result ≡ Err Refusal.Codec → HasCodec (group_meta_view meta.now) }
    ensures which { RefusedOnly IsOfChunks result }
{
    let count = count_of(meta.num_rows, MOST_ROWS_OF_GROUP)?;
    check_rows(alloc, front, meta, schema, count)?;
    Ok(())
}

/// Reads the chunks of a group to their ends, and keeps nothing of them: they hold the columns of this
/// many rows. Refused Levels for another number of rows; otherwise as [`Rows::of_group`].
///
/// In a flat schema each row has one entry in each column, so that the rows are counted without a look at
/// each of them.
fn check_rows(alloc: Global, front: &[u8], meta: &GroupMeta, schema: &Schema, count: usize) -> R<()>
    ensures stands { OnOk result (HasRows front.now schema.now (group_meta_view meta.now) count) }
    ensures only { OnFault result ((rows : List ValueTrees) → AreRowsOfGroup front.now schema.now (group_meta_view meta.now) count rows → ⊥) }
    ensures limit { result ≡ Err Refusal.Limit → HasColumn schema.now (group_meta_view meta.now) (BeginsWith front.now IsChunkOver) }
    ensures codec { result ≡ Err Refusal.Codec → HasCodec (group_meta_view meta.now) }
    ensures which { RefusedOnly IsOfChunks result }
{
    flat_columns_have_rows();
    if is_flat(schema) && have_counts(meta, count) {
        return check_chunks(alloc, front, meta, schema);
    }
    check_row_by_row(alloc, front, meta, schema, count)
}

/// Whether each chunk of a group has this many entries, by its record.
fn have_counts(meta: &GroupMeta, count: usize) -> bool
    ensures { IsTrue result ↔ HaveCounts count (group_meta_view meta.now).columns }
{
    for chunk in &meta.columns {
        if i128::from(chunk.meta_data.num_values) != count as i128 {
            return false;
        }
    }
    true
}

/// As [`check_rows`], for each schema: counts the rows of a group one by one, and makes none.
fn check_row_by_row(
    alloc: Global,
    front: &[u8],
    meta: &GroupMeta,
    schema: &Schema,
    count: usize,
) -> R<()>
    ensures stands { OnOk result (HasRows front.now schema.now (group_meta_view meta.now) count) }
    ensures only { OnFault result ((rows : List ValueTrees) → AreRowsOfGroup front.now schema.now (group_meta_view meta.now) count rows → ⊥) }
    ensures limit { result ≡ Err Refusal.Limit → HasColumn schema.now (group_meta_view meta.now) (BeginsWith front.now IsChunkOver) }
    ensures codec { result ≡ Err Refusal.Codec → HasCodec (group_meta_view meta.now) }
    ensures which { RefusedOnly IsOfChunks result }
{
    one_meaning();
    columns_determine_rows();
    let mut readers = readers_of(alloc, front, meta, schema, false)?;
    match count_rows(schema, readers.as_mut_slice()) {
        Ok(rows) if rows == count as u64 => Ok(()),
        Ok(_) => Err(Refusal::Levels),
        Err(refusal) => {
            check_chunks(alloc, front, meta, schema)?;
            Err(refusal)
        }
    }
}
