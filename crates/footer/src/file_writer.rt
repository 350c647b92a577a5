//! A file that is written row by row.

ghost use Rattle.std.specs.Prelude.{◌≡◌, ◌⊎◌, ℕ, ◌+◌, ◌≤◌, ◌<◌, ◌++◌, ◌∷◌, [], List, true, false, length, IfOk, OnOk, OnErr, Err};
ghost use Rattle.bits.specs.Refusals.{OnFault, RefusedOnly, RefusedMemoryOnly};
ghost use Rattle.schema.specs.Fits.{fits_each};
ghost use Rattle.schema.specs.Shape.{Fields};
ghost use Rattle.schema.specs.Values.{ValueTrees};
ghost use Rattle.schema.specs.Views.{row_view};
ghost use Rattle.shred.specs.Buffer.{holds, schema_of as rows_schema};
ghost use Rattle.row_group.specs.Writing.{IsOfRows};
ghost use Rattle.footer.specs.Faults.{IsOverLimit};
ghost use Rattle.metadata.specs.Records.{FileMeta as FileMetaShown};
ghost use Rattle.metadata.specs.Views.{file_meta_view};
ghost use Rattle.footer.specs.File.{IsFile, FileMeans};
ghost use Rattle.footer.specs.Own.{IsLaidOut};
ghost use Rattle.footer.specs.Writing.{IsOutOfRange, IsTooMuch, IsTaken};

use crate::file_writing::is_out_of_range;
use crate::footer_record::record_of;
use crate::footer_writing::with_footer;
use crate::limits::MAGIC;
use crate::options::WriteOptions;
use assemble::RowSink;
use bits::{R, Refusal};
use metadata::{FileMeta, GroupMeta, one_footer};
use row_group::{
    an_appended_group_has_its_rows, an_appended_group_is_within_limits, write_buffered_group,
};
use schema::{Row, Schema, ValueRef, a_list_means_one_schema};
use shred::{MOST_ROWS, RowBuffer};
use std::alloc::{AllocError, Global};

/// A file that is being written. Its rows are given one by one, and each group is written when it is full: kept
/// are the bytes so far, and the rows of one group, as columns.
///
/// A row is given whole ([`push`](FileWriter::push)), or value by value: the writer is a sink, which is shown the
/// values of a row between [`begin_row`](FileWriter::begin_row) and [`end_row`](FileWriter::end_row). Such a row can
/// be dropped ([`RowSink::drop_row`]) where it was begun as a sink's, too ([`RowSink::begin_row`], after `begin_row`).
#[derive(Drop)]
pub struct FileWriter<'a> {
    alloc: Global,
    options: WriteOptions,
    /// The bytes so far.
    bytes: Vec<u8>,
    /// The records of the groups that are written.
    groups: Vec<GroupMeta>,
    /// How many rows the groups that are written have.
    written: usize,
    /// The rows of the next group, and their schema.
    waiting: RowBuffer<'a>,
}

impl<'a> FileWriter<'a> {
    ghost use Rattle.footer.specs.Writer.{schema_of, options_of, HasWritten, has_rows, BeginsRow, ShowsRow};
    ghost use Rattle.footer.specs.declared.options.WriteOptions.{WriteOptions};
    ghost use Rattle.footer.specs.inner.Waiting.{IsNextGroup, HasRoom, HoldsSame};

    /// A writer of a file of this schema, without rows. Refused Limit for options out of range: a number of rows
    /// in a group outside 1 to 16,777,216, pages of no rows, a version other than 1 and 2.
    pub fn new(alloc: Global, schema: &'a Schema, options: &WriteOptions) -> R<FileWriter<'a>>
        ensures begins { IfOk result (λ writer. has_rows writer []) }
        ensures of { IfOk result (λ writer. (schema_of writer ≡ schema.now) × (options_of writer ≡ options.now)) }
        ensures limit { result ≡ Err Refusal.Limit → IsOutOfRange options.now }
        ensures which { RefusedOnly (λ e. e ≡ Refusal.Limit) result }
    {
        if is_out_of_range(options) {
            return Err(Refusal::Limit);
        }
        Ok(FileWriter {
            alloc,
            options: *options,
            bytes: Vec::from_slice(alloc, MAGIC)?,
            groups: Vec::new(alloc),
            written: 0,
            waiting: RowBuffer::new(alloc, schema)?,
        })
    }

    /// A writer of a file of the rows of a buffer, which become its first group. Refused Limit for options out of range, as
    /// [`new`](FileWriter::new) is, and for more rows than a group has.
    pub fn of_rows(alloc: Global, rows: RowBuffer<'a>, options: &WriteOptions) -> R<FileWriter<'a>>
        ensures begins { IfOk result (λ writer. (held : List ValueTrees) → holds rows.entry held → has_rows writer held) }
        ensures of { IfOk result (λ writer. (schema_of writer ≡ rows_schema rows.entry) × (options_of writer ≡ options.now)) }
        ensures limit { result ≡ Err Refusal.Limit → IsOutOfRange options.now
            ⊎ ((held : List ValueTrees) → holds rows.entry held → options.now.group_rows < length held) }
        ensures which { RefusedOnly (λ e. e ≡ Refusal.Limit) result }
    {
        if is_out_of_range(options) || rows.len() > options.group_rows as usize {
            return Err(Refusal::Limit);
        }
        Ok(FileWriter {
            alloc,
            options: *options,
            bytes: Vec::from_slice(alloc, MAGIC)?,
            groups: Vec::new(alloc),
            written: 0,
            waiting: rows,
        })
    }

    /// Gives the writer one more row. Where a group is full, it is written first.
    ///
    /// Refused RowShape exactly when the row does not fit the schema, and Limit only where the rows that were given
    /// before are too much for a file, whatever comes after them, as [`write_file`](crate::write_file) says it.
    /// After a refusal the writer has the rows that it had, and this row is dropped. A call writes at most one
    /// group.
    pub fn push(&mut self, row: Row) -> R<()>
        ensures stands { OnOk result ((rows : List ValueTrees) → has_rows self.old rows → has_rows self.new (rows ++ row_view row ∷ [])) }
        ensures fit { OnOk result (fits_each (schema_of self.old) (row_view row) ≡ true) }
        ensures only { OnFault result ((rows : List ValueTrees) → has_rows self.old rows → fits_each (schema_of self.old) (row_view row) ≡ false) }
        ensures limit { result ≡ Err Refusal.Limit → (rows later : List ValueTrees) → has_rows self.old rows
            → IsTooMuch (schema_of self.old) (options_of self.old) (rows ++ later) }
        ensures which { RefusedOnly IsOfRows result }
        ensures unchanged { OnErr result ((rows : List ValueTrees) → has_rows self.old rows → has_rows self.new rows) }
        ensures same_schema { schema_of self.new ≡ schema_of self.old }
        ensures same_options { options_of self.new ≡ options_of self.old }
    {
        self.make_room()?;
        self.waiting.push(row)?;
        Ok(())
    }

    /// Awaits one more row, whose values are shown next, and then its end ([`end_row`](FileWriter::end_row)). Where
    /// a group is full, it is written first.
    ///
    /// Refused Limit only where the rows that were given before are too much for a file, whatever comes after them,
    /// as [`write_file`](crate::write_file) says it. The writer has the same rows afterwards. A call writes at most
    /// one group.
    pub fn begin_row(&mut self) -> R<()>
        ensures begins { OnOk result ((rows : List ValueTrees) → has_rows self.old rows → BeginsRow self.new (schema_of self.old) (options_of self.old) rows) }
        ensures only { OnFault result ((rows : List ValueTrees) → has_rows self.old rows → ⊥) }
        ensures limit { result ≡ Err Refusal.Limit → (rows later : List ValueTrees) → has_rows self.old rows
            → IsTooMuch (schema_of self.old) (options_of self.old) (rows ++ later) }
        ensures which { RefusedOnly IsOfRows result }
        ensures same { (rows : List ValueTrees) → has_rows self.old rows → has_rows self.new rows }
        ensures same_schema { schema_of self.new ≡ schema_of self.old }
        ensures same_options { options_of self.new ≡ options_of self.old }
    {
        self.make_room()
    }

    /// Gives the writer the row whose values it was shown. It fails only when out of memory.
    pub fn end_row(&mut self) -> R<()>
        ensures stands { OnOk result ((fs : Fields) (options : WriteOptions) (rows : List ValueTrees) (values : ValueTrees)
            → ShowsRow self.old fs options rows values → fits_each fs values ≡ true → has_rows self.new (rows ++ values ∷ [])) }
        ensures of { (fs : Fields) (options : WriteOptions) (rows : List ValueTrees) (values : ValueTrees)
            → ShowsRow self.old fs options rows values → (schema_of self.new ≡ fs) × (options_of self.new ≡ options) }
        ensures which { RefusedMemoryOnly result }
        ensures same_schema { schema_of self.new ≡ schema_of self.old }
        ensures same_options { options_of self.new ≡ options_of self.old }
    {
        self.waiting.end_row()
    }

    /// How many bytes the groups take that are written so far, with the file's first four bytes: for who begins
    /// another file where one grows large. Rows that wait, and the footer, are not among them.
    pub fn written_bytes(&self) -> usize {
        self.bytes.len()
    }

    /// The bytes of a file that means all rows that were given, laid out as by [`write_file`](crate::write_file).
    /// Refused Limit only where they are too much for a file.
    pub fn finish(self) -> R<Vec<u8>>
        ensures means { IfOk result (λ file. (rows : List ValueTrees) → has_rows self.entry rows → FileMeans file.items (schema_of self.entry) rows) }
        ensures laid_out { IfOk result (λ file. (rows : List ValueTrees) → has_rows self.entry rows
            → IsLaidOut (options_of self.entry) (schema_of self.entry) rows file.items) }
        ensures readable { IfOk result (λ file. (rows : List ValueTrees) → has_rows self.entry rows
            → IsTaken (options_of self.entry).group_rows (schema_of self.entry) rows file.items) }
        ensures within_limits { IfOk result (λ file. (rows : List ValueTrees) → has_rows self.entry rows → IsOverLimit file.items → ⊥) }
        ensures in_range { OnOk result ((rows : List ValueTrees) → has_rows self.entry rows → IsOutOfRange (options_of self.entry) → ⊥) }
        ensures only { OnFault result ((rows : List ValueTrees) → has_rows self.entry rows → ⊥) }
        ensures limit { result ≡ Err Refusal.Limit → (rows : List ValueTrees) → has_rows self.entry rows
            → IsTooMuch (schema_of self.entry) (options_of self.entry) rows }
        ensures which { RefusedOnly IsOfRows result }
    {
        let (file, _record) = self.finish_with_record()?;
        Ok(file)
    }

    /// The file of [`finish`](FileWriter::finish), and the record in its footer: for who would read that footer next.
    /// Refused as `finish` is.
    pub fn finish_with_record(mut self) -> R<(Vec<u8>, FileMeta)>
        ensures means { IfOk result (λ x. (rows : List ValueTrees) → has_rows self.entry rows → FileMeans x.0.items (schema_of self.entry) rows) }
        ensures laid_out { IfOk result (λ x. (rows : List ValueTrees) → has_rows self.entry rows
            → IsLaidOut (options_of self.entry) (schema_of self.entry) rows x.0.items) }
        ensures readable { IfOk result (λ x. (rows : List ValueTrees) → has_rows self.entry rows
            → IsTaken (options_of self.entry).group_rows (schema_of self.entry) rows x.0.items) }
        ensures record_is { IfOk result (λ x. (rows : List ValueTrees) → has_rows self.entry rows
            → (front : List ℕ) (meta : FileMetaShown) → IsFile x.0.items front meta → meta ≡ file_meta_view x.1) }
        ensures within_limits { IfOk result (λ x. (rows : List ValueTrees) → has_rows self.entry rows → IsOverLimit x.0.items → ⊥) }
        ensures in_range { OnOk result ((rows : List ValueTrees) → has_rows self.entry rows → IsOutOfRange (options_of self.entry) → ⊥) }
        ensures only { OnFault result ((rows : List ValueTrees) → has_rows self.entry rows → ⊥) }
        ensures limit { result ≡ Err Refusal.Limit → (rows : List ValueTrees) → has_rows self.entry rows
            → IsTooMuch (schema_of self.entry) (options_of self.entry) rows }
        ensures which { RefusedOnly IsOfRows result }
    {
        an_appended_group_has_its_rows();
        an_appended_group_is_within_limits();
        one_footer();
        a_list_means_one_schema();
        self.write_waiting()?;
        let record = record_of(self.alloc, self.waiting.schema(), self.written, self.groups)?;
        let file = with_footer(self.alloc, self.bytes, &record)?;
        Ok((file, record))
    }

    /// Writes the rows that wait where they are a full group. After a refusal they still wait.
    fn make_room(&mut self) -> R<()>
        ensures stands { OnOk result ((rows : List ValueTrees) → has_rows self.old rows → HasRoom self.new rows) }
        ensures only { OnFault result ((rows : List ValueTrees) → has_rows self.old rows → ⊥) }
        ensures limit { result ≡ Err Refusal.Limit → (rows later : List ValueTrees) → has_rows self.old rows
            → IsTooMuch (schema_of self.old) (options_of self.old) (rows ++ later) }
        ensures which { RefusedOnly IsOfRows result }
        ensures unchanged { OnErr result ((rows : List ValueTrees) → has_rows self.old rows → has_rows self.new rows) }
        ensures same_schema { schema_of self.new ≡ schema_of self.old }
        ensures same_options { options_of self.new ≡ options_of self.old }
    {
        if self.waiting.len() == self.options.group_rows as usize {
            self.write_waiting()
        } else {
            Ok(())
        }
    }

    /// Writes the rows that wait as a group, if there are any. After a refusal they still wait.
    fn write_waiting(&mut self) -> R<()>
        ensures stands { OnOk result ((waiting rows later : List ValueTrees) → IsNextGroup self.old waiting rows later → HasWritten self.new rows later) }
        ensures emptied { OnOk result ((waiting : List ValueTrees) → holds self.old.waiting waiting → holds self.new.waiting []) }
        ensures counted { OnOk result ((waiting : List ValueTrees) → holds self.old.waiting waiting → self.new.written ≡ self.old.written + length waiting) }
        ensures countable { OnOk result (self.new.written ≤ MOST_ROWS) }
        ensures only { OnFault result ((waiting : List ValueTrees) → holds self.old.waiting waiting → ⊥) }
        ensures limit { result ≡ Err Refusal.Limit → (waiting rows later : List ValueTrees) → IsNextGroup self.old waiting rows later
            → IsTooMuch (schema_of self.old) (options_of self.old) rows }
        ensures which { RefusedOnly IsOfRows result }
        ensures unchanged { OnErr result ((waiting : List ValueTrees) → holds self.old.waiting waiting → HoldsSame self.old self.new) }
        ensures same_schema { schema_of self.new ≡ schema_of self.old }
        ensures same_options { options_of self.new ≡ options_of self.old }
    {
        let count = self.waiting.len();
        let written = self.written.saturating_add(count);
        if written > MOST_ROWS {
            // Never reached: no file has as many rows.
            return Err(Refusal::Memory);
        }
        if count == 0 {
            return Ok(());
        }
        let options = self.options.of_chunks();
        let kept = self.bytes.len();
        let meta = write_buffered_group(self.alloc, options, &self.waiting, &mut self.bytes)?;
        match self.groups.push(meta) {
            Ok(()) => {
                self.written = written;
                self.waiting.clear();
                Ok(())
            }
            Err(_) => {
                self.bytes.truncate(kept);
                Err(Refusal::Memory)
            }
        }
    }
}

impl<'a> RowSink for FileWriter<'a> {
    ghost use Rattle.footer.specs.Writer.{writer_shows, shows_whole, goes_back, Base, base_of, HasBelow, has_rows, schema_of, options_of};
    ghost use Rattle.assemble.specs.Sinks.{Token};

    ghost shows = { writer_shows };

    ghost Base = { Base };

    ghost base = { base_of };

    ghost whole = { shows_whole };

    ghost goes_back = { goes_back };

    /// Makes that the row can be dropped that [`begin_row`](FileWriter::begin_row) has begun, of which nothing was
    /// shown yet. The writer has the same rows. Takes time linear in the leaves; a writer of rows that are never
    /// dropped needs no such call.
    fn begin_row(&mut self) {
        self.waiting.begin_row();
    }

    /// Drops the row that was begun last as a sink's, of which a part or all was shown, also where a call failed: the
    /// writer has the rows that it had when it began. Takes time linear in the leaves and in what was shown.
    fn drop_row(&mut self)
        ensures whole { (ts : List Token) → goes_back (base_of self.old) ts → shows_whole self.new ts × writer_shows self.new ts }
        ensures dropped { (rows : List ValueTrees) → HasBelow (base_of self.old) rows → has_rows self.new rows }
        ensures same_schema { schema_of self.new ≡ schema_of self.old }
        ensures same_options { options_of self.new ≡ options_of self.old }
    {
        self.waiting.drop_row();
    }

    #[inline(always)]
    fn value(&mut self, value: ValueRef<'_>) -> Result<(), AllocError> {
        self.waiting.value(value)
    }

    #[inline(always)]
    fn int(&mut self, number: i64) -> Result<(), AllocError> {
        self.waiting.int(number)
    }

    #[inline(always)]
    fn bytes(&mut self, text: &[u8]) -> Result<(), AllocError> {
        self.waiting.bytes(text)
    }

    fn begin_group(&mut self) -> Result<(), AllocError> {
        self.waiting.begin_group()
    }

    fn end_group(&mut self) -> Result<(), AllocError> {
        self.waiting.end_group()
    }

    fn begin_list(&mut self) -> Result<(), AllocError> {
        self.waiting.begin_list()
    }

    fn end_list(&mut self) -> Result<(), AllocError> {
        self.waiting.end_list()
    }
}
