//! Rows as files, one after another.

ghost use Rattle.std.specs.Prelude.{◌≡◌, [], ℕ, List, Option, None, false, IfOk, OnOk};
ghost use Rattle.schema.specs.Values.{ValueTrees};
ghost use Rattle.scan.specs.Left.{rows_stand};
ghost use Rattle.dataset_words.specs.Files.{TakesFiles};
ghost use Rattle.answers.specs.QueryFile.{AreFilesOfRows};

use bits::R;
use dataset_words::FileSink;
use footer::{FileWriter, MAGIC, WriteOptions};
use scan::Rows;
use schema::Schema;
use std::alloc::Global;
use std::mem;

/// Rows that are written as files. A file that is whole goes to a sink; the last one is returned.
#[derive(Drop)]
pub struct PartWriter<'a> {
    alloc: Global,
    schema: &'a Schema,
    options: WriteOptions,
    /// A file ends where one more group would make it larger than this; None if there is one file alone.
    most: Option<usize>,
    /// The file that is being written.
    writer: FileWriter<'a>,
    /// How many bytes the groups of that file take that were looked at.
    seen: usize,
    /// The bytes of the greatest group so far, of any file.
    greatest: usize,
}

impl<'a> PartWriter<'a> {
    ghost use Rattle.answers.specs.inner.Parts.{HasGiven, EndsFiles, TakesNext, WritesAlike};

    /// A writer without rows. Refused as `FileWriter::new`.
    pub fn new(
        alloc: Global,
        schema: &'a Schema,
        options: &WriteOptions,
        most: Option<usize>,
    ) -> R<PartWriter<'a>>
        ensures begins { IfOk result (λ writer. (from : Option (List (List ℕ))) → HasGiven from from writer []) }
        ensures of { IfOk result (λ writer. (writer.schema.now ≡ schema.now) × (writer.options ≡ options.now) × (writer.most ≡ most)) }
    {
        let writer = FileWriter::new(alloc, schema, options)?;
        let seen = writer.written_bytes();
        Ok(PartWriter {
            alloc,
            schema,
            options: *options,
            most,
            writer,
            seen,
            greatest: 0,
        })
    }

    /// Gives the writer the next row of a reader; false after the last row. Where a file ends before the next row, whether there is
    /// one or not, the sink gets that file. Refused as `FileWriter::push` and `FileWriter::finish`, and as the sink refuses a file.
    pub fn push_next<S: FileSink>(&mut self, rows: &mut Rows<'_>, sink: &mut S) -> R<bool>
        ensures takes { IfOk result (TakesNext (rows_stand rows.old) (rows_stand rows.new) self.old self.new (S.taken sink.old) (S.taken sink.new)) }
        ensures same { WritesAlike self.old self.new }
    {
        self.make_room(sink)?;
        self.writer.begin_row()?;
        if !rows.show_next(&mut self.writer)? {
            return Ok(false);
        }
        self.writer.end_row()?;
        Ok(true)
    }

    /// The bytes of the last file. Refused as `FileWriter::finish`.
    pub fn finish(self) -> R<Vec<u8>>
        ensures ends { IfOk result (λ file. (from to : Option (List (List ℕ))) (rows : List ValueTrees) → HasGiven from to self.entry rows
            → EndsFiles from to self.entry rows file.items) }
    {
        self.writer.finish()
    }

    /// Ends the file where it is full, so that the next row is of another one. A group that is full is written before that.
    fn make_room<S: FileSink>(&mut self, sink: &mut S) -> R<()>
        ensures goes_on { OnOk result ((from : Option (List (List ℕ))) (rows : List ValueTrees) → HasGiven from (S.taken sink.old) self.old rows
            → HasGiven from (S.taken sink.new) self.new rows) }
        ensures same { WritesAlike self.old self.new }
    {
        self.writer.begin_row()?;
        if self.is_full() {
            self.end_file(sink)
        } else {
            Ok(())
        }
    }

    /// Whether a file ends before the next row: its groups and one more, as great as the greatest so far, would be too large.
    fn is_full(&mut self) -> bool
        ensures single { self.old.most ≡ None → result ≡ false }
        ensures same { (rows : List ValueTrees) (from to : Option (List (List ℕ))) → HasGiven from to self.old rows → HasGiven from to self.new rows }
        ensures kept { WritesAlike self.old self.new }
    {
        let written = self.writer.written_bytes();
        if written > self.seen {
            self.greatest = self.greatest.max(written - self.seen);
            self.seen = written;
        }
        match self.most {
            Some(most) => written > MAGIC.len() && written.saturating_add(self.greatest) > most,
            None => false,
        }
    }

    /// Ends the file, gives it to the sink, and begins another one.
    fn end_file<S: FileSink>(&mut self, sink: &mut S) -> R<()>
        ensures goes_on { OnOk result ((from : Option (List (List ℕ))) (rows : List ValueTrees) → (self.old.most ≡ None → ⊥)
            → HasGiven from (S.taken sink.old) self.old rows → HasGiven from (S.taken sink.new) self.new rows) }
        ensures same { WritesAlike self.old self.new }
    {
        let next = FileWriter::new(self.alloc, self.schema, &self.options)?;
        self.seen = next.written_bytes();
        let whole = mem::replace(&mut self.writer, next);
        let file = whole.finish()?;
        sink.take(file)
    }
}
