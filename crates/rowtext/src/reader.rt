//! Rows of a schema from texts, one after another.

ghost use Rattle.std.specs.Prelude.{◌≡◌, ◌⊎◌, Some, None, Err, IfOk, IfErr, OnOk, IsTrue};
ghost use Rattle.bits.specs.Refusals.{RefusedMemoryOnly};
ghost use Rattle.bits.specs.declared.refusal.Refusal.TheVariants.{Memory, RowShape, Script};
ghost use Rattle.serde_json.specs.Data.{Data, Members};
ghost use Rattle.serde_json.specs.Read.{read};
ghost use Rattle.schema.specs.Fits.{fits_each};
ghost use Rattle.schema.specs.Values.{ValueTrees};
ghost use Rattle.schema.specs.Views.{row_view};
ghost use Rattle.assemble.specs.Sinks.{tokens_each, Visits};
ghost use Rattle.rowtext.specs.Reading.{members_read, members_read_as, row_of, row_of_as, line_of};
ghost use Rattle.rowtext.specs.Reader.{schema_of, IsRowOf, IsRowAs};
ghost use Rattle.rowtext.specs.inner.Pieces.{IsShownAs};

use crate::piece_list::Pieces;
use crate::pieces::{Piece, show_pieces};
use crate::read_plan::ReadPlan;
use crate::row_reading::row_from_as;
use crate::unread::Unread;
use assemble::{RowBuilder, RowSink, show_row};
use bits::{R, Refusal};
use json::Scratch;
use schema::{Row, Schema};
use std::alloc::{AllocError, Global};

/// Reads rows of a schema, one after another. Names are sorted once, and the room for the bytes of a value, for a string
/// with escapes, and for the values of groups and lists that have not ended is kept from row to row.
#[derive(Drop)]
pub struct Reader<'a> {
    alloc: Global,
    plan: ReadPlan<'a>,
    scratch: Scratch,
    /// Where bytes are made that do not stand in the text as they are.
    buffer: Vec<u8>,
    /// Makes the rows that are kept.
    builder: RowBuilder,
    /// How many pieces the row had that was read at once last.
    room: usize,
}

/// The row of this many fields that is made of pieces.
fn row_of_pieces(
    fields: usize,
    pieces: &[Piece<'_>],
    buffer: &mut Vec<u8>,
    scratch: &mut Scratch,
    builder: &mut RowBuilder,
) -> Result<Row, AllocError>
    ensures { IfOk result (λ row. (values : ValueTrees) → IsShownAs pieces.now values → row_view row ≡ values) }
{
    builder.begin_row(fields)?;
    show_pieces(pieces, buffer, scratch, builder)?;
    Ok(builder.take_row())
}

/// The row that a text is, where it is of the form that is read at once. `room` is how many pieces the row had that was
/// read so last.
fn row_at_once(
    alloc: Global,
    plan: &ReadPlan<'_>,
    text: &str,
    texts: bool,
    room: &mut usize,
    buffer: &mut Vec<u8>,
    scratch: &mut Scratch,
    builder: &mut RowBuilder,
) -> Result<Row, Unread>
    ensures { IfOk result (λ row. IsRowAs texts plan.now text.now (row_view row)) }
{
    let mut pieces = Pieces::new(alloc);
    pieces.reserve(*room)?;
    plan.put_pieces(alloc, text, texts, scratch, &mut pieces)?;
    *room = pieces.len();
    let fields = plan.schema().fields().len();
    let row = row_of_pieces(fields, pieces.as_slice(), buffer, scratch, builder)?;
    Ok(row)
}

impl<'a> Reader<'a> {
    /// A reader of rows of the schema. It fails only when out of memory. Time and memory are linear in the
    /// schema, with a look-up of each name among its siblings.
    pub fn new(alloc: Global, schema: &'a Schema) -> R<Reader<'a>>
        ensures reads { IfOk result (λ reader. schema_of reader ≡ schema.now) }
        ensures which { RefusedMemoryOnly result }
    {
        let plan = ReadPlan::new(alloc, schema)?;
        Ok(Reader {
            alloc,
            plan,
            scratch: Scratch::new(alloc),
            buffer: Vec::new(alloc),
            builder: RowBuilder::new(alloc, 0)?,
            room: 0,
        })
    }

    /// The row that a text is, under the same refusals as `row_from`. A row takes memory for its own values, and
    /// where its text is longer than those before it. A text is read at once, with blanks between its tokens or without and
    /// with its members in any order; one that is refused, or names a member twice, is then read by `row_from`.
    pub fn read(&mut self, text: &str) -> R<Row>
        ensures stands { IfOk result (λ row. (d : Data) × (read text.now ≡ Some d) × (row_of (schema_of self.old) d ≡ Some (row_view row))) }
        ensures fits { IfOk result (λ row. IsTrue (fits_each (schema_of self.old) (row_view row))) }
        ensures shape { result ≡ Err RowShape → (ms : Members) × (line_of text.now ≡ Some ms) × (members_read (schema_of self.old) ms ≡ None) }
        ensures script { result ≡ Err Script → line_of text.now ≡ None }
        ensures which { IfErr result (λ e. (e ≡ RowShape) ⊎ (e ≡ Script) ⊎ (e ≡ Memory)) }
        ensures same { schema_of self.new ≡ schema_of self.old }
    {
        self.read_as(text, false)
    }

    /// The row that a text is, as [`read`](Reader::read) returns it, under the same refusals; with `texts`, dates, times,
    /// timestamps and decimals over INT32 and INT64 are also read from their texts.
    pub fn read_as(&mut self, text: &str, texts: bool) -> R<Row>
        ensures stands { IfOk result (λ row. (d : Data) × (read text.now ≡ Some d) × (row_of_as texts (schema_of self.old) d ≡ Some (row_view row))) }
        ensures fits { IfOk result (λ row. IsTrue (fits_each (schema_of self.old) (row_view row))) }
        ensures shape { result ≡ Err RowShape → (ms : Members) × (line_of text.now ≡ Some ms) × (members_read_as texts (schema_of self.old) ms ≡ None) }
        ensures script { result ≡ Err Script → line_of text.now ≡ None }
        ensures which { IfErr result (λ e. (e ≡ RowShape) ⊎ (e ≡ Script) ⊎ (e ≡ Memory)) }
        ensures same { schema_of self.new ≡ schema_of self.old }
    {
        match row_at_once(
            self.alloc,
            &self.plan,
            text,
            texts,
            &mut self.room,
            &mut self.buffer,
            &mut self.scratch,
            &mut self.builder,
        ) {
            Ok(row) => Ok(row),
            Err(Unread::OutOfMemory) => Err(Refusal::Memory),
            Err(Unread::Unknown) => row_from_as(self.alloc, self.plan.schema(), text, texts),
        }
    }

    /// Shows a sink the values of the row that a text is, under the same refusals as `read`, and reads it in the same
    /// way. A text that is read at once takes no memory for the values: the sink is shown those that lie in the text.
    ///
    /// Refused RowShape or Script, it has shown nothing. Out of memory, it may have shown a part of the row.
    pub fn read_to<K: RowSink>(&mut self, text: &str, sink: &mut K) -> R<()>
        ensures stands { OnOk result (Visits (K.shows sink.old) (K.shows sink.new) tokens_each (IsRowOf (schema_of self.old) text.now)) }
        ensures unshown { IfErr result (λ e. (e ≡ Memory) ⊎ (sink.new ≡ sink.old)) }
        ensures shape { result ≡ Err RowShape → (ms : Members) × (line_of text.now ≡ Some ms) × (members_read (schema_of self.old) ms ≡ None) }
        ensures script { result ≡ Err Script → line_of text.now ≡ None }
        ensures which { IfErr result (λ e. (e ≡ RowShape) ⊎ (e ≡ Script) ⊎ (e ≡ Memory)) }
        ensures same { schema_of self.new ≡ schema_of self.old }
        ensures base_stays { K.base sink.new ≡ K.base sink.old }
    {
        self.read_to_as(text, sink, false)
    }

    /// Shows a sink the values of the row that a text is, as [`read_to`](Reader::read_to) does, under the same refusals; with
    /// `texts`, as [`read_as`](Reader::read_as) reads it.
    ///
    /// Refused RowShape or Script, it has shown nothing. Out of memory, it may have shown a part of the row.
    pub fn read_to_as<K: RowSink>(&mut self, text: &str, sink: &mut K, texts: bool) -> R<()>
        ensures stands { OnOk result (Visits (K.shows sink.old) (K.shows sink.new) tokens_each (IsRowAs texts (schema_of self.old) text.now)) }
        ensures unshown { IfErr result (λ e. (e ≡ Memory) ⊎ (sink.new ≡ sink.old)) }
        ensures shape { result ≡ Err RowShape → (ms : Members) × (line_of text.now ≡ Some ms) × (members_read_as texts (schema_of self.old) ms ≡ None) }
        ensures script { result ≡ Err Script → line_of text.now ≡ None }
        ensures which { IfErr result (λ e. (e ≡ RowShape) ⊎ (e ≡ Script) ⊎ (e ≡ Memory)) }
        ensures same { schema_of self.new ≡ schema_of self.old }
        ensures base_stays { K.base sink.new ≡ K.base sink.old }
    {
        let mut pieces = Pieces::new(self.alloc);
        pieces.reserve(self.room)?;
        match self
            .plan
            .put_pieces(self.alloc, text, texts, &mut self.scratch, &mut pieces)
        {
            Ok(()) => {
                self.room = pieces.len();
                show_pieces(pieces.as_slice(), &mut self.buffer, &mut self.scratch, sink)?;
                Ok(())
            }
            Err(Unread::OutOfMemory) => Err(Refusal::Memory),
            Err(Unread::Unknown) => {
                let row = row_from_as(self.alloc, self.plan.schema(), text, texts)?;
                show_row(&row, sink)?;
                Ok(())
            }
        }
    }
}
