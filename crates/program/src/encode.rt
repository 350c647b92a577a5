//! Texts to files.

ghost use Rattle.std.specs.Prelude.{◌≡◌, List, false, IfOk, IfErr, OnOk};
ghost use Rattle.std.specs.Str.Lines.{lines};
ghost use Rattle.bits.specs.Refusals.{RefusedOnly};
ghost use Rattle.schema.specs.Values.{ValueTrees};
ghost use Rattle.assemble.specs.Sinks.{Visits, tokens_each};
ghost use Rattle.footer.specs.Writer.{has_rows, schema_of, options_of};
ghost use Rattle.rowtext.specs.Reader.{schema_of as fields_of, IsRowAs};
ghost use Rattle.program.specs.Program.{IsRefusedLine, AreRowTexts, HasFirstFault, IsFileOf, MakesFileOf, AreRefusedTexts, AreRefusedFiles};
ghost use Rattle.program.specs.inner.Lines.{IsFileOfLines, IsLinesRefusal, IsLineRefusal, AreTooMuch, HasLine};

use crate::check::cause_of;
use crate::host::text_in;
use crate::paths::Paths;
use crate::text_lines::split_line;
use assemble::{Discard, RowSink};
use bits::{R, Refusal};
use footer::{FileWriter, WriteOptions};
use jsonrows::{Reader, schema_from};
use reasons::Cause;
use reports::Progress;
use schema::Schema;
use std::alloc::Global;
use std::io::Write;

/// What a file is made from: the paths of both texts, how it is written, and whether dates, times, timestamps and decimals are
/// texts.
#[derive(Clone, Copy)]
pub struct Sources<'a> {
    pub schema: &'a str,
    pub rows: &'a str,
    pub options: WriteOptions,
    pub texts: bool,
}

/// The bytes of a file that means, in the schema of one text, the rows of the other, one for each line (an
/// empty line is no row; a last line needs no line feed), laid out as the options say. With `texts`, dates, times, timestamps and
/// decimals are also read from their texts.
///
/// Refused as `schema_from` refuses the schema, or else as `row_from_as` does the first line that is no row, or
/// else as `write_file` refuses the rows. Time is linear in the texts. Memory is that of the texts, of the file, and
/// of the rows of one group. Where `shows` says so, `err` shows how many rows were read so far.
pub fn encoded<E: Write>(
    alloc: Global,
    schema_text: &str,
    rows_text: &str,
    texts: bool,
    options: &WriteOptions,
    err: &mut E,
    shows: bool,
) -> R<Vec<u8>>
    ensures stands { IfOk result (λ file. IsFileOf texts options.now schema_text.now rows_text.now file.items) }
    ensures which { IfErr result (AreRefusedTexts texts options.now schema_text.now rows_text.now) }
    ensures quiet { shows ≡ false → E.contents err.new ≡ E.contents err.old }
{
    let schema = schema_from(alloc, schema_text)?;
    let mut progress = Progress::new(alloc, "read", None, shows);
    let made = written(
        alloc,
        &schema,
        options,
        rows_text,
        texts,
        err,
        &mut progress,
    );
    progress.clear(err);
    match made {
        Ok(file) => Ok(file),
        Err(Refusal::Limit) => {
            // A line that is no row is refused before rows that are too much for a file.
            check_lines(alloc, &schema, rows_text, texts)?;
            Err(Refusal::Limit)
        }
        Err(refusal) => Err(refusal),
    }
}

/// Makes the file at `path` of the texts. The bytes of both files are read before either is looked at, and
/// the new file is begun when all of its bytes are there. Refused Device where a file cannot be read, Script
/// where it is not UTF-8, as `encoded` refuses the texts, or as `put_new` refuses the path; then no file is
/// made. Then `why` gets the reason. Where `shows` says so, `err` shows how many rows were read so far.
pub fn encode<P: Paths, E: Write>(
    paths: &mut P,
    alloc: Global,
    sources: &Sources<'_>,
    path: &str,
    err: &mut E,
    shows: bool,
    why: &mut Option<Cause>,
) -> R<()>
    ensures makes { OnOk result (MakesFileOf sources.now.texts sources.now.options (P.files paths.old) (P.files paths.new)
        sources.now.schema.now sources.now.rows.now path.now) }
    ensures which { IfErr result (AreRefusedFiles sources.now.texts sources.now.options
        (P.files paths.old sources.now.schema.now) (P.files paths.old sources.now.rows.now) (P.files paths.old path.now)) }
    ensures quiet { shows ≡ false → E.contents err.new ≡ E.contents err.old }
{
    let schema_bytes = paths.whole_of(alloc, sources.schema, why)?;
    let rows_bytes = paths.whole_of(alloc, sources.rows, why)?;
    let schema_text = text_in(alloc, sources.schema, schema_bytes.as_slice(), why)?;
    let rows_text = text_in(alloc, sources.rows, rows_bytes.as_slice(), why)?;
    let file = file_of(alloc, sources, schema_text, rows_text, err, shows, why)?;
    paths.put_new(alloc, path, file.as_slice(), why)
}

/// The bytes of the file of two texts, which are refused as [`encoded`] refuses them; then `why` gets the reason.
fn file_of<E: Write>(
    alloc: Global,
    sources: &Sources<'_>,
    schema_text: &str,
    rows_text: &str,
    err: &mut E,
    shows: bool,
    why: &mut Option<Cause>,
) -> R<Vec<u8>>
    ensures stands { IfOk result (λ file. IsFileOf sources.now.texts sources.now.options schema_text.now rows_text.now file.items) }
    ensures which { IfErr result (AreRefusedTexts sources.now.texts sources.now.options schema_text.now rows_text.now) }
    ensures quiet { shows ≡ false → E.contents err.new ≡ E.contents err.old }
{
    let (texts, options) = (sources.texts, &sources.options);
    let made = encoded(alloc, schema_text, rows_text, texts, options, err, shows);
    if let Err(refusal) = &made {
        *why = cause_of(alloc, sources, schema_text, rows_text, refusal).unwrap_or(None);
    }
    made
}

/// Shows a sink the values of the row of a line, with texts or without. Refused as `row_from_as` refuses the line, and then it is
/// shown nothing.
fn show_line<K: RowSink>(reader: &mut Reader<'_>, line: &str, texts: bool, sink: &mut K) -> R<()>
    ensures stands { OnOk result (Visits (K.shows sink.old) (K.shows sink.new) tokens_each (IsRowAs texts (fields_of reader.old) line.now)) }
    ensures which { RefusedOnly (IsRefusedLine texts (fields_of reader.old) line.now) result }
    ensures same { fields_of reader.new ≡ fields_of reader.old }
{
    reader.read_to_as(line, sink, texts)
}

/// Gives a writer the row of a line, with texts or without. Refused as `row_from_as` refuses the line, or Limit where the rows
/// that the writer has are too much for a file.
fn put_line(reader: &mut Reader<'_>, line: &str, texts: bool, writer: &mut FileWriter<'_>) -> R<()>
    ensures stands { OnOk result ((rows : List ValueTrees) → has_rows writer.old rows → schema_of writer.old ≡ fields_of reader.old
        → HasLine texts (fields_of reader.old) (options_of writer.old) line.now rows writer.new) }
    ensures which { (rows : List ValueTrees) → has_rows writer.old rows → IfErr result (IsLineRefusal texts (fields_of reader.old) line.now
        (AreTooMuch (schema_of writer.old) (options_of writer.old) rows)) }
    ensures same { fields_of reader.new ≡ fields_of reader.old }
{
    writer.begin_row()?;
    show_line(reader, line, texts, writer)?;
    writer.end_row()
}

/// The bytes of a file of the rows of a text, one of each line, with texts or without. Refused as `row_from_as` refuses the first line that
/// is no row, or Limit where the rows before it are too much for a file. Later lines are then not read. Each row
/// is counted.
fn written<E: Write>(
    alloc: Global,
    schema: &Schema,
    options: &WriteOptions,
    text: &str,
    texts: bool,
    err: &mut E,
    progress: &mut Progress,
) -> R<Vec<u8>>
    ensures stands { IfOk result (λ file. IsFileOfLines texts options.now schema.now (lines text.now) file.items) }
    ensures which { IfErr result (IsLinesRefusal texts schema.now options.now (lines text.now)) }
    ensures quiet { progress.old.is_shown ≡ false → E.contents err.new ≡ E.contents err.old }
    ensures same { progress.new.is_shown ≡ progress.old.is_shown }
{
    let mut reader = Reader::new(alloc, schema)?;
    let mut writer = FileWriter::new(alloc, schema, options)?;
    let mut rest = text;
    while let Some((line, others)) = split_line(rest) {
        put_line(&mut reader, line, texts, &mut writer)?;
        progress.count_row(err);
        rest = others;
    }
    writer.finish()
}

/// Reads the rows of a text, one of each line, with texts or without, and keeps none. Refused as the first line is that is no row.
fn check_lines(alloc: Global, schema: &Schema, text: &str, texts: bool) -> R<()>
    ensures stands { OnOk result ((rows : List ValueTrees) × AreRowTexts texts schema.now (lines text.now) rows) }
    ensures which { RefusedOnly (HasFirstFault texts schema.now (lines text.now)) result }
{
    let mut reader = Reader::new(alloc, schema)?;
    for line in text.lines() {
        show_line(&mut reader, line, texts, &mut Discard)?;
    }
    Ok(())
}
