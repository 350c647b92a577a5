//! Rows as lines of JSON, to rows.

ghost use Rattle.std.specs.Prelude.{◌≡◌, false, IfOk, IfErr};
ghost use Rattle.std.specs.Str.Lines.{lines};
ghost use Rattle.bits.specs.Refusals.{RefusedOnly};
ghost use Rattle.schema.specs.Views.{row_view, rows_view};
ghost use Rattle.rowtext.specs.Reader.{schema_of};
ghost use Rattle.commands.specs.RowLines.{IsRowText, IsRefusedLine, AreRowTexts, AreRefusedRows};

use bits::{R, Refusal};
use jsonrows::Reader;
use reports::Progress;
use schema::{Row, Schema};
use std::alloc::Global;
use std::io::Write;

/// The rows of a text, one of each line; a last line needs no line feed. With `texts`, dates, times, timestamps and decimals
/// are also read from their texts. Where `shows` says so, `err` shows how many rows were read so far.
///
/// Refused as `row_from_as` refuses the first line that is no row. Time and room are linear in the text.
pub fn rows_of<E: Write>(
    alloc: Global,
    schema: &Schema,
    text: &str,
    texts: bool,
    err: &mut E,
    shows: bool,
) -> R<Vec<Row>>
    ensures stands { IfOk result (λ rows. AreRowTexts texts schema.now (lines text.now) (rows_view rows.items)) }
    ensures which { IfErr result (AreRefusedRows texts schema.now (lines text.now)) }
    ensures quiet { shows ≡ false → E.contents err.new ≡ E.contents err.old }
{
    let mut progress = Progress::new(alloc, "read", None, shows);
    let rows = read_rows(alloc, schema, text, texts, err, &mut progress);
    progress.clear(err);
    rows
}

/// The rows of a text, one of each line, each of which is counted. Refused as [`rows_of`] is.
fn read_rows<E: Write>(
    alloc: Global,
    schema: &Schema,
    text: &str,
    texts: bool,
    err: &mut E,
    progress: &mut Progress,
) -> R<Vec<Row>>
    ensures stands { IfOk result (λ rows. AreRowTexts texts schema.now (lines text.now) (rows_view rows.items)) }
    ensures which { IfErr result (AreRefusedRows texts schema.now (lines text.now)) }
    ensures quiet { progress.old.is_shown ≡ false → E.contents err.new ≡ E.contents err.old }
    ensures same { progress.new.is_shown ≡ progress.old.is_shown }
{
    let mut reader = Reader::new(alloc, schema)?;
    let mut rows = Vec::new(alloc);
    for line in text.lines() {
        let row = read_row(&mut reader, line, texts)?;
        rows.push(row)?;
        progress.count_row(err);
    }
    Ok(rows)
}

/// The row of a line. Refused as `row_from_as` refuses the line.
fn read_row(reader: &mut Reader<'_>, line: &str, texts: bool) -> R<Row>
    ensures stands { IfOk result (λ row. IsRowText texts (schema_of reader.old) line.now (row_view row)) }
    ensures which { RefusedOnly (IsRefusedLine texts (schema_of reader.old) line.now) result }
    ensures same { schema_of reader.new ≡ schema_of reader.old }
{
    reader.read_as(line, texts)
}
