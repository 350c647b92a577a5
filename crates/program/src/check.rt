//! Whether two texts have a file, and why not.

ghost use Rattle.std.specs.Prelude.{◌≡◌, ◌++◌, length, codes, decimal, string_bytes, IfOk, IfErr, OnOk};
ghost use Rattle.std.specs.Str.Lines.{lines};
ghost use Rattle.program.specs.Paths.{IsUnwritten};
ghost use Rattle.program.specs.Program.{HaveFileOf, AreRefusedTexts, AreRefusedSources, WritesCount};

use crate::encode::{Sources, encoded};
use crate::host::{text_in, write_whole};
use crate::paths::Paths;
use bits::{R, Refusal};
use footer::WriteOptions;
use jsonrows::schema_from;
use reasons::{
    Cause, LimitFault, doubled_note, large_value, options_fault, row_fault, schema_fault,
};
use reports::OneLine;
use schema::Schema;
use std::alloc::{AllocError, Global};
use std::fmt::Write as _;
use std::io::Write;

/// How many rows the file of two texts has, which `encoded` makes, with texts of dates, times, timestamps and decimals or without,
/// and which is let go. Refused as `encoded`
/// refuses them: it decides. No progress is shown.
pub fn counted<E: Write>(
    alloc: Global,
    schema_text: &str,
    rows_text: &str,
    texts: bool,
    options: &WriteOptions,
    err: &mut E,
) -> R<usize>
    ensures stands { IfOk result (λ n. HaveFileOf texts options.now schema_text.now rows_text.now n) }
    ensures which { IfErr result (AreRefusedTexts texts options.now schema_text.now rows_text.now) }
    ensures quiet { E.contents err.new ≡ E.contents err.old }
{
    let file = encoded(alloc, schema_text, rows_text, texts, options, err, false)?;
    drop(file);
    Ok(count_of_lines(rows_text))
}

/// Says whether the files of a call of `encode` would be made into a file: writes `ok N rows` where they would,
/// N being the number of rows, and behind it a note where a member stands twice in a row, of which the last one counts. Refused
/// as `encode` refuses them; then `why` says which file and line it is, where in it, and what was expected and found. Nothing is
/// made. The time and the memory are those of `encode`.
pub fn check<P: Paths, W: Write, E: Write>(
    paths: &P,
    alloc: Global,
    sources: &Sources<'_>,
    out: &mut W,
    err: &mut E,
    why: &mut Option<Cause>,
) -> R<()>
    ensures stands { OnOk result (WritesCount sources.now.texts sources.now.options (P.files paths.now sources.now.schema.now)
        (P.files paths.now sources.now.rows.now) (W.contents out.old) (W.contents out.new)) }
    ensures which { IfErr result (AreRefusedSources sources.now.texts sources.now.options (P.files paths.now sources.now.schema.now)
        (P.files paths.now sources.now.rows.now)) }
    ensures quiet { OnOk result (E.contents err.new ≡ E.contents err.old) }
    ensures unwritten { IfErr result (IsUnwritten (W.contents out.old) (W.contents out.new)) }
{
    let schema_bytes = paths.whole_of(alloc, sources.schema, why)?;
    let rows_bytes = paths.whole_of(alloc, sources.rows, why)?;
    let schema_text = text_in(alloc, sources.schema, schema_bytes.as_slice(), why)?;
    let rows_text = text_in(alloc, sources.rows, rows_bytes.as_slice(), why)?;
    let (texts, options) = (sources.texts, &sources.options);
    match counted(alloc, schema_text, rows_text, texts, options, err) {
        Ok(count) => {
            let note = note_of(alloc, sources.rows, rows_text).unwrap_or(Vec::new(alloc));
            let answer = answer_of(alloc, count, note.as_slice())?;
            write_whole(answer.as_slice(), out)
        }
        Err(refusal) => {
            *why = cause_of(alloc, sources, schema_text, rows_text, &refusal).unwrap_or(None);
            Err(refusal)
        }
    }
}

/// How many lines a text has.
fn count_of_lines(text: &str) -> usize
    ensures { result ≡ length (lines text.now) }
{
    text.lines().count()
}

/// What is printed of this many rows.
fn line_of_count(alloc: Global, count: usize) -> Result<String, AllocError>
    ensures { IfOk result (λ line. string_bytes line ≡ codes "ok " ++ decimal count ++ codes " rows\n") }
{
    format!(in alloc; "ok {count} rows\n")
}

/// What is printed of this many rows: the line of their count, and what is noted of them.
fn answer_of(alloc: Global, count: usize, note: &[u8]) -> Result<Vec<u8>, AllocError>
    ensures { IfOk result (λ answer. answer.items ≡ (codes "ok " ++ decimal count ++ codes " rows\n") ++ note.now) }
{
    let mut answer = line_of_count(alloc, count)?.into_bytes();
    answer.extend_from_slice(note)?;
    Ok(answer)
}

/// The line that notes that a member stands twice in a row of a text, in which control characters are escaped; this is the file
/// of the text. Empty where none does. It fails only when out of memory.
fn note_of(alloc: Global, file: &str, rows_text: &str) -> R<Vec<u8>> {
    let mut line = Vec::new(alloc);
    if let Some(note) = doubled_note(alloc, file, rows_text)? {
        let mut text = OneLine(&mut line);
        if write!(text, "note: {note}").is_err() {
            return Err(Refusal::Memory);
        }
        line.push(b'\n')?;
    }
    Ok(line)
}

/// Why two texts were refused so.
pub fn cause_of(
    alloc: Global,
    sources: &Sources<'_>,
    schema_text: &str,
    rows_text: &str,
    refusal: &Refusal,
) -> R<Option<Cause>> {
    let schema = match schema_from(alloc, schema_text) {
        Ok(schema) => schema,
        Err(_) => {
            let fault = schema_fault(alloc, sources.schema, schema_text)?;
            return Ok(fault.map(|fault| Cause::Text(fault)));
        }
    };
    if *refusal == Refusal::Limit {
        return Ok(Some(Cause::Limit(limit_of(alloc, sources, &schema, rows_text)?)));
    }
    let fault = row_fault(alloc, &schema, sources.rows, rows_text, sources.texts)?;
    Ok(fault.map(|fault| Cause::Text(fault)))
}

/// Which limit the rows of a text exceed, or the options by which they are written.
fn limit_of(
    alloc: Global,
    sources: &Sources<'_>,
    schema: &Schema,
    rows_text: &str,
) -> R<LimitFault> {
    let options = &sources.options;
    let found = options_fault(options.group_rows, options.page_rows, options.page_version);
    if let Some(fault) = found {
        return Ok(fault);
    }
    match large_value(alloc, schema, sources.rows, rows_text, sources.texts)? {
        Some(fault) => Ok(fault),
        None => LimitFault::of_rows(alloc, sources.rows),
    }
}
