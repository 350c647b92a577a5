//! Notes on what is accepted: what other tools may refuse, and what is easily overlooked.

ghost use Rattle.std.specs.Prelude.{◌≡◌, ◌++◌, ℕ, List, codes, OnOk, IfOk, IsUtf8};
ghost use Rattle.std.specs.Io.KnownBytes.{Appends};
ghost use Rattle.schema.specs.Shape.{Fields};
ghost use Rattle.jsonrows.specs.SchemaJson.{IsSchemaText};
ghost use Rattle.commands.specs.Looking.{MayBeNote};

use crate::tasks::found;
use answers::{text_of, write_text};
use bits::{R, Refusal};
use call_reasons::schema_reason;
use jsonrows::schema_from;
use places::Reason;
use reasons::{doubled_note, schema_notes};
use reports::OneLine;
use schema::Schema;
use std::alloc::Global;
use std::fmt::Write as _;
use std::io::Write;

/// A line that is a note, in which control characters are escaped.
fn note_line(alloc: Global, note: &str) -> R<Vec<u8>>
    ensures says { IfOk result (λ line. (said : List ℕ) × (line.items ≡ codes "note: " ++ said ++ codes "\n")) }
{
    let mut said = Vec::new(alloc);
    let mut line = OneLine(&mut said);
    if write!(line, "{note}").is_err() {
        return Err(Refusal::Memory);
    }
    let mut text = Vec::from_slice(alloc, b"note: ")?;
    text.extend_from_slice(said.as_slice())?;
    text.push(b'\n')?;
    Ok(text)
}

/// Prints a line for each thing in a schema that other tools may refuse. Refused Device where the output cannot be written.
pub fn print_schema_notes<W: Write>(alloc: Global, schema: &Schema, out: &mut W) -> R<()> {
    let notes = schema_notes(alloc, schema)?;
    for note in &notes {
        let line = note_line(alloc, note.as_str())?;
        write_text(line.as_slice(), out)?;
    }
    Ok(())
}

/// Prints a line that names the first line of a text of rows in which a member stands twice, if there is one; this is the file.
/// Refused Device where the output cannot be written.
pub fn print_doubled_note<W: Write>(alloc: Global, file: &str, text: &str, out: &mut W) -> R<()>
    ensures noted { OnOk result ((note : List ℕ) × MayBeNote note × Appends (W.contents out.old) (W.contents out.new) note) }
{
    match doubled_note(alloc, file, text)? {
        Some(note) => {
            let line = note_line(alloc, note.as_str())?;
            write_text(line.as_slice(), out)
        }
        None => Ok(()),
    }
}

/// Prints `ok N columns`, where the bytes of a file are the text of a schema of N columns, and then its notes. Refused as
/// `schema_from` refuses the text; then `why` may get what is wrong, without the file's name. Refused Device where the output
/// cannot be written.
pub fn print_schema_fits<W: Write>(
    alloc: Global,
    bytes: &[u8],
    out: &mut W,
    why: &mut Option<Reason>,
) -> R<()>
    ensures fits { OnOk result (IsUtf8 bytes.now × (fs : Fields) × IsSchemaText bytes.now fs) }
{
    match schema_in(alloc, bytes) {
        Ok(schema) => {
            let count = schema.fields().len();
            let line = format!(in alloc; "ok {count} columns\n")?;
            write_text(line.as_bytes(), out)?;
            print_schema_notes(alloc, &schema, out)
        }
        Err(refusal) => {
            *why = found(schema_reason(alloc, bytes));
            Err(refusal)
        }
    }
}

/// The schema that the text of a file is. Refused Script for bytes that are no text, and as `schema_from` refuses it.
pub fn schema_in(alloc: Global, bytes: &[u8]) -> R<Schema>
    ensures text { OnOk result (IsUtf8 bytes.now) }
    ensures says { IfOk result (IsSchemaText bytes.now) }
{
    let text = text_of(bytes)?;
    schema_from(alloc, text)
}
