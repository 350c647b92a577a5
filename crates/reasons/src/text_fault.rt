//! What is wrong in a text that a command is given: rows, a script, or a schema.

use crate::call_misfit::of_call;
use crate::misfit::Misfit;
use crate::row_misfit::of_line;
use crate::schema_misfit::{of_added, of_schema};
use bits::{R, Refusal};
use jsonrows::{Reader, ScriptReader, schema_from};
use schema::Schema;
use simdutf8::basic::from_utf8;
use std::alloc::Global;
use std::fmt::{self, Display, Formatter};

/// What is wrong in a line that is no text.
pub const NOT_UTF8: &str = "not UTF-8";

/// What is wrong in a text, and where.
#[derive(Debug, Drop)]
pub struct TextFault {
    /// The file, and the number of the line, counted from 1, where it has lines: `rows.jsonl:3`.
    place: String,
    /// Where it is in the line, and what is wrong there.
    what: String,
}

impl TextFault {
    /// What is wrong in a file.
    fn in_file(alloc: Global, file: &str, misfit: Misfit) -> R<TextFault> {
        Ok(TextFault {
            place: String::from_str(alloc, file)?,
            what: misfit.into_text(alloc)?,
        })
    }

    /// What is wrong in a line of a file, which has this number.
    fn in_line(alloc: Global, file: &str, number: u64, misfit: Misfit) -> R<TextFault> {
        Ok(TextFault {
            place: format!(in alloc; "{file}:{number}")?,
            what: misfit.into_text(alloc)?,
        })
    }
}

impl Display for TextFault {
    fn fmt<W: fmt::Write>(&self, f: &mut Formatter<W>) -> fmt::Result {
        let (place, what) = (&self.place, &self.what);
        write!(f, "{place}: {what}")
    }
}

/// The first line of a text that is no row of a schema, and why; none where each line is one. With `texts`, dates, times,
/// timestamps and decimals are texts.
pub fn row_fault(
    alloc: Global,
    schema: &Schema,
    file: &str,
    text: &str,
    texts: bool,
) -> R<Option<TextFault>> {
    let mut reader = Reader::new(alloc, schema)?;
    let mut number: u64 = 0;
    for line in text.lines() {
        number = number.saturating_add(1);
        match reader.read_as(line, texts) {
            Ok(_) => {}
            Err(Refusal::Memory) => return Err(Refusal::Memory),
            Err(_) => {
                return Ok(Some(line_fault(alloc, schema, file, number, line, texts)?));
            }
        }
    }
    Ok(None)
}

/// Why a line of a file, which has this number, is no row of a schema. With `texts`, dates, times, timestamps and decimals are
/// texts.
pub fn line_fault(
    alloc: Global,
    schema: &Schema,
    file: &str,
    number: u64,
    line: &str,
    texts: bool,
) -> R<TextFault> {
    let misfit = row_misfit(alloc, schema, line, texts)?;
    TextFault::in_line(alloc, file, number, misfit)
}

/// What is wrong in a line of a file, which has this number, in these words.
pub fn fault_at(alloc: Global, file: &str, number: u64, what: &str) -> R<TextFault> {
    let misfit = Misfit::because(alloc, what)?;
    TextFault::in_line(alloc, file, number, misfit)
}

/// Why a line is no row of a schema.
fn row_misfit(alloc: Global, schema: &Schema, line: &str, texts: bool) -> R<Misfit> {
    match of_line(alloc, schema.fields(), line, texts)? {
        Some(misfit) => Ok(misfit),
        None => Misfit::because(alloc, "no row of the schema"),
    }
}

/// The first line of a text that is no call on a table of this schema, and why: which member of it, and of its rows which;
/// none where each line is a call. With `texts`, dates, times, timestamps and decimals are texts.
pub fn call_fault(
    alloc: Global,
    schema: &Schema,
    file: &str,
    text: &str,
    texts: bool,
) -> R<Option<TextFault>> {
    let own = Schema::new(alloc, schema.elements())?;
    let mut reader = ScriptReader::new(own);
    let mut number: u64 = 0;
    for line in text.lines() {
        number = number.saturating_add(1);
        match reader.read_as(alloc, line, texts) {
            Ok(_) => {}
            Err(Refusal::Memory) => return Err(Refusal::Memory),
            Err(_) => {
                let misfit = of_call(alloc, reader.schema(), line, texts)?;
                return Ok(Some(TextFault::in_line(alloc, file, number, misfit)?));
            }
        }
    }
    Ok(None)
}

/// What is wrong with the text of a schema, if something is: which member of which field.
pub fn schema_fault(alloc: Global, file: &str, text: &str) -> R<Option<TextFault>> {
    let Err(refusal) = schema_from(alloc, text) else {
        return Ok(None);
    };
    let misfit = of_schema(alloc, text, &refusal)?;
    Ok(Some(TextFault::in_file(alloc, file, misfit)?))
}

/// What is wrong with the text of a column that is to be added to a table of this schema, if something is.
pub fn column_fault(
    alloc: Global,
    schema: &Schema,
    file: &str,
    text: &str,
) -> R<Option<TextFault>> {
    let column = match schema_from(alloc, text) {
        Ok(column) => column,
        Err(_) => return schema_fault(alloc, file, text),
    };
    match of_added(alloc, schema, column.fields())? {
        Some(misfit) => Ok(Some(TextFault::in_file(alloc, file, misfit)?)),
        None => Ok(None),
    }
}

/// The first line of bytes that is not UTF-8, if there is one.
pub fn utf8_fault(alloc: Global, file: &str, bytes: &[u8]) -> R<Option<TextFault>> {
    let mut number: u64 = 0;
    for line in bytes.split(|byte| *byte == b'\n') {
        number = number.saturating_add(1);
        if from_utf8(line).is_err() {
            return Ok(Some(fault_at(alloc, file, number, NOT_UTF8)?));
        }
    }
    Ok(None)
}
