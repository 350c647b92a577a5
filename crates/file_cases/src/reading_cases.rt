//! Whole files, read.

use crate::schemas::{are_same, rows_of, shown_rows};
use bits::{R, Refusal};
use case_words::{both, bytes, count, hexed, shown_numbers, word, words_from};
use footer::{FileReader, read_file, read_footer};
use jsonrows::schema_to;
use metadata::{FileMeta, GroupMeta};
use schema::Row;
use std::alloc::Global;

/// What a case of this subject gives; None where the operation is of another one.
pub fn outcome(alloc: Global, operation: &str, words: &[&str]) -> Option<R<String>> {
    let outcome = match operation {
        "decode" => decoded(alloc, words),
        "decode-from" => decoded_from(alloc, words),
        "holds" => held(alloc, words),
        "file-schema" => file_schema(alloc, words),
        "footer" => footer(alloc, words),
        "framed" => framed(alloc, words),
        _ => return None,
    };
    Some(outcome)
}

/// The file of these bytes and this footer, with its length and the last magic.
fn joined(alloc: Global, front: &[u8], footer: &[u8]) -> R<Vec<u8>> {
    let Ok(length) = u32::try_from(footer.len()) else {
        return Err(Refusal::Script);
    };
    let mut file = Vec::from_slice(alloc, front)?;
    file.extend_from_slice(footer)?;
    file.extend_from_slice(&length.to_le_bytes())?;
    file.extend_from_slice(b"PAR1")?;
    Ok(file)
}

/// The file of the words: whole, or the bytes before its footer, `+`, and the footer.
fn file_of(alloc: Global, words: &[&str]) -> R<Vec<u8>> {
    let first = bytes(alloc, words, 0)?;
    if words.get(1).is_none_or(|word| *word != "+") {
        return Ok(first);
    }
    let footer = bytes(alloc, words, 2)?;
    joined(alloc, first.as_slice(), footer.as_slice())
}

/// All rows of a file, read at once.
fn read_at_once(alloc: Global, file: &[u8]) -> R<String> {
    let (schema, rows) = read_file(alloc, file)?;
    shown_rows(alloc, &schema, rows.as_slice())
}

/// The first rows of a file, one by one, and those that are left at once.
fn split_rows(alloc: Global, reader: &FileReader<'_>, first: usize) -> R<(Vec<Row>, Vec<Row>)> {
    let mut rows = reader.rows(alloc);
    let mut taken = Vec::new(alloc);
    for _ in 0..first {
        match rows.next()? {
            Some(row) => taken.push(row)?,
            None => break,
        }
    }
    let left = rows.collected()?;
    Ok((taken, left))
}

/// All rows of a file, one by one, after they were all read once by the same reader.
fn read_again(alloc: Global, file: &[u8]) -> R<String> {
    let reader = FileReader::new(alloc, file)?;
    let (_, before) = split_rows(alloc, &reader, 0)?;
    let (rows, left) = split_rows(alloc, &reader, usize::MAX)?;
    if !left.is_empty() || before.len() != rows.len() {
        return Err(Refusal::Script);
    }
    shown_rows(alloc, reader.schema(), rows.as_slice())
}

/// `decode FILE`: the rows, read at once, and one by one.
fn decoded(alloc: Global, words: &[&str]) -> R<String> {
    let file = file_of(alloc, words_from(words, 1))?;
    both(
        alloc,
        read_at_once(alloc, file.as_slice()),
        read_again(alloc, file.as_slice()),
    )
}

/// `decode-from COUNT FILE`: the first rows, one by one, and those that are left.
fn decoded_from(alloc: Global, words: &[&str]) -> R<String> {
    let first = count(words, 1)?;
    let file = file_of(alloc, words_from(words, 2))?;
    let reader = FileReader::new(alloc, file.as_slice())?;
    let (taken, left) = split_rows(alloc, &reader, first)?;
    let taken = shown_rows(alloc, reader.schema(), taken.as_slice())?;
    let left = shown_rows(alloc, reader.schema(), left.as_slice())?;
    Ok(format!(in alloc; "{taken} then {left}")?)
}

/// `holds FILE ROW..`: how many rows the file has, where they are these.
fn held(alloc: Global, words: &[&str]) -> R<String> {
    let file = bytes(alloc, words, 1)?;
    let (schema, rows) = read_file(alloc, file.as_slice())?;
    let wanted = rows_of(alloc, &schema, words_from(words, 2))?;
    let count = rows.len();
    if are_same(rows.as_slice(), wanted.as_slice()) {
        return Ok(format!(in alloc; "{count} rows")?);
    }
    let wanted = wanted.len();
    Ok(format!(in alloc; "{count} rows, not these {wanted}")?)
}

/// `file-schema FILE`: the schema.
fn file_schema(alloc: Global, words: &[&str]) -> R<String> {
    let file = file_of(alloc, words_from(words, 1))?;
    let (schema, _) = read_file(alloc, file.as_slice())?;
    schema_to(alloc, &schema)
}

/// The numbers of rows of groups.
fn rows_of_groups(alloc: Global, groups: &[GroupMeta]) -> R<String> {
    let mut numbers = Vec::new(alloc);
    for group in groups {
        numbers.push(group.num_rows)?;
    }
    shown_numbers(alloc, numbers.as_slice())
}

/// The encodings that the record of a group names for each chunk.
fn encodings_of(alloc: Global, group: &GroupMeta) -> R<String> {
    let mut text = String::new(alloc);
    for chunk in &group.columns {
        let encodings = match &chunk.meta_data.encodings {
            Some(encodings) => shown_numbers(alloc, encodings.as_slice())?,
            None => String::from_str(alloc, " none")?,
        };
        if !text.is_empty() {
            text.push(';')?;
        }
        text.push_str(encodings.as_str())?;
    }
    Ok(text)
}

/// What a footer says: the number of rows, those of each group, and the encodings of the first group's chunks.
pub fn shown_footer(alloc: Global, footer: &FileMeta) -> R<String> {
    let rows = match footer.num_rows {
        Some(rows) => format!(in alloc; "{rows}")?,
        None => String::from_str(alloc, "no number of")?,
    };
    let groups = rows_of_groups(alloc, footer.row_groups.as_slice())?;
    let encodings = match footer.row_groups.first() {
        Some(group) => encodings_of(alloc, group)?,
        None => String::new(alloc),
    };
    Ok(format!(in alloc; "{rows} rows, groups{groups}, encodings{encodings}")?)
}

/// `footer FILE`: what the footer says.
fn footer(alloc: Global, words: &[&str]) -> R<String> {
    let file = file_of(alloc, words_from(words, 1))?;
    shown_footer(alloc, &read_footer(alloc, file.as_slice())?)
}

/// `framed BYTES + BYTES`: the file of these bytes and this footer.
fn framed(alloc: Global, words: &[&str]) -> R<String> {
    let file = file_of(alloc, words_from(words, 1))?;
    hexed(alloc, file.as_slice())
}
