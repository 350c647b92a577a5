//! Chunks and row groups, read and written.

use crate::entries::{borrowed, entries_of, shown_entries};
use crate::options::chunk_options_of;
use crate::records::{group_of, record_of, shown_struct};
use crate::schemas::{leaf_of, rows_of, shown_rows};
use bits::{R, Refusal};
use case_words::{both, bytes, count, hexed, natural, number, part, word, words_from};
use jsonrows::schema_from;
use metadata::{ColumnMeta, GroupMeta};
use row_group::{Rows, check_chunk, check_group, read_chunk, read_group, write_chunk, write_group};
use schema::{Leaf, Row, Schema};
use std::alloc::Global;

/// What a case of this subject gives; None where the operation is of another one.
pub fn outcome(alloc: Global, operation: &str, words: &[&str]) -> Option<R<String>> {
    let outcome = match operation {
        "check-chunk" => checked_chunk(alloc, words),
        "chunk" => chunk(alloc, words),
        "group" => group(alloc, words),
        "check-group" => checked_group(alloc, words),
        "cut-group" => cut_group(alloc, words),
        "group-from" => group_from(alloc, words),
        "write-chunk" => written_chunk(alloc, words),
        "write-group" => written_group(alloc, words),
        _ => return None,
    };
    Some(outcome)
}

/// How many bytes the pages of a chunk take.
fn size_of(alloc: Global, bytes: &[u8], meta: &ColumnMeta, leaf: &Leaf) -> R<String> {
    let used = check_chunk(alloc, bytes, meta, leaf)?;
    Ok(format!(in alloc; "{used} bytes")?)
}

/// How many bytes the pages of a chunk take, and the entries of the chunk.
fn column_of(alloc: Global, bytes: &[u8], meta: &ColumnMeta, leaf: &Leaf) -> R<(String, String)> {
    let (column, used) = read_chunk(alloc, bytes, meta, leaf)?;
    let size = format!(in alloc; "{used} bytes")?;
    let shown = shown_entries(alloc, column.entries.as_slice())?;
    Ok((size, shown))
}

/// `check-chunk SCHEMA CHUNK BYTES`: how many bytes the pages take of a chunk of the schema's first leaf.
fn checked_chunk(alloc: Global, words: &[&str]) -> R<String> {
    let schema = schema_from(alloc, word(words, 1)?)?;
    let leaf = leaf_of(&schema)?;
    let meta = record_of(alloc, Some(leaf), word(words, 2)?)?;
    let bytes = bytes(alloc, words, 3)?;
    size_of(alloc, bytes.as_slice(), &meta, leaf)
}

/// `chunk SCHEMA CHUNK BYTES`: how many bytes the pages take of a chunk of the schema's first leaf, and its entries; it is
/// also checked.
fn chunk(alloc: Global, words: &[&str]) -> R<String> {
    let schema = schema_from(alloc, word(words, 1)?)?;
    let leaf = leaf_of(&schema)?;
    let meta = record_of(alloc, Some(leaf), word(words, 2)?)?;
    let bytes = bytes(alloc, words, 3)?;
    let checked = size_of(alloc, bytes.as_slice(), &meta, leaf);
    match column_of(alloc, bytes.as_slice(), &meta, leaf) {
        Ok((size, entries)) => {
            let size = both(alloc, Ok(size), checked)?;
            Ok(format!(in alloc; "{size}:{entries}")?)
        }
        Err(refusal) => both(alloc, Err(refusal), checked),
    }
}

/// A group that is read: its schema, its record and the bytes before the footer.
#[derive(Drop)]
struct Given {
    schema: Schema,
    meta: GroupMeta,
    front: Vec<u8>,
}

/// `SCHEMA ROWS CHUNK.. + BYTES`, after the operation.
fn given_group(alloc: Global, words: &[&str]) -> R<Given> {
    let named = part(words, 0);
    let schema = schema_from(alloc, word(named, 0)?)?;
    let num_rows = number(word(named, 1)?)?;
    let meta = group_of(alloc, &schema, num_rows, words_from(named, 2))?;
    let front = bytes(alloc, part(words, 1), 0)?;
    Ok(Given {
        schema,
        meta,
        front,
    })
}

/// All rows of a group.
fn read_whole(alloc: Global, given: &Given) -> R<String> {
    let mut places = Vec::new(alloc);
    for place in 0..given.schema.leaves().len() {
        places.push(place)?;
    }
    let rows = read_group(
        alloc,
        given.front.as_slice(),
        &given.meta,
        &given.schema,
        places.as_slice(),
    )?;
    shown_rows(alloc, &given.schema, rows.as_slice())
}

/// The first rows of a group, one by one, and those that are left at once; after the last one comes none.
fn split_rows(alloc: Global, given: &Given, first: usize) -> R<(Vec<Row>, Vec<Row>)> {
    let front = given.front.as_slice();
    let mut rows = Rows::of_group(alloc, front, &given.meta, &given.schema)?;
    let mut taken = Vec::new(alloc);
    for _ in 0..first {
        match rows.next()? {
            Some(row) => taken.push(row)?,
            None => break,
        }
    }
    let left = rows.collected()?;
    Ok((taken, left))
}

/// All rows of a group, one by one.
fn read_one_by_one(alloc: Global, given: &Given) -> R<String> {
    let (rows, left) = split_rows(alloc, given, usize::MAX)?;
    if !left.is_empty() {
        return Err(Refusal::Script);
    }
    shown_rows(alloc, &given.schema, rows.as_slice())
}

/// Whether a group is accepted.
fn is_accepted(alloc: Global, given: &Given) -> R<String> {
    check_group(alloc, given.front.as_slice(), &given.meta, &given.schema)?;
    Ok(String::from_str(alloc, "accepted")?)
}

/// `check-group SCHEMA ROWS CHUNK.. + BYTES`: whether the group is accepted.
fn checked_group(alloc: Global, words: &[&str]) -> R<String> {
    let given = given_group(alloc, words)?;
    is_accepted(alloc, &given)
}

/// `group SCHEMA ROWS CHUNK.. + BYTES`: the rows, read at once and one by one; a group that is refused is also checked.
fn group(alloc: Global, words: &[&str]) -> R<String> {
    let given = given_group(alloc, words)?;
    let rows = both(
        alloc,
        read_whole(alloc, &given),
        read_one_by_one(alloc, &given),
    );
    match rows {
        Err(refusal) => both(alloc, Err(refusal), is_accepted(alloc, &given)),
        Ok(text) => {
            is_accepted(alloc, &given)?;
            Ok(text)
        }
    }
}

/// `group-from COUNT SCHEMA ROWS CHUNK.. + BYTES`: the first rows, one by one, and those that are left.
fn group_from(alloc: Global, words: &[&str]) -> R<String> {
    let first = count(words, 1)?;
    let given = given_group(alloc, words_from(words, 1))?;
    let (taken, left) = split_rows(alloc, &given, first)?;
    let taken = shown_rows(alloc, &given.schema, taken.as_slice())?;
    let left = shown_rows(alloc, &given.schema, left.as_slice())?;
    Ok(format!(in alloc; "{taken} then {left}")?)
}

/// `cut-group SCHEMA ROWS CHUNK.. + BYTES + PLACE..`: the rows cut to the leaves at these places.
fn cut_group(alloc: Global, words: &[&str]) -> R<String> {
    let given = given_group(alloc, words)?;
    let mut places = Vec::new(alloc);
    for word in part(words, 2) {
        places.push(natural(word)? as usize)?;
    }
    let rows = read_group(
        alloc,
        given.front.as_slice(),
        &given.meta,
        &given.schema,
        places.as_slice(),
    )?;
    let cut = given.schema.cut(alloc, places.as_slice())?;
    shown_rows(alloc, &cut, rows.as_slice())
}

/// What was written after the bytes that were there, and the record; a refused call leaves these bytes alone.
fn appended(alloc: Global, front: &[u8], out: &[u8], shown: R<String>) -> R<String> {
    let Some(rest) = out.strip_prefix(front) else {
        return Ok(String::from_str(alloc, "not what was there")?);
    };
    match shown {
        Ok(shown) => {
            let bytes = hexed(alloc, rest)?;
            Ok(format!(in alloc; "{bytes} record {shown}")?)
        }
        Err(refusal) if rest.is_empty() => Err(refusal),
        Err(refusal) => Ok(format!(in alloc; "{refusal}, but something was written")?),
    }
}

/// The bytes of the record of a chunk.
fn shown_record(alloc: Global, meta: R<ColumnMeta>) -> R<String> {
    shown_struct(alloc, &meta?.to_tree(alloc)?)
}

/// The bytes of the record of a group.
fn shown_group(alloc: Global, meta: R<GroupMeta>) -> R<String> {
    shown_struct(alloc, &meta?.to_tree(alloc)?)
}

/// `write-chunk SCHEMA OPTIONS BYTES ENTRY..`: the bytes of a chunk of the schema's first leaf, written after these, and its
/// record.
fn written_chunk(alloc: Global, words: &[&str]) -> R<String> {
    let schema = schema_from(alloc, word(words, 1)?)?;
    let leaf = leaf_of(&schema)?;
    let options = chunk_options_of(word(words, 2)?)?;
    let front = bytes(alloc, words, 3)?;
    let entries = entries_of(alloc, words_from(words, 4))?;
    let refs = borrowed(alloc, entries.as_slice())?;
    let mut out = Vec::from_slice(alloc, front.as_slice())?;
    let meta = write_chunk(alloc, leaf, options, refs.as_slice(), &mut out);
    let shown = shown_record(alloc, meta);
    appended(alloc, front.as_slice(), out.as_slice(), shown)
}

/// `write-group SCHEMA OPTIONS BYTES ROW..`: the bytes of a group, written after these, and its record.
fn written_group(alloc: Global, words: &[&str]) -> R<String> {
    let schema = schema_from(alloc, word(words, 1)?)?;
    let options = chunk_options_of(word(words, 2)?)?;
    let front = bytes(alloc, words, 3)?;
    let rows = rows_of(alloc, &schema, words_from(words, 4))?;
    let mut out = Vec::from_slice(alloc, front.as_slice())?;
    let meta = write_group(alloc, &schema, options, rows.as_slice(), &mut out);
    let shown = shown_group(alloc, meta);
    appended(alloc, front.as_slice(), out.as_slice(), shown)
}
